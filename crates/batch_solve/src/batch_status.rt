// How a batch ends.
ghost use Rattle.std.specs.Prelude.{◌≡◌, true};
ghost use Rattle.sms_text.specs.Writing.{Writes};
ghost use Rattle.batch_solve.specs.BatchStatus.{shape_line};

use sms_text::{Kind, Sink, TextError, WriteFault, write_text};
use spasm_run::{Status, write_with_number};
use std::alloc::AllocError;
use std::fmt::{self, Display, Formatter};

/// How a batch ended. Each has a code, which is the program's exit status.
#[derive(Clone, Copy, Debug, PartialEq, Eq)]
pub enum BatchStatus {
    /// The answers were written.
    Done,
    /// The words aren't accepted.
    Usage,
    /// The line with this number is the first with a fault.
    BadText {
        /// The line's number, from 1.
        line: u64,
        /// What is wrong with it.
        kind: Kind,
    },
    /// A right-hand side isn't a column as high as the matrix; those before it are.
    Shape {
        /// Its number among the right-hand sides, from 1.
        question: u32,
        /// Its height.
        height: u32,
        /// Its width.
        width: u32,
    },
    /// The source failed before all that is wanted was read.
    ReadFault,
    /// The output failed.
    WriteFault,
    /// Memory was wanted.
    Memory,
    /// The matrix is too large: its height and its width are together above 2^31.
    Wide {
        /// Its height.
        height: u32,
        /// Its width.
        width: u32,
    },
}

impl BatchStatus {
    ghost use Rattle.batch_solve.specs.BatchStatus.{BatchSaysWhy, batch_code, is_batch_done, run_status};

    /// The program's exit status.
    pub fn code(&self) -> u8
        ensures { result ≡ batch_code self.now }
    {
        self.run_status().code()
    }

    // The status of a run that ends so, which doesn't tell the number of a right-hand side.
    fn run_status(self) -> Status
        ensures { result ≡ run_status self }
    {
        match self {
            BatchStatus::Done => Status::Done,
            BatchStatus::Usage => Status::Usage,
            BatchStatus::BadText { line, kind } => Status::BadText { line, kind },
            BatchStatus::Shape { height, width, .. } => Status::Shape { height, width },
            BatchStatus::ReadFault => Status::ReadFault,
            BatchStatus::WriteFault => Status::WriteFault,
            BatchStatus::Memory => Status::Memory,
            BatchStatus::Wide { height, width } => Status::Wide { height, width },
        }
    }

    // Writes the fault line to the error stream, if the status has one. Where the stream fails, nothing more is done.
    pub(crate) fn tell<E: Sink>(self, err: &mut E)
        ensures did { BatchSaysWhy self (E.state err.old) (E.state err.new) }
        ensures silent { is_batch_done self ≡ true → err.new ≡ err.old }
    {
        match self {
            BatchStatus::Shape {
                question,
                height,
                width,
            } => {
                let (height, width) = (u64::from(height), u64::from(width));
                let _ = write_shape_line(err, height, width, u64::from(question));
            }
            _ => self.run_status().tell(err),
        }
    }
}

// Writes the line that names a right-hand side of a wrong shape.
fn write_shape_line<K: Sink>(
    out: &mut K,
    height: u64,
    width: u64,
    question: u64,
) -> Result<(), WriteFault>
    ensures { Writes result (shape_line height width question) (K.state out.old) (K.state out.new) }
{
    write_with_number(out, "error 4 shape ", height)?;
    write_with_number(out, " ", width)?;
    write_with_number(out, " question ", question)?;
    write_text(out, "\n")
}

impl Display for BatchStatus {
    fn fmt<W: fmt::Write>(&self, f: &mut Formatter<W>) -> fmt::Result {
        match self {
            BatchStatus::Done => f.write_str("the answers were written"),
            BatchStatus::Shape {
                question,
                height,
                width,
            } => {
                write!(
                    f,
                    "right-hand side {question} is {height} x {width}, and no column as high as the matrix"
                )
            }
            BatchStatus::Wide { height, width } => {
                write!(f, "a matrix of {height} x {width} is too large for a batch")
            }
            _ => self.run_status().fmt(f),
        }
    }
}

impl From<TextError> for BatchStatus {
    ghost use Rattle.batch_solve.specs.BatchStatus.{batch_status_of};

    ghost from_gives = { λ error status. status ≡ batch_status_of error };

    // How a batch ends whose texts weren't read.
    fn from(error: TextError) -> BatchStatus {
        match error {
            TextError::Bad { line, kind } => BatchStatus::BadText { line, kind },
            TextError::Read => BatchStatus::ReadFault,
            TextError::Memory => BatchStatus::Memory,
        }
    }
}

impl From<AllocError> for BatchStatus {
    ghost use Rattle.batch_solve.specs.declared.batch_status.BatchStatus.TheVariants.{Memory};

    ghost from_gives = { λ _ status. status ≡ Memory };

    fn from(_error: AllocError) -> BatchStatus {
        BatchStatus::Memory
    }
}
