// How a run ends.
ghost use Rattle.std.specs.Prelude.{◌≡◌, true};
ghost use Rattle.sms_text.specs.Writing.{Writes};

use crate::numbered_text::write_two_numbers;
use sms_text::{Kind, Sink, TextError, WriteFault, write_text};
use std::alloc::AllocError;
use std::fmt::{self, Display, Formatter};

/// How a run ended. Each has a code, which is the program's exit status.
#[derive(Clone, Copy, Debug, PartialEq, Eq)]
pub enum Status {
    /// The answer was written.
    Done,
    /// The answer was written, and it is that a certificate isn't valid or a trace isn't lawful.
    No,
    /// The words aren't accepted.
    Usage,
    /// The line with this number is the first with a fault.
    BadText {
        /// The line's number, from 1.
        line: u64,
        /// What is wrong with it.
        kind: Kind,
    },
    /// A matrix isn't of the shape that the command wants.
    Shape {
        /// Its height.
        height: u32,
        /// Its width.
        width: u32,
    },
    /// The source failed before all that is wanted was read.
    ReadFault,
    /// The output failed.
    WriteFault,
    /// Memory was wanted.
    Memory,
    /// A matrix is too large for the command.
    Wide {
        /// Its height.
        height: u32,
        /// Its width.
        width: u32,
    },
}

impl Status {
    ghost use Rattle.spasm_run.specs.Status.{SaysWhy, code_of, fault_line, is_answered};

    /// The program's exit status.
    pub fn code(&self) -> u8
        ensures { result ≡ code_of self.now }
    {
        match self {
            Status::Done => 0,
            Status::No => 1,
            Status::Usage => 2,
            Status::BadText { .. } => 3,
            Status::Shape { .. } => 4,
            Status::ReadFault => 6,
            Status::WriteFault => 7,
            Status::Memory => 8,
            Status::Wide { .. } => 9,
        }
    }

    /// Writes the fault line to the error stream, if the status has one. Where the stream fails, nothing more is done.
    pub fn tell<E: Sink>(self, err: &mut E)
        ensures did { SaysWhy self (E.state err.old) (E.state err.new) }
        ensures silent { is_answered self ≡ true → err.new ≡ err.old }
    {
        match self {
            Status::Done | Status::No => {}
            _ => {
                let _ = self.write_line(err);
            }
        }
    }

    // Writes the fault line; nothing, where the status has none.
    fn write_line<E: Sink>(self, err: &mut E) -> Result<(), WriteFault>
        ensures { Writes result (fault_line self) (E.state err.old) (E.state err.new) }
    {
        match self {
            Status::Done => write_text(err, ""),
            Status::No => write_text(err, ""),
            Status::Usage => write_text(err, "error 2 usage\n"),
            Status::BadText { line, kind } => {
                write_two_numbers(err, "error 3 line ", line, " kind ", kind.number())
            }
            Status::Shape { height, width } => write_two_numbers(
                err,
                "error 4 shape ",
                u64::from(height),
                " ",
                u64::from(width),
            ),
            Status::ReadFault => write_text(err, "error 6 read\n"),
            Status::WriteFault => write_text(err, "error 7 write\n"),
            Status::Memory => write_text(err, "error 8 memory\n"),
            Status::Wide { height, width } => write_two_numbers(
                err,
                "error 9 wide ",
                u64::from(height),
                " ",
                u64::from(width),
            ),
        }
    }
}

impl Display for Status {
    fn fmt<W: fmt::Write>(&self, f: &mut Formatter<W>) -> fmt::Result {
        match self {
            Status::Done => f.write_str("the answer was written"),
            Status::No => f.write_str("what was to be checked isn't valid"),
            Status::Usage => f.write_str("the words aren't accepted"),
            Status::BadText { line, kind } => write!(f, "line {line} has a fault: {kind}"),
            Status::Shape { height, width } => {
                write!(
                    f,
                    "a matrix of {height} x {width} isn't of the shape that is wanted"
                )
            }
            Status::ReadFault => f.write_str("the source failed"),
            Status::WriteFault => f.write_str("the output failed"),
            Status::Memory => f.write_str("memory was wanted"),
            Status::Wide { height, width } => {
                write!(
                    f,
                    "a matrix of {height} x {width} is too large for the command"
                )
            }
        }
    }
}

impl From<TextError> for Status {
    ghost use Rattle.spasm_run.specs.Status.{status_of};

    ghost from_gives = { λ error status. status ≡ status_of error };

    // How a run ends whose text wasn't read.
    fn from(error: TextError) -> Status {
        match error {
            TextError::Bad { line, kind } => Status::BadText { line, kind },
            TextError::Read => Status::ReadFault,
            TextError::Memory => Status::Memory,
        }
    }
}

impl From<AllocError> for Status {
    ghost use Rattle.spasm_run.specs.declared.status.Status.TheVariants.{Memory};

    ghost from_gives = { λ _ status. status ≡ Memory };

    fn from(_error: AllocError) -> Status {
        Status::Memory
    }
}
