// What is answered to a command.
ghost use Rattle.std.specs.Prelude.{◌≡◌};
ghost use Rattle.sms_text.specs.Writing.{Writes};

use crate::numbered_text::write_line;
use crate::status::Status;
use crate::summary::Summary;
use crate::written_pivots::write_pivots;
use certificates::Certificate;
use grow_form::write_answers;
use pivot_table::Pair;
use run_trace::Trace;
use sms_text::{Sink, WriteFault, write_rows, write_text, write_titled};
use sparse_rows::Rows;

// What is answered to a command.
#[derive(Drop)]
pub(crate) enum CommandAnswer {
    // The rank of a matrix.
    Rank(u64),
    // The echelon form or a kernel basis of a matrix.
    Matrix(Rows),
    // The reduced solution of a system, as a column.
    Solution(Rows),
    // The refuting combination of a system without a solution, as a row.
    Refutation(Rows),
    // The inverse of a matrix.
    Inverse(Rows),
    // A null vector of a matrix without an inverse, as a row.
    Singular(Rows),
    // Structural pivots of a matrix, in triangular order.
    Pivots(Vec<Pair>),
    // What is told of the echelon form of a matrix that was generated.
    Summary(Summary),
    // A certificate of a matrix.
    Certificate(Certificate),
    // What a search published.
    Trace(Trace),
    // Whether a certificate is valid, or a trace lawful.
    Verdict(bool),
    // The answers to a script.
    Script(Vec<grow_form::Answer>),
}

impl CommandAnswer {
    ghost use Rattle.spasm_run.specs.Computed.{IsSmall, answer_text, status_behind};

    // Writes the answer. It takes no memory.
    pub(crate) fn write<K: Sink>(&self, out: &mut K) -> Result<(), WriteFault>
        requires { IsSmall self.now }
        ensures { Writes result (answer_text self.now) (K.state out.old) (K.state out.new) }
    {
        match self {
            CommandAnswer::Rank(rank) => write_line(out, "rank ", *rank),
            CommandAnswer::Matrix(rows) => write_rows(out, rows),
            CommandAnswer::Solution(x) => write_titled(out, "solution\n", x),
            CommandAnswer::Refutation(y) => write_titled(out, "no solution\n", y),
            CommandAnswer::Inverse(b) => write_titled(out, "inverse\n", b),
            CommandAnswer::Singular(v) => write_titled(out, "singular\n", v),
            CommandAnswer::Pivots(pairs) => write_pivots(out, pairs),
            CommandAnswer::Summary(summary) => summary.write(out),
            CommandAnswer::Certificate(certificate) => certificates::write(out, certificate),
            CommandAnswer::Trace(trace) => run_trace::write(out, trace),
            CommandAnswer::Verdict(true) => write_text(out, "yes\n"),
            CommandAnswer::Verdict(false) => write_text(out, "no\n"),
            CommandAnswer::Script(answers) => write_answers(out, answers),
        }
    }

    // The status of a run that wrote the answer.
    pub(crate) fn status(&self) -> Status
        ensures { result ≡ status_behind self.now }
    {
        match self {
            CommandAnswer::Verdict(false) => Status::No,
            _ => Status::Done,
        }
    }
}
