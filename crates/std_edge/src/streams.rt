// The standard streams of a program, and how it ends.
ghost use Rattle.std.specs.Prelude.{◌≡◌};
ghost use Rattle.std_edge.specs.Edge.{EndsWithout};

use crate::to_write::ToWrite;
use crate::words::NoWords;
use std::io::Write;

/// The standard streams of a program.
#[derive(Drop)]
pub struct Streams<I, O, E> {
    /// What it reads.
    pub input: I,
    /// Where its answer goes.
    pub output: O,
    /// Where a line goes that says why there is no answer.
    pub errors: E,
}

/// How a program ended: its exit status, and its streams as they are then.
#[derive(Drop)]
pub struct Ended<I, O, E> {
    /// The exit status.
    pub code: u8,
    /// The streams.
    pub streams: Streams<I, O, E>,
}

/// Ends a program that has no words to run on: one line to the error stream says why, and the other streams are left alone.
pub fn end_without<I, O, E: Write>(reason: NoWords, streams: Streams<I, O, E>) -> Ended<I, O, E>
    ensures input { result.streams.input ≡ streams.input }
    ensures output { result.streams.output ≡ streams.output }
    ensures ends { EndsWithout reason
        (E.contents streams.errors) (E.contents result.streams.errors) result.code }
{
    let mut err = ToWrite::new(streams.errors);
    let _ = reason.tell(&mut err);
    Ended {
        code: reason.code(),
        streams: Streams {
            input: streams.input,
            output: streams.output,
            errors: err.into_writer(),
        },
    }
}
