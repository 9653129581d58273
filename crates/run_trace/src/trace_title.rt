// A trace's first line.
ghost use Rattle.std.specs.Prelude.{◌≡◌, false, MatchOption};
ghost use Rattle.sms_text.specs.OuterLines.{is_trace};
ghost use Rattle.run_trace.specs.TraceParts.{IsTraceTitle};

use residue_words::MODULUS_BOUND;
use sms_text::{LARGEST_TEXT_SIZE, Line};

// What a trace's first line says: its modulus, and how many publications stand behind it.
#[derive(Clone, Copy)]
pub(crate) struct TraceTitle {
    pub p: u64,
    pub count: u32,
}

impl TraceTitle {
    // What the words of a line say, if they are of a first line's form.
    pub(crate) fn of(line: &Line) -> Option<TraceTitle>
        ensures { MatchOption result (is_trace line.now.words ≡ false) (IsTraceTitle line.now.words) }
    {
        if line.count() != 3 || line.word(0) != b"trace".as_slice() {
            return None;
        }
        let p = line.number_up_to(1, MODULUS_BOUND - 1)?;
        let count = line.number_up_to(2, u64::from(LARGEST_TEXT_SIZE))?;
        Some(TraceTitle {
            p,
            count: count as u32,
        })
    }
}
