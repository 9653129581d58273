// Texts with numbers behind them.
ghost use Rattle.std.specs.Prelude.{◌++◌, [], ◌∷◌};
ghost use Rattle.std.specs.Fmt.{decimal};
ghost use Rattle.sms_text.specs.Writing.{Writes};
ghost use Rattle.spasm_run.specs.Summary.{numbered_line};

use sms_text::{Sink, WriteFault, write_number, write_text};

// Writes a line of two numbers, each behind a text.
pub(crate) fn write_two_numbers<K: Sink>(
    out: &mut K,
    first: &str,
    a: u64,
    second: &str,
    b: u64,
) -> Result<(), WriteFault>
    ensures { Writes result (((first.now ++ decimal a) ++ (second.now ++ decimal b)) ++ 10 ∷ [])
        (K.state out.old) (K.state out.new) }
{
    write_with_number(out, first, a)?;
    write_with_number(out, second, b)?;
    write_text(out, "\n")
}

// Writes a line of a text and a number.
pub(crate) fn write_line<K: Sink>(out: &mut K, text: &str, n: u64) -> Result<(), WriteFault>
    ensures { Writes result (numbered_line text.now n) (K.state out.old) (K.state out.new) }
{
    write_with_number(out, text, n)?;
    write_text(out, "\n")
}

/// Writes a text, and a number behind it.
pub fn write_with_number<K: Sink>(out: &mut K, text: &str, n: u64) -> Result<(), WriteFault>
    ensures { Writes result (text.now ++ decimal n) (K.state out.old) (K.state out.new) }
{
    write_text(out, text)?;
    write_number(out, n)
}
