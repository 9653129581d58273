// Matrices read from texts and written.
ghost use Rattle.std.specs.Prelude.{◌≤◌, IfOk};

use crate::timing::{now, say, since, told};
use residue_words::Modulus;
use sms_text::{Reader, read_rows, write_rows};
use sparse_rows::Rows;
use std::alloc::Global;
use std::io::{self, ErrorKind, Read, Write};
use std::time::Clock;
use std_edge::{FromRead, ToWrite};

// The modulus of the matrices, where the words tell none.
pub(crate) const PRIME: u64 = 42013;

// The largest input, in bytes.
const LIMIT: u64 = 1099511627776;

// The matrix that the input says.
pub(crate) fn matrix<I: Read + Drop>(alloc: Global, input: I, p: &Modulus) -> io::Result<Rows>
    ensures height { IfOk result (λ rows. rows.matrix.height ≤ 2147483647) }
    ensures width { IfOk result (λ rows. rows.matrix.width ≤ 2147483647) }
{
    let mut source = FromRead::new(input);
    let mut reader = Reader::new(alloc, LIMIT)?;
    let Ok(rows) = read_rows(&mut reader, alloc, &mut source, p) else {
        return Err(ErrorKind::InvalidData.into());
    };
    Ok(rows)
}

// Says how long reading takes.
pub(crate) fn time_reading<R: Clock + Print, I: Read + Drop>(
    rt: &R,
    alloc: Global,
    input: I,
    p: &Modulus,
) -> io::Result<()> {
    let start = now(rt);
    matrix(alloc, input, p)?;
    let time = since(rt, start);
    say(rt, time, &[])
}

// Writes the matrix that was read, and says on standard error how long that takes.
pub(crate) fn time_writing<R: Clock + Eprint, I: Read + Drop, O: Write + Drop>(
    rt: &R,
    alloc: Global,
    input: I,
    output: O,
    p: &Modulus,
) -> io::Result<()> {
    let rows = matrix(alloc, input, p)?;
    time_write(rt, output, &rows)
}

// The same for a matrix that was read.
fn time_write<R: Clock + Eprint, O: Write + Drop>(rt: &R, output: O, rows: &Rows) -> io::Result<()>
    requires height { rows.now.matrix.height ≤ 2147483647 }
    requires width { rows.now.matrix.width ≤ 2147483647 }
{
    let mut out = ToWrite::new(output);
    let start = now(rt);
    if write_rows(&mut out, rows).is_err() {
        return Err(ErrorKind::WriteZero.into());
    }
    let time = since(rt, start);
    eprintln!(rt; "{}", told(time)?)
}
