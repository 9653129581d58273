// Entry lines that are plain: two indices that lie inside, each with one gap behind it, and a number that may have a minus, up to the line's end.
ghost use Rattle.std.specs.Option.{MatchOption};
ghost use Rattle.std.specs.Prelude.{◌≡◌, ◌≢◌, ◌≤◌, ◌<◌, ◌+◌, ◌-◌, ◌%◌, if◌then◌else◌, length, IfSome};
ghost use Rattle.sms_text.specs.declared.reader.plain.TheConstants.{SHORT};
ghost use Rattle.sms_text.specs.PlainLines.{AreDigitsAt, AreEntryLines, IsBehindEnd, IsBehindFeed, IsDigitRun, IsIndexAt, IsPlainLine, IsValueAt};

use crate::line_words::is_gap;
use crate::numbers::is_digit;
use crate::reader::{Entry, Head, MOST_PLAIN};
use residue_words::Modulus;

// How many digits are read without a test for the end of the bytes: as many as the largest row has.
const SHORT: usize = 10;

// A number from this one on isn't plain where more digits follow.
const LARGE: u64 = 100_000_000_000_000_000;

// The number that digits spell, and where they end.
#[derive(Clone, Copy)]
struct DigitRun {
    number: u64,
    end: usize,
}

// A row or a column, from 0, and where the next word begins.
#[derive(Clone, Copy)]
struct IndexAt {
    index: u32,
    next: usize,
}

// A value's residue, and where the next line begins.
#[derive(Clone, Copy)]
struct ValueAt {
    residue: u64,
    next: usize,
}

// What a plain line says, and where the next line begins.
#[derive(Clone, Copy)]
struct PlainLine {
    entry: Entry,
    next: usize,
}

/// Takes the plain lines that stand complete at the front of these bytes, at most `MOST_PLAIN`, and gives how many bytes they take. The list
/// becomes that of their entries.
pub fn plain_entries(bytes: &[u8], head: &Head, p: &Modulus, entries: &mut Vec<Entry>) -> usize
    ensures { AreEntryLines p.now head.now bytes.now result entries.new.items }
{
    entries.clear();
    let mut at = 0;
    while entries.len() < MOST_PLAIN {
        let Some(line) = plain_line(bytes, at, head, p) else {
            return at;
        };
        if entries.push(line.entry).is_err() {
            return at;
        }
        at = line.next;
    }
    at
}

// The plain line that begins at this place, if it is one.
#[inline(always)]
fn plain_line(bytes: &[u8], at: usize, head: &Head, p: &Modulus) -> Option<PlainLine>
    requires { at ≤ length bytes.now }
    ensures { IfSome result (IsPlainLine p.now head.now bytes.now at) }
{
    let row = index_at(bytes, at, head.m)?;
    let column = index_at(bytes, row.next, head.n)?;
    let value = value_at(bytes, column.next, p)?;
    Some(PlainLine {
        entry: Entry {
            i: row.index,
            j: column.index,
            v: value.residue,
        },
        next: value.next,
    })
}

// The index below this size that stands at this place, with a gap behind it.
#[inline(always)]
fn index_at(bytes: &[u8], at: usize, size: u32) -> Option<IndexAt>
    requires { at ≤ length bytes.now }
    ensures { IfSome result (IsIndexAt size bytes.now at) }
{
    let run = digit_run(bytes, at)?;
    if run.end == bytes.len() || !is_gap(bytes[run.end]) {
        return None;
    }
    if run.number == 0 || run.number > u64::from(size) {
        return None;
    }
    Some(IndexAt {
        index: (run.number - 1) as u32,
        next: run.end + 1,
    })
}

// The value that stands at this place, with the end of a line behind it.
#[inline(always)]
fn value_at(bytes: &[u8], at: usize, p: &Modulus) -> Option<ValueAt>
    requires { at ≤ length bytes.now }
    ensures { IfSome result (IsValueAt p.now bytes.now at) }
{
    if at == bytes.len() {
        return None;
    }
    let negative = bytes[at] == b'-';
    let run = digit_run(bytes, at + usize::from(negative))?;
    let next = behind_end(bytes, run.end)?;
    Some(ValueAt {
        residue: with_sign(negative, residue_of(run.number, p), p),
        next,
    })
}

// The place behind a byte 10, or behind a byte 13 and a byte 10, if one stands at this place.
#[inline(always)]
fn behind_end(bytes: &[u8], at: usize) -> Option<usize>
    ensures { IfSome result (IsBehindEnd bytes.now at) }
{
    if at < bytes.len() && bytes[at] == b'\n' {
        return Some(at + 1);
    }
    if at < bytes.len() && bytes[at] == b'\r' {
        return behind_feed(bytes, at + 1);
    }
    None
}

// The place behind a byte 10, if it stands at this place.
fn behind_feed(bytes: &[u8], at: usize) -> Option<usize>
    ensures { IfSome result (IsBehindFeed bytes.now at) }
{
    if at < bytes.len() && bytes[at] == b'\n' {
        Some(at + 1)
    } else {
        None
    }
}

// The residue, or that of its negative.
#[inline(always)]
fn with_sign(negative: bool, residue: u64, p: &Modulus) -> u64
    requires { residue < p.now }
    ensures value { result ≡ (if negative then (p.now - residue) % p.now else residue) }
    ensures residue { result < p.now }
{
    if negative { p.neg(residue) } else { residue }
}

// The residue of a number, which most often is one already.
#[inline(always)]
fn residue_of(number: u64, p: &Modulus) -> u64
    ensures value { result ≡ number % p.now }
    ensures residue { result < p.now }
{
    if number < p.p() {
        number
    } else {
        p.residue(number)
    }
}

// The digits that begin at this place, if there are some. Up to `SHORT` are read without a test for the end of the bytes, so where these end
// sooner the answer is `None`, too.
#[inline(always)]
fn digit_run(bytes: &[u8], at: usize) -> Option<DigitRun>
    requires { at ≤ length bytes.now }
    ensures { IfSome result (IsDigitRun bytes.now at) }
{
    if bytes.len() - at <= SHORT {
        return None;
    }
    let mut number = 0u64;
    for k in 0..SHORT {
        let b = bytes[at + k];
        if !is_digit(b) {
            return ended_run(at, at + k, number);
        }
        number = 10 * number + u64::from(b - b'0');
    }
    longer_run(bytes, at, number)
}

// The same where the first `SHORT` bytes are digits and make this number.
fn longer_run(bytes: &[u8], at: usize, number: u64) -> Option<DigitRun>
    requires inside { at + SHORT ≤ length bytes.now }
    requires digits { AreDigitsAt bytes.now at (at + SHORT) number }
    ensures { IfSome result (IsDigitRun bytes.now at) }
{
    let mut number = number;
    let mut end = at + SHORT;
    while end < bytes.len() && is_digit(bytes[end]) {
        if number >= LARGE {
            return None;
        }
        number = 10 * number + u64::from(bytes[end] - b'0');
        end += 1;
    }
    Some(DigitRun { number, end })
}

// The run, if it isn't empty.
#[inline(always)]
fn ended_run(at: usize, end: usize, number: u64) -> Option<DigitRun>
    ensures { MatchOption result (end ≡ at)
        (λ run. (at ≢ end) × (run ≡ record { number = number; end = end })) }
{
    if end == at {
        None
    } else {
        Some(DigitRun { number, end })
    }
}
