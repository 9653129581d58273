// The words of a line.
ghost use Rattle.std.specs.Prelude.{◌≡◌, ◌≤◌, ◌+◌, length, map, IfOk};
ghost use Rattle.std.specs.List.{prefix_len, position_or_len};
ghost use Rattle.sms_text.specs.Lines.{content, is_gap, words, is_void};
ghost use Rattle.sms_text.specs.Spelling.{SplitWord, ThreeWords};

use std::alloc::{AllocError, Global};

/// The three words of a line.
#[derive(Clone, Copy)]
pub struct Three<'a> {
    pub first: &'a [u8],
    pub second: &'a [u8],
    pub third: &'a [u8],
}

/// The bytes without one byte 13 at their end.
pub fn content(line: &[u8]) -> &[u8]
    ensures { result.now ≡ content line.now }
{
    if line.is_empty() {
        return line;
    }
    let last = line.len() - 1;
    if line[last] != b'\r' {
        return line;
    }
    let (front, _) = line.split_at(last);
    front
}

pub fn is_gap(b: u8) -> bool
    ensures { result ≡ is_gap b }
{
    b == b' ' || b == b'\t'
}

// The place of the first byte that is no gap.
fn word_start(line: &[u8]) -> usize
    ensures { result ≡ prefix_len is_gap line.now }
{
    let mut at = 0;
    while at < line.len() && is_gap(line[at]) {
        at += 1;
    }
    at
}

// The place of the first gap.
fn word_end(line: &[u8]) -> usize
    ensures { result ≡ position_or_len is_gap line.now }
{
    let mut at = 0;
    while at < line.len() && !is_gap(line[at]) {
        at += 1;
    }
    at
}

// The first word, empty if there is none, and what stands behind it.
fn split_word(line: &[u8]) -> (&[u8], &[u8])
    ensures split { SplitWord line.now result.0.now result.1.now }
    ensures shorter { length result.0.now + length result.1.now ≤ length line.now }
{
    let (_, tail) = line.split_at(word_start(line));
    tail.split_at(word_end(tail))
}

/// Whether the line has no words, or its first word begins with `%` or `#`.
pub fn is_void(line: &[u8]) -> bool
    ensures { result ≡ is_void (words line.now) }
{
    let start = word_start(line);
    if start == line.len() {
        return true;
    }
    let first = line[start];
    first == b'%' || first == b'#'
}

/// The words of a line that has three.
pub fn three_words(line: &[u8]) -> Option<Three<'_>>
    ensures { ThreeWords (words line.now) result }
{
    let (first, rest) = split_word(line);
    let (second, rest) = split_word(rest);
    let (third, rest) = split_word(rest);
    if third.is_empty() {
        return None;
    }
    if word_start(rest) < rest.len() {
        return None;
    }
    Some(Three {
        first,
        second,
        third,
    })
}

/// The words of a line, each a copy.
pub fn list_words(alloc: Global, line: &[u8]) -> Result<Vec<Vec<u8>>, AllocError>
    ensures { IfOk result (λ v. map (λ w. w.items) v.items ≡ words line.now) }
{
    let mut list = Vec::new(alloc);
    let mut rest = line;
    loop {
        let (word, behind) = split_word(rest);
        if word.is_empty() {
            return Ok(list);
        }
        list.push(Vec::from_slice(alloc, word)?)?;
        rest = behind;
    }
}
