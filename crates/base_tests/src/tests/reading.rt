// Texts from outside, with the faults that their format gives them.
ghost use Rattle.std.specs.Prelude.{◌≡◌, None};

use super::pieces::Pieces;
use residue_words::Modulus;
use sms_text::{Entry, Head, Kind, Line, Reader, TextError};
use std::alloc::Global;

// Each row: a text, the limit, and the line and kind of its first fault; line 0 for none.
const TEXTS: &[(&[u8], u32, u64, Kind)] = &[
    (b"", 99, 1, Kind::NoHeader),
    (b"% only", 99, 2, Kind::NoHeader),
    (b"1 1", 99, 1, Kind::Words),
    (b"1 1 MM\n", 99, 1, Kind::Words),
    (b"+1 1 M\n", 99, 1, Kind::Number),
    (b"2147483648 1 M\n", 99, 1, Kind::Size),
    (b"2 2 M\n3 1 1\n", 99, 2, Kind::Row),
    (b"2 2 M\n1 3 1\n", 99, 2, Kind::Column),
    (b"2 2 M\n99999999999999999999 1 1\n", 99, 2, Kind::Row),
    (b"1 1 M\n0 0 7\n0 0 0\n", 99, 2, Kind::Row),
    (b"1 1 M\r\n\t0 0  -00", 99, 0, Kind::Row),
    (b"1 1 M\n1 1 3/7\n", 99, 2, Kind::Divisor),
    (b"1 1 M\n0 0 0/1\n", 99, 2, Kind::Row),
    (b"1 1 M\n1 1 1/\n", 99, 2, Kind::Number),
    (b"1 1 M\n1 1 1\n0 0 0\n", 10, 2, Kind::Long),
    (b"1 1 M\n1 1 1\n0 0 0\n", 17, 3, Kind::Long),
    (b"1 1 M\n1 1 1\n0 0 0\n", 18, 0, Kind::Long),
    (b"1 1 M\n# a\n\n1 1 1\n", 99, 5, Kind::NoEnd),
];

// The error at which the reading of a text with few entries ends.
fn first_error(reader: &mut Reader, source: &mut Pieces<'_>, p: &Modulus) -> Option<TextError>
    requires { reader.old.open_text ≡ None }
{
    let head = match reader.header(source) {
        Ok(head) => head,
        Err(error) => return Some(error),
    };
    for _ in 0..8 {
        match reader.entry(source, &head, p) {
            Ok(Some(_)) => {}
            Ok(None) => return None,
            Err(error) => return Some(error),
        }
    }
    None
}

// The same modulo 7 of a text that comes in pieces, and whether its source was offered 65,536 bytes each time.
fn error_in_pieces(
    alloc: Global,
    text: &[u8],
    piece: usize,
    limit: u32,
) -> (Option<TextError>, bool) {
    let mut source = Pieces::of(text, piece);
    match Reader::new(alloc, u64::from(limit)) {
        Ok(mut reader) => {
            let error = first_error(&mut reader, &mut source, &Modulus::new(7));
            (error, source.is_whole())
        }
        Err(_) => (Some(TextError::Memory), false),
    }
}

// The fault of a line, or none for line 0.
fn fault_at(line: u64, kind: Kind) -> Option<TextError> {
    if line == 0 {
        None
    } else {
        Some(TextError::Bad { line, kind })
    }
}

// Whether it is this, however long the pieces are.
fn has_fault(alloc: Global, text: &[u8], limit: u32, fault: Option<TextError>) -> bool {
    let wanted = (fault, true);
    [
        error_in_pieces(alloc, text, 1, limit),
        error_in_pieces(alloc, text, 5, limit),
        error_in_pieces(alloc, text, 65_536, limit),
    ] == [wanted, wanted, wanted]
}

#[test]
fn the_first_fault_of_each_text_is_named(rt: HostRuntime) {
    for (k, (text, limit, line, kind)) in TEXTS.iter().enumerate() {
        let fault = fault_at(*line, *kind);
        assert!(rt;
            has_fault(rt.alloc(), text, *limit, fault),
            "row {k} of the table"
        );
    }
}

// An entry, or the error in its place.
type Found = Result<Option<Entry>, TextError>;

// The sizes of a text, its first entry and its second, or the error of both calls.
fn beginning(
    reader: &mut Reader,
    source: &mut Pieces<'_>,
    p: &Modulus,
) -> Result<(Head, [Found; 2]), TextError>
    requires { reader.old.open_text ≡ None }
{
    let head = reader.header(source)?;
    let first = reader.entry(source, &head, p);
    let second = match first {
        Ok(Some(_)) => reader.entry(source, &head, p),
        Ok(None) => Ok(None),
        Err(_) => reader.entry(source, &head, p),
    };
    Ok((head, [first, second]))
}

const LONG: Found = Err(TextError::Bad {
    line: 2,
    kind: Kind::Long,
});

// Each row: a text of two rows and three columns, its limit, and its first two entries modulo 42013 or the error in their place.
const BEGINNINGS: &[(&[u8], u32, [Found; 2])] = &[
    (
        b"2 3 M\n1 1 2\n1 2 4\n0 0 0\n",
        99,
        [
            Ok(Some(Entry { i: 0, j: 0, v: 2 })),
            Ok(Some(Entry { i: 0, j: 1, v: 4 })),
        ],
    ),
    // A plain line, and the same words with other gaps, which are sought one by one.
    (
        b"2 3 M\n2 3 -9\n2 3 1\n0 0 0\n",
        99,
        [
            Ok(Some(Entry {
                i: 1,
                j: 2,
                v: 42004,
            })),
            Ok(Some(Entry { i: 1, j: 2, v: 1 })),
        ],
    ),
    (
        b"2 3 M\n\t2 \t3  -9 \n0 0 0\n",
        99,
        [
            Ok(Some(Entry {
                i: 1,
                j: 2,
                v: 42004,
            })),
            Ok(None),
        ],
    ),
    // Values of any length.
    (
        b"2 3 M\n1 1 5\n2 3 -3/4\n0 0 0\n",
        99,
        [
            Ok(Some(Entry { i: 0, j: 0, v: 5 })),
            Ok(Some(Entry {
                i: 1,
                j: 2,
                v: 31509,
            })),
        ],
    ),
    (
        b"2 3 M\n1 1 5\n2 3 123456789012345678901234567890\n",
        99,
        [
            Ok(Some(Entry { i: 0, j: 0, v: 5 })),
            Ok(Some(Entry {
                i: 1,
                j: 2,
                v: 20866,
            })),
        ],
    ),
    // An error stays.
    (b"2 3 M\n1 1 1\n0 0 0\n", 10, [LONG, LONG]),
];

// Whether a text that comes in pieces begins so.
fn begins(alloc: Global, text: &[u8], limit: u32, found: [Found; 2]) -> bool {
    let p = Modulus::new(42013);
    match Reader::new(alloc, u64::from(limit)) {
        Ok(mut reader) => {
            beginning(&mut reader, &mut Pieces::of(text, 5), &p) == Ok((Head { m: 2, n: 3 }, found))
        }
        Err(_) => false,
    }
}

#[test]
fn sizes_and_entries_are_read_and_an_error_stays(rt: HostRuntime) {
    for (k, (text, limit, found)) in BEGINNINGS.iter().enumerate() {
        assert!(rt;
            begins(rt.alloc(), text, *limit, *found),
            "row {k} of the table"
        );
    }
}

// Whether a line is one of four words, of which the second is `rank`, and the values of its second and its third word.
fn second_of_four(line: &Line, p: &Modulus) -> Option<(bool, Option<u64>, Option<u64>)> {
    if line.count() != 4 {
        return None;
    }
    Some((
        line.word(1) == b"rank".as_slice(),
        line.value(1, p),
        line.value(2, p),
    ))
}

// A refusal, and the error of the call behind it.
type Refusal = (TextError, Option<TextError>);

// The number of the first line of words and what it says, and how it is refused.
fn line_refused(
    reader: &mut Reader,
    source: &mut Pieces<'_>,
    p: &Modulus,
) -> Result<(u64, Option<(bool, Option<u64>, Option<u64>)>, Refusal), TextError>
    requires { reader.old.open_text ≡ None }
{
    let line = reader.words(source)?;
    let said = second_of_four(&line, p);
    let refused = reader.refuse(line.number(), Kind::Script);
    let again = reader.words(source).err();
    Ok((line.number(), said, (refused, again)))
}

// Whether a line of words is kept, and a refusal of it.
fn keeps_words_and_refusals(alloc: Global) -> bool {
    let mut source = Pieces::of(b"% a\ncertificate rank 7 2\n", 9);
    let refused = TextError::Bad {
        line: 2,
        kind: Kind::Script,
    };
    match Reader::new(alloc, 99) {
        Ok(mut reader) => {
            line_refused(&mut reader, &mut source, &Modulus::new(5))
                == Ok((2, Some((true, None, Some(2))), (refused, Some(refused))))
        }
        Err(_) => false,
    }
}

#[test]
fn words_and_refusals_are_kept(rt: HostRuntime) {
    assert!(rt; keeps_words_and_refusals(rt.alloc()));
}
