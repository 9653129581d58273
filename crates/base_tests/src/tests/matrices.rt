// Matrices read and written.
ghost use Rattle.std.specs.Prelude.{◌≡◌, ◌<◌, ◌≤◌, IfOk, None};
ghost use Rattle.sms_text.specs.declared.reader.TheConstants.{LARGEST_TEXT_SIZE};

use super::entries::{Entries, lists};
use super::pieces::Pieces;
use residue_words::Modulus;
use sms_text::{
    Kind, MemorySink, Put, Reader, Sink, TextError, WriteFault, read_rows, write_end, write_entry,
    write_head, write_rows,
};
use sparse_rows::Rows;
use std::alloc::Global;

const READ: &[u8] =
    b"3 3 M\n3 3 1\n1 1 2\n1 2 4\n1 3 1\n2 1 1\n2 2 9\n3 1 3\n3 2 2\n3 2 4\n0 0 0\n3 3";

const WRITTEN: &[u8] = b"3 3 M\n1 1 2\n1 2 4\n1 3 1\n2 1 1\n2 2 2\n3 1 3\n3 2 6\n3 3 1\n0 0 0\n";

// The matrix of a text of at most so many bytes that comes in pieces.
fn read(
    alloc: Global,
    text: &[u8],
    piece: usize,
    limit: u32,
    p: &Modulus,
) -> Result<Rows, TextError>
    ensures height { IfOk result (λ rows. rows.matrix.height ≤ LARGEST_TEXT_SIZE) }
    ensures width { IfOk result (λ rows. rows.matrix.width ≤ LARGEST_TEXT_SIZE) }
{
    match Reader::new(alloc, u64::from(limit)) {
        Ok(mut reader) => read_rows(&mut reader, alloc, &mut Pieces::of(text, piece), p),
        Err(_) => Err(TextError::Memory),
    }
}

// The error where another text is read behind the first.
fn second_error(alloc: Global, reader: &mut Reader, source: &mut Pieces<'_>) -> Option<TextError>
    requires { reader.old.open_text ≡ None }
{
    let p = Modulus::new(7);
    match read_rows(reader, alloc, source, &p) {
        Ok(_) => read_rows(reader, alloc, source, &p).err(),
        Err(_) => None,
    }
}

// Whether what stands behind the text is left for the next call.
fn leaves_what_is_behind(alloc: Global) -> bool {
    let bad = TextError::Bad {
        line: 12,
        kind: Kind::Words,
    };
    match Reader::new(alloc, 99) {
        Ok(mut reader) => {
            second_error(alloc, &mut reader, &mut Pieces::of(READ, 5)) == Some(bad)
        }
        Err(_) => false,
    }
}

// Whether the writing to a sink of memory went well, and whether the sink holds this in the end.
fn writes(alloc: Global, rows: &Rows, piece: usize, fails: &[u64], wanted: &[u8]) -> (bool, bool)
    requires piece { 0 < piece }
    requires height { rows.now.matrix.height ≤ LARGEST_TEXT_SIZE }
    requires width { rows.now.matrix.width ≤ LARGEST_TEXT_SIZE }
{
    let Ok(fails) = Vec::from_slice(alloc, fails) else {
        return (false, false);
    };
    let Ok(mut sink) = MemorySink::new(alloc, 1024, piece, fails) else {
        return (false, false);
    };
    let result = write_rows(&mut sink, rows);
    (result.is_ok(), sink.content() == wanted)
}

// Each row: a text, the puts that fail, each of at most 16 bytes, and what the sink holds in the end.
const TEXTS: &[(&[u8], &[u64], &[u8])] = &[
    (READ, &[], WRITTEN),
    (READ, &[1], b""),
    (READ, &[3], b"3 3 M\n1 1 2\n1 2 4\n1 3 1\n2 1 1\n2 "),
    (READ, &[5], WRITTEN),
    (WRITTEN, &[], WRITTEN),
];

// Whether a text that was read is written so.
fn is_written(alloc: Global, text: &[u8], fails: &[u64], held: &[u8]) -> bool {
    match read(alloc, text, 5, 99, &Modulus::new(7)) {
        Ok(rows) => writes(alloc, &rows, 16, fails, held) == (held.len() == WRITTEN.len(), true),
        Err(_) => false,
    }
}

#[test]
fn texts_are_read_and_written(rt: HostRuntime) {
    for (k, (text, fails, held)) in TEXTS.iter().enumerate() {
        assert!(rt;
            is_written(rt.alloc(), text, fails, held),
            "row {k} of the table"
        );
    }
}

// A sink that keeps nothing, but counts the puts, and notes the length of the last one and the least of those before it.
#[derive(Drop)]
struct Lengths {
    count: u32,
    least: usize,
    last: usize,
}

impl Sink for Lengths {
    ghost use Rattle.std.specs.Prelude.{None};
    ghost use Rattle.sms_text.specs.Stream.{SinkState};

    ghost state = { λ s. record { held = None; faults = 0 } };

    fn put(&mut self, piece: &[u8]) -> Put {
        self.count = self.count.saturating_add(1);
        self.least = self.least.min(self.last);
        self.last = piece.len();
        Put::Took(piece.len())
    }
}

// Whether a long text is written in blocks.
fn comes_in_blocks(rows: &Rows) -> bool
    requires height { rows.now.matrix.height ≤ LARGEST_TEXT_SIZE }
    requires width { rows.now.matrix.width ≤ LARGEST_TEXT_SIZE }
{
    let mut sink = Lengths {
        count: 0,
        least: 65536,
        last: 65536,
    };
    let result = write_rows(&mut sink, rows);
    (result, sink.least > 28672, sink.count) == (Ok(()), true, 3)
}

// Whether that of the identity is.
fn identity_comes_in_blocks(alloc: Global) -> bool {
    match Rows::identity(alloc, 6000, &Modulus::new(7)) {
        Ok(rows) => comes_in_blocks(&rows),
        Err(_) => false,
    }
}

// Entries whose rows, columns and values have each number of digits, the least numbers and the largest.
const NUMBERS: &[(u32, u32, u64)] = &[
    (1, 1, 1),
    (1, 9, 9),
    (9, 10, 10),
    (10, 99, 99),
    (99, 100, 100),
    (100, 999, 999),
    (999, 1000, 1000),
    (1000, 9999, 9999),
    (9999, 10_000, 10_000),
    (10_000, 99_999, 99_999),
    (99_999, 100_000, 100_000),
    (100_000, 999_999, 999_999),
    (999_999, 1_000_000, 1_000_000),
    (1_000_000, 9_999_999, 9_999_999),
    (9_999_999, 10_000_000, 10_000_000),
    (10_000_000, 99_999_999, 99_999_999),
    (99_999_999, 100_000_000, 100_000_000),
    (100_000_000, 999_999_999, 999_999_999),
    (999_999_999, 1_000_000_000, 1_000_000_000),
    (1_000_000_000, 2_147_483_647, 281_474_976_710_654),
    (2_147_483_647, 1, 999_999_999_999),
    (2_147_483_647, 2, 1_000_000_000_000),
];

// Their text, each number written by `itoa`.
fn put_numbers<K: Sink>(out: &mut K) -> Result<(), WriteFault> {
    write_head(out, 2_147_483_647, 2_147_483_647)?;
    for (i, j, v) in NUMBERS {
        write_entry(out, *i, *j, *v)?;
    }
    write_end(out)
}

// Whether a text, read and written again, is the same.
fn is_kept(alloc: Global, text: &[u8]) -> bool {
    match read(alloc, text, 512, 1024, &Modulus::new(281_474_976_710_655)) {
        Ok(rows) => writes(alloc, &rows, 1024, &[], text) == (true, true),
        Err(_) => false,
    }
}

// Whether the text of those entries is.
fn numbers_are_kept(alloc: Global) -> bool {
    match MemorySink::new(alloc, 1024, 1024, Vec::new(alloc)) {
        Ok(mut sink) => put_numbers(&mut sink).is_ok() && is_kept(alloc, sink.content()),
        Err(_) => false,
    }
}

#[test]
fn a_second_text_a_long_one_and_long_numbers(rt: HostRuntime) {
    let alloc = rt.alloc();
    let found = [
        leaves_what_is_behind(alloc),
        identity_comes_in_blocks(alloc),
        numbers_are_kept(alloc),
    ];
    assert_eq!(rt; found, [true, true, true]);
}

// What a text says modulo 7: its entries, row by row, or the fault of a line.
type Says = Result<Entries, TextError>;

// Each row: a text in which lines that are taken together stand beside such as are read word by word, its limit, and what it says. What
// stands behind the texts lets the last of their lines be taken so, too.
const MIXED: &[(&[u8], u32, Says)] = &[
    (
        b"2 3 M\n1 1 5\n1 2 -5\n2 3 12\n2 1 7\n2 1 6\n0 0 0\n% behind the text\n",
        99,
        Ok(&[(0, 0, 5), (0, 1, 2), (1, 0, 6), (1, 2, 5)]),
    ),
    (
        b"2 3 M\n1\t1 +5\n 1 2 3\n1 3  4\r\n\n# a\n2 2 1/2\n2 3 1\n0 0 0\n% behind the text\n",
        99,
        Ok(&[(0, 0, 5), (0, 1, 3), (0, 2, 4), (1, 1, 4), (1, 2, 1)]),
    ),
    (
        b"2 3 M\n2 3 123456789012345678901\n01 0002 1234567890123\n1 1 -00\n0 0 0\n% behind the text\n",
        99,
        Ok(&[(0, 1, 1), (1, 2, 4)]),
    ),
    (
        b"2 3 M\n1 1 5\n3 1 5\n0 0 0\n% behind the text\n",
        99,
        Err(TextError::Bad {
            line: 3,
            kind: Kind::Row,
        }),
    ),
    (
        b"2 3 M\n1 1 5\n1 1 5\n2 0 5\n0 0 0\n% behind the text\n",
        99,
        Err(TextError::Bad {
            line: 4,
            kind: Kind::Column,
        }),
    ),
    (
        b"2 3 M\n1 1 5\n1 2 3-\n0 0 0\n% behind the text\n",
        99,
        Err(TextError::Bad {
            line: 3,
            kind: Kind::Number,
        }),
    ),
    (
        b"2 3 M\n1 1 5\n1 2 --3\n0 0 0\n% behind the text\n",
        99,
        Err(TextError::Bad {
            line: 3,
            kind: Kind::Number,
        }),
    ),
    (
        b"2 3 M\n1 1 5\n1 2 3\n0 0 0\n% behind the text\n",
        17,
        Err(TextError::Bad {
            line: 3,
            kind: Kind::Long,
        }),
    ),
    (
        b"2 3 M\n1 1 5\n1 2 3\n0 0 1\n% behind the text\n",
        99,
        Err(TextError::Bad {
            line: 4,
            kind: Kind::Row,
        }),
    ),
    // Numbers of one to twenty digits, with zeros before the indices.
    (
        b"4 5 M\n01 01 9\n001 002 98\n0001 0003 -987\n1 00004 9876\n01 5 98765\r\n002 01 -987654\n0002\t002 9876543\n2 0003 98765432\n02 00004 -987654321\n002 5 9876543210\r\n0003 01 98765432109\n3 002 -987654321098\n03 0003 9876543210987\n003\t00004 98765432109876\n0003 5 -987654321098765\r\n4 01 9876543210987654\n04 002 98765432109876543\n004 0003 -987654321098765432\n0004 00004 9876543210987654321\n4 5 98765432109876543210\r\n0 0 0\n% behind the text, which is longer than a line\n",
        999,
        Ok(&[
            (0, 0, 2),
            (0, 3, 6),
            (0, 4, 2),
            (1, 0, 4),
            (1, 1, 5),
            (1, 2, 3),
            (1, 3, 4),
            (1, 4, 2),
            (2, 0, 1),
            (2, 1, 3),
            (2, 2, 5),
            (2, 4, 2),
            (3, 0, 5),
            (3, 1, 4),
            (3, 3, 1),
            (3, 4, 3),
        ]),
    ),
    (
        b"2 3 M\n1 1 5\n1 2 3:\n0 0 0\n% behind the text, which is longer than a line\n",
        99,
        Err(TextError::Bad {
            line: 3,
            kind: Kind::Number,
        }),
    ),
    (
        b"2 3 M\n1 1 5\n1 2: 3\n0 0 0\n% behind the text, which is longer than a line\n",
        99,
        Err(TextError::Bad {
            line: 3,
            kind: Kind::Number,
        }),
    ),
    (
        b"2 3 M\n1 1 5\n1: 2 3\n0 0 0\n% behind the text, which is longer than a line\n",
        99,
        Err(TextError::Bad {
            line: 3,
            kind: Kind::Number,
        }),
    ),
    (
        b"2 3 M\n1 1 5\n1 2/ 3\n0 0 0\n% behind the text, which is longer than a line\n",
        99,
        Err(TextError::Bad {
            line: 3,
            kind: Kind::Number,
        }),
    ),
];

// Whether the text says this where it comes in pieces of so many bytes.
fn says(alloc: Global, text: &[u8], piece: usize, limit: u32, wanted: Says) -> bool {
    match read(alloc, text, piece, limit, &Modulus::new(7)) {
        Ok(rows) => match wanted {
            Ok(entries) => lists(rows.triples(alloc), entries),
            Err(_) => false,
        },
        Err(error) => wanted == Err(error),
    }
}

// Whether it says this wherever it is cut.
fn says_always(alloc: Global, text: &[u8], limit: u32, wanted: Says) -> bool {
    // Each place from the header's end on, or from the first entry's, is cut by pieces of that size.
    let first = if wanted.is_ok() { 6 } else { 12 };
    let mut always = true;
    for piece in first..=text.len() {
        always = always && says(alloc, text, piece, limit, wanted);
    }
    always
}

#[test]
fn texts_say_the_same_wherever_they_are_cut(rt: HostRuntime) {
    for (k, (text, limit, wanted)) in MIXED.iter().enumerate() {
        assert!(rt;
            says_always(rt.alloc(), text, *limit, *wanted),
            "row {k} of the table"
        );
    }
}
