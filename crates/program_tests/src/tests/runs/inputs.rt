// Texts that are too long, cut off, given in pieces, and read by a source that fails.
use crate::tests::runs::{CALM, Streams, X, run_on};
use sms_text::{Kind, LARGEST_INPUT};
use spasm_run::Status;
use std::alloc::Global;
use std::process::Abort;
use std::test::Fail;
use std::thread::Threads;

// Words that ask for a rank.
const RANK: [&str; 2] = ["rank", "--modulus=7"];

// A text with a number that isn't one.
const MISSPELLED: &str = "1 1 M\n1 1 x\n0 0 0\n";

const NUMBER: Status = Status::BadText {
    line: 2,
    kind: Kind::Number,
};

const LONG: &str = "1 1 M\n1 1 1\n0 0 0\n";

// A text of which only so many bytes may be read.
const OVERLONG: &[(&str, usize, u64, usize, u64, Status)] = &[
    (
        LONG,
        18,
        17,
        64,
        0,
        Status::BadText {
            line: 3,
            kind: Kind::Long,
        },
    ),
    (
        LONG,
        18,
        12,
        64,
        0,
        Status::BadText {
            line: 3,
            kind: Kind::Long,
        },
    ),
    (
        LONG,
        18,
        11,
        64,
        0,
        Status::BadText {
            line: 2,
            kind: Kind::Long,
        },
    ),
    (
        LONG,
        18,
        6,
        64,
        0,
        Status::BadText {
            line: 2,
            kind: Kind::Long,
        },
    ),
    (
        LONG,
        18,
        5,
        64,
        0,
        Status::BadText {
            line: 1,
            kind: Kind::Long,
        },
    ),
    (
        LONG,
        18,
        0,
        64,
        0,
        Status::BadText {
            line: 1,
            kind: Kind::Long,
        },
    ),
    (LONG, 18, 18, 64, 0, Status::Done),
];

// A text of which these first bytes are given.
const CUT: &[(&str, usize, u64, usize, u64, Status)] = &[
    (
        X,
        0,
        LARGEST_INPUT,
        64,
        0,
        Status::BadText {
            line: 1,
            kind: Kind::NoHeader,
        },
    ),
    (
        X,
        6,
        LARGEST_INPUT,
        64,
        0,
        Status::BadText {
            line: 2,
            kind: Kind::NoEnd,
        },
    ),
    (
        X,
        12,
        LARGEST_INPUT,
        64,
        0,
        Status::BadText {
            line: 3,
            kind: Kind::NoEnd,
        },
    ),
    (
        X,
        18,
        LARGEST_INPUT,
        64,
        0,
        Status::BadText {
            line: 4,
            kind: Kind::NoEnd,
        },
    ),
    (
        X,
        24,
        LARGEST_INPUT,
        64,
        0,
        Status::BadText {
            line: 5,
            kind: Kind::NoEnd,
        },
    ),
    (
        X,
        30,
        LARGEST_INPUT,
        64,
        0,
        Status::BadText {
            line: 6,
            kind: Kind::NoEnd,
        },
    ),
    (
        X,
        36,
        LARGEST_INPUT,
        64,
        0,
        Status::BadText {
            line: 7,
            kind: Kind::NoEnd,
        },
    ),
    (
        X,
        42,
        LARGEST_INPUT,
        64,
        0,
        Status::BadText {
            line: 8,
            kind: Kind::NoEnd,
        },
    ),
    (
        X,
        48,
        LARGEST_INPUT,
        64,
        0,
        Status::BadText {
            line: 9,
            kind: Kind::NoEnd,
        },
    ),
    (
        X,
        54,
        LARGEST_INPUT,
        64,
        0,
        Status::BadText {
            line: 10,
            kind: Kind::NoEnd,
        },
    ),
    (
        X,
        57,
        LARGEST_INPUT,
        64,
        0,
        Status::BadText {
            line: 10,
            kind: Kind::Words,
        },
    ),
    (X, 59, LARGEST_INPUT, 64, 0, Status::Done),
    (X, 60, LARGEST_INPUT, 64, 0, Status::Done),
];

// Texts that are given in such pieces, by a source of which one pull fails.
const PULLS: &[(&str, usize, u64, usize, u64, Status)] = &[
    (X, 60, LARGEST_INPUT, 6, 11, Status::Done),
    (MISSPELLED, 18, LARGEST_INPUT, 12, 2, NUMBER),
    (MISSPELLED, 18, LARGEST_INPUT, 8, 2, Status::ReadFault),
    (MISSPELLED, 18, LARGEST_INPUT, 6, 1, Status::ReadFault),
    (MISSPELLED, 18, LARGEST_INPUT, 6, 2, Status::ReadFault),
    (MISSPELLED, 18, LARGEST_INPUT, 6, 3, NUMBER),
    (
        "1 1 M\n0 0 05\n0 0 0\n",
        19,
        LARGEST_INPUT,
        11,
        0,
        Status::BadText {
            line: 2,
            kind: Kind::Row,
        },
    ),
    (X, 60, LARGEST_INPUT, 6, 1, Status::ReadFault),
    (X, 60, LARGEST_INPUT, 6, 2, Status::ReadFault),
    (X, 60, LARGEST_INPUT, 6, 3, Status::ReadFault),
    (X, 60, LARGEST_INPUT, 6, 4, Status::ReadFault),
    (X, 60, LARGEST_INPUT, 6, 5, Status::ReadFault),
    (X, 60, LARGEST_INPUT, 6, 6, Status::ReadFault),
    (X, 60, LARGEST_INPUT, 6, 7, Status::ReadFault),
    (X, 60, LARGEST_INPUT, 6, 8, Status::ReadFault),
    (X, 60, LARGEST_INPUT, 6, 9, Status::ReadFault),
    (X, 60, LARGEST_INPUT, 6, 10, Status::ReadFault),
];

// Runs of `rank` on the first bytes of these texts, with such a limit, piece and failing pull, end so, and write only where they are done.
fn check_statuses<R: Threads + Sync + Abort>(
    rt: &R,
    alloc: Global,
    table: &[(&str, usize, u64, usize, u64, Status)],
) -> Result<(), Fail> {
    for (text, length, limit, piece, pull, status) in table {
        assert!(rt; *limit <= LARGEST_INPUT && 0 < *piece);
        let (text, _) = text.as_bytes().split_at(text.len().min(*length));
        let streams = Streams {
            limit: *limit,
            piece: *piece,
            pull: *pull,
            ..CALM
        };
        let ran = run_on(rt, alloc, &RANK, text, &streams)?;
        let is_silent = ran.out.content().is_empty() != (*status == Status::Done);
        assert!(rt;
            ran.status == *status && is_silent,
            "at {text:?} {limit} {piece} {pull}"
        );
    }
    Ok(())
}

#[test]
fn texts_are_read_up_to_their_end_or_their_fault(rt: HostRuntime) -> Result<(), Fail> {
    for table in [OVERLONG, CUT, PULLS] {
        check_statuses(&rt, rt.alloc(), table)?;
    }
    Ok(())
}
