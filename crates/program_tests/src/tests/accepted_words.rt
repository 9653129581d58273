// The words that are accepted, with the command that they ask for.
use certificates::CertKind;
use spasm_words::{Command, Generator, Task, command_line, read_words};

const ACCEPTED: &[(&[&str], Task, u64, u32, u32)] = &[
    (&["rank"], Task::Rank, 42_013, 1, 3),
    (&["rank", "--modulus", "7"], Task::Rank, 7, 1, 3),
    (
        &["rank", "--rounds", "0", "--workers", "64"],
        Task::Rank,
        42_013,
        64,
        0,
    ),
    (
        &["rank", "--rounds=16", "--workers=1"],
        Task::Rank,
        42_013,
        1,
        16,
    ),
    (
        &["rref", "--modulus=281474976710655"],
        Task::Rref,
        281_474_976_710_655,
        1,
        3,
    ),
    (&["rref", "--modulus", "2"], Task::Rref, 2, 1, 3),
    (
        &[
            "kernel",
            "--modulus",
            "007",
            "--workers",
            "8",
            "--rounds",
            "3",
        ],
        Task::Kernel,
        7,
        8,
        3,
    ),
    (&["solve"], Task::Solve, 42_013, 1, 3),
    (&["leftkernel"], Task::LeftKernel, 42_013, 1, 3),
    (&["inverse"], Task::Inverse, 42_013, 1, 3),
    (&["pivots", "--workers=64"], Task::Pivots, 42_013, 64, 3),
    (&["check", "--modulus=7"], Task::Check, 7, 1, 3),
    (&["trace", "--workers", "2"], Task::Trace, 42_013, 2, 3),
    (&["replay", "--modulus=7"], Task::Replay, 7, 1, 3),
    (&["grow", "--rounds=0"], Task::Grow, 42_013, 1, 0),
    (
        &["certify", "--kind", "rank"],
        Task::Certify(CertKind::Rank),
        42_013,
        1,
        3,
    ),
    (
        &["certify", "--rounds=0", "--kind=rref", "--modulus", "7"],
        Task::Certify(CertKind::Rref),
        7,
        1,
        0,
    ),
    (
        &["certify", "--workers", "64", "--kind=kernel"],
        Task::Certify(CertKind::Kernel),
        42_013,
        64,
        3,
    ),
    (
        &[
            "inverse",
            "--rounds",
            "00000000000000000000000000016",
            "--modulus=65537",
        ],
        Task::Inverse,
        65_537,
        1,
        16,
    ),
    (
        &[
            "drill", "--seed", "0", "--rows", "1", "--cols", "1", "--per", "0",
        ],
        Task::Drill(Generator {
            seed: 0,
            rows: 1,
            cols: 1,
            per: 0,
        }),
        42_013,
        1,
        3,
    ),
    (
        &[
            "drill",
            "--per=1000",
            "--modulus=7",
            "--cols",
            "1000000",
            "--workers",
            "2",
            "--rows=01000000",
            "--seed=0018446744073709551615",
        ],
        Task::Drill(Generator {
            seed: u64::MAX,
            rows: 1_000_000,
            cols: 1_000_000,
            per: 1_000,
        }),
        7,
        2,
        3,
    ),
];

#[test]
fn accepted_words_are_commands(rt: HostRuntime) {
    for (words, task, modulus, workers, rounds) in ACCEPTED {
        let command = read_words(rt.alloc(), words).expect(&rt, "memory");
        let expected = Command {
            task: *task,
            modulus: *modulus,
            workers: *workers,
            rounds: *rounds,
        };
        assert_eq!(rt; command, Some(expected), "at {words:?}");
    }
}

#[test]
fn the_command_line_is_built(rt: HostRuntime) {
    assert!(rt; command_line::command(rt.alloc()).is_ok());
}
