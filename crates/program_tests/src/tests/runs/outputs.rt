// Outputs and error streams that fail, and streams that tell nothing.
use crate::tests::runs::{CALM, Streams, Trial, X, X_UNSOLVED, check};
use optimistic_search::Open;
use sms_text::{SteadySink, SteadySource};
use spasm_run::{Status, run};
use std::test::Fail;

// X, and a certificate behind it that isn't valid.
const X_FORGED: &str =
    "3 3 M\n1 1 2\n1 2 4\n1 3 1\n2 1 1\n2 2 2\n3 1 3\n3 2 6\n3 3 1\n0 0 0\ncertificate rank 7 0\n\
     3 0 M\n0 0 0\n0 3 M\n0 0 0\n";

// Commands with texts, and answers of which an output takes first bytes alone.
const CUT_SHORT: &[(&str, &str, &[u8])] = &[
    ("check", X_FORGED, b"no\n"),
    ("rank", X, b"rank 2\n"),
    (
        "solve",
        X_UNSOLVED,
        b"no solution\n1 3 M\n1 1 6\n1 2 6\n1 3 1\n0 0 0\n",
    ),
];

// After each number of bytes the output takes no more, for want of room or since its put fails.
#[test]
fn an_output_that_fails_holds_what_it_took(rt: HostRuntime) -> Result<(), Fail> {
    for (command, text, answer) in CUT_SHORT {
        for taken in 0..answer.len() {
            for (room, put) in [(256, taken as u64 + 1), (taken, 0)] {
                let (held, _) = answer.split_at(taken);
                let trial = Trial {
                    words: &[*command, "--modulus", "7"],
                    text: text.as_bytes(),
                    streams: Streams {
                        room,
                        put_piece: 1,
                        put,
                        ..CALM
                    },
                    status: Status::WriteFault,
                    out: held,
                    told: b"error 7 write\n",
                };
                check(&rt, rt.alloc(), &trial)?;
            }
        }
    }
    Ok(())
}

#[test]
fn a_failing_error_stream_changes_no_status(rt: HostRuntime) -> Result<(), Fail> {
    let trial = Trial {
        words: &["rank", "--workers", "0"],
        text: X.as_bytes(),
        streams: Streams { err_put: 1, ..CALM },
        status: Status::Usage,
        out: b"",
        told: b"",
    };
    check(&rt, rt.alloc(), &trial)
}

#[test]
fn steady_streams_give_an_answer(rt: HostRuntime) -> Result<(), Fail> {
    let alloc = rt.alloc();
    let text = Vec::from_slice(alloc, X.as_bytes())?;
    let status = run(
        &rt,
        alloc,
        &["rank"],
        &mut SteadySource::new(text, 7),
        &mut SteadySink::new(),
        &mut SteadySink::new(),
        &Open,
    );
    assert_eq!(rt; status, Status::Done);
    Ok(())
}
