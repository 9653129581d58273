// A certificate of the rank, made and checked.
ghost use Rattle.std.specs.Prelude.{◌≤◌, IfOk};
ghost use Rattle.certificates.specs.Certificate.{AreModulo};
ghost use Rattle.pluq_factor.specs.Rounds.{AreFactorsOf};

use crate::timing::{now, since, told};
use cert_checker::check;
use certificates::{Certificate, Claim};
use optimistic_search::Open;
use pluq_factor::{Factors, Plan, factor};
use sparse_rows::Rows;
use std::alloc::{AllocError, Global};
use std::io;
use std::thread::Threads;
use std::time::Clock;

// Says how long the factors take that make a certificate of the rank, and how long its check takes; whether it is valid; and how many
// entries the matrix, the left and the right factor have.
pub(crate) fn time_certificate<R: Threads + Sync + Clock + Print>(
    rt: &R,
    alloc: Global,
    rows: &Rows,
    plan: Plan,
) -> io::Result<()>
    requires some { 1 ≤ plan.workers }
{
    let start = now(rt);
    let certificate = made(rt, alloc, rows, plan)?;
    let elimination = since(rt, start);
    time_check(rt, alloc, rows, &certificate, elimination)
}

// Checks a certificate that took so long, and says what there is to say of it.
fn time_check<R: Clock + Print>(
    rt: &R,
    alloc: Global,
    rows: &Rows,
    certificate: &Certificate,
    elimination: Option<u128>,
) -> io::Result<()>
    requires { AreModulo rows.now.modulus certificate.now }
{
    let start = now(rt);
    let valid = check(alloc, rows, certificate)?;
    say(
        rt,
        [elimination, since(rt, start)],
        valid,
        rows,
        certificate,
    )
}

// Makes a certificate of the rank.
fn made<R: Threads + Sync>(
    rt: &R,
    alloc: Global,
    rows: &Rows,
    plan: Plan,
) -> Result<Certificate, AllocError>
    requires some { 1 ≤ plan.workers }
    ensures { IfOk result (AreModulo rows.now.modulus) }
{
    let factors = factor(rt, alloc, rows, plan, &Open)?;
    Ok(of_rank(rows, factors))
}

// The certificate of the rank by these factors.
fn of_rank(rows: &Rows, factors: Factors) -> Certificate
    requires { AreFactorsOf rows.now.modulus rows.now.matrix factors }
    ensures { AreModulo rows.now.modulus result }
{
    // The call's contract tells that the height fits a word.
    rows.is_sound();
    let Factors { pivots, l, u } = factors;
    Certificate {
        p: rows.modulus().p(),
        pivots,
        l,
        u,
        claim: Claim::Rank,
    }
}

// Says what a certificate took, and what there is to say of it.
fn say<R: Print>(
    rt: &R,
    [elimination, checking]: [Option<u128>; 2],
    valid: bool,
    rows: &Rows,
    certificate: &Certificate,
) -> io::Result<()> {
    let (elimination, checking) = (told(elimination)?, told(checking)?);
    let (left, right) = (certificate.l.entries(), certificate.u.entries());
    println!(rt;
        "{elimination} {checking} {valid} {} {left} {right}",
        rows.entries()
    )
}
