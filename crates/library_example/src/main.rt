//! How a program calls the library: it builds a matrix modulo a prime, prints its rank and the basis of its kernel, and solves a system.
#![tactic(auto)]

ghost use Rattle.std.specs.Prelude.{◌≡◌, ◌<◌, IfOk};
ghost use Rattle.residue_words.specs.Residues.{IsPrime};
ghost use Rattle.row_space.specs.Echelon.{HasRank};
ghost use Rattle.row_space.specs.Kernel.{IsKernel};
ghost use Rattle.sparse_rows.specs.Rows.{LARGEST_SIZE};

use spasm_lib::{Modulus, Rows, Solution, Team, kernel, rank, solve};
use std::alloc::{AllocError, Global};
use std::io::{self, Print};
use std::thread::Threads;

// What is printed of a matrix.
#[derive(Debug, Drop)]
struct Summary {
    rank: u32,
    kernel: Rows,
}

fn main(rt: HostRuntime) -> io::Result<()> {
    let a = boundary(rt.alloc())?;
    let summary = summary_of(&rt, rt.alloc(), &a)?;
    print_summary(&rt, &summary)?;
    let b = differences(rt.alloc())?;
    let solution = solution_of(&rt, rt.alloc(), &a, &b)?;
    print_solution(&rt, rt.alloc(), &solution)
}

// What prints stands apart, so that each function is proved in seconds: it costs by the points where it may end, times what lives there.
fn print_summary<R: Print>(rt: &R, summary: &Summary) -> io::Result<()> {
    println!(rt; "rank {}", summary.rank)?;
    for i in 0..summary.kernel.height() {
        let cols = summary.kernel.cols(i);
        let vals = summary.kernel.vals(i);
        println!(rt; "kernel row {i} in columns {cols:?}: {vals:?}")?;
    }
    Ok(())
}

fn print_solution<R: Print>(rt: &R, alloc: Global, solution: &Solution) -> io::Result<()> {
    match solution {
        Solution::Found(x) => println!(rt; "solution {:?}", x.triples(alloc)?),
        Solution::Refuted(y) => println!(rt; "no solution, by {:?}", y.triples(alloc)?),
    }
}

// The boundary map of a triangle modulo 7: a row for each edge, from one corner to the other, and a column for each corner.
fn boundary(alloc: Global) -> Result<Rows, AllocError>
    ensures modulus { IfOk result (λ rows. rows.modulus ≡ 7) }
    ensures height { IfOk result (λ rows. rows.matrix.height ≡ 3) }
    ensures width { IfOk result (λ rows. rows.matrix.width ≡ 3) }
{
    let entries = [
        (0, 0, 6),
        (0, 1, 1),
        (1, 1, 6),
        (1, 2, 1),
        (2, 0, 6),
        (2, 2, 1),
    ];
    let rows = Rows::from_triples(alloc, 3, 3, &Modulus::new(7), &entries)?;
    Ok(rows)
}

// How much higher the second corner of each edge is to be than the first.
fn differences(alloc: Global) -> Result<Rows, AllocError>
    ensures modulus { IfOk result (λ rows. rows.modulus ≡ 7) }
    ensures height { IfOk result (λ rows. rows.matrix.height ≡ 3) }
    ensures width { IfOk result (λ rows. rows.matrix.width ≡ 1) }
{
    let entries = [(0, 0, 1), (1, 0, 1), (2, 0, 2)];
    let rows = Rows::from_triples(alloc, 3, 1, &Modulus::new(7), &entries)?;
    Ok(rows)
}

// The rank of a matrix and the basis of its kernel, by two workers.
fn summary_of<R: Threads + Sync>(rt: &R, alloc: Global, rows: &Rows) -> Result<Summary, AllocError>
    ensures rank { IfOk result (λ s.
        IsPrime rows.now.modulus → HasRank rows.now.modulus rows.now.matrix s.rank) }
    ensures kernel { IfOk result (λ s.
        IsPrime rows.now.modulus → IsKernel rows.now.modulus rows.now.matrix s.kernel.matrix) }
{
    let team = Team {
        workers: 2,
        ..Team::of(rt, alloc)
    };
    Ok(Summary {
        rank: rank(team, rows)?,
        kernel: kernel(team, rows)?,
    })
}

// What there is to say of A x = b.
fn solution_of<R: Threads + Sync>(
    rt: &R,
    alloc: Global,
    a: &Rows,
    b: &Rows,
) -> Result<Solution, AllocError>
    requires moduli { a.now.modulus ≡ b.now.modulus }
    requires heights { a.now.matrix.height ≡ b.now.matrix.height }
    requires column { b.now.matrix.width ≡ 1 }
    requires height { a.now.matrix.height < LARGEST_SIZE }
    requires width { a.now.matrix.width < LARGEST_SIZE }
{
    let solution = solve(Team::of(rt, alloc), a, b)?;
    Ok(solution)
}
