// Where the parts begin into which rows are cut for workers.
ghost use Rattle.std.specs.Prelude.{◌≤◌, IfOk};
ghost use Rattle.schur_rows.specs.Parts.{ArePartCuts};

use std::alloc::{AllocError, Global};

// Cuts of the rows from `from` up to `to` into so many parts, so many a stage. The parts of a stage become smaller one after another, so
// that no worker waits long for the last part of another; and so do the stages, since nothing is made while the last one is joined.
pub(crate) fn cuts_between(
    alloc: Global,
    from: u32,
    to: u32,
    count: usize,
    stage: usize,
) -> Result<Vec<u32>, AllocError>
    requires order { from ≤ to }
    requires some { 1 ≤ count }
    requires some_a_stage { 1 ≤ stage }
    ensures { IfOk result (λ cuts. ArePartCuts from to count cuts.items) }
{
    let stages = count / stage;
    let all = sum_to(stages as u64).saturating_mul(sum_to(stage as u64));
    let mut cuts = Vec::with_capacity(alloc, count.saturating_add(1))?;
    cuts.push(from)?;
    let mut last = from;
    let mut passed: u64 = 0;
    for number in 1..count {
        passed = passed.saturating_add(weight(number - 1, stage, stages));
        last = cut_behind(from, to, last, passed, all);
        cuts.push(last)?;
    }
    cuts.push(to)?;
    Ok(cuts)
}

// How many times the rows of the last part a part has: of n parts of a stage the k-th from the end has k times those of the stage's last,
// and likewise for the stages.
fn weight(number: usize, stage: usize, stages: usize) -> u64
    requires { 1 ≤ stage }
{
    let here = (stage - number % stage) as u64;
    here.saturating_mul(stages.saturating_sub(number / stage) as u64)
}

// The sum of the numbers up to n.
fn sum_to(n: u64) -> u64 {
    n.saturating_mul(n.saturating_add(1)) / 2
}

// The cut behind so many times the last part's rows, where all parts have so many times these; not before another cut.
fn cut_behind(from: u32, to: u32, other: u32, passed: u64, all: u64) -> u32
    requires order { from ≤ to }
    requires other { other ≤ to }
    ensures later { other ≤ result }
    ensures inside { result ≤ to }
{
    let rows = u64::from(to - from).saturating_mul(passed) / all.max(1);
    let cut = u64::from(from).saturating_add(rows);
    cut.min(u64::from(to)).max(u64::from(other)) as u32
}
