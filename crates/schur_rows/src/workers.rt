// What a round leaves, made by several workers.
ghost use Rattle.std.specs.Prelude.{◌≡◌, ◌<◌, ◌≤◌, ◌+◌, All, IfOk, OnOk};
ghost use Rattle.std.specs.Thread.{IsSync};
ghost use Rattle.sparse_rows.specs.Rows.{LARGEST_SIZE};
ghost use Rattle.schur_rows.specs.Parts.{AreDealtRows, IsNumbered, IsPartOf, IsPartTo, IsWorkersShare, IsStage, Joins, cut_at};
ghost use Rattle.schur_rows.specs.PivotNumbers.{HasNumbers};
ghost use Rattle.triangular_solve.specs.Reduced.{workspace_of};

use crate::dealing::Dealing;
use crate::dealt_rows::DealtRows;
use crate::numbered_part::{NumberedPart, part_among};
use crate::part_cuts::cuts_between;
use crate::pivot_numbers::PivotNumbers;
use crate::reduction_pass::ReductionPass;
use crate::round::SchurRows;
use crate::row_ranges::{no_rows, part_by_caller, part_of, share_of_rows};
use crate::row_reducer::RowReducer;
use crate::sampling::total_left;
use crate::stage::Stage;
use std::alloc::{AllocError, Global};
use std::sync::atomic::{AtomicU64, Ordering};
use std::thread;
use std::thread::{Threads, join_mut};
use triangular_solve::Work;

// How many parts a stage has for each worker, so that none waits long for the others at its end.
const PARTS: usize = 8;

// Where there is room for more entries than these, one worker joins those of a stage while the next one is made.
const STAGE_ENTRIES: usize = 1 << 18;

// But there are no more stages than these.
const MOST_STAGES: usize = 8;

// Parts that a worker makes, or that memory ran out for it.
type Share = Result<Vec<NumberedPart>, AllocError>;

// In how many stages rows are made, where there is room for so many entries of theirs.
fn stages(entries: usize) -> usize
    ensures some { 1 ≤ result }
    ensures few { result ≤ 8 }
{
    (entries / STAGE_ENTRIES).max(1).min(MOST_STAGES)
}

// What a triangle leaves of its matrix.
pub(crate) fn left_by<C: Dealing>(
    crew: &C,
    alloc: Global,
    reducer: &RowReducer,
    workers: u32,
    with_coefficients: bool,
) -> Result<SchurRows, AllocError>
    requires able { C.can_work }
    requires some { 1 ≤ workers }
    ensures { IfOk result (IsPartTo reducer.now with_coefficients 0 reducer.now.rows.matrix.height) }
{
    let height = reducer.rows().height();
    let pivot_rows = PivotNumbers::of(alloc, reducer)?;
    let total = if with_coefficients {
        reducer.rows().entries()
    } else {
        total_left(alloc, reducer, &pivot_rows)?
    };
    let pass = ReductionPass {
        reducer,
        pivot_rows: &pivot_rows,
        with_coefficients,
        total,
    };
    left_between(crew, alloc, pass, workers, 0, height)
}

// What a pass leaves of the rows from `from` up to `to`.
pub(crate) fn left_between<C: Dealing>(
    crew: &C,
    alloc: Global,
    pass: ReductionPass,
    workers: u32,
    from: u32,
    to: u32,
) -> Result<SchurRows, AllocError>
    requires able { C.can_work }
    requires some { 1 ≤ workers }
    requires order { from ≤ to }
    requires inside { to ≤ pass.reducer.now.rows.matrix.height }
    requires numbers { HasNumbers pass.reducer.now.pairs pass.pivot_rows.now }
    ensures { IfOk result (IsPartTo pass.entry.reducer.now pass.entry.with_coefficients from to) }
{
    // The call's contract tells how high a matrix is.
    pass.reducer.rows().is_sound();
    if workers == 1 {
        return part_by_caller(alloc, pass, from, to);
    }
    let rows = pass.reducer.rows();
    let stage = PARTS * workers as usize;
    let count = stage * stages(share_of_rows(rows, pass.total, to - from));
    let cuts = cuts_between(alloc, from, to, count, stage)?;
    let deal = DealtRows {
        pass,
        from,
        to,
        cuts: &cuts,
        count,
        stage,
        workers: workers as usize,
    };
    crew.left_of(alloc, deal)
}

// What is left of all rows of a deal, by threads.
pub(crate) fn left_by_stages<R: Threads + Sync>(
    rt: &R,
    alloc: Global,
    deal: DealtRows,
) -> Result<SchurRows, AllocError>
    requires deal { AreDealtRows deal }
    ensures { IfOk result (IsPartTo deal.entry.pass.reducer.now deal.entry.pass.with_coefficients
        deal.entry.from deal.entry.to) }
{
    // The call's contract tells how high a matrix is.
    deal.pass.reducer.rows().is_sound();
    let mut made = no_rows(alloc, deal.pass, deal.to - deal.from)?;
    append_stages(rt, alloc, deal, &mut made)?;
    Ok(made)
}

// Makes the parts of a deal stage by stage, and puts them below no row.
fn append_stages<R: Threads + Sync>(
    rt: &R,
    alloc: Global,
    deal: DealtRows,
    made: &mut SchurRows,
) -> Result<(), AllocError>
    requires deal { AreDealtRows deal }
    requires made { IsPartTo deal.pass.reducer.now deal.pass.with_coefficients
        deal.from deal.from made.old }
    ensures { OnOk result (IsPartTo deal.entry.pass.reducer.now deal.entry.pass.with_coefficients
        deal.entry.from deal.entry.to made.new) }
{
    let mut parts = Vec::new(alloc);
    let mut joined = 0;
    let mut begun = 0;
    while begun < deal.count {
        let end = deal.count.min(begun.saturating_add(deal.stage));
        let stage = Stage { joined, begun, end };
        parts = next_stage(rt, alloc, deal, stage, &parts, made)?;
        joined = begun;
        begun = end;
    }
    join_parts(alloc, deal, joined, begun, &parts, made)
}

// Joins the parts of the stage before, while the workers make those of the next.
fn next_stage<R: Threads + Sync>(
    rt: &R,
    alloc: Global,
    deal: DealtRows,
    stage: Stage,
    parts: &[NumberedPart],
    made: &mut SchurRows,
) -> Share
    requires deal { AreDealtRows deal }
    requires stage { IsStage deal stage }
    requires parts { All (IsNumbered deal.pass.reducer.now deal) parts.now }
    requires made { IsPartTo deal.pass.reducer.now deal.pass.with_coefficients
        deal.from (cut_at deal stage.joined) made.old }
    ensures parts { IsWorkersShare deal.entry.pass.reducer.now deal.entry result }
    ensures made { OnOk result (IsPartTo deal.entry.pass.reducer.now deal.entry.pass.with_coefficients
        deal.entry.from (cut_at deal.entry stage.begun) made.new) }
{
    let next = AtomicU64::new(stage.begun as u64);
    let helpers = deal.workers - 1;
    let mut help = || -> Share
        requires { IsSync R.row × (1 ≤ helpers) × AreDealtRows deal × (stage.end ≤ deal.count) }
        ensures { IsWorkersShare deal.entry.pass.reducer.now deal.entry result }
    { parts_by(rt, alloc, deal, stage.end, &next, helpers) };
    let mut own = || -> Share
        requires { AreDealtRows deal × IsStage deal stage
            × All (IsNumbered deal.pass.reducer.now deal) parts.now
            × IsPartTo deal.pass.reducer.now deal.pass.with_coefficients
            deal.from (cut_at deal stage.joined) made.now }
        ensures { IsWorkersShare deal.entry.pass.reducer.now deal.entry result
            × OnOk result (IsPartTo deal.entry.pass.reducer.now deal.entry.pass.with_coefficients
            deal.entry.from (cut_at deal.entry stage.begun) made.exit.now) }
    { join_and_go_on(alloc, deal, stage, &next, parts, made) };
    let (own, others) = join_mut(rt, &mut own, &mut help);
    let mut all = own?;
    let mut more = others?;
    all.append(&mut more)?;
    Ok(all)
}

// Joins the parts of the stage before, and then makes parts of the next as the other workers do. Between, it writes to the memory that
// these parts will be joined in, where they are as full as those before: the others would wait for that behind the last stage.
fn join_and_go_on(
    alloc: Global,
    deal: DealtRows,
    stage: Stage,
    next: &AtomicU64,
    parts: &[NumberedPart],
    made: &mut SchurRows,
) -> Share
    requires deal { AreDealtRows deal }
    requires stage { IsStage deal stage }
    requires parts { All (IsNumbered deal.pass.reducer.now deal) parts.now }
    requires made { IsPartTo deal.pass.reducer.now deal.pass.with_coefficients
        deal.from (cut_at deal stage.joined) made.old }
    ensures parts { IsWorkersShare deal.entry.pass.reducer.now deal.entry result }
    ensures made { OnOk result (IsPartTo deal.entry.pass.reducer.now deal.entry.pass.with_coefficients
        deal.entry.from (cut_at deal.entry stage.begun) made.new) }
{
    join_parts(alloc, deal, stage.joined, stage.begun, parts, made)?;
    let to_come = deal.cut(stage.end).saturating_sub(deal.cut(stage.begun));
    let entries = share_of_rows(&made.rows, made.rows.entries(), to_come);
    made.rows.write_ahead(entries);
    parts_of_worker(alloc, deal, stage.end, next)
}

// The parts below `end` that so many workers make.
fn parts_by<R: Threads + Sync>(
    rt: &R,
    alloc: Global,
    deal: DealtRows,
    end: usize,
    next: &AtomicU64,
    workers: usize,
) -> Share
    requires deal { AreDealtRows deal }
    requires end { end ≤ deal.count }
    ensures { IsWorkersShare deal.entry.pass.reducer.now deal.entry result }
{
    let mut shares = shares_of(rt, alloc, deal, end, next, workers)?;
    let mut parts = Vec::new(alloc);
    while let Some(share) = shares.pop() {
        let mut more = share?;
        parts.append(&mut more)?;
    }
    Ok(parts)
}

// What each of them makes.
fn shares_of<R: Threads + Sync>(
    rt: &R,
    alloc: Global,
    deal: DealtRows,
    end: usize,
    next: &AtomicU64,
    workers: usize,
) -> Result<Vec<Share>, AllocError>
    requires deal { AreDealtRows deal }
    requires end { end ≤ deal.count }
    ensures { IfOk result (λ shares.
        All (IsWorkersShare deal.entry.pass.reducer.now deal.entry) shares.items) }
{
    thread::map_indices(
        rt,
        alloc,
        workers,
        &|_worker| parts_of_worker(alloc, deal, end, next),
    )
}

// The parts that one worker makes: it takes the next one below `end` as long as there is one.
fn parts_of_worker(alloc: Global, deal: DealtRows, end: usize, next: &AtomicU64) -> Share
    requires deal { AreDealtRows deal }
    requires end { end ≤ deal.count }
    ensures { IsWorkersShare deal.entry.pass.reducer.now deal.entry result }
{
    let mut work = deal.pass.reducer.work(alloc)?;
    let mut parts = Vec::new(alloc);
    push_parts(alloc, deal, end, next, &mut work, &mut parts)?;
    Ok(parts)
}

// Pushes the parts that it takes.
fn push_parts(
    alloc: Global,
    deal: DealtRows,
    end: usize,
    next: &AtomicU64,
    work: &mut Work,
    parts: &mut Vec<NumberedPart>,
) -> Result<(), AllocError>
    requires deal { AreDealtRows deal }
    requires end { end ≤ deal.count }
    requires work { work.old ≡ workspace_of deal.pass.reducer.now }
    requires parts { All (IsNumbered deal.pass.reducer.now deal) parts.old.items }
    ensures { OnOk result (All (IsNumbered deal.entry.pass.reducer.now deal.entry) parts.new.items) }
{
    // The call's contract tells how high a matrix is.
    deal.pass.reducer.rows().is_sound();
    // No worker can take more.
    for _ in 0..end {
        let number = next.fetch_add(1, Ordering::SeqCst) as usize;
        if number >= end {
            return Ok(());
        }
        let left = part_by_number(alloc, deal, number, work)?;
        parts.push(NumberedPart { number, left })?;
    }
    Ok(())
}

// The part of this number.
fn part_by_number(
    alloc: Global,
    deal: DealtRows,
    number: usize,
    work: &mut Work,
) -> Result<SchurRows, AllocError>
    requires deal { AreDealtRows deal }
    requires number { number < deal.count }
    requires work { work.old ≡ workspace_of deal.pass.reducer.now }
    ensures work { work.new ≡ work.old }
    ensures part { IfOk result (IsPartOf deal.entry.pass.reducer.now deal.entry number) }
{
    // The call's contract tells how high a matrix is.
    deal.pass.reducer.rows().is_sound();
    part_of(
        alloc,
        deal.pass,
        deal.cut(number),
        deal.cut(number + 1),
        work,
    )
}

// Puts the parts from `from` on and below `to` below what there is.
fn join_parts(
    alloc: Global,
    deal: DealtRows,
    from: usize,
    to: usize,
    parts: &[NumberedPart],
    made: &mut SchurRows,
) -> Result<(), AllocError>
    requires deal { AreDealtRows deal }
    requires order { from ≤ to }
    requires end { to ≤ deal.count }
    requires parts { All (IsNumbered deal.pass.reducer.now deal) parts.now }
    requires made { IsPartTo deal.pass.reducer.now deal.pass.with_coefficients
        deal.from (cut_at deal from) made.old }
    ensures { OnOk result (IsPartTo deal.entry.pass.reducer.now deal.entry.pass.with_coefficients
        deal.entry.from (cut_at deal.entry to) made.new) }
{
    for number in from..to {
        join_number(alloc, deal, number, parts, made)?;
    }
    Ok(())
}

// Puts the part of this number below what there is. That a worker has taken it follows from no contract: a part that is missing is
// made here.
fn join_number(
    alloc: Global,
    deal: DealtRows,
    number: usize,
    parts: &[NumberedPart],
    made: &mut SchurRows,
) -> Result<(), AllocError>
    requires deal { AreDealtRows deal }
    requires number { number < deal.count }
    requires parts { All (IsNumbered deal.pass.reducer.now deal) parts.now }
    requires made { IsPartTo deal.pass.reducer.now deal.pass.with_coefficients
        deal.from (cut_at deal number) made.old }
    ensures { OnOk result (IsPartTo deal.entry.pass.reducer.now deal.entry.pass.with_coefficients
        deal.entry.from (cut_at deal.entry (number + 1)) made.new) }
{
    // The call's contract tells how high a matrix is.
    deal.pass.reducer.rows().is_sound();
    if let Some(part) = part_among(parts, number) {
        return join_below(made, part);
    }
    join_missing(alloc, deal, number, made)
}

// Makes the part of this number, and puts it below what there is.
fn join_missing(
    alloc: Global,
    deal: DealtRows,
    number: usize,
    made: &mut SchurRows,
) -> Result<(), AllocError>
    requires deal { AreDealtRows deal }
    requires number { number < deal.count }
    requires made { IsPartTo deal.pass.reducer.now deal.pass.with_coefficients
        deal.from (cut_at deal number) made.old }
    ensures { OnOk result (IsPartTo deal.entry.pass.reducer.now deal.entry.pass.with_coefficients
        deal.entry.from (cut_at deal.entry (number + 1)) made.new) }
{
    // The call's contract tells how high a matrix is.
    deal.pass.reducer.rows().is_sound();
    let part = part_alone(alloc, deal, number)?;
    join_below(made, &part)
}

// The part of this number, made in room of its own.
fn part_alone(alloc: Global, deal: DealtRows, number: usize) -> Result<SchurRows, AllocError>
    requires deal { AreDealtRows deal }
    requires number { number < deal.count }
    ensures { IfOk result (IsPartOf deal.entry.pass.reducer.now deal.entry number) }
{
    let mut work = deal.pass.reducer.work(alloc)?;
    part_by_number(alloc, deal, number, &mut work)
}

// Puts a part below what there is.
fn join_below(made: &mut SchurRows, part: &SchurRows) -> Result<(), AllocError>
    requires modulus { made.old.rows.modulus ≡ part.now.rows.modulus }
    requires width { made.old.rows.matrix.width ≡ part.now.rows.matrix.width }
    requires coefficient_modulus { made.old.coefficients.modulus ≡ part.now.coefficients.modulus }
    requires coefficient_width { made.old.coefficients.matrix.width ≡ part.now.coefficients.matrix.width }
    requires height { made.old.rows.matrix.height + part.now.rows.matrix.height ≤ LARGEST_SIZE }
    requires heights { made.old.coefficients.matrix.height
        + part.now.coefficients.matrix.height ≤ LARGEST_SIZE }
    ensures { OnOk result (Joins part.now made.old made.new) }
{
    made.rows.append_all(&part.rows)?;
    made.coefficients.append_all(&part.coefficients)
}
