// What each command answers to the matrices that were read.
ghost use Rattle.std.specs.Prelude.{◌≡◌, ◌≤◌, ◌<◌, [], ◌∷◌, IfOk};
ghost use Rattle.sparse_rows.specs.Rows.{LARGEST_SIZE};
ghost use Rattle.sms_text.specs.Text.{Header};
ghost use Rattle.certificates.specs.Certificate.{AreModulo};
ghost use Rattle.spasm_run.specs.Answers.{wanted};
ghost use Rattle.spasm_run.specs.Computed.{ComesOf, ComesOfContents, IsSmall, asking};
ghost use Rattle.spasm_run.specs.Contents.{AreToCheck, AreToReplay, Contents};
ghost use Rattle.spasm_words.specs.Generator.{HasSizesInRange};
ghost use Rattle.spasm_words.specs.declared.command.Command.{Command};
ghost use Rattle.spasm_words.specs.declared.command.Task.TheVariants as task;

use crate::command_answer::CommandAnswer;
use crate::status::Status;
use crate::summary::Summary;
use certificates::{CertKind, Certificate};
use optimistic_search::Gate;
use residue_words::Modulus;
use run_trace::{Trace, replay, trace_of};
use sparse_rows::Rows;
use spasm_lib::{Inverse, Solution, Team, Threaded};
use spasm_words::{Command, Generator, Task};
use std::alloc::Global;
use std::thread::Threads;

/// The most rows of a matrix that is inverted, 2^30.
pub const LARGEST_INVERTED: u32 = 1_073_741_824;

// What workers may take in bytes beside the matrix: as many an entry, and as many in any case.
const ROOM_AN_ENTRY: u64 = 24;

const ROOM_ANYWAY: u64 = 4_194_304;

// What each of them takes a column: for a row that it reduces, and for what it has seen of the pivots.
const BYTES_A_COLUMN: u64 = 20;

// What each of them takes in any case: its stack, the parts that it makes, and what the allocator keeps for its thread.
const BYTES_A_WORKER: u64 = 524_288;

/// How many workers go at once on a matrix if so many are asked for, at least one: several if several are, but no more than 64, nor
/// than there is room for beside the matrix, so that they take at most about twice the memory of one.
pub fn fitting_workers(a: &Rows, asked: u32) -> u32
    requires { 1 ≤ asked }
    ensures some { 1 ≤ result }
    ensures one_worker { asked ≡ 1 → result ≡ 1 }
{
    let room = ROOM_AN_ENTRY
        .saturating_mul(a.entries())
        .saturating_add(ROOM_ANYWAY);
    let each = BYTES_A_COLUMN * u64::from(a.width()) + BYTES_A_WORKER;
    asked.min((room / each).clamp(2, 64) as u32)
}

// By whom a command is worked out on a matrix, and how.
fn team_of<'a, R: Threads, G>(
    rt: &'a R,
    alloc: Global,
    a: &Rows,
    command: Command,
    gate: &'a G,
) -> Team<'a, Threaded<'a, R>, G>
    requires { 1 ≤ command.workers }
    ensures some { 1 ≤ result.workers }
    ensures one_worker { command.workers ≡ 1 → result.workers ≡ 1 }
    ensures rounds { result.rounds ≡ command.rounds }
{
    Team {
        crew: Threaded::of(rt),
        alloc,
        workers: fitting_workers(a, command.workers),
        rounds: command.rounds,
        gate,
    }
}

// The answer to a command that reads one matrix and nothing else.
pub(crate) fn find_of_matrix<R: Threads + Sync, G: Gate>(
    rt: &R,
    alloc: Global,
    a: &Rows,
    command: Command,
    gate: &G,
) -> Result<CommandAnswer, Status>
    requires some { 1 ≤ command.workers }
    requires height { a.now.matrix.height < LARGEST_SIZE }
    requires width { a.now.matrix.width < LARGEST_SIZE }
    requires one { wanted command.task ≡ Header ∷ [] }
    ensures { ComesOf (asking command.task a.now.modulus command) (a.now.matrix ∷ []) result }
{
    match command.task {
        Task::Rank => find_rank(rt, alloc, a, command, gate),
        Task::Rref => find_form(rt, alloc, a, command, gate),
        Task::Kernel => find_kernel(rt, alloc, a, command, gate),
        Task::LeftKernel => find_left_kernel(rt, alloc, a, command, gate),
        Task::Inverse => find_inverse(rt, alloc, a, command, gate),
        Task::Pivots => find_pivots(rt, alloc, a, command, gate),
        Task::Trace => find_trace(rt, alloc, a, command, gate),
        Task::Certify(kind) => find_certificate(rt, alloc, a, kind, command, gate),
        _ => unreachable!(),
    }
}

// The rank of a matrix.
fn find_rank<R: Threads + Sync, G: Gate>(
    rt: &R,
    alloc: Global,
    a: &Rows,
    command: Command,
    gate: &G,
) -> Result<CommandAnswer, Status>
    requires some { 1 ≤ command.workers }
    ensures { ComesOf (asking task.Rank a.now.modulus command) (a.now.matrix ∷ []) result }
{
    let rank = spasm_lib::rank(team_of(rt, alloc, a, command, gate), a)?;
    Ok(CommandAnswer::Rank(u64::from(rank)))
}

// The structural pivots of a matrix in triangular order.
fn find_pivots<R: Threads + Sync, G: Gate>(
    rt: &R,
    alloc: Global,
    a: &Rows,
    command: Command,
    gate: &G,
) -> Result<CommandAnswer, Status>
    requires some { 1 ≤ command.workers }
    requires height { a.now.matrix.height < LARGEST_SIZE }
    requires width { a.now.matrix.width < LARGEST_SIZE }
    ensures { ComesOf (asking task.Pivots a.now.modulus command) (a.now.matrix ∷ []) result }
{
    let pairs = spasm_lib::pivots(team_of(rt, alloc, a, command, gate), a)?;
    Ok(CommandAnswer::Pivots(pairs))
}

// The echelon form of a matrix.
fn find_form<R: Threads + Sync, G: Gate>(
    rt: &R,
    alloc: Global,
    a: &Rows,
    command: Command,
    gate: &G,
) -> Result<CommandAnswer, Status>
    requires some { 1 ≤ command.workers }
    requires width { a.now.matrix.width < LARGEST_SIZE }
    ensures { ComesOf (asking task.Rref a.now.modulus command) (a.now.matrix ∷ []) result }
{
    let form = spasm_lib::rref(team_of(rt, alloc, a, command, gate), a)?;
    Ok(CommandAnswer::Matrix(form))
}

// A summary of the echelon form of a matrix that is generated modulo p.
pub(crate) fn find_summary<R: Threads + Sync, G: Gate>(
    rt: &R,
    alloc: Global,
    p: &Modulus,
    generator: &Generator,
    command: Command,
    gate: &G,
) -> Result<CommandAnswer, Status>
    requires some { 1 ≤ command.workers }
    requires sizes { HasSizesInRange generator.now }
    ensures { ComesOf (asking (task.Drill generator.now) p.now command) [] result }
{
    let a = generator.matrix(alloc, p)?;
    let form = spasm_lib::rref(team_of(rt, alloc, &a, command, gate), &a)?;
    Ok(CommandAnswer::Summary(Summary::of(&form)))
}

// The kernel basis of a matrix.
fn find_kernel<R: Threads + Sync, G: Gate>(
    rt: &R,
    alloc: Global,
    a: &Rows,
    command: Command,
    gate: &G,
) -> Result<CommandAnswer, Status>
    requires some { 1 ≤ command.workers }
    requires width { a.now.matrix.width < LARGEST_SIZE }
    ensures { ComesOf (asking task.Kernel a.now.modulus command) (a.now.matrix ∷ []) result }
{
    let basis = spasm_lib::kernel(team_of(rt, alloc, a, command, gate), a)?;
    Ok(CommandAnswer::Matrix(basis))
}

// The kernel basis of the transposed matrix.
fn find_left_kernel<R: Threads + Sync, G: Gate>(
    rt: &R,
    alloc: Global,
    a: &Rows,
    command: Command,
    gate: &G,
) -> Result<CommandAnswer, Status>
    requires some { 1 ≤ command.workers }
    requires height { a.now.matrix.height < LARGEST_SIZE }
    ensures { ComesOf (asking task.LeftKernel a.now.modulus command) (a.now.matrix ∷ []) result }
{
    let basis = spasm_lib::left_kernel(team_of(rt, alloc, a, command, gate), a)?;
    Ok(CommandAnswer::Matrix(basis))
}

// The inverse of a matrix, or a null vector. A matrix that isn't square is refused, and one of more than 2^30 rows.
fn find_inverse<R: Threads + Sync, G: Gate>(
    rt: &R,
    alloc: Global,
    a: &Rows,
    command: Command,
    gate: &G,
) -> Result<CommandAnswer, Status>
    requires some { 1 ≤ command.workers }
    ensures { ComesOf (asking task.Inverse a.now.modulus command) (a.now.matrix ∷ []) result }
{
    let height = a.height();
    let width = a.width();
    if height != width {
        return Err(Status::Shape { height, width });
    }
    if LARGEST_INVERTED < height {
        return Err(Status::Wide { height, width });
    }
    match spasm_lib::inverse(team_of(rt, alloc, a, command, gate), a)? {
        Inverse::Found(b) => Ok(CommandAnswer::Inverse(b)),
        Inverse::Singular(v) => Ok(CommandAnswer::Singular(v)),
    }
}

// The reduced solution of A x = b, or what refutes it. A right-hand side that isn't a column as long as A is high is refused.
pub(crate) fn find_solution<R: Threads + Sync, G: Gate>(
    rt: &R,
    alloc: Global,
    a: &Rows,
    b: &Rows,
    command: Command,
    gate: &G,
) -> Result<CommandAnswer, Status>
    requires some { 1 ≤ command.workers }
    requires moduli { a.now.modulus ≡ b.now.modulus }
    requires height { a.now.matrix.height < LARGEST_SIZE }
    requires width { a.now.matrix.width < LARGEST_SIZE }
    ensures { ComesOf (asking task.Solve a.now.modulus command) (a.now.matrix ∷ b.now.matrix ∷ []) result }
{
    let height = b.height();
    let width = b.width();
    if height != a.height() || width != 1 {
        return Err(Status::Shape { height, width });
    }
    match spasm_lib::solve(team_of(rt, alloc, a, command, gate), a, b)? {
        Solution::Found(x) => Ok(CommandAnswer::Solution(x)),
        Solution::Refuted(y) => Ok(CommandAnswer::Refutation(y)),
    }
}

// A certificate of this kind.
fn find_certificate<R: Threads + Sync, G: Gate>(
    rt: &R,
    alloc: Global,
    a: &Rows,
    kind: CertKind,
    command: Command,
    gate: &G,
) -> Result<CommandAnswer, Status>
    requires some { 1 ≤ command.workers }
    requires height { a.now.matrix.height < LARGEST_SIZE }
    requires width { a.now.matrix.width < LARGEST_SIZE }
    ensures { ComesOf (asking (task.Certify kind) a.now.modulus command) (a.now.matrix ∷ []) result }
{
    let certificate = spasm_lib::certificate(team_of(rt, alloc, a, command, gate), a, kind)?;
    Ok(CommandAnswer::Certificate(certificate))
}

// Whether a certificate is valid for a matrix, by multiplying: nothing is eliminated.
pub(crate) fn find_verdict(
    alloc: Global,
    a: &Rows,
    certificate: &Certificate,
) -> Result<CommandAnswer, Status>
    requires { AreModulo a.now.modulus certificate.now }
    ensures comes { (c : Command) (said : Contents) → AreToCheck a.now certificate.now said
        → ComesOfContents (asking task.Check a.now.modulus c) said result }
    ensures small { IfOk result IsSmall }
{
    let valid = spasm_lib::check(alloc, a, certificate)?;
    Ok(CommandAnswer::Verdict(valid))
}

// What a search published that begins with the leftmost pivots, in its order.
fn find_trace<R: Threads + Sync, G: Gate>(
    rt: &R,
    alloc: Global,
    a: &Rows,
    command: Command,
    gate: &G,
) -> Result<CommandAnswer, Status>
    requires some { 1 ≤ command.workers }
    requires height { a.now.matrix.height < LARGEST_SIZE }
    requires width { a.now.matrix.width < LARGEST_SIZE }
    ensures { ComesOf (asking task.Trace a.now.modulus command) (a.now.matrix ∷ []) result }
{
    let workers = fitting_workers(a, command.workers);
    let trace = trace_of(rt, alloc, a, workers, gate)?;
    Ok(CommandAnswer::Trace(trace))
}

// Whether a trace is lawful for a matrix, by a walk for each of its publications.
pub(crate) fn find_lawfulness(
    alloc: Global,
    a: &Rows,
    trace: &Trace,
) -> Result<CommandAnswer, Status>
    ensures comes { (c : Command) (said : Contents) → AreToReplay a.now trace.now said
        → ComesOfContents (asking task.Replay a.now.modulus c) said result }
    ensures small { IfOk result IsSmall }
{
    let lawful = replay(alloc, a, trace)?;
    Ok(CommandAnswer::Verdict(lawful))
}
