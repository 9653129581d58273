// A run, from words and bytes to an answer.
ghost use Rattle.std.specs.Prelude.{◌≡◌, ◌<◌, ◌≤◌, ℕ, List, [], true, false, IfOk};
ghost use Rattle.residue_words.specs.declared.modulus.TheConstants.{MODULUS_BOUND};
ghost use Rattle.sms_text.specs.declared.reader.TheConstants.{LARGEST_INPUT};
ghost use Rattle.spasm_run.specs.Computed.{IsSmall, WasFound, WasWritten};
ghost use Rattle.spasm_words.specs.Options.{bytes_of};
ghost use Rattle.spasm_run.specs.Answers.{wanted};
ghost use Rattle.spasm_run.specs.Ran.{Ran, WantNothing};
ghost use Rattle.spasm_run.specs.Status.{SaysWhy, is_answered, is_written};
ghost use Rattle.spasm_words.specs.Words.{Accepted, IsOfSizes};

use crate::command_answer::CommandAnswer;
use crate::commands::{find_lawfulness, find_of_matrix, find_solution, find_summary, find_verdict};
use crate::read_matrices::{read_and_answer, read_one, read_to_check, read_to_replay, read_two};
use crate::status::Status;
use optimistic_search::Gate;
use residue_words::Modulus;
use sms_text::{LARGEST_INPUT, Sink, Source};
use spasm_words::{Command, Task, read_words};
use std::alloc::Global;
use std::thread::Threads;

/// Runs the command that the words ask for: reads its matrices from the source, and writes its answer to `out`, all at once and only if all
/// went well. Where it did not, one line that says why goes to `err`.
///
/// Words that aren't accepted are refused before anything is read, and nothing is read for a matrix that is generated. A source is read no
/// further than the pull, of at most 65536 bytes, in which the last line that is wanted ends. The lines may have `LARGEST_INPUT` bytes, and
/// the first faulty one is named. Memory is wanted for the entries, at most 40 bytes each while they are read and 84 where most
/// rows have none, for the rows, and for the echelon forms and what is made of them; none for writing.
/// `rt` starts the threads of a command's workers, no more of them than there is memory for beside the matrix, and `gate` serves
/// their searches for pivots.
pub fn run<'a, R: Threads + Sync, S: Source, K: Sink, E: Sink, G: Gate>(
    rt: &R,
    alloc: Global,
    words: &'a [&'a str],
    source: &mut S,
    out: &mut K,
    err: &mut E,
    gate: &G,
) -> Status
    ensures ran { Ran (record {
      words = bytes_of words.now;
      limit = LARGEST_INPUT;
      source = S.state source.old;
      source_after = S.state source.new;
      out = K.state out.old;
      out_after = K.state out.new;
    }) result }
    ensures err { SaysWhy result (E.state err.old) (E.state err.new) }
    ensures unread { WantNothing (bytes_of words.now) → source.new ≡ source.old }
    ensures unwritten { is_written result ≡ false → out.new ≡ out.old }
    ensures silent { is_answered result ≡ true → err.new ≡ err.old }
{
    run_within(rt, alloc, words, source, out, err, gate, LARGEST_INPUT)
}

/// The same for an input of at most `limit` bytes, a limit of at most `LARGEST_INPUT`.
pub fn run_within<'a, R: Threads + Sync, S: Source, K: Sink, E: Sink, G: Gate>(
    rt: &R,
    alloc: Global,
    words: &'a [&'a str],
    source: &mut S,
    out: &mut K,
    err: &mut E,
    gate: &G,
    limit: u64,
) -> Status
    requires { limit ≤ LARGEST_INPUT }
    ensures ran { Ran (record {
      words = bytes_of words.now;
      limit = limit;
      source = S.state source.old;
      source_after = S.state source.new;
      out = K.state out.old;
      out_after = K.state out.new;
    }) result }
    ensures err { SaysWhy result (E.state err.old) (E.state err.new) }
    ensures unread { WantNothing (bytes_of words.now) → source.new ≡ source.old }
    ensures unwritten { is_written result ≡ false → out.new ≡ out.old }
    ensures silent { is_answered result ≡ true → err.new ≡ err.old }
{
    let found = find(rt, alloc, words, source, gate, limit);
    let status = write_found(out, found);
    status.tell(err);
    status
}

// Writes the answer that was found, and tells how the run ends.
fn write_found<K: Sink>(out: &mut K, found: Result<CommandAnswer, Status>) -> Status
    requires { IfOk found IsSmall }
    ensures written { WasWritten found result (K.state out.old) (K.state out.new) }
    ensures unwritten { is_written result ≡ false → out.new ≡ out.old }
{
    match found {
        Ok(answer) => match answer.write(out) {
            Ok(()) => answer.status(),
            Err(_) => Status::WriteFault,
        },
        Err(status) => status,
    }
}

// The answer to what the words ask for, or how a run ends without one.
fn find<'a, R: Threads + Sync, S: Source, G: Gate>(
    rt: &R,
    alloc: Global,
    words: &'a [&'a str],
    source: &mut S,
    gate: &G,
    limit: u64,
) -> Result<CommandAnswer, Status>
    requires { limit ≤ LARGEST_INPUT }
    ensures found { WasFound (bytes_of words.now) limit result (S.state source.old) (S.state source.new) }
    ensures unread { WantNothing (bytes_of words.now) → source.new ≡ source.old }
    ensures small { IfOk result IsSmall }
{
    match read_words(alloc, words) {
        Ok(Some(command)) => find_for(rt, alloc, command, source, gate, limit),
        Ok(None) => Err(Status::Usage),
        Err(_) => Err(Status::Memory),
    }
}

// The answer to a command, or how a run ends without one.
fn find_for<R: Threads + Sync, S: Source, G: Gate>(
    rt: &R,
    alloc: Global,
    command: Command,
    source: &mut S,
    gate: &G,
    limit: u64,
) -> Result<CommandAnswer, Status>
    requires limit { limit ≤ LARGEST_INPUT }
    requires two_or_more { 2 ≤ command.modulus }
    requires in_range { command.modulus < MODULUS_BOUND }
    requires some { 1 ≤ command.workers }
    requires generator { IsOfSizes command.task }
    ensures found { (words : List (List ℕ)) → Accepted words command
        → WasFound words limit result (S.state source.old) (S.state source.new) }
    ensures unread { wanted command.task ≡ [] → source.new ≡ source.old }
    ensures small { IfOk result IsSmall }
{
    let p = Modulus::new(command.modulus);
    match command.task {
        Task::Solve => {
            let (a, b) = read_two(alloc, &p, source, limit)?;
            find_solution(rt, alloc, &a, &b, command, gate)
        }
        Task::Check => {
            let (a, certificate) = read_to_check(alloc, &p, source, limit)?;
            find_verdict(alloc, &a, &certificate)
        }
        Task::Replay => {
            let (a, trace) = read_to_replay(alloc, &p, source, limit)?;
            find_lawfulness(alloc, &a, &trace)
        }
        Task::Grow => {
            let answers = read_and_answer(alloc, &p, source, limit)?;
            Ok(CommandAnswer::Script(answers))
        }
        Task::Drill(generator) => find_summary(rt, alloc, &p, &generator, command, gate),
        _ => {
            let a = read_one(alloc, &p, source, limit)?;
            find_of_matrix(rt, alloc, &a, command, gate)
        }
    }
}
