// A batch, from words and bytes to its answers.
ghost use Rattle.std.specs.Prelude.{◌≡◌, ◌<◌, ◌≤◌, ◌^◌, All, IfOk, None, List, false, length, true, ℕ};
ghost use Rattle.residue_words.specs.declared.modulus.TheConstants.{MODULUS_BOUND};
ghost use Rattle.sms_text.specs.declared.reader.TheConstants.{LARGEST_INPUT};
ghost use Rattle.spasm_run.specs.Input.{IsOfText};
ghost use Rattle.spasm_words.specs.Options.{bytes_of};
ghost use Rattle.batch_solve.specs.declared.batch_words.TheConstants.{LARGEST_COUNT};
ghost use Rattle.batch_solve.specs.BatchAnswers.{batch_misfit};
ghost use Rattle.batch_solve.specs.BatchFound.{AreBatchReplies, ComesOfBatch, IsSmallReply, WereFound, WereWritten, matrices_of};
ghost use Rattle.batch_solve.specs.BatchRan.{BatchRan, IsOneBatchAnswer};
ghost use Rattle.batch_solve.specs.BatchStatus.{BatchSaysWhy, is_batch_done, is_batch_written};
ghost use Rattle.batch_solve.specs.BatchWords.{AcceptedBatch, AskForNoBatch};

use crate::all_replies::answer_all;
use crate::batch_status::BatchStatus;
use crate::batch_texts::{misfit_of, read_texts};
use crate::batch_words::{BatchCommand, read_batch_words};
use crate::watch::Watch;
use crate::written_replies::write_replies;
use kernel_solve::Reply;
use residue_words::Modulus;
use sms_text::{LARGEST_INPUT, Sink, Source};
use sparse_rows::Rows;
use spasm_lib::{Team, prepare};
use spasm_run::fitting_workers;
use std::alloc::{AllocError, Global};
use std::sync::Wait;
use std::thread::Threads;

/// A batch has one answer for the same words and bytes, where the modulus is prime.
pub fn at_most_one_batch_answer()
    ensures { IsOneBatchAnswer }
{}

/// Runs the batch that the words ask for: reads a matrix A and the right-hand sides b behind it from the source, and writes what
/// `solve` writes for A and each b to `out`, in their order, all at once and only if all went well. Where it did not, one line that
/// says why goes to `err`.
///
/// A is prepared once. Words that aren't accepted are refused before anything is read. The source is read no further than the pull,
/// of at most 65536 bytes, in which the closing line of the last text ends. The lines may have `LARGEST_INPUT` bytes, and the first
/// faulty one is named. Memory is wanted for the texts, for what A is prepared to, and for the replies; none for writing. `rt` starts
/// the threads of the workers, who take the right-hand sides at a desk, and `watch` is called where they do. It may wait: that it
/// returns isn't claimed.
pub fn run_batch<'a, R: Threads + Wait + Sync, S: Source, K: Sink, E: Sink, W: Watch>(
    rt: &R,
    alloc: Global,
    words: &'a [&'a str],
    source: &mut S,
    out: &mut K,
    err: &mut E,
    watch: &W,
) -> BatchStatus
    ensures ran { BatchRan (record {
      words = bytes_of words.now;
      limit = LARGEST_INPUT;
      source = S.state source.old;
      source_after = S.state source.new;
      out = K.state out.old;
      out_after = K.state out.new;
    }) result }
    ensures err { BatchSaysWhy result (E.state err.old) (E.state err.new) }
    ensures unread { AskForNoBatch (bytes_of words.now) → source.new ≡ source.old }
    ensures unwritten { is_batch_written result ≡ false → out.new ≡ out.old }
    ensures silent { is_batch_done result ≡ true → err.new ≡ err.old }
{
    run_batch_within(rt, alloc, words, source, out, err, watch, LARGEST_INPUT)
}

/// The same for an input of at most `limit` bytes, a limit of at most `LARGEST_INPUT`.
pub fn run_batch_within<'a, R: Threads + Wait + Sync, S: Source, K: Sink, E: Sink, W: Watch>(
    rt: &R,
    alloc: Global,
    words: &'a [&'a str],
    source: &mut S,
    out: &mut K,
    err: &mut E,
    watch: &W,
    limit: u64,
) -> BatchStatus
    requires { limit ≤ LARGEST_INPUT }
    ensures ran { BatchRan (record {
      words = bytes_of words.now;
      limit = limit;
      source = S.state source.old;
      source_after = S.state source.new;
      out = K.state out.old;
      out_after = K.state out.new;
    }) result }
    ensures err { BatchSaysWhy result (E.state err.old) (E.state err.new) }
    ensures unread { AskForNoBatch (bytes_of words.now) → source.new ≡ source.old }
    ensures unwritten { is_batch_written result ≡ false → out.new ≡ out.old }
    ensures silent { is_batch_done result ≡ true → err.new ≡ err.old }
{
    let found = find_replies(rt, alloc, words, source, watch, limit);
    let status = write_found(out, found);
    status.tell(err);
    status
}

// Writes the replies that were found, and tells how the batch ends.
fn write_found<K: Sink>(out: &mut K, found: Result<Vec<Reply>, BatchStatus>) -> BatchStatus
    requires { IfOk found (λ replies. All IsSmallReply replies.items) }
    ensures written { WereWritten found result (K.state out.old) (K.state out.new) }
    ensures unwritten { is_batch_written result ≡ false → out.new ≡ out.old }
{
    match found {
        Ok(replies) => match write_replies(out, &replies) {
            Ok(()) => BatchStatus::Done,
            Err(_) => BatchStatus::WriteFault,
        },
        Err(status) => status,
    }
}

// The replies to what the words ask for, or how a batch ends without them.
fn find_replies<'a, R: Threads + Wait + Sync, S: Source, W: Watch>(
    rt: &R,
    alloc: Global,
    words: &'a [&'a str],
    source: &mut S,
    watch: &W,
    limit: u64,
) -> Result<Vec<Reply>, BatchStatus>
    requires { limit ≤ LARGEST_INPUT }
    ensures found { WereFound (bytes_of words.now) limit result (S.state source.old) (S.state source.new) }
    ensures unread { AskForNoBatch (bytes_of words.now) → source.new ≡ source.old }
    ensures small { IfOk result (λ replies. All IsSmallReply replies.items) }
{
    match read_batch_words(alloc, words) {
        Ok(Some(command)) => answer_batch(rt, alloc, command, source, watch, limit),
        Ok(None) => Err(BatchStatus::Usage),
        Err(_) => Err(BatchStatus::Memory),
    }
}

// The replies to a batch, or how it ends without them.
fn answer_batch<R: Threads + Wait + Sync, S: Source, W: Watch>(
    rt: &R,
    alloc: Global,
    command: BatchCommand,
    source: &mut S,
    watch: &W,
    limit: u64,
) -> Result<Vec<Reply>, BatchStatus>
    requires limit { limit ≤ LARGEST_INPUT }
    requires count { command.count ≤ LARGEST_COUNT }
    requires two_or_more { 2 ≤ command.modulus }
    requires in_range { command.modulus < MODULUS_BOUND }
    requires some { 1 ≤ command.workers }
    ensures found { (words : List (List ℕ)) → AcceptedBatch words command
        → WereFound words limit result (S.state source.old) (S.state source.new) }
    ensures small { IfOk result (λ replies. All IsSmallReply replies.items) }
{
    let p = Modulus::new(command.modulus);
    let texts = read_texts(alloc, command.count + 1, &p, source, limit)?;
    answer_texts(rt, alloc, &p, &texts, command.workers, watch)
}

// The replies to the right-hand sides behind a matrix, or how a batch of them ends without replies.
fn answer_texts<R: Threads + Wait + Sync, W: Watch>(
    rt: &R,
    alloc: Global,
    p: &Modulus,
    texts: &[Rows],
    workers: u32,
    watch: &W,
) -> Result<Vec<Reply>, BatchStatus>
    requires some { 1 ≤ length texts.now }
    requires few { length texts.now < 2 ^ 32 }
    requires of_text { All (IsOfText p.now) texts.now }
    requires some_workers { 1 ≤ workers }
    ensures comes { ComesOfBatch p.now (matrices_of texts.now) result }
    ensures small { IfOk result (λ replies. All IsSmallReply replies.items) }
{
    match misfit_of(texts) {
        Some(status) => Err(status),
        None => {
            let replies = replies_to(rt, alloc, p, texts, workers, watch)?;
            Ok(replies)
        }
    }
}

// Replies to the right-hand sides behind a matrix.
fn replies_to<R: Threads + Wait + Sync, W: Watch>(
    rt: &R,
    alloc: Global,
    p: &Modulus,
    texts: &[Rows],
    workers: u32,
    watch: &W,
) -> Result<Vec<Reply>, AllocError>
    requires some { 1 ≤ length texts.now }
    requires few { length texts.now < 2 ^ 32 }
    requires of_text { All (IsOfText p.now) texts.now }
    requires fits { batch_misfit (matrices_of texts.now) ≡ None }
    requires some_workers { 1 ≤ workers }
    ensures { IfOk result (λ replies. AreBatchReplies p.now (matrices_of texts.now) replies.items) }
{
    let a = &texts[0];
    // The proof wants that A is a matrix of residues.
    a.is_sound();
    let workers = fitting_workers(a, workers);
    let team = Team {
        workers,
        ..Team::of(rt, alloc)
    };
    let prepared = prepare(team, a)?;
    answer_all(rt, alloc, &prepared, &texts[1..], workers, watch)
}
