// The words of a batch's command line.
ghost use Rattle.std.specs.Prelude.{◌≡◌, IfOk, MatchOption};
ghost use Rattle.clap.specs.Words.{app_of, found_of, rows_of};
ghost use Rattle.spasm_words.specs.Options.{bytes_of};
ghost use Rattle.batch_solve.specs.BatchLine as spec;
ghost use Rattle.batch_solve.specs.BatchLine.{SetBatch};
ghost use Rattle.batch_solve.specs.BatchWords.{IsBatchOf, IsOneBatch};

use clap::ArgMatches;
use residue_words::MODULUS_BOUND;
use spasm_words::command_line::with_options;
use spasm_words::{has_dashes, number_of, taken_by};
use std::alloc::{AllocError, Global};

/// The most right-hand sides of a batch.
pub const LARGEST_COUNT: u64 = 1_000_000;

/// How many right-hand sides are to be answered, modulo what, and by how many workers.
#[derive(Clone, Copy, Debug, PartialEq, Eq)]
pub struct BatchCommand {
    /// How many right-hand sides there are, from 1 to `LARGEST_COUNT`.
    pub count: u32,
    /// The modulus, from 2 to 2^48 - 1.
    pub modulus: u64,
    /// How many workers share the work, from 1 to 64.
    pub workers: u32,
}

/// The batch that the words ask for: options, each given at most once, as `--name=value` or `--name value`, and the count among
/// them. `None` where the words aren't accepted. The only error is want of memory.
pub fn read_batch_words<'a>(
    alloc: Global,
    words: &'a [&'a str],
) -> Result<Option<BatchCommand>, AllocError>
    ensures { IfOk result (IsBatchOf (bytes_of words.now)) }
{
    if has_dashes(words) {
        return Ok(None);
    }
    let line = batch_line(alloc)?;
    match taken_by(line, words)? {
        Some(matches) => Ok(batch_of(&matches)),
        None => Ok(None),
    }
}

/// Words ask for one batch at most.
pub fn at_most_one_batch()
    ensures { IsOneBatch }
{}

// The names of the options.
static OPTIONS: [&str; 3] = ["count", "modulus", "workers"];

// The command line: options that take one value each and come once at most. There is no help and no version, and the words begin
// behind the program's name.
fn batch_line<'a>(alloc: Global) -> Result<clap::Command<'a>, AllocError>
    ensures { IfOk result (λ c. app_of c ≡ spec.batch_line) }
{
    let line = clap::Command::new(alloc, "spasm_batch")
        .no_binary_name(true)
        .disable_help_flag(true)
        .disable_version_flag(true);
    with_options(alloc, line, &OPTIONS)
}

// The batch that the matches give, where each number is in its range.
fn batch_of(matches: &ArgMatches<'_>) -> Option<BatchCommand>
    ensures { MatchOption result
        ((c : BatchCommand) → ¬ SetBatch (rows_of (found_of matches.now)) c)
        (SetBatch (rows_of (found_of matches.now))) }
{
    let count = number_of(matches, "count", 1, LARGEST_COUNT, None)?;
    let modulus = number_of(matches, "modulus", 2, MODULUS_BOUND - 1, Some(42_013))?;
    let workers = number_of(matches, "workers", 1, 64, Some(1))?;
    Some(BatchCommand {
        count: count as u32,
        modulus,
        workers: workers as u32,
    })
}
