// The command that words ask for.
ghost use Rattle.std.specs.Prelude.{◌≡◌, All, IfOk, MatchOption};
ghost use Rattle.clap.specs.Words.{found_of, rows_of, subcommand_rows_of};
ghost use Rattle.spasm_words.specs.Words.{own_settings};
ghost use Rattle.spasm_words.specs.Options.{AsksFor, IsCommandOf, IsTaskOf, RowsSet, bytes_of};
ghost use Rattle.spasm_words.specs.declared.command.Task.TheVariants as task;

use crate::command::{Command, Task};
use crate::command_line;
use crate::generator::{Generator, LARGEST_GENERATED, MOST_PER_ROW};
use crate::options::{has_dashes, number_of, taken_by};
use certificates::CertKind;
use clap::ArgMatches;
use residue_words::MODULUS_BOUND;
use std::alloc::{AllocError, Global};

/// The command that the words ask for: a task's name and its options, each given at most once, as `--name=value` or `--name value`.
/// `None` where the words aren't accepted. The only error is want of memory.
pub fn read_words<'a>(alloc: Global, words: &'a [&'a str]) -> Result<Option<Command>, AllocError>
    ensures { IfOk result (IsCommandOf (bytes_of words.now)) }
{
    if has_dashes(words) {
        return Ok(None);
    }
    let line = command_line::command(alloc)?;
    match taken_by(line, words)? {
        Some(matches) => Ok(command_of(&matches)),
        None => Ok(None),
    }
}

// The command that the matches give, where each number is in its range.
fn command_of(matches: &ArgMatches<'_>) -> Option<Command>
    ensures { MatchOption result
        ((c : Command) → ¬ AsksFor (subcommand_rows_of matches.now) c)
        (AsksFor (subcommand_rows_of matches.now)) }
{
    let (name, options) = matches.subcommand()?;
    let modulus = number_of(options, "modulus", 2, MODULUS_BOUND - 1, Some(42_013))?;
    let workers = number_of(options, "workers", 1, 64, Some(1))?;
    let rounds = number_of(options, "rounds", 0, 16, Some(3))?;
    let task = task_of(name, options)?;
    Some(Command {
        task,
        modulus,
        workers: workers as u32,
        rounds: rounds as u32,
    })
}

// The task of this name, with what its own options give.
fn task_of(name: &str, options: &ArgMatches<'_>) -> Option<Task>
    ensures { MatchOption result
        ((t : Task) → ¬ IsTaskOf name.now (rows_of (found_of options.now)) t)
        (IsTaskOf name.now (rows_of (found_of options.now))) }
{
    if name == "drill" {
        let generator = generator_of(options)?;
        return Some(Task::Drill(generator));
    }
    if name == "certify" {
        let kind = kind_of(options)?;
        return Some(Task::Certify(kind));
    }
    command_line::bare_task(name)
}

// What a matrix is to be generated from.
fn generator_of(options: &ArgMatches<'_>) -> Option<Generator>
    ensures { MatchOption result
        ((g : Generator) → ¬ All (RowsSet (rows_of (found_of options.now))) (own_settings (task.Drill g)))
        (λ g. All (RowsSet (rows_of (found_of options.now))) (own_settings (task.Drill g))) }
{
    let seed = number_of(options, "seed", 0, u64::MAX, None)?;
    let rows = number_of(options, "rows", 1, LARGEST_GENERATED, None)?;
    let cols = number_of(options, "cols", 1, LARGEST_GENERATED, None)?;
    let per = number_of(options, "per", 0, MOST_PER_ROW, None)?;
    Some(Generator {
        seed,
        rows: rows as u32,
        cols: cols as u32,
        per: per as u32,
    })
}

// The kind of the certificate that is asked for.
fn kind_of(options: &ArgMatches<'_>) -> Option<CertKind>
    ensures { MatchOption result
        ((k : CertKind) → ¬ All (RowsSet (rows_of (found_of options.now))) (own_settings (task.Certify k)))
        (λ k. All (RowsSet (rows_of (found_of options.now))) (own_settings (task.Certify k))) }
{
    let word = options.get_str("kind")?;
    CertKind::of_word(word.as_bytes())
}
