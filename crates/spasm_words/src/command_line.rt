// The command line as `clap` takes it: the names of the commands, and of their options.
ghost use Rattle.std.specs.Prelude.{◌≡◌, IfOk, MatchOption, false, map};
ghost use Rattle.clap.specs.Words.{app_of, rule_of};
ghost use Rattle.clap.specs.declared.builder.command.Command.TheViews.{out-Command as fields_of};
ghost use Rattle.spasm_words.specs.Line.{command_line, command_named, option_rule, with_options};
ghost use Rattle.spasm_words.specs.Options.{IsBareTask};

use crate::command::Task;
use clap::{Arg, ArgAction};
use std::alloc::{AllocError, Global};

// The commands without options of their own: each one's name, with what it asks for.
static TASKS: [(&str, Task); 11] = [
    ("rank", Task::Rank),
    ("rref", Task::Rref),
    ("kernel", Task::Kernel),
    ("solve", Task::Solve),
    ("leftkernel", Task::LeftKernel),
    ("inverse", Task::Inverse),
    ("pivots", Task::Pivots),
    ("check", Task::Check),
    ("trace", Task::Trace),
    ("replay", Task::Replay),
    ("grow", Task::Grow),
];

// The names of the options that each command has.
static OPTIONS: [&str; 3] = ["modulus", "workers", "rounds"];

// The names of the options of `drill` alone.
static DRILL_OPTIONS: [&str; 4] = ["seed", "rows", "cols", "per"];

// The name of the option of `certify` alone.
static CERTIFY_OPTIONS: [&str; 1] = ["kind"];

/// The command line: one level of commands, each with options that take one value each and come once at most. There is no help
/// and no version, and the words begin behind the program's name.
pub fn command<'a>(alloc: Global) -> Result<clap::Command<'a>, AllocError>
    ensures { IfOk result (λ c. app_of c ≡ command_line) }
{
    let mut line = clap::Command::new(alloc, "spasm")
        .no_binary_name(true)
        .subcommand_required(true)
        .disable_help_flag(true)
        .disable_help_subcommand(true)
        .disable_version_flag(true);
    for (name, _) in &TASKS {
        let named = named_command(alloc, name, &[])?;
        line = line.subcommand(named)?;
    }
    let drill = named_command(alloc, "drill", &DRILL_OPTIONS)?;
    let line = line.subcommand(drill)?;
    let certify = named_command(alloc, "certify", &CERTIFY_OPTIONS)?;
    line.subcommand(certify)
}

// The command of this name, with the options of all commands and its own.
fn named_command<'a>(
    alloc: Global,
    name: &'a str,
    own: &'a [&'a str],
) -> Result<clap::Command<'a>, AllocError>
    ensures { IfOk result (λ c.
        (app_of c ≡ command_named name.entry.now (map (λ o. o.now) own.entry.now))
        × ((fields_of c).has_globals ≡ false)) }
{
    let named = clap::Command::new(alloc, name);
    let named = with_options(alloc, named, &OPTIONS)?;
    with_options(alloc, named, own)
}

/// The command with more options, of these names, which take one value each and come once at most.
pub fn with_options<'a>(
    alloc: Global,
    command: clap::Command<'a>,
    names: &'a [&'a str],
) -> Result<clap::Command<'a>, AllocError>
    requires { (fields_of command).has_globals ≡ false }
    ensures { IfOk result (λ c.
        (app_of c ≡ with_options (app_of command.entry) (map (λ o. o.now) names.entry.now))
        × ((fields_of c).has_globals ≡ false)) }
{
    let mut command = command;
    for name in names {
        command = command.arg(one_option(alloc, name))?;
    }
    Ok(command)
}

// The option of this name, which takes one value and comes once at most.
fn one_option<'a>(alloc: Global, name: &'a str) -> Arg<'a>
    ensures { (rule_of result ≡ option_rule name.entry.now) × (result.global ≡ false) }
{
    Arg::new(alloc, name).long(name).action(ArgAction::Set)
}

// The task of this name, if it has no options of its own.
pub(crate) fn bare_task(name: &str) -> Option<Task>
    ensures { MatchOption result ((t : Task) → ¬ IsBareTask name.now t) (IsBareTask name.now) }
{
    for (known, task) in &TASKS {
        if name == *known {
            return Some(*task);
        }
    }
    None
}
