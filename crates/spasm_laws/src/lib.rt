//! Laws of the program's runs. Each contract is a fact, and its body is empty; no program stands on them.
#![tactic(auto)]

ghost use Rattle.spasm_run.specs.Answers.{IsOneAnswer};
ghost use Rattle.spasm_words.specs.Options.{AcceptedIsPlain, IsOneCommand};
ghost use Rattle.spasm_laws.specs.Checked.{CheckedIsTrue};
ghost use Rattle.spasm_laws.specs.Continuing.{AreClosedTexts, CertifiedIsChecked, TracedIsReplayed};
ghost use Rattle.spasm_laws.specs.Examples.{AreWorkedRuns};

/// Words ask for one command at most.
pub fn at_most_one_command()
    ensures { IsOneCommand }
{}

/// No word that is accepted is `--`, no value that is given begins with `-`, and no name has an `=`.
pub fn accepted_words_are_plain()
    ensures { AcceptedIsPlain }
{}

/// A command has one answer for the matrices that it is given.
pub fn at_most_one_answer()
    ensures { IsOneAnswer }
{}

/// If `check` ends with 0, modulo a prime, what the certificate says of the matrix is so, whoever wrote it.
pub fn checked_is_true()
    ensures { CheckedIsTrue }
{}

/// Modulo a prime, what `certify` wrote for a matrix text, put behind this text, is answered `yes` by `check`, unless memory is wanted.
pub fn certified_is_checked()
    ensures { CertifiedIsChecked }
{}

/// What `trace` wrote for a matrix text, put behind this text, is answered `yes` by `replay`, unless memory is wanted.
pub fn traced_is_replayed()
    ensures { TracedIsReplayed }
{}

/// Texts that are closed by their last line, and texts that aren't.
pub fn closed_texts_are_worked()
    ensures { AreClosedTexts }
{}

/// What a run reads, writes and refuses, worked on small examples.
pub fn runs_are_worked()
    ensures { AreWorkedRuns }
{}
