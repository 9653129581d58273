//! The reduced row echelon form of rows that are appended one after another, with questions between them, and the scripts that
//! give such rows and questions as texts.
#![tactic(auto)]

mod answering;
mod grow;
mod numbering;
mod reduced_form;
mod script;
mod scripts;
mod writing;

ghost use Rattle.grow_form.specs.Example.{IsWorkedScript};

pub use answering::{Answer, answer_line};
pub use grow::Grow;
pub use script::{ScriptLine, script_line};
pub use scripts::answer_script;
pub use writing::write_answers;

/// A small script worked: what its lines are answered.
pub fn script_is_worked()
    ensures { IsWorkedScript }
{}
