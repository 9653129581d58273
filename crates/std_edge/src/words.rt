// The words of a command line.
ghost use Rattle.std.specs.Prelude.{◌≡◌, Err, IfOk, OnErr, map};
ghost use Rattle.sms_text.specs.Writing.{Writes};
ghost use Rattle.std_edge.specs.Edge.{AreWordsOf, line_without, reason_of, status_without, texts_of, words_behind};

use sms_text::{Sink, WriteFault, write_text};
use std::alloc::{AllocError, Global};
use std::env::{self, Args, Env};
use std::error::Error;
use std::fmt::{self, Display, Formatter};
use std::io::{self, ErrorKind};

/// Why a program has no words to run on.
#[derive(Clone, Copy, Debug, PartialEq, Eq)]
pub enum NoWords {
    /// One of them isn't UTF-8.
    NotText,
    /// Memory for them was refused.
    Memory,
}

impl NoWords {
    /// The exit status that says so: that of words that aren't accepted, or that of wanted memory.
    pub fn code(&self) -> u8
        ensures { result ≡ status_without self.now }
    {
        match self {
            NoWords::NotText => 2,
            NoWords::Memory => 8,
        }
    }

    /// Writes the line that says so to the error stream.
    pub fn tell<E: Sink>(self, err: &mut E) -> Result<(), WriteFault>
        ensures { Writes result (line_without self) (E.state err.old) (E.state err.new) }
    {
        match self {
            NoWords::NotText => write_text(err, "error 2 usage\n"),
            NoWords::Memory => write_text(err, "error 8 memory\n"),
        }
    }
}

impl Error for NoWords {}

impl Display for NoWords {
    fn fmt<W: fmt::Write>(&self, f: &mut Formatter<W>) -> fmt::Result {
        f.write_str(match self {
            NoWords::NotText => "error 2 usage",
            NoWords::Memory => "error 8 memory",
        })
    }
}

/// The words behind the program's name.
pub fn words_of<R: Env + Alloc<A = Global>>(rt: &R) -> Result<Vec<String>, NoWords> {
    words_from(rt.alloc(), env::args(rt))
}

// The words behind the program's name, of all words of the command line.
fn words_from(alloc: Global, args: io::Result<Args>) -> Result<Vec<String>, NoWords>
    ensures { AreWordsOf args result }
{
    match args {
        Ok(args) => words_behind_name(alloc, args),
        Err(error) => Err(reason(error.kind())),
    }
}

// Why there are no words, if reading them ended with an error of this kind.
fn reason(kind: ErrorKind) -> NoWords
    ensures { result ≡ reason_of kind }
{
    match kind {
        ErrorKind::OutOfMemory => NoWords::Memory,
        _ => NoWords::NotText,
    }
}

// All words but the first, in their order. The error is that memory for them is refused.
fn words_behind_name(alloc: Global, mut args: Args) -> Result<Vec<String>, NoWords>
    ensures words { IfOk result (λ words. words.items ≡ words_behind args) }
    ensures memory { OnErr result (result ≡ Err NoWords.Memory) }
{
    let mut words = Vec::new(alloc);
    let _name = args.next();
    for word in args {
        let Ok(()) = words.push(word) else {
            return Err(NoWords::Memory);
        };
    }
    Ok(words)
}

/// The words, lent: a list of them, in their order, as calls take it. It takes 16 bytes a word.
pub fn borrowed<'a>(alloc: Global, owned: &'a [String]) -> Result<Vec<&'a str>, AllocError>
    ensures { IfOk result (λ words. map (λ w. w.now) words.items ≡ texts_of owned.entry.now) }
{
    let mut words = Vec::with_capacity(alloc, owned.len())?;
    for word in owned {
        words.push(word.as_str())?;
    }
    Ok(words)
}
