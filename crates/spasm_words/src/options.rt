// What `clap` takes of words, and the numbers that options give.
ghost use Rattle.std.specs.Prelude.{◌≡◌, ℕ, true, codes, IfOk, MatchOption};
ghost use Rattle.std.specs.List.{list_any};
ghost use Rattle.std.specs.Str.{bytes_eq};
ghost use Rattle.clap.specs.Words.{app_of, first_value, found_of, is_simple_and_free};
ghost use Rattle.spasm_words.specs.Words.{InRange, IsInRange};
ghost use Rattle.spasm_words.specs.Options.{AreTaken, IsNumberOf, bytes_of};

use clap::ArgMatches;
use clap::error::ErrorKind;
use std::alloc::AllocError;

/// Whether one of the words is `--`.
pub fn has_dashes(words: &[&str]) -> bool
    ensures { result ≡ list_any (λ word. bytes_eq word.now (codes "--")) words.now }
{
    words.iter().any(|word| *word == "--")
}

/// What `clap` makes of the words for a command line, where it takes them.
pub fn taken_by<'a>(
    line: clap::Command<'a>,
    words: &'a [&'a str],
) -> Result<Option<ArgMatches<'a>>, AllocError>
    requires { is_simple_and_free (app_of line) ≡ true }
    ensures { IfOk result (AreTaken (app_of line.entry) (bytes_of words.now)) }
{
    match line.try_get_matches_from(words) {
        Ok(matches) => Ok(Some(matches)),
        Err(error) => {
            if error.kind() == ErrorKind::OutOfMemory {
                return Err(AllocError);
            }
            Ok(None)
        }
    }
}

/// The number from `low` to `high` that the option of this name gives, or the one that stands where it is absent.
pub fn number_of(
    options: &ArgMatches<'_>,
    name: &str,
    low: u64,
    high: u64,
    absent: Option<u64>,
) -> Option<u64>
    ensures { IsNumberOf (record { name = name.now; values = InRange low high; absent = absent })
        (first_value (found_of options.now) name.now) result }
{
    match options.get_str(name) {
        Some(text) => number_in(text.as_bytes(), low, high),
        None => absent,
    }
}

// The number that digits spell, if it lies from low to high.
fn number_in(word: &[u8], low: u64, high: u64) -> Option<u64>
    ensures { MatchOption result ((n : ℕ) → ¬ IsInRange low high word.now n) (IsInRange low high word.now) }
{
    if word.is_empty() {
        return None;
    }
    let mut number = 0u64;
    for b in word {
        if !b.is_ascii_digit() {
            return None;
        }
        number = number.checked_mul(10)?.checked_add(u64::from(*b - b'0'))?;
    }
    if number < low || high < number {
        return None;
    }
    Some(number)
}
