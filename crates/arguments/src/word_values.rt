//! Reads the values of an argument, each from one word.

ghost use Rattle.std.specs.Prelude.{ℕ, IfOk, List, map, option_map};
ghost use Rattle.std.specs.List.{AllZip};
ghost use Rattle.clap.specs.Words.{found_of, rows_of};
ghost use Rattle.command_line.specs.Given.{Finds};
ghost use Rattle.command_line.specs.Orders.{texts_at};

use clap::ArgMatches;
use command_line::names_in;
use std::alloc::{AllocError, Global};

/// Reads a value from a word.
pub trait WordReader<'a, T> {
    /// The word is read as this value.
    ghost says: { Self → List ℕ → T → Type 0 };

    /// Returns the value of a word, or `None` if it has none.
    fn read(&self, alloc: Global, word: &'a str) -> Result<Option<T>, AllocError>
        ensures { IfOk result (Finds (says self.now word.entry.now)) };
}

/// Returns the values that are given for this argument, one for each word. Returns `None` if a word
/// has no value.
pub fn values_in<'a, T: Drop, R: WordReader<'a, T>>(
    alloc: Global,
    names: &ArgMatches<'a>,
    argument: &str,
    reader: &R,
) -> Result<Option<Vec<T>>, AllocError>
    ensures { IfOk result (λ found.
        Finds (AllZip (R.says reader.now) (texts_at argument.now (rows_of (found_of names.now))))
        (option_map (λ values. values.items) found)) }
{
    match names_in(names, argument) {
        Some(words) => values_of(alloc, reader, words),
        None => Ok(Some(Vec::new(alloc))),
    }
}

/// Returns the values of these words, one for each. Returns `None` if one of them has no value.
pub fn values_of<'a, T: Drop, R: WordReader<'a, T>>(
    alloc: Global,
    reader: &R,
    words: &[&'a str],
) -> Result<Option<Vec<T>>, AllocError>
    ensures { IfOk result (λ found.
        Finds (AllZip (R.says reader.now) (map (λ word. word.now) words.now))
        (option_map (λ values. values.items) found)) }
{
    let mut values = Vec::new(alloc);
    for word in words {
        let Some(value) = reader.read(alloc, word)? else {
            return Ok(None);
        };
        values.push(value)?;
    }
    Ok(Some(values))
}
