//! Reads the values of `--dependencies`, in the notation of MCUboot's `imgtool`.

ghost use Rattle.std.specs.Prelude.{◌≡◌, IfOk, codes, map, option_map};
ghost use Rattle.std.specs.List.{AllZip};
ghost use Rattle.clap.specs.Words.{found_of, rows_of};
ghost use Rattle.command_line.specs.Given.{Finds};
ghost use Rattle.command_line.specs.Needs.{IsBracketed, bracketed_need, need_between};
ghost use Rattle.command_line.specs.Orders.{texts_at};

use crate::word_values::{WordReader, values_in};
use clap::ArgMatches;
use command_line::named;
use common::ascii::{cut, number_u8};
use std::alloc::{AllocError, Global};
use version_order::{Dependency, Version};

/// Returns the dependencies of all `--dependencies`, or `None` if a value isn't a list of
/// dependencies.
pub fn bracketed_in(
    alloc: Global,
    names: &ArgMatches<'_>,
) -> Result<Option<Vec<Dependency>>, AllocError>
    ensures { IfOk result (λ found.
        Finds (AllZip IsBracketed
        (texts_at (codes "dependencies") (rows_of (found_of names.now))))
        (option_map (λ dependencies. dependencies.items) found)) }
{
    values_in(alloc, names, named::DEPENDENCIES, &BracketReader)
}

/// Reads a dependency in brackets from a value.
#[derive(Clone, Copy)]
struct BracketReader;

impl WordReader<'_, Dependency> for BracketReader {
    ghost says = { λ _ word need. IsBracketed word need };

    fn read(&self, _alloc: Global, word: &str) -> Result<Option<Dependency>, AllocError> {
        Ok(bracketed_need(word))
    }
}

/// Reads a dependency: the number of an image and a version in brackets, separated by a comma,
/// which a space may follow. For example `(1, 2.0.0)`.
fn bracketed_need(word: &str) -> Option<Dependency>
    ensures { result ≡ bracketed_need word.now }
{
    match word.as_bytes() {
        [b'(', between @ .., b')'] => need_between(between),
        _ => None,
    }
}

/// Reads the dependency between the brackets.
fn need_between(text: &[u8]) -> Option<Dependency>
    ensures { result ≡ need_between text.now }
{
    let (image, version) = cut(text, b',');
    let version = match version? {
        [b' ', version @ ..] => version,
        version => version,
    };
    let image = number_u8(image)?;
    let minimum = Version::from_ascii(version).ok()?;
    Some(Dependency { image, minimum })
}
