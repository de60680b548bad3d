//! Reads the arguments of `make-image`.

ghost use Rattle.std.specs.Prelude.{◌≡◌, ◌^◌, IfOk, codes, map, option_map};
ghost use Rattle.std.specs.List.{AllZip};
ghost use Rattle.clap.specs.Words.{found_of, rows_of};
ghost use Rattle.command_line.specs.Given.{Finds};
ghost use Rattle.command_line.specs.Needs.{AreNeeds, IsNeed, need_of, needs_of, spaced};
ghost use Rattle.command_line.specs.Orders.{HasNumber, SaysDependencies, SaysImage};
ghost use Rattle.command_line.specs.Orders.{texts_at, version_at};

use crate::bracketed_words::bracketed_in;
use crate::device_words::number_in;
use crate::order_fault_texts;
use crate::size_words::{header_size_in, size_said};
use crate::word_values::{WordReader, values_in};
use clap::ArgMatches;
use command_line::{NewImage, name_in, named};
use common::ascii::number_u8;
use std::alloc::{AllocError, Global};
use version_order::{Dependency, Version};

/// Returns the image that the arguments describe, or `None` if one of them isn't valid.
pub fn image_values_in(
    alloc: Global,
    names: &ArgMatches<'_>,
) -> Result<Option<NewImage>, AllocError>
    ensures { IfOk result (Finds (SaysImage (rows_of (found_of names.now)))) }
{
    let Some(version) = version_in(names) else {
        return Ok(None);
    };
    let Some(counter) = number_said(names, named::COUNTER) else {
        return Ok(None);
    };
    let Some(dependencies) = dependencies_in(alloc, names)? else {
        return Ok(None);
    };
    let Some(groups) = groups_in(alloc, names)? else {
        return Ok(None);
    };
    let Some(header_size) = header_size_in(names) else {
        return Ok(None);
    };
    let Some(load_address) = size_said(names, named::LOAD_ADDRESS) else {
        return Ok(None);
    };
    let Some(flags) = size_said(names, named::FLAGS) else {
        return Ok(None);
    };
    Ok(Some(NewImage {
        version,
        counter,
        dependencies,
        groups,
        header_size,
        load_address,
        flags,
    }))
}

/// Returns the text of the first fault of arguments that describe no image.
pub fn invalid_image(alloc: Global, names: &ArgMatches<'_>) -> Result<&'static str, AllocError> {
    if version_in(names).is_none() {
        return Ok(order_fault_texts::NO_VERSION);
    }
    if number_said(names, named::COUNTER).is_none() {
        return Ok(order_fault_texts::NO_COUNTER);
    }
    if header_size_in(names).is_none() {
        return Ok(order_fault_texts::NO_HEADER_SIZE);
    }
    if size_said(names, named::LOAD_ADDRESS).is_none() {
        return Ok(order_fault_texts::NO_LOAD_ADDRESS);
    }
    if size_said(names, named::FLAGS).is_none() {
        return Ok(order_fault_texts::NO_FLAGS);
    }
    if needs_in_words(alloc, names)?.is_none() {
        return Ok(order_fault_texts::NO_NEEDS);
    }
    match bracketed_in(alloc, names)? {
        None => Ok(order_fault_texts::NO_DEPENDENCIES),
        Some(_) => Ok(order_fault_texts::NO_NEEDS_ONE),
    }
}

/// Returns the version that is given.
fn version_in(names: &ArgMatches<'_>) -> Option<Version>
    ensures { result ≡ version_at (rows_of (found_of names.now)) }
{
    Version::parse(name_in(names, named::VERSION)?).ok()
}

/// Returns the number for this argument, if one is given. Returns `None` if the value isn't a
/// number.
pub fn number_said(names: &ArgMatches<'_>, argument: &str) -> Option<Option<u32>>
    ensures { Finds (HasNumber argument.now (2 ^ 32) (rows_of (found_of names.now))) result }
{
    if name_in(names, argument).is_none() {
        return Some(None);
    }
    Some(Some(number_in(names, argument)?))
}

/// Returns the dependencies that are given: those of `--needs`, then those in brackets. Returns
/// `None` if one of the values isn't a dependency.
fn dependencies_in(
    alloc: Global,
    names: &ArgMatches<'_>,
) -> Result<Option<Vec<Dependency>>, AllocError>
    ensures { IfOk result (λ found. Finds (SaysDependencies (rows_of (found_of names.now)))
        (option_map (λ dependencies. dependencies.items) found)) }
{
    let Some(mut dependencies) = needs_in_words(alloc, names)? else {
        return Ok(None);
    };
    let Some(bracketed) = bracketed_in(alloc, names)? else {
        return Ok(None);
    };
    dependencies.extend_from_slice(&bracketed)?;
    Ok(Some(dependencies))
}

/// Returns the dependencies of all `--needs`, or `None` if one of the values isn't a dependency.
fn needs_in_words(
    alloc: Global,
    names: &ArgMatches<'_>,
) -> Result<Option<Vec<Dependency>>, AllocError>
    ensures { IfOk result (λ found.
        Finds (AllZip IsNeed (texts_at (codes "needs") (rows_of (found_of names.now))))
        (option_map (λ dependencies. dependencies.items) found)) }
{
    values_in(alloc, names, named::NEEDS, &NeedReader)
}

/// Returns the groups that are given, or `None` if one of the values isn't a group.
fn groups_in(
    alloc: Global,
    names: &ArgMatches<'_>,
) -> Result<Option<Vec<Vec<Dependency>>>, AllocError>
    ensures { IfOk result (Finds (λ groups. AllZip (λ word group. AreNeeds word group.items)
        (texts_at (codes "needs-one") (rows_of (found_of names.now))) groups.items)) }
{
    values_in(alloc, names, named::NEEDS_ONE, &GroupReader)
}

/// Reads a single dependency from a value of `--needs`.
#[derive(Clone, Copy)]
struct NeedReader;

impl WordReader<'_, Dependency> for NeedReader {
    ghost says = { λ _ word need. IsNeed word need };

    fn read(&self, alloc: Global, word: &str) -> Result<Option<Dependency>, AllocError> {
        dependency_of(alloc, word)
    }
}

/// Reads a group from a value of `--needs-one`.
#[derive(Clone, Copy)]
struct GroupReader;

impl WordReader<'_, Vec<Dependency>> for GroupReader {
    ghost says = { λ _ word group. AreNeeds word group.items };

    fn read(&self, alloc: Global, word: &str) -> Result<Option<Vec<Dependency>>, AllocError> {
        needs_in(alloc, word)
    }
}

/// Reads a single dependency.
fn dependency_of(alloc: Global, word: &str) -> Result<Option<Dependency>, AllocError>
    ensures { IfOk result (Finds (IsNeed word.now)) }
{
    let Some(needs) = needs_in(alloc, word)? else {
        return Ok(None);
    };
    match needs.as_slice() {
        [need] => Ok(Some(*need)),
        _ => Ok(None),
    }
}

/// Reads dependencies: for each the number of an image and a version, separated by spaces.
fn needs_in(alloc: Global, word: &str) -> Result<Option<Vec<Dependency>>, AllocError>
    ensures { IfOk result (λ needs. option_map (λ needs. needs.items) needs
        ≡ needs_of (spaced word.now)) }
{
    let words = spaced_words(alloc, word)?;
    needs_of(alloc, &words)
}

/// Returns the words of a text that are separated by spaces.
fn spaced_words<'a>(alloc: Global, text: &'a str) -> Result<Vec<&'a str>, AllocError>
    ensures { IfOk result (λ words. map (λ word. word.now) words.items ≡ spaced text.now) }
{
    text.split(' ').collect(alloc)
}

/// Reads dependencies, each from two words.
fn needs_of(alloc: Global, words: &[&str]) -> Result<Option<Vec<Dependency>>, AllocError>
    ensures { IfOk result (λ needs. option_map (λ needs. needs.items) needs
        ≡ needs_of (map (λ word. word.now) words.now)) }
{
    let mut needs = Vec::new(alloc);
    let mut rest = words;
    while let [image, minimum, after @ ..] = rest {
        let Some(need) = need_of(image, minimum) else {
            return Ok(None);
        };
        needs.push(need)?;
        rest = after;
    }
    if rest.is_empty() {
        Ok(Some(needs))
    } else {
        Ok(None)
    }
}

/// Reads a dependency from two words.
fn need_of(image: &str, minimum: &str) -> Option<Dependency>
    ensures { result ≡ need_of image.now minimum.now }
{
    let image = number_u8(image.as_bytes())?;
    let minimum = Version::parse(minimum).ok()?;
    Some(Dependency { image, minimum })
}
