//! Reads the matches of `clap` for the program's arguments.

ghost use Rattle.std.specs.Prelude.{◌≡◌, IfErr, IfOk, [], map, option_map};
ghost use Rattle.clap.specs.Words.{HasKind, all_of, fault_of, first_of, found_of};
ghost use Rattle.clap.specs.Words.{rows_of, subcommand_of, subcommand_rows_of};
ghost use Rattle.command_line.specs.Commands.{bootswap};
ghost use Rattle.command_line.specs.Given.{HasImages, has_explain, has_json, is_given};

use crate::code_text::code_list_text;
use crate::codes::{INTRODUCTION, code_groups};
use crate::commands::{bootswap, named};
use clap::error::ErrorKind;
use clap::{ArgMatches, Error};
use std::alloc::{AllocError, Global};
use std::convert::AsStr;

/// Returns the matches of `clap` for these arguments, in memory of `alloc`. The first argument is
/// the program's own name.
///
/// # Errors
/// The error of `clap` if it refuses the arguments, or if they ask for help or the version. Its
/// kind is `OutOfMemory` if memory ran out.
pub fn matches_of<'a, S: AsStr>(alloc: Global, words: &'a [S]) -> Result<ArgMatches<'a>, Error>
    ensures found { IfOk result (λ matches. subcommand_rows_of matches
        ≡ subcommand_of bootswap (map S.text words.entry.now)) }
    ensures taken { IfOk result (λ _. fault_of bootswap (map S.text words.entry.now) ≡ []) }
    ensures refused { IfErr result (HasKind (fault_of bootswap (map S.text words.entry.now))) }
{
    match parsed(alloc, words, INTRODUCTION) {
        Ok(matches) => Ok(matches),
        Err(answer) => Err(complete(alloc, words, answer)),
    }
}

/// Returns the matches of `clap` for these arguments. `list` is the long help of `codes`.
fn parsed<'a, S: AsStr>(
    alloc: Global,
    words: &'a [S],
    list: &'a str,
) -> Result<ArgMatches<'a>, Error>
    ensures found { IfOk result (λ matches. subcommand_rows_of matches
        ≡ subcommand_of bootswap (map S.text words.entry.now)) }
    ensures taken { IfOk result (λ _. fault_of bootswap (map S.text words.entry.now) ≡ []) }
    ensures refused { IfErr result (HasKind (fault_of bootswap (map S.text words.entry.now))) }
{
    bootswap(alloc, list)?.try_get_matches_from(words)
}

/// Returns the answer of `clap` to arguments that it refuses. If it is help, that of `codes` has the
/// list, which is made in memory of `alloc` only for it.
fn complete<S: AsStr>(alloc: Global, words: &[S], answer: Error) -> Error
    requires { HasKind (fault_of bootswap (map S.text words.now)) answer }
    ensures { HasKind (fault_of bootswap (map S.text words.now)) result }
{
    if !matches!(answer.kind(), ErrorKind::DisplayHelp) {
        return answer;
    }
    match listing_help(alloc, words) {
        Ok(()) => answer,
        Err(help) => help,
    }
}

/// Fails with the help that these arguments ask for. That of `codes` has the list.
fn listing_help<S: AsStr>(alloc: Global, words: &[S]) -> Result<(), Error>
    ensures { IfErr result (HasKind (fault_of bootswap (map S.text words.now))) }
{
    let list = code_list_text(alloc, &code_groups())?;
    match parsed(alloc, words, list.as_str()) {
        Ok(_) => Ok(()),
        Err(help) => Err(help),
    }
}

/// Returns the subcommand that was named, with its matches.
pub fn named_in<'m, 'a>(matches: &'m ArgMatches<'a>) -> Option<(&'a str, &'m ArgMatches<'a>)>
    ensures { option_map (λ named. (named.0.now, rows_of (found_of named.1.now))) result
        ≡ subcommand_rows_of matches.now }
{
    matches.subcommand()
}

/// Returns whether to explain the answer (`--explain`).
pub fn is_explained(matches: &ArgMatches<'_>) -> bool
    ensures { result ≡ has_explain (subcommand_rows_of matches.now) }
{
    match named_in(matches) {
        Some((_, names)) => is_given(names, named::EXPLAIN),
        None => false,
    }
}

/// Returns whether the answer is to be JSON (`--json`).
pub fn is_json(matches: &ArgMatches<'_>) -> bool
    ensures { result ≡ has_json (subcommand_rows_of matches.now) }
{
    match named_in(matches) {
        Some((_, names)) => is_given(names, named::JSON),
        None => false,
    }
}

/// Returns the names of the images that are given, in memory of `alloc`.
pub fn images_in<'a>(
    alloc: Global,
    names: &ArgMatches<'a>,
) -> Result<Option<Vec<&'a str>>, AllocError>
    ensures { IfOk result (HasImages (rows_of (found_of names.now))) }
{
    match names_in(names, named::IMAGE) {
        Some(images) => Ok(Some(images.to_vec(alloc)?)),
        None => Ok(None),
    }
}

/// Returns the value that is given for this argument.
pub fn name_in<'a>(names: &ArgMatches<'a>, argument: &str) -> Option<&'a str>
    ensures { option_map (λ name. name.now) result
        ≡ first_of argument.now (rows_of (found_of names.now)) }
{
    names.get_str(argument)
}

/// Returns whether this option without a value is given.
pub fn is_given(names: &ArgMatches<'_>, option: &str) -> bool
    ensures { result ≡ is_given option.now (rows_of (found_of names.now)) }
{
    match name_in(names, option) {
        Some(value) => value == "true",
        None => false,
    }
}

/// Returns all values that are given for this argument.
pub fn names_in<'m, 'a>(names: &'m ArgMatches<'a>, argument: &str) -> Option<&'m [&'a str]>
    ensures { option_map (λ found. map (λ name. name.now) found.now) result
        ≡ all_of argument.now (rows_of (found_of names.now)) }
{
    names.get_strs(argument)
}
