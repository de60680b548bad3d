//! Reads the arguments of `plan`.

ghost use Rattle.std.specs.Prelude.{◌≡◌, ◌≢◌, ◌∷◌, IfOk, IsTrue, Some, [], codes, false, true};
ghost use Rattle.clap.specs.Words.{all_of, found_of, rows_of};
ghost use Rattle.command_line.specs.Given.{Finds, is_given};
ghost use Rattle.command_line.specs.Orders.{IsRequestedFile, SaysPlan, texts_at};

use crate::order_fault_texts;
use crate::word_values::{WordReader, values_in};
use clap::ArgMatches;
use command_line::{PlanOrder, RequestedFile, is_given, is_standard_input, named, names_in};
use common::ascii::number_u8;
use common::limits::MOST_IMAGES;
use std::alloc::{AllocError, Global};

/// Returns the order that the arguments of `plan` give. Returns `None` if a value isn't valid, if
/// there are several fleets, or if something else is given for a sum of summaries.
pub fn plan_order_in<'a>(
    alloc: Global,
    names: &ArgMatches<'a>,
) -> Result<Option<PlanOrder<'a>>, AllocError>
    ensures { IfOk result (Finds (SaysPlan (rows_of (found_of names.now)))) }
{
    if is_given(names, named::MERGE) {
        merge_in(alloc, names)
    } else {
        fleet_in(alloc, names)
    }
}

/// Returns the fleet that is to be planned, with the requests and options.
fn fleet_in<'a>(alloc: Global, names: &ArgMatches<'a>) -> Result<Option<PlanOrder<'a>>, AllocError>
    requires { is_given (codes "merge") (rows_of (found_of names.now)) ≡ false }
    ensures { IfOk result (Finds (SaysPlan (rows_of (found_of names.now)))) }
{
    let Some(fleet) = one_name_in(names, named::FLEET) else {
        return Ok(None);
    };
    let Some(requests) = values_in(alloc, names, named::REQUEST, &RequestReader)? else {
        return Ok(None);
    };
    Ok(Some(PlanOrder::Fleet {
        fleet,
        requests,
        is_summary: is_given(names, named::SUMMARY),
    }))
}

/// Returns the summaries that are to be added. Nothing else may be given.
fn merge_in<'a>(alloc: Global, names: &ArgMatches<'a>) -> Result<Option<PlanOrder<'a>>, AllocError>
    requires { is_given (codes "merge") (rows_of (found_of names.now)) ≡ true }
    ensures { IfOk result (Finds (SaysPlan (rows_of (found_of names.now)))) }
{
    if is_given(names, named::SUMMARY) || has_values(names, named::REQUEST) {
        return Ok(None);
    }
    match names_in(names, named::FLEET) {
        Some(words) => Ok(Some(PlanOrder::Merge {
            summaries: words.to_vec(alloc)?,
        })),
        None => Ok(None),
    }
}

/// Returns the value of an argument that has exactly one.
fn one_name_in<'a>(names: &ArgMatches<'a>, argument: &str) -> Option<&'a str>
    ensures { Finds (λ name. all_of argument.now (rows_of (found_of names.now))
        ≡ Some (name.now ∷ [])) result }
{
    match names_in(names, argument)? {
        [one] => Some(*one),
        _ => None,
    }
}

/// Returns whether an argument has a value.
fn has_values(names: &ArgMatches<'_>, argument: &str) -> bool
    ensures none { result ≡ false → texts_at argument.now (rows_of (found_of names.now)) ≡ [] }
    ensures some { IsTrue result → texts_at argument.now (rows_of (found_of names.now)) ≢ [] }
{
    match names_in(names, argument) {
        Some(words) => !words.is_empty(),
        None => false,
    }
}

/// Reads a file that is requested, and its image, from a value.
#[derive(Clone, Copy)]
struct RequestReader;

impl<'a> WordReader<'a, RequestedFile<'a>> for RequestReader {
    ghost says = { λ _ word requested. IsRequestedFile word requested };

    fn read(&self, _alloc: Global, word: &'a str) -> Result<Option<RequestedFile<'a>>, AllocError> {
        Ok(requested_file_of(word))
    }
}

/// Reads a file and the image that it is requested as. For example `1=b.img`.
fn requested_file_of<'a>(word: &'a str) -> Option<RequestedFile<'a>>
    ensures { Finds (IsRequestedFile word.entry.now) result }
{
    let (image, file) = word.split_once('=')?;
    let image = number_u8(image.as_bytes())?;
    if usize::from(image) >= MOST_IMAGES || is_standard_input(file) {
        return None;
    }
    Some(RequestedFile { image, file })
}

/// Returns the text of the first fault of arguments that give `plan` nothing to do.
pub fn invalid_plan(alloc: Global, names: &ArgMatches<'_>) -> Result<&'static str, AllocError> {
    if is_given(names, named::MERGE) {
        return Ok(order_fault_texts::NOT_MERGED);
    }
    match values_in(alloc, names, named::REQUEST, &RequestReader)? {
        None => Ok(order_fault_texts::NO_REQUEST),
        Some(_) => Ok(order_fault_texts::SEVERAL_FLEETS),
    }
}
