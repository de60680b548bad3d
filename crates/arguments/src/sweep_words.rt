//! Reads the arguments of `sweep`.

ghost use Rattle.std.specs.Prelude.{◌≡◌, IfOk, codes, false, map, option_map, true};
ghost use Rattle.clap.specs.Words.{found_of, rows_of};
ghost use Rattle.command_line.specs.Given.{Finds, is_given};
ghost use Rattle.command_line.specs.OrderFaults.{IsKindOfNoOrder};
ghost use Rattle.command_line.specs.Orders.{Asks, HasSweepPart, IsSweepPart, NamesOutputs, SaysSweep};

use crate::image_words::number_said;
use crate::order_fault_texts;
use clap::ArgMatches;
use clap::error::ErrorKind;
use command_line::{Order, SweepChoices, SweepPart, is_given, name_in, named, names_in};
use common::ascii::number;
use std::alloc::{AllocError, Global};

/// Returns the order of the arguments of `sweep`, or `None` if they give none.
pub fn sweep_in<'a>(alloc: Global, names: &ArgMatches<'a>) -> Result<Option<Order<'a>>, AllocError>
    ensures { IfOk result (Finds (Asks (codes "sweep") (rows_of (found_of names.now)))) }
{
    if is_given(names, named::MERGE) {
        merge_in(alloc, names)
    } else {
        runs_in(alloc, names)
    }
}

/// Returns the order to make runs, or `None` if a file is missing or a value isn't valid.
fn runs_in<'a>(alloc: Global, names: &ArgMatches<'a>) -> Result<Option<Order<'a>>, AllocError>
    requires { is_given (codes "merge") (rows_of (found_of names.now)) ≡ false }
    ensures { IfOk result (Finds (Asks (codes "sweep") (rows_of (found_of names.now)))) }
{
    let Some([device, script, images @ ..]) = names_in(names, named::FILE) else {
        return Ok(None);
    };
    if images.is_empty() {
        return Ok(None);
    }
    let Some(choices) = sweep_choices_in(names) else {
        return Ok(None);
    };
    Ok(Some(Order::Sweep {
        device: *device,
        script: *script,
        images: images.to_vec(alloc)?,
        choices,
    }))
}

/// Returns the order to merge outputs, or `None` if there is an option that doesn't go with it.
fn merge_in<'a>(alloc: Global, names: &ArgMatches<'a>) -> Result<Option<Order<'a>>, AllocError>
    requires { is_given (codes "merge") (rows_of (found_of names.now)) ≡ true }
    ensures { IfOk result (Finds (Asks (codes "sweep") (rows_of (found_of names.now)))) }
{
    let Some(outputs) = outputs_in(names) else {
        return Ok(None);
    };
    Ok(Some(Order::MergeSweeps {
        outputs: outputs.to_vec(alloc)?,
        picture: name_in(names, named::SVG),
        forced: is_given(names, named::FORCE),
    }))
}

/// Returns the outputs to merge, or `None` if there is an option of the runs.
fn outputs_in<'m, 'a>(names: &'m ArgMatches<'a>) -> Option<&'m [&'a str]>
    requires { is_given (codes "merge") (rows_of (found_of names.now)) ≡ true }
    ensures { Finds (NamesOutputs (rows_of (found_of names.now)))
        (option_map (λ found. map (λ name. name.now) found.now) result) }
{
    let outputs = names_in(names, named::FILE)?;
    if is_given(names, named::TWICE) {
        return None;
    }
    if name_in(names, named::SAMPLE).is_some() || name_in(names, named::SEED).is_some() {
        return None;
    }
    if name_in(names, named::PART).is_some() {
        return None;
    }
    Some(outputs)
}

/// Returns the options of a sweep, or `None` if one of the values isn't valid.
fn sweep_choices_in<'a>(names: &ArgMatches<'a>) -> Option<SweepChoices<'a>>
    ensures { Finds (SaysSweep (rows_of (found_of names.now))) result }
{
    let sample = number_said(names, named::SAMPLE)?;
    let seed = number_said(names, named::SEED)?;
    let part = part_said(names)?;
    Some(SweepChoices {
        is_twice: is_given(names, named::TWICE),
        sample,
        seed,
        part,
        picture: name_in(names, named::SVG),
        is_forced: is_given(names, named::FORCE),
    })
}

/// Returns the part of the runs, if one is given. Returns `None` if the value isn't a part.
fn part_said(names: &ArgMatches<'_>) -> Option<Option<SweepPart>>
    ensures { Finds (HasSweepPart (rows_of (found_of names.now))) result }
{
    let Some(word) = name_in(names, named::PART) else {
        return Some(None);
    };
    Some(Some(part_of(word)?))
}

/// Reads a part. For example `1/4`.
fn part_of(word: &str) -> Option<SweepPart>
    ensures { Finds (IsSweepPart word.now) result }
{
    let (part, parts) = word.split_once('/')?;
    let part = number(part.as_bytes())?;
    let parts = number(parts.as_bytes())?;
    if part < 1 || part > parts {
        return None;
    }
    Some(SweepPart {
        number: part,
        parts,
    })
}

/// Returns the kind and the text of the first fault of arguments of `sweep` that give no order.
pub fn invalid_sweep(names: &ArgMatches<'_>) -> (ErrorKind, &'static str)
    ensures { IsKindOfNoOrder result.0 }
{
    if is_given(names, named::MERGE) {
        return (ErrorKind::ArgumentConflict, order_fault_texts::MERGE_ALONE);
    }
    match names_in(names, named::FILE) {
        Some([_, _, _, ..]) => (ErrorKind::InvalidValue, invalid_choices(names)),
        Some([_, _]) => (
            ErrorKind::MissingRequiredArgument,
            order_fault_texts::NO_SWEPT_IMAGE,
        ),
        _ => (
            ErrorKind::MissingRequiredArgument,
            order_fault_texts::NO_SWEPT_SCRIPT,
        ),
    }
}

/// Returns the text of the first fault of options of which one isn't valid.
fn invalid_choices(names: &ArgMatches<'_>) -> &'static str {
    if number_said(names, named::SAMPLE).is_none() {
        order_fault_texts::NO_SAMPLE
    } else if number_said(names, named::SEED).is_none() {
        order_fault_texts::NO_SEED
    } else {
        order_fault_texts::NO_PART
    }
}
