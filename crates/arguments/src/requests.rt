//! Reads the order that arguments give, or the reason why they give none.

ghost use Rattle.std.specs.Prelude.{◌≡◌, IfErr, IfOk, IfSome, None, [], map, option_map};
ghost use Rattle.clap.specs.Words.{fault_of, kind_of, subcommand_rows_of};
ghost use Rattle.command_line.specs.Commands.{bootswap};
ghost use Rattle.command_line.specs.Faults.{IsAnswered};
ghost use Rattle.command_line.specs.Given.{Finds, is_explained, is_json};
ghost use Rattle.command_line.specs.OrderFaults.{IsKindOfNoOrder, IsRefusal};
ghost use Rattle.command_line.specs.Orders.{GiveOrder, IsOrder, IsOrderOf, misuse_of};

use crate::device_words::invalid_device;
use crate::image_words::invalid_image;
use crate::manifest_words::invalid_manifest;
use crate::order_fault_texts;
use crate::orders::{
    invalid_slot, order_of, reads_standard_input_twice, subcommand_for, writes_to_standard_input,
    written_text,
};
use crate::plan_words::invalid_plan;
use crate::sweep_words::invalid_sweep;
use clap::error::ErrorKind;
use clap::{ArgMatches, Error};
use command_line::{
    Order, OrderError, Request, Subcommand, is_explained, is_json, matches_of, misuse_error,
    named_in, program_error, subcommand_error,
};
use std::alloc::{AllocError, Global};
use std::convert::AsStr;

/// Returns the order that `words` give: its subcommand, and its names, numbers and options. The
/// first of `words` is the program's own name. The order is in memory of `alloc`.
///
/// # Errors
/// - `Usage` if they give no order, with the answer of `clap` or of the program, which may be help
///   or the version.
/// - `NoMemory` if memory ran out.
pub fn order<'a, S: AsStr>(alloc: Global, words: &'a [S]) -> Result<Order<'a>, OrderError>
    ensures given { IfOk result (GiveOrder (map S.text words.entry.now)) }
    ensures refused { IfErr result (IsRefusal (map S.text words.entry.now)) }
{
    let asked = request(alloc, words)?;
    Ok(asked.order)
}

/// Returns the order that `words` give, whether to explain its answer, and whether the answer is to
/// be JSON. The first of `words` is the program's own name. The order is in memory of `alloc`.
///
/// # Errors
/// - `Usage` if the words ask for help or the version, or have a fault: `clap` refuses them; a
///   number, version or dependency isn't valid; or the order names standard input for two files or
///   for a file that is written.
/// - `NoMemory` if memory ran out.
pub fn request<'a, S: AsStr>(alloc: Global, words: &'a [S]) -> Result<Request<'a>, OrderError>
    ensures order { IfOk result (λ request. GiveOrder (map S.text words.entry.now) request.order) }
    ensures explained { IfOk result (λ request.
        request.is_explained ≡ is_explained (map S.text words.entry.now)) }
    ensures json { IfOk result (λ request.
        request.is_json ≡ is_json (map S.text words.entry.now)) }
    ensures refused { IfErr result (IsRefusal (map S.text words.entry.now)) }
{
    let matches = matches_of(alloc, words)?;
    match order_in(alloc, &matches)? {
        Some(order) => request_of(alloc, order, is_explained(&matches), is_json(&matches)),
        None => Err(no_order(alloc, &matches)),
    }
}

/// Returns the request of an order. Refuses an order that misuses standard input.
fn request_of<'a>(
    alloc: Global,
    order: Order<'a>,
    is_explained: bool,
    is_json: bool,
) -> Result<Request<'a>, OrderError>
    ensures given { IfOk result (λ request. (request.order ≡ order.entry)
        × (request.is_explained ≡ is_explained) × (request.is_json ≡ is_json)) }
    ensures sound { IfOk result (λ request. misuse_of request.order ≡ None) }
    ensures refused { (words : _) → fault_of bootswap words ≡ [] → IsOrder words order.entry
        → IfErr result (IsRefusal words) }
{
    match misuse(alloc, &order)? {
        Some(fault) => Err(OrderError::from(fault)),
        None => Ok(Request {
            order,
            is_explained,
            is_json,
        }),
    }
}

/// Returns the order of these matches. It has all its names, because `clap` requires them. Returns
/// `None` if a number, a version or a dependency isn't valid.
fn order_in<'a>(alloc: Global, matches: &ArgMatches<'a>) -> Result<Option<Order<'a>>, AllocError>
    ensures { IfOk result (Finds (IsOrderOf (subcommand_rows_of matches.now))) }
{
    let Some((name, names)) = named_in(matches) else {
        return Ok(None);
    };
    match Subcommand::of_name(name) {
        Some(subcommand) => order_of(alloc, subcommand, names),
        None => Ok(None),
    }
}

/// Returns the fault of arguments that `clap` accepts but that give no order: a value isn't valid,
/// or there is no subcommand.
fn no_order(alloc: Global, matches: &ArgMatches<'_>) -> OrderError
    ensures { IsAnswered IsKindOfNoOrder result }
{
    match no_order_error(alloc, matches) {
        Ok(error) => OrderError::from(error),
        Err(error) => OrderError::from(error),
    }
}

fn no_order_error(alloc: Global, matches: &ArgMatches<'_>) -> Result<Error, AllocError>
    ensures { IfOk result
        (λ error. IsKindOfNoOrder (kind_of error)) }
{
    match invalid_value(alloc, matches)? {
        Some((command, kind, text)) => subcommand_error(alloc, command, kind, text),
        None => program_error(
            alloc,
            ErrorKind::MissingSubcommand,
            order_fault_texts::NO_ORDER,
        ),
    }
}

/// Returns the subcommand of arguments with a value that isn't valid, and the kind and the text of the
/// fault. Returns `None` if the subcommand takes any value, or if there is no subcommand.
fn invalid_value(
    alloc: Global,
    matches: &ArgMatches<'_>,
) -> Result<Option<(Subcommand, ErrorKind, &'static str)>, AllocError>
    ensures { IfOk result (λ found. IfSome found (λ fault. IsKindOfNoOrder fault.1)) }
{
    let Some((name, names)) = named_in(matches) else {
        return Ok(None);
    };
    let Some(command) = Subcommand::of_name(name) else {
        return Ok(None);
    };
    let text = match command {
        Subcommand::Plan => invalid_plan(alloc, names)?,
        Subcommand::MakeDevice => invalid_device(names),
        Subcommand::MakeImage => invalid_image(alloc, names)?,
        Subcommand::MakeManifest => invalid_manifest(alloc, names)?,
        Subcommand::Extract => invalid_slot(names),
        Subcommand::Sweep => {
            let (kind, text) = invalid_sweep(names);
            return Ok(Some((command, kind, text)));
        }
        _ => return Ok(None),
    };
    Ok(Some((command, ErrorKind::InvalidValue, text)))
}

/// Returns the fault of an order that writes standard input or reads it twice.
fn misuse(alloc: Global, order: &Order<'_>) -> Result<Option<Error>, AllocError>
    ensures { IfOk result (λ found. option_map kind_of found ≡ misuse_of order.now) }
{
    let text = written_text(order);
    let is_written = writes_to_standard_input(order);
    let is_twice = reads_standard_input_twice(order);
    misuse_error(alloc, subcommand_for(order), is_written, text, is_twice)
}
