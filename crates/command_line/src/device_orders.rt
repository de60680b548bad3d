//! The orders to a device, `provision` and `run`, and their arguments.

ghost use Rattle.std.specs.Prelude.{◌≡◌, ◌∷◌, IfErr, IfOk, IfSome, IsSomeAnd, None, [], codes, map};
ghost use Rattle.std.specs.Prelude.{nat_lt, option_map};
ghost use Rattle.clap.specs.Words.{fault_of, found_of, kind_of, rows_of, subcommand_rows_of};
ghost use Rattle.command_line.specs.Commands.{bootswap};
ghost use Rattle.command_line.specs.DeviceOrders.{names_of, subcommand_for};
ghost use Rattle.command_line.specs.DeviceOrders.{writes_to_standard_input};
ghost use Rattle.command_line.specs.Faults.{IsDeviceRefusal};
ghost use Rattle.command_line.specs.Given.{Finds, HasImages, is_explained, is_json};
ghost use Rattle.command_line.specs.Given.{standard_inputs};
ghost use Rattle.command_line.specs.Orders.{AsksDevice, IsOrder, IsOrderOf, misuse_of};
ghost use Rattle.command_line.specs.declared.orders.Order.TheVariants.{Device};

use crate::commands::{Subcommand, named};
use crate::error::OrderError;
use crate::fault_texts;
use crate::faults::misuse_error;
use crate::matching::{images_in, is_explained, is_given, is_json, matches_of, name_in, named_in};
use crate::standard_input::{inputs_with, is_standard_input, standard_inputs};
use clap::{ArgMatches, Error};
use std::alloc::{AllocError, Global};
use std::convert::AsStr;

/// An order to provision a flash or to run a device on one.
#[derive(Drop)]
pub enum DeviceOrder<'a> {
    /// `provision`: makes a flash file.
    Provision {
        /// The name of the device file.
        device: &'a str,
        /// The name of the flash file, which isn't standard input.
        flash: &'a str,
        /// The names of the images, in their order.
        images: Vec<&'a str>,
        /// Whether the flash file is replaced whatever it holds.
        forced: bool,
    },
    /// `run`: runs a script on a device.
    Run {
        /// The name of the device file.
        device: &'a str,
        /// The name of the flash file, which isn't standard input.
        flash: &'a str,
        /// The name of the script.
        script: &'a str,
        /// Whether each write is on the medium before the next write, also of a plain file.
        durable: bool,
        /// Whether the exit status is 1 if any reply is a refusal, and not only the last one.
        strict: bool,
    },
}

/// An order, and how to answer it.
#[derive(Drop)]
pub struct DeviceRequest<'a> {
    /// The order.
    pub order: DeviceOrder<'a>,
    /// Whether to explain the answer (`--explain`).
    pub is_explained: bool,
    /// Whether the answer is to be JSON (`--json`).
    pub is_json: bool,
}

impl DeviceOrder<'_> {
    /// Returns its subcommand.
    pub fn subcommand(&self) -> Subcommand
        ensures { result ≡ subcommand_for self.now }
    {
        match self {
            DeviceOrder::Provision { .. } => Subcommand::Provision,
            DeviceOrder::Run { .. } => Subcommand::Run,
        }
    }

    /// Returns whether the flash is standard input, which can't be written.
    pub fn writes_to_standard_input(&self) -> bool
        ensures { result ≡ writes_to_standard_input self.now }
    {
        match self {
            DeviceOrder::Provision { flash, .. } | DeviceOrder::Run { flash, .. } =>
                is_standard_input(flash),
        }
    }

    /// Returns whether two of its files are standard input, which can be read only once.
    pub fn reads_standard_input_twice(&self) -> bool
        ensures { result ≡ nat_lt 1 (standard_inputs (names_of self.now)) }
    {
        match self {
            DeviceOrder::Provision {
                device,
                flash,
                images,
                ..
            } => inputs_with(device, flash, images.as_slice()) > 1,
            DeviceOrder::Run {
                device,
                flash,
                script,
                ..
            } => standard_inputs(&[*device, *flash, *script]) > 1,
        }
    }
}

/// Returns the order to a device that `words` give, or `None` if they give another command. The
/// first of `words` is the program's own name. The order is in memory of `alloc`.
///
/// # Errors
/// - `Usage` if the words ask for help or the version, or if `clap` refuses them. The same if the
///   order names standard input for two files or for the flash, which is written.
/// - `NoMemory` if memory ran out.
pub fn device_request<'a, S: AsStr>(
    alloc: Global,
    words: &'a [S],
) -> Result<Option<DeviceRequest<'a>>, OrderError>
    ensures taken { IfOk result (λ _. fault_of bootswap (map S.text words.entry.now) ≡ []) }
    ensures order { IfOk result (λ found. Finds
        (λ order. IsOrder (map S.text words.entry.now) (Device order))
        (option_map (λ request. request.order) found)) }
    ensures explained { IfOk result (λ found. IfSome found (λ request.
        request.is_explained ≡ is_explained (map S.text words.entry.now))) }
    ensures json { IfOk result (λ found. IfSome found (λ request.
        request.is_json ≡ is_json (map S.text words.entry.now))) }
    ensures sound { IfOk result (λ found.
        IfSome found (λ request. misuse_of (Device request.order) ≡ None)) }
    ensures refused { IfErr result (IsDeviceRefusal (map S.text words.entry.now)) }
{
    let matches = matches_of(alloc, words)?;
    match order_in(alloc, &matches)? {
        Some(order) => request_of(alloc, order, is_explained(&matches), is_json(&matches)),
        None => Ok(None),
    }
}

/// Returns the request of an order. Refuses an order that misuses standard input.
fn request_of<'a>(
    alloc: Global,
    order: DeviceOrder<'a>,
    is_explained: bool,
    is_json: bool,
) -> Result<Option<DeviceRequest<'a>>, OrderError>
    ensures given { IfOk result (λ found. IsSomeAnd found (λ request.
        (request.order ≡ order.entry) × (request.is_explained ≡ is_explained)
        × (request.is_json ≡ is_json))) }
    ensures sound { IfOk result (λ found.
        IfSome found (λ request. misuse_of (Device request.order) ≡ None)) }
    ensures refused { (words : _) → fault_of bootswap words ≡ [] → IsOrder words (Device order.entry)
        → IfErr result (IsDeviceRefusal words) }
{
    match misuse(alloc, &order)? {
        Some(fault) => Err(OrderError::from(fault)),
        None => Ok(Some(DeviceRequest {
            order,
            is_explained,
            is_json,
        })),
    }
}

/// Returns the order to a device of these matches. It has all its names, because `clap` requires
/// them.
fn order_in<'a>(
    alloc: Global,
    matches: &ArgMatches<'a>,
) -> Result<Option<DeviceOrder<'a>>, AllocError>
    ensures { IfOk result (Finds
        (λ order. IsOrderOf (subcommand_rows_of matches.now) (Device order))) }
{
    let Some((name, names)) = named_in(matches) else {
        return Ok(None);
    };
    if name == "provision" {
        return provision_in(alloc, names);
    }
    if name == "run" {
        return Ok(run_in(names));
    }
    Ok(None)
}

/// Returns the order of the arguments of `provision`, or `None` if a name is missing.
pub fn provision_in<'a>(
    alloc: Global,
    names: &ArgMatches<'a>,
) -> Result<Option<DeviceOrder<'a>>, AllocError>
    ensures { IfOk result (Finds (AsksDevice (codes "provision") (rows_of (found_of names.now)))) }
{
    let images = images_in(alloc, names)?;
    Ok(provision_of(names, images))
}

/// Returns the order of the arguments of `provision`, which name these images.
fn provision_of<'a>(names: &ArgMatches<'a>, images: Option<Vec<&'a str>>) -> Option<DeviceOrder<'a>>
    requires { HasImages (rows_of (found_of names.now)) images }
    ensures { Finds (AsksDevice (codes "provision") (rows_of (found_of names.now))) result }
{
    Some(DeviceOrder::Provision {
        device: name_in(names, named::DEVICE)?,
        flash: name_in(names, named::FLASH)?,
        images: images?,
        forced: is_given(names, named::FORCE),
    })
}

/// Returns the order of the arguments of `run`, or `None` if a name is missing.
pub fn run_in<'a>(names: &ArgMatches<'a>) -> Option<DeviceOrder<'a>>
    ensures { Finds (AsksDevice (codes "run") (rows_of (found_of names.now))) result }
{
    let device = name_in(names, named::DEVICE)?;
    let flash = name_in(names, named::FLASH)?;
    let script = name_in(names, named::SCRIPT)?;
    let durable = is_given(names, named::DURABLE);
    let strict = is_given(names, named::STRICT);
    Some(DeviceOrder::Run {
        device,
        flash,
        script,
        durable,
        strict,
    })
}

/// Returns the fault of an order that writes standard input or reads it twice.
fn misuse(alloc: Global, order: &DeviceOrder<'_>) -> Result<Option<Error>, AllocError>
    ensures { IfOk result (λ found. option_map kind_of found ≡ misuse_of (Device order.now)) }
{
    let is_written = order.writes_to_standard_input();
    let is_twice = order.reads_standard_input_twice();
    misuse_error(
        alloc,
        order.subcommand(),
        is_written,
        fault_texts::WRITTEN,
        is_twice,
    )
}
