//! Reads the orders of all commands from the matches of their arguments.

ghost use Rattle.std.specs.Prelude.{◌≡◌, ◌∷◌, IfOk, codes, nat_lt};
ghost use Rattle.clap.specs.Words.{found_of, rows_of};
ghost use Rattle.command_line.specs.Commands.{name_for};
ghost use Rattle.command_line.specs.Given.{Finds, standard_inputs};
ghost use Rattle.command_line.specs.Orders.{Asks, IsNewFile, files_of, image_at, names_of};
ghost use Rattle.command_line.specs.Orders.{names_to_plan, side_at, side_of, subcommand_for};
ghost use Rattle.command_line.specs.Orders.{writes_to_standard_input};

use crate::device_words::device_in;
use crate::image_words::image_values_in;
use crate::manifest_words::manifest_values_in;
use crate::order_fault_texts;
use crate::plan_words::plan_order_in;
use crate::sweep_words::sweep_in;
use clap::ArgMatches;
use command_line::{
    NewFile, NewManifest, Order, PlanOrder, Subcommand, fault_texts, inputs_with, is_given,
    is_standard_input, name_in, named, provision_in, read_order_in, run_in, standard_inputs,
};
use common::ascii::number_u8;
use sector_map::Side;
use std::alloc::{AllocError, Global};

/// Returns the order of a subcommand with these matches, or `None` if a value isn't valid.
pub fn order_of<'a>(
    alloc: Global,
    subcommand: Subcommand,
    names: &ArgMatches<'a>,
) -> Result<Option<Order<'a>>, AllocError>
    ensures { IfOk result
        (Finds (Asks (name_for subcommand) (rows_of (found_of names.now)))) }
{
    match subcommand {
        Subcommand::Plan => Ok(plan_order_in(alloc, names)?.map(Order::Plan)),
        Subcommand::MakeDevice => {
            let device = device_in(alloc, names)?;
            Ok(device.map(|device| Order::MakeDevice { device }))
        }
        Subcommand::MakeImage => make_image_in(alloc, names),
        Subcommand::MakeManifest => make_manifest_in(alloc, names),
        Subcommand::Provision => Ok(provision_in(alloc, names)?.map(Order::Device)),
        Subcommand::Extract => Ok(extract_in(names)),
        Subcommand::Run => Ok(run_in(names).map(Order::Device)),
        Subcommand::Sweep => sweep_in(alloc, names),
        _ => match read_order_in(subcommand, names) {
            Some(order) => Ok(Some(Order::Read(order))),
            None => Ok(None),
        },
    }
}

fn make_image_in<'a>(alloc: Global, names: &ArgMatches<'a>) -> Result<Option<Order<'a>>, AllocError>
    ensures { IfOk result (Finds (Asks (codes "make-image") (rows_of (found_of names.now)))) }
{
    let Some(image) = new_file_in(names) else {
        return Ok(None);
    };
    let Some(body) = name_in(names, named::BODY) else {
        return Ok(None);
    };
    match image_values_in(alloc, names)? {
        Some(values) => Ok(Some(Order::MakeImage {
            image,
            body,
            values,
        })),
        None => Ok(None),
    }
}

fn make_manifest_in<'a>(
    alloc: Global,
    names: &ArgMatches<'a>,
) -> Result<Option<Order<'a>>, AllocError>
    ensures { IfOk result (Finds (Asks (codes "make-manifest") (rows_of (found_of names.now)))) }
{
    let Some(device) = name_in(names, named::DEVICE) else {
        return Ok(None);
    };
    match manifest_values_in(alloc, names)? {
        Some(manifest) => Ok(Some(Order::MakeManifest { device, manifest })),
        None => Ok(None),
    }
}

fn extract_in<'a>(names: &ArgMatches<'a>) -> Option<Order<'a>>
    ensures { Finds (Asks (codes "extract") (rows_of (found_of names.now))) result }
{
    let device = name_in(names, named::DEVICE)?;
    let flash = name_in(names, named::FLASH)?;
    let image = image_in_words(names)?;
    let side = side_in(names)?;
    let out = new_file_in(names)?;
    Some(Order::Extract {
        device,
        flash,
        image,
        side,
        out,
    })
}

/// Returns the image file to make that is given.
fn new_file_in<'a>(names: &ArgMatches<'a>) -> Option<NewFile<'a>>
    ensures { Finds (IsNewFile (rows_of (found_of names.now))) result }
{
    let name = name_in(names, named::OUT)?;
    let is_forced = is_given(names, named::FORCE);
    Some(NewFile { name, is_forced })
}

/// Returns the number of an image that is given.
fn image_in_words(names: &ArgMatches<'_>) -> Option<u8>
    ensures { result ≡ image_at (rows_of (found_of names.now)) }
{
    number_u8(name_in(names, named::IMAGE)?.as_bytes())
}

/// Returns the side of a slot that is given.
fn side_in(names: &ArgMatches<'_>) -> Option<Side>
    ensures { result ≡ side_at (rows_of (found_of names.now)) }
{
    side_of(name_in(names, named::SIDE)?)
}

/// Reads a side.
fn side_of(word: &str) -> Option<Side>
    ensures { result ≡ side_of word.now }
{
    if word == "primary" {
        return Some(Side::Primary);
    }
    if word == "secondary" {
        return Some(Side::Secondary);
    }
    None
}

/// Returns the text of the fault of arguments of `extract` that name no slot.
pub fn invalid_slot(names: &ArgMatches<'_>) -> &'static str {
    if image_in_words(names).is_none() {
        order_fault_texts::NO_IMAGE_NUMBER
    } else {
        order_fault_texts::NO_SIDE
    }
}

/// Returns the text of the fault of an order that writes standard input.
pub fn written_text(order: &Order<'_>) -> &'static str {
    match order {
        Order::MakeImage { .. } | Order::Extract { .. } => order_fault_texts::IMAGE_WRITTEN,
        Order::Sweep { .. } | Order::MergeSweeps { .. } => order_fault_texts::PICTURE_WRITTEN,
        _ => fault_texts::WRITTEN,
    }
}

/// Returns the subcommand of an order.
pub fn subcommand_for(order: &Order<'_>) -> Subcommand
    ensures { result ≡ subcommand_for order.now }
{
    match order {
        Order::Read(order) => order.subcommand(),
        Order::Plan(_) => Subcommand::Plan,
        Order::MakeDevice { .. } => Subcommand::MakeDevice,
        Order::MakeImage { .. } => Subcommand::MakeImage,
        Order::MakeManifest { .. } => Subcommand::MakeManifest,
        Order::Device(order) => order.subcommand(),
        Order::Extract { .. } => Subcommand::Extract,
        Order::Sweep { .. } | Order::MergeSweeps { .. } => Subcommand::Sweep,
    }
}

/// Returns whether an order writes standard input.
pub fn writes_to_standard_input(order: &Order<'_>) -> bool
    ensures { result ≡ writes_to_standard_input order.now }
{
    match order {
        Order::Device(order) => order.writes_to_standard_input(),
        Order::MakeImage { image: file, .. } | Order::Extract { out: file, .. } =>
            is_standard_input(file.name),
        Order::Sweep { choices, .. } => choices.picture.is_some_and(|file| is_standard_input(file)),
        Order::MergeSweeps { picture, .. } => picture.is_some_and(|file| is_standard_input(file)),
        Order::Read(_) | Order::Plan(_) | Order::MakeDevice { .. } | Order::MakeManifest { .. } =>
            false,
    }
}

/// Returns whether two files of an order are standard input, which can be read only once.
pub fn reads_standard_input_twice(order: &Order<'_>) -> bool
    ensures { result ≡ nat_lt 1 (standard_inputs (names_of order.now)) }
{
    match order {
        Order::Read(order) => order.reads_standard_input_twice(),
        Order::Plan(order) => plans_twice(order),
        Order::MakeDevice { .. } => false,
        Order::MakeImage { image, body, .. } => {
            is_standard_input(image.name) && is_standard_input(body)
        }
        Order::MakeManifest { device, manifest } => inputs_of_manifest(device, manifest) > 1,
        Order::Device(order) => order.reads_standard_input_twice(),
        Order::Extract {
            device,
            flash,
            out,
            ..
        } => standard_inputs(&[*device, *flash, out.name]) > 1,
        Order::Sweep {
            device,
            script,
            images,
            ..
        } => inputs_with(device, script, images.as_slice()) > 1,
        Order::MergeSweeps { outputs, .. } => standard_inputs(outputs.as_slice()) > 1,
    }
}

/// Returns whether two of the files to plan are standard input, which can be read only once.
fn plans_twice(order: &PlanOrder<'_>) -> bool
    ensures { result ≡ nat_lt 1 (standard_inputs (names_to_plan order.now)) }
{
    match order {
        PlanOrder::Fleet { .. } => false,
        PlanOrder::Merge { summaries } => standard_inputs(summaries) > 1,
    }
}

/// Returns the number of files of a manifest that are standard input.
fn inputs_of_manifest(device: &str, manifest: &NewManifest<'_>) -> usize
    ensures { result ≡ standard_inputs (device.entry ∷ files_of manifest.now) }
{
    let device = usize::from(is_standard_input(device));
    let flash = usize::from(
        manifest
            .precursor
            .is_some_and(|flash| is_standard_input(flash)),
    );
    let components = manifest
        .components
        .iter()
        .filter(|component| is_standard_input(component.file))
        .count();
    (device + flash).saturating_add(components)
}
