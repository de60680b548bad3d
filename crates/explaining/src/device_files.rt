//! Explains why bytes aren't a device file, and which sizes make no map.

use crate::Result;
use crate::json_notes::{Keys, Wanted, explain_count, explain_object, read_json};
use crate::texts::Shown;
use common::limits::{MOST_IMAGES, MOST_TRIAL_BOOTS};
use device_texts::NoteList;
use manifest::json::{array, json_of, number, number_of};
use sector_map::MapError;
use serde_json::Value;
use std::alloc::Global;

/// The keys of a device file.
const KEYS: Keys = Keys {
    known: [
        ("sector", Wanted::Number),
        ("sectors", Wanted::List),
        ("vendor-id", Wanted::Uuid),
        ("class-id", Wanted::Uuid),
        ("trial-boots", Wanted::Number),
    ],
    optional: "trial-boots",
};

/// Adds why bytes aren't a device file: where they stop being JSON, which keys are missing or
/// unknown, or which value of a key isn't allowed. The JSON value is in memory of `alloc`.
pub fn explain_device(notes: &mut NoteList, alloc: Global, bytes: &[u8]) -> Result {
    let Some(value) = read_json(notes, alloc, bytes)? else {
        return Ok(());
    };
    explain_object(notes, alloc, "the device file", &value, &KEYS)?;
    explain_sectors(notes, alloc, &value)?;
    match number(&value, "trial-boots") {
        Some(boots) if boots < 1 || boots > u32::from(MOST_TRIAL_BOOTS) => notes.add(format_args!(
            "`trial-boots` is {boots}, and a trial has 1 to {MOST_TRIAL_BOOTS} boots"
        )),
        _ => Ok(()),
    }
}

/// Adds the entries of `sectors` that aren't numbers.
fn explain_sectors(notes: &mut NoteList, alloc: Global, value: &Value) -> Result {
    let Some(sectors) = array(value, "sectors") else {
        return Ok(());
    };
    for (image, sectors) in sectors.iter().enumerate() {
        if number_of(sectors).is_none() {
            let text = sectors.to_string(alloc)?;
            let shown = Shown(text.as_bytes());
            notes.add(format_args!(
                "`sectors` has {shown} for image {image}, and it has to be a number from 1 on, in \
                 digits alone"
            ))?;
        }
    }
    Ok(())
}

/// The names of a sector's length and of the numbers of sectors in a device file.
const FILE_NAMES: (&str, &str) = ("sector", "sectors");

/// Their names in the arguments of a command.
pub const OPTION_NAMES: (&str, &str) = ("--sector", "--slots");

/// Adds which sizes of a device file make no map. The JSON value of the file and the sizes are in
/// memory of `alloc`.
pub fn explain_map(notes: &mut NoteList, alloc: Global, bytes: &[u8], fault: MapError) -> Result {
    let Ok(value) = json_of(alloc, bytes) else {
        return Ok(());
    };
    let (Some(sector), Some(list)) = (number(&value, "sector"), array(&value, "sectors")) else {
        return Ok(());
    };
    let mut sectors = Vec::new(alloc);
    for count in list {
        sectors.push(number_of(count).unwrap_or_default())?;
    }
    explain_sizes(notes, FILE_NAMES, sector, sectors.as_slice(), fault)
}

/// Adds which of these sizes make no map: the length of a sector in bytes, and the number of sectors
/// of each image's slots.
pub fn explain_sizes(
    notes: &mut NoteList,
    names: (&str, &str),
    sector: u32,
    sectors: &[u32],
    fault: MapError,
) -> Result {
    match fault {
        MapError::BadSector => {
            let name = names.0;
            notes.add(format_args!(
                "`{name}` is {sector}, and a sector has 512 to 131072 bytes, a multiple of 64"
            ))
        }
        MapError::BadCount => explain_images(notes, names.1, sectors),
        MapError::TrailerFull => explain_trailers(notes, sector, sectors),
        MapError::TooLarge => notes.add(
            "all slots, the scratch and the log together have 4294967295 bytes at most",
        ),
    }
}

/// Adds that there are too few or too many images, or which image has no sectors.
fn explain_images(notes: &mut NoteList, name: &str, sectors: &[u32]) -> Result {
    explain_count(notes, name, sectors.len(), ", one an image", MOST_IMAGES)?;
    for (image, sectors) in sectors.iter().enumerate() {
        if *sectors == 0 {
            notes.add(format_args!("`{name}` has 0 for image {image}, and it is 1 at least"))?;
        }
    }
    Ok(())
}

/// Adds the images whose trailers don't fit into a sector, and the most sectors that a slot may
/// have.
fn explain_trailers(notes: &mut NoteList, sector: u32, sectors: &[u32]) -> Result {
    let most = sector.saturating_sub(56) / 24;
    for (image, sectors) in sectors.iter().enumerate() {
        let trailer = u64::from(*sectors) * 24 + 56;
        if trailer > u64::from(sector) {
            notes.add(format_args!(
                "image {image} has {sectors} sectors; its trailer would have 24 bytes a sector and \
                 56 more, {trailer}, and a sector has {sector}: a slot has {most} sectors at most"
            ))?;
        }
    }
    Ok(())
}
