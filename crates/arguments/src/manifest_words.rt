//! Reads the arguments of `make-manifest`.

ghost use Rattle.std.specs.Prelude.{◌≡◌, IfOk, map, option_map};
ghost use Rattle.clap.specs.Words.{found_of, rows_of};
ghost use Rattle.command_line.specs.Given.{Finds};
ghost use Rattle.command_line.specs.Orders.{AreComponents, IsComponent, SaysComponents};
ghost use Rattle.command_line.specs.Orders.{SaysManifest, texts_at};

use crate::device_words::number_in;
use crate::order_fault_texts;
use crate::word_values::{WordReader, values_in};
use clap::ArgMatches;
use command_line::{NewComponent, NewManifest, is_given, name_in, named};
use common::ascii::number_u8;
use common::limits::MOST_IMAGES;
use std::alloc::{AllocError, Global};

/// Returns the manifest that the arguments describe. Returns `None` if one of them isn't valid, or
/// if they name no file, or more files than a device may have images.
pub fn manifest_values_in<'a>(
    alloc: Global,
    names: &ArgMatches<'a>,
) -> Result<Option<NewManifest<'a>>, AllocError>
    ensures { IfOk result (Finds (SaysManifest (rows_of (found_of names.now)))) }
{
    let Some(sequence) = number_in(names, named::SEQUENCE) else {
        return Ok(None);
    };
    let Some(components) = all_components_in(alloc, names)? else {
        return Ok(None);
    };
    Ok(Some(NewManifest {
        sequence,
        precursor: name_in(names, named::PRECURSOR),
        components,
        is_strict: is_given(names, named::STRICT),
    }))
}

/// Returns the text of the first fault of arguments that describe no manifest: one of them isn't
/// valid, or they name no file or too many.
pub fn invalid_manifest(alloc: Global, names: &ArgMatches<'_>) -> Result<&'static str, AllocError> {
    if number_in(names, named::SEQUENCE).is_none() {
        return Ok(order_fault_texts::NO_SEQUENCE);
    }
    if components_in(alloc, names, named::TEST, false)?.is_none() {
        return Ok(order_fault_texts::NO_TEST);
    }
    match components_in(alloc, names, named::PERMANENT, true)? {
        None => Ok(order_fault_texts::NO_PERMANENT),
        Some(_) => Ok(order_fault_texts::NO_COMPONENTS),
    }
}

/// Returns the files that are given: those for a test, then those that are permanent. Returns
/// `None` if one of the values isn't an image and a file. The same if there is no file, or more
/// than a device may have images.
fn all_components_in<'a>(
    alloc: Global,
    names: &ArgMatches<'a>,
) -> Result<Option<Vec<NewComponent<'a>>>, AllocError>
    ensures { IfOk result (λ found. Finds (SaysComponents (rows_of (found_of names.now)))
        (option_map (λ components. components.items) found)) }
{
    let Some(mut components) = components_in(alloc, names, named::TEST, false)? else {
        return Ok(None);
    };
    let Some(permanent) = components_in(alloc, names, named::PERMANENT, true)? else {
        return Ok(None);
    };
    components.extend_from_slice(&permanent)?;
    let count = components.len();
    if count == 0 {
        return Ok(None);
    }
    if count > MOST_IMAGES {
        return Ok(None);
    }
    Ok(Some(components))
}

/// Returns the files that are given for this option, or `None` if one of the values isn't an image
/// and a file.
fn components_in<'a>(
    alloc: Global,
    names: &ArgMatches<'a>,
    option: &str,
    permanent: bool,
) -> Result<Option<Vec<NewComponent<'a>>>, AllocError>
    ensures { IfOk result (λ found.
        Finds (AreComponents permanent (texts_at option.now (rows_of (found_of names.now))))
        (option_map (λ components. components.items) found)) }
{
    values_in(alloc, names, option, &ComponentReader { permanent })
}

/// Reads a file and its image from a value.
#[derive(Clone, Copy)]
struct ComponentReader {
    /// Whether the file is requested permanently.
    permanent: bool,
}

impl<'a> WordReader<'a, NewComponent<'a>> for ComponentReader {
    ghost says = { λ reader word component. IsComponent reader.permanent word component };

    fn read(&self, _alloc: Global, word: &'a str) -> Result<Option<NewComponent<'a>>, AllocError> {
        Ok(component_of(word, self.permanent))
    }
}

/// Reads a file and the image that it is for. For example `1=b.img`.
fn component_of<'a>(word: &'a str, permanent: bool) -> Option<NewComponent<'a>>
    ensures { Finds (IsComponent permanent word.entry.now) result }
{
    let (image, file) = word.split_once('=')?;
    let image = number_u8(image.as_bytes())?;
    Some(NewComponent {
        image,
        permanent,
        file,
    })
}
