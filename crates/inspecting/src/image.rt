//! `bootswap image`: finds and prints the description of an image, or the check that it fails.
ghost use Rattle.std.specs.Fmt.{WritesOnOk};
ghost use Rattle.std.specs.Prelude.{◌≡◌, IfOk, Some, string_bytes};
ghost use Rattle.inspecting.specs.Answers.{FindsDescription};
ghost use Rattle.inspecting.specs.Describe.{IsDescribed};
ghost use Rattle.inspecting.specs.ImageText.{described_text, description_text, refusal_text};
ghost use Rattle.reports.specs.DependencyText.{needs_one_text, needs_text};
ghost use Rattle.common.specs.Lines.{printed_lines};

use crate::inspection::Inspection;
use device_texts::refused_text;
use host::{Host, MOST_FILE, Refusal, Source};
use image_reading::{Desc, ImageError, describe};
use reports::{Needs, NeedsOne};
use std::alloc::{AllocError, Global};
use std::fmt;
use version_order::{Dependency, Group};

/// Bytes that aren't an intact image.
#[derive(Drop)]
pub struct RefusedImage {
    /// The bytes.
    pub bytes: Vec<u8>,
    /// The first check that they fail.
    pub fault: ImageError,
}

/// Reads an image from `host` into memory of `alloc`, and returns its description, or the bytes and
/// the first check that fails.
pub fn inspect_image<H: Host>(
    alloc: Global,
    image: Source<'_>,
    host: &mut H,
) -> Result<Inspection, Refusal>
    ensures { IfOk result (λ found. FindsDescription image.entry
        (H.input host.old) (H.file host.old) found) }
{
    let bytes = image.read(alloc, host, MOST_FILE)?;
    Ok(description_in(bytes))
}

/// Returns the description of the image that `bytes` are. If they aren't an intact image, returns
/// them with the first check that fails. Does not allocate.
pub fn description_in(bytes: Vec<u8>) -> Inspection
    ensures { IsDescribed bytes.items result }
{
    match describe(&bytes) {
        Ok(description) => Inspection::Image(description),
        Err(fault) => Inspection::RefusedImage(RefusedImage { bytes, fault }),
    }
}

/// The text of a description.
pub(crate) fn description_text(alloc: Global, description: &Desc) -> Result<String, AllocError>
    ensures { IfOk result (λ text. string_bytes text ≡ description_text description.now) }
{
    let digest = hex::encode(alloc, description.digest.as_slice())?;
    let described = Described {
        description,
        digest: &digest,
    };
    format!(in alloc; "{described}")
}

/// The line of the first check that fails: its number and its name.
pub(crate) fn refusal_text(alloc: Global, fault: ImageError) -> Result<String, AllocError>
    ensures { IfOk result (λ text. string_bytes text ≡ refusal_text fault) }
{
    refused_text(alloc, fault.code(), fault.name())
}

/// A description and the digits of its digest, to print.
#[derive(Drop)]
struct Described<'d, 't> {
    description: &'d Desc,
    digest: &'t str,
}

impl fmt::Display for Described<'_, '_> {
    ghost output = { λ described. Some (described_text described) };

    fn fmt<W: fmt::Write>(&self, f: &mut fmt::Formatter<W>) -> fmt::Result {
        let version = self.description.version;
        let length = self.description.length;
        let counter = self.description.counter;
        let digest = self.digest;
        write!(
            f,
            "version {version}\nlength {length}\ncounter {counter}\ndigest {digest}\n"
        )?;
        write_needs(f, self.description.dependencies.as_slice())?;
        write_groups(f, self.description.groups.as_slice())
    }
}

/// Writes a line for each dependency.
fn write_needs<W: fmt::Write>(f: &mut fmt::Formatter<W>, dependencies: &[Dependency]) -> fmt::Result
    ensures { WritesOnOk W.write_str_gives f.old result
        (printed_lines needs_text dependencies.now) f.new }
{
    for dependency in dependencies {
        let needs = Needs(*dependency);
        writeln!(f, "{needs}")?;
    }
    Ok(())
}

/// Writes a line for each group.
fn write_groups<W: fmt::Write>(f: &mut fmt::Formatter<W>, groups: &[Group]) -> fmt::Result
    ensures { WritesOnOk W.write_str_gives f.old result
        (printed_lines needs_one_text groups.now) f.new }
{
    for group in groups {
        let needs = NeedsOne(group);
        writeln!(f, "{needs}")?;
    }
    Ok(())
}
