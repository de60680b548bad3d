//! Reads the files to upload to a device, for its manifest.
ghost use Rattle.std.specs.Prelude.{◌≡◌, ◌<◌, IfOk, length};
ghost use Rattle.host.specs.Input.{KeepsFiles};
ghost use Rattle.creating.specs.NewManifestEnd.{HaveImages};
ghost use Rattle.creating.specs.NewManifestSteps.{ReadsComponent, ReadsComponents};

use crate::next_boot::{request, write_lack};
use arrayvec::ArrayVec;
use command_line::NewComponent;
use device_texts::NoteList;
use host::{Host, MOST_FILE, Refusal, Source, SourceFault};
use image_reading::{Desc, ImageError, describe};
use inputs::OwnNeed;
use manifest::{Component, MOST_COMPONENTS};
use reports::Table;
use sector_map::SectorMap;
use sha2::{Digest, Sha256};
use std::alloc::{AllocError, Global};

/// Makes the components of a manifest for these files, which are read from `host` one by one into
/// memory of `alloc`.
///
/// `precursors` are the digests of the images that have to run, one for each file. Adds to `notes`
/// the files that a device with this map will not take, and requests the files in `table`, if there
/// is one.
pub fn read_components<H: Host>(
    alloc: Global,
    map: &SectorMap,
    asked: &[NewComponent<'_>],
    precursors: &[Option<[u8; 32]>],
    host: &mut H,
    table: &mut Option<Table>,
    notes: &mut NoteList,
) -> Result<ArrayVec<Component, MOST_COMPONENTS>, Refusal>
    requires same { length precursors.now ≡ length asked.now }
    requires there { HaveImages map.now.images asked.now }
    ensures read { IfOk result (λ components. ReadsComponents asked.now precursors.now
        (H.input host.old) (H.file host.old) components.items) }
    ensures files { KeepsFiles (H.file host.old) (H.file host.new) }
    ensures opened { H.opened host.new ≡ H.opened host.old }
{
    let mut components = ArrayVec::new();
    for place in 0..asked.len() {
        let (asked, precursor) = (&asked[place], precursors[place]);
        let component = read_component(alloc, map, asked, precursor, host, table, notes)?;
        if components.is_full() {
            return Err(Refusal::NotMade);
        }
        components.push(component);
    }
    Ok(components)
}

/// Makes the component for a file, which is read from `host`. `precursor` is the digest of the
/// image that has to run.
fn read_component<H: Host>(
    alloc: Global,
    map: &SectorMap,
    asked: &NewComponent<'_>,
    precursor: Option<[u8; 32]>,
    host: &mut H,
    table: &mut Option<Table>,
    notes: &mut NoteList,
) -> Result<Component, Refusal>
    requires { asked.now.image < map.now.images }
    ensures read { IfOk result (ReadsComponent asked.now precursor
        (H.input host.old) (H.file host.old) (H.input host.new) (H.file host.new)) }
    ensures files { KeepsFiles (H.file host.old) (H.file host.new) }
    ensures opened { H.opened host.new ≡ H.opened host.old }
{
    let source = Source::named(asked.file);
    let file = source.read(alloc, host, MOST_FILE)?;
    let Ok(size) = u32::try_from(file.len()) else {
        return Err(source.refused(alloc, SourceFault::TooLong(MOST_FILE)));
    };
    let described = describe(&file);
    if write_notes(notes, map, asked, &file, &described).is_err() {
        return Err(Refusal::NoMemory);
    }
    // If there is a table, the decision over it reports this reason too.
    if table.is_none() && write_lack(notes, map.images, asked.image, &described).is_err() {
        return Err(Refusal::NoMemory);
    }
    request(table, asked.image, described);
    Ok(Component {
        image: asked.image,
        permanent: asked.permanent,
        size,
        digest: Sha256::digest(file.as_slice()),
        precursor,
    })
}

/// Adds to the notes why a device with this map will not take a file, one for each reason, and
/// that its image needs an image of its own number.
fn write_notes(
    notes: &mut NoteList,
    map: &SectorMap,
    asked: &NewComponent<'_>,
    file: &[u8],
    described: &Result<Desc, ImageError>,
) -> Result<(), AllocError>
    requires { asked.now.image < map.now.images }
{
    let (source, image) = (Source::named(asked.file), asked.image);
    match described {
        Ok(description) => {
            if let Some(need) = OwnNeed::of(source, image, description) {
                notes.add(need)?;
            }
        }
        Err(fault) => {
            let (code, name) = (fault.code(), fault.name());
            notes.add(format_args!("{source} is no intact image: {code} {name}"))?;
        }
    }
    let (long, slot) = (file.len(), map.slot_length(image));
    if long > slot as usize {
        notes.add(format_args!(
            "{source} has {long} bytes, and the slots of image {image} {slot}"
        ))?;
    }
    Ok(())
}
