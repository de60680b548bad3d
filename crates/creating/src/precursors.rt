//! Reads the precursors of a manifest from a flash: the images that have to run when its files are
//! installed.
ghost use Rattle.std.specs.Prelude.{◌≡◌, ◌<◌, IfOk, true};
ghost use Rattle.flash_model.specs.Blanks.{IsBlankOf};
ghost use Rattle.sector_map.specs.Map.{IsLaidOut};
ghost use Rattle.host.specs.Input.{KeepsFiles};
ghost use Rattle.device_texts.specs.FlashOf.{IsFlashOf, flash_of};
ghost use Rattle.creating.specs.NewManifestEnd.{HaveImages};
ghost use Rattle.creating.specs.NewManifestSteps.{FindsNone, FindsPrecursor};
ghost use Rattle.creating.specs.NewManifestSteps.{FindsPrecursors, ReadsPrecursors};

use arrayvec::ArrayVec;
use command_line::{NewComponent, NewManifest};
use device_texts::flash_of;
use flash_model::Flash;
use host::{Access, Host, Refusal, Source};
use image_reading::describe_slot;
use inputs::{Intake, Notes, intake_on, read_flash, table_on};
use manifest::MOST_COMPONENTS;
use reports::Table;
use sector_map::{SectorMap, Side};
use std::alloc::Global;
use std::marker::Brand;
use std::sync::ledger::{Blank, Ledger};

/// The precursors of the files of a manifest.
#[derive(Drop)]
pub struct Running {
    /// For each file, the digest of the image that has to run. `None` if any image may run.
    pub digests: ArrayVec<Option<[u8; 32]>, MOST_COMPONENTS>,
    /// The running and requested images, if a flash has them. Only notes use it.
    pub table: Option<Table>,
    /// Which manifests the device of the flash takes, if its log has a state. Only notes use it.
    pub intake: Option<Intake>,
}

/// The result of reading the precursors.
#[derive(Drop)]
pub enum Precursors {
    /// The precursors of all files.
    Are(Running),
    /// The running image of this number isn't intact, and a file is for it.
    DamagedAt(u8),
}

/// Reads the precursors from the flash that the arguments name, which is read from `host` into
/// memory of `alloc`: for each file, the digest of the running image. If the arguments name no
/// flash, nothing is read, and any image may run. A running image that isn't intact is handed to
/// `notes`.
///
/// # Errors
/// `NotMade` if there are more files than a manifest can have components, and the errors of
/// [`read_flash`].
pub fn read_precursors<H: Host, N: Notes>(
    alloc: Global,
    map: &SectorMap,
    asked: &NewManifest<'_>,
    host: &mut H,
    notes: &mut N,
) -> Result<Precursors, Refusal>
    requires there { HaveImages map.now.images asked.now.components.items }
    ensures read { IfOk result (ReadsPrecursors map.now asked.now
        (H.input host.old) (H.file host.old) (H.input host.new) (H.file host.new)) }
    ensures files { KeepsFiles (H.file host.old) (H.file host.new) }
    ensures to_read { (H.opened host.new).to_write ≡ (H.opened host.old).to_write }
{
    let components = asked.components.as_slice();
    let Some(flash) = asked.precursor else {
        return any_precursors(components);
    };
    let bytes = read_flash(alloc, Source::named(flash), map, Access::Read, host)?;
    precursors_in::<Brand, _>(alloc, Blank::new(2), map, bytes, components, notes)
}

/// The precursors of these files if any image may run.
fn any_precursors(asked: &[NewComponent<'_>]) -> Result<Precursors, Refusal>
    ensures { IfOk result (FindsNone asked.now) }
{
    let mut digests = ArrayVec::new();
    for _ in asked {
        if digests.is_full() {
            return Err(Refusal::NotMade);
        }
        digests.push(None);
    }
    let (table, intake) = (None, None);
    Ok(Precursors::Are(Running {
        digests,
        table,
        intake,
    }))
}

/// The precursors of these files on a flash of these bytes.
fn precursors_in<L: Ledger, N: Notes>(
    alloc: Global,
    blank: Blank,
    map: &SectorMap,
    bytes: Vec<u8>,
    asked: &[NewComponent<'_>],
    notes: &mut N,
) -> Result<Precursors, Refusal>
    requires blank { IsBlankOf blank L.name L.parts 2 }
    requires whole { IsFlashOf map.now bytes.items }
    requires there { HaveImages map.now.images asked.now }
    ensures { IfOk result (FindsPrecursors map.now (flash_of map.now bytes.items) asked.now) }
{
    let mut flash = flash_of::<L>(alloc, blank, map, bytes);
    let precursors = precursors_on(&mut flash, map, asked)?;
    if let Precursors::DamagedAt(image) = &precursors {
        notes.damaged(map, flash.bytes(), *image, Side::Primary);
    }
    Ok(precursors)
}

/// The precursors of these files on a flash that has power.
fn precursors_on<F: Flash>(
    flash: &mut F,
    map: &SectorMap,
    asked: &[NewComponent<'_>],
) -> Result<Precursors, Refusal>
    requires laid_out { IsLaidOut map.now (F.chip flash.old) }
    requires there { HaveImages map.now.images asked.now }
    requires on { (F.chip flash.old).is_on ≡ true }
    ensures { IfOk result (FindsPrecursors map.now (F.chip flash.old) asked.now) }
{
    let table = table_on(flash, map);
    let intake = intake_on(flash, map);
    let mut digests = ArrayVec::new();
    for component in asked {
        let Some(digest) = running_digest(flash, map, component.image) else {
            return Ok(Precursors::DamagedAt(component.image));
        };
        if digests.is_full() {
            return Err(Refusal::NotMade);
        }
        digests.push(Some(digest));
    }
    Ok(Precursors::Are(Running {
        digests,
        table,
        intake,
    }))
}

/// The digest of the running image of this number, on a flash that has power. `None` if it isn't
/// intact.
fn running_digest<F: Flash>(flash: &mut F, map: &SectorMap, image: u8) -> Option<[u8; 32]>
    requires laid_out { IsLaidOut map.now (F.chip flash.old) }
    requires there { image < map.now.images }
    requires on { (F.chip flash.old).is_on ≡ true }
    ensures same { F.chip flash.new ≡ F.chip flash.old }
    ensures found { FindsPrecursor map.now (F.chip flash.old) image result }
{
    match describe_slot(flash, map, image, Side::Primary) {
        Ok(description) => Some(description.digest),
        Err(_) => None,
    }
}
