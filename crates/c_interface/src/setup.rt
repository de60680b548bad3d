//! The setup of a device, and its check.

ghost use Rattle.std.specs.Prelude.{◌≡◌, ◌↔◌, IfErr, IfOk, IfSome, IsTrue, None};
ghost use Rattle.c_interface.specs.Setup.{HasRoom, IsIdentityOf, IsCheckedSetup, IsMapOf, IsTrial, IsRefusedSetup, MakesNoMap};

use crate::numbers::{NO_FLASH, NO_MAP, NO_TRIAL};
use common::limits::{MOST_IMAGES, MOST_TRIAL_BOOTS};
use manifest::Identity;
use sector_map::SectorMap;
use uuid::Uuid;

/// How a device is set up: the sizes of its flash, the length of its trials, and its identity for
/// manifests.
#[repr(C)]
#[derive(Clone, Copy)]
pub struct Setup {
    /// The length of a sector in bytes: a multiple of 64 from 512 to 131072.
    pub sector_size: u32,
    /// The number of images, 1 to 8.
    pub images: u32,
    /// The number of sectors of each slot of an image. Entries after the last image are ignored.
    pub sectors: [u32; MOST_IMAGES],
    /// The number of boots of a trial, 1 to 7.
    pub trial_boots: u32,
    /// Its vendor: the 16 bytes of a UUID, in the order of its text (RFC 9562).
    pub vendor: [u8; 16],
    /// Its class of devices, a UUID too.
    pub class: [u8; 16],
}

/// A setup that was checked against the bytes of a flash.
#[derive(Drop)]
pub(crate) struct CheckedSetup {
    pub(crate) map: SectorMap,
    pub(crate) identity: Identity,
    pub(crate) boots: u8,
}

/// The map of a setup's sizes, if they make one.
fn map_of(setup: &Setup) -> Option<SectorMap>
    ensures some { IfSome result (IsMapOf setup.now) }
    ensures none { result ≡ None → MakesNoMap setup.now }
{
    let images = setup.images as usize;
    if images > MOST_IMAGES {
        return None;
    }
    match SectorMap::new(setup.sector_size, &setup.sectors[..images]) {
        Ok(map) => Some(map),
        Err(_) => None,
    }
}

/// The identity of a setup with this number of images.
fn identity_of(setup: &Setup, images: u8) -> Identity
    ensures { IsIdentityOf setup.now images result }
{
    Identity {
        vendor: Uuid::from_bytes(setup.vendor),
        class: Uuid::from_bytes(setup.class),
        images,
    }
}

/// Whether a trial may have this number of boots.
fn is_trial(boots: u32) -> bool
    ensures { IsTrue result ↔ IsTrial boots }
{
    (1..=u32::from(MOST_TRIAL_BOOTS)).contains(&boots)
}

/// Whether bytes are whole sectors of the map's size, no fewer than the map has, and fewer than
/// 2^32 bytes.
fn fits(map: &SectorMap, bytes: &[u8]) -> bool
    ensures { IsTrue result ↔ HasRoom map.now bytes.now }
{
    bytes.len() % map.sector_size as usize == 0
        && bytes.len() <= u32::MAX as usize
        && bytes.len() >= map.bytes_in_all() as usize
}

/// Checks a setup for a flash of these bytes: the sizes first, then the trial, then the bytes.
///
/// # Errors
/// The number to return.
pub(crate) fn check_setup(setup: &Setup, bytes: &[u8]) -> Result<CheckedSetup, u32>
    ensures checked { IfOk result (IsCheckedSetup setup.now bytes.now) }
    ensures refused { IfErr result (IsRefusedSetup setup.now bytes.now) }
{
    let Some(map) = map_of(setup) else {
        return Err(NO_MAP);
    };
    if !is_trial(setup.trial_boots) {
        return Err(NO_TRIAL);
    }
    if !fits(&map, bytes) {
        return Err(NO_FLASH);
    }
    Ok(CheckedSetup {
        map,
        identity: identity_of(setup, map.images),
        boots: setup.trial_boots as u8,
    })
}
