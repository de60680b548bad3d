//! The map of a device's flash: the sectors of its images, and the places of all parts.

ghost use Rattle.std.specs.Prelude.{◌≡◌, ◌+◌, ◌*◌, ◌<◌, ◌≤◌, ◌^◌, ◌↔◌, ℕ, IsTrue};
ghost use Rattle.sector_map.specs.Sizes.{MakeMap, before};

use common::limits::MOST_IMAGES;
use flash_model::Flash;

/// One of the two slots of an image (MCUboot design document, "Image Slots").
#[derive(Clone, Copy, Debug, PartialEq, Eq)]
pub enum Side {
    /// The slot that the image runs from.
    Primary,
    /// The slot that a new image is written to. It holds the old image during a trial of the new
    /// one.
    Secondary,
}

/// The places of the parts of a device on its flash, by the length of a sector and the sectors of
/// each image.
///
/// The order of the parts, by address, is:
/// - for each image its primary slot, and one sector for the slot's trailer;
/// - for each image its secondary slot, and one sector for the slot's trailer;
/// - one scratch sector;
/// - three sectors of the log.
///
/// The two slots of an image have the same number of sectors. Sectors and images are numbered from
/// 0. Calls take only images and sectors that the map has. Addresses are in bytes.
#[derive(Clone, Copy, Debug, PartialEq, Eq)]
pub struct SectorMap {
    /// The length of a sector in bytes.
    pub sector_size: u32,
    /// The number of images.
    pub images: u8,
    /// The number of sectors in each slot of an image, or 0 if there is no such image.
    pub sectors: [u32; MOST_IMAGES],
    ghost is_map: { MakeMap sector_size images sectors },
}

impl SectorMap {
    ghost use Rattle.sector_map.specs.Map.{IsLaidOut, first_of, side_start, start_of, slot_sectors, sectors_of};
    ghost use Rattle.sector_map.specs.Map.{places_of, place_of_record, closing_unit};
    ghost use Rattle.sector_map.specs.Part.{Slot, TrailerOf, Scratch, Log};

    /// Returns the number of sectors in each slot of an image.
    pub fn slot_sectors(&self, image: u8) -> u32
        requires { image < self.now.images }
        ensures { result ≡ slot_sectors self.now image }
    {
        self.sectors[usize::from(image)]
    }

    /// Returns the length in bytes of each slot of an image.
    pub fn slot_length(&self, image: u8) -> u32
        requires { image < self.now.images }
        ensures { result ≡ slot_sectors self.now image * self.now.sector_size }
    {
        self.slot_sectors(image) * self.sector_size
    }

    /// Returns the number of sectors of the map. Sectors are numbered from 0.
    pub fn sectors_in_all(&self) -> u32
        ensures { result ≡ sectors_of self.now }
    {
        self.scratch() + 4
    }

    /// Returns the number of bytes of the map.
    pub fn bytes_in_all(&self) -> u32
        ensures { result ≡ sectors_of self.now * self.now.sector_size }
    {
        self.sectors_in_all() * self.sector_size
    }

    /// Returns the number of a slot's first sector.
    #[tactic(auto, using(crate::proofs::Places::first_fits))]
    pub fn slot(&self, image: u8, side: Side) -> u32
        requires { image < self.now.images }
        ensures { result ≡ first_of self.now (Slot image side) }
    {
        self.start_of(side) + self.sectors_before(image)
    }

    /// Returns the address of a slot's first byte.
    #[tactic(auto, using(crate::proofs::Places::slot_within))]
    pub fn slot_start(&self, image: u8, side: Side) -> u32
        requires { image < self.now.images }
        ensures { result ≡ start_of self.now (Slot image side) }
    {
        self.sector_start(self.slot(image, side))
    }

    /// Returns the number of a trailer's sector.
    #[tactic(auto, using(crate::proofs::Places::first_fits))]
    pub fn trailer(&self, image: u8, side: Side) -> u32
        requires { image < self.now.images }
        ensures { result ≡ first_of self.now (TrailerOf image side) }
    {
        self.slot(image, side) + self.slot_sectors(image)
    }

    /// Returns the address of a trailer's first byte.
    #[tactic(auto, using(crate::proofs::Places::trailer_within))]
    pub fn trailer_start(&self, image: u8, side: Side) -> u32
        requires { image < self.now.images }
        ensures { result ≡ start_of self.now (TrailerOf image side) }
    {
        self.sector_start(self.trailer(image, side))
    }

    /// Returns the number of the scratch sector.
    pub fn scratch(&self) -> u32
        ensures { result ≡ first_of self.now Scratch }
    {
        2 * self.sectors_before(self.images)
    }

    /// Returns the address of the scratch sector's first byte.
    pub fn scratch_start(&self) -> u32
        ensures { result ≡ start_of self.now Scratch }
    {
        self.sector_start(self.scratch())
    }

    /// Returns the number of a sector of the log, given by its position in the log from 0 to 2.
    pub fn log_sector(&self, sector: u32) -> u32
        requires { sector < 3 }
        ensures { result ≡ first_of self.now Log + sector }
    {
        self.scratch() + 1 + sector
    }

    /// Returns the number of places for records of 64 bytes in a sector of the log.
    pub fn record_places(&self) -> u32
        ensures { result ≡ places_of self.now }
    {
        self.sector_size / 64 - 1
    }

    /// Returns the address of a place for a record in sector `sector` of the log, which is from 0
    /// to 2. Places are counted from 0.
    pub fn record_start(&self, sector: u32, place: u32) -> u32
        requires sector { sector < 3 }
        requires place { place < places_of self.now }
        ensures { result ≡ place_of_record self.now sector place }
    {
        self.sector_start(self.log_sector(sector)) + 64 * place
    }

    /// Returns the address of the closing unit of sector `sector` of the log, which is from 0 to 2.
    /// This unit is the last 8 bytes of the sector.
    pub fn closing_unit(&self, sector: u32) -> u32
        requires { sector < 3 }
        ensures { result ≡ closing_unit self.now sector }
    {
        self.sector_start(self.log_sector(sector)) + (self.sector_size - 8)
    }

    /// Returns the address of a sector's first byte.
    pub fn sector_start(&self, sector: u32) -> u32
        requires { sector < sectors_of self.now }
        ensures { result ≡ sector * self.now.sector_size }
    {
        sector * self.sector_size
    }

    /// Returns whether the map fits a flash: its sectors have the map's size, and there are at
    /// least as many as the map needs.
    #[tactic(auto, using(crate::proofs::Parts::laid_out_by))]
    pub fn fits<F: Flash>(&self, flash: &F) -> bool
        ensures { IsTrue result ↔ IsLaidOut self.now (F.chip flash.now) }
    {
        flash.sector_size() == self.sector_size && flash.sectors() >= self.sectors_in_all()
    }

    /// Returns the number of the first sector of a side.
    fn start_of(&self, side: Side) -> u32
        ensures { result ≡ side_start self.now side }
    {
        match side {
            Side::Primary => 0,
            Side::Secondary => self.sectors_before(self.images),
        }
    }

    /// Returns the number of sectors of one side before an image, trailers included.
    #[tactic(auto, using(crate::proofs::Places::placing))]
    fn sectors_before(&self, image: u8) -> u32
        requires { image ≤ self.now.images }
        ensures { result ≡ before self.now.sectors image }
    {
        let mut at = 0;
        for i in 0..image {
            at += self.sectors[usize::from(i)] + 1;
        }
        at
    }
}
