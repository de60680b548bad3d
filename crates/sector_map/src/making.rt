//! Makes a map of given sizes.

ghost use Rattle.std.specs.Prelude.{◌≡◌, ◌+◌, ◌*◌, ◌<◌, ◌≤◌, ◌^◌, ◌↔◌, ℕ, IsTrue, IfOk, IfErr, IsOk, length, slice_index};
ghost use Rattle.sector_map.specs.Making.{HasSizes, IsMapFault};
ghost use Rattle.sector_map.specs.Sizes.{IsSectorSize, AreImages, HoldTrailers, AreAddressed, MakeMap, before};

use crate::error::MapError;
use crate::layout::SectorMap;
use common::limits::MOST_IMAGES;

impl SectorMap {
    /// Makes the map of a device with sectors of `sector_size` bytes. `sectors_per_image` has an
    /// entry for each image: the number of sectors in each of its two slots, without trailers.
    ///
    /// # Errors
    /// The first check that fails:
    /// - `BadSector` unless `sector_size` is a multiple of 64 from 512 to 131072;
    /// - `BadCount` unless there are 1 to 8 images, each with at least one sector;
    /// - `TrailerFull` if a trailer doesn't fit into a sector: it has three status units of 8 bytes
    ///   for each sector of a slot, and 56 more bytes;
    /// - `TooLarge` if all parts together have more than 4294967295 bytes.
    ///
    /// # Examples
    ///
    /// ```text
    /// // Two images of two sectors of 512 bytes. A trailer of one sector follows each slot.
    /// let map = SectorMap::new(512, &[2, 2])?;
    /// assert!(rt; map.images == 2 && map.bytes_in_all() == 8192);
    /// assert!(rt; map.slot_start(1, Side::Primary) == 1536);
    /// assert!(rt; map.scratch_start() == 6144);
    /// ```
    pub fn new(sector_size: u32, sectors_per_image: &[u32]) -> Result<SectorMap, MapError>
        ensures made { IfOk result (HasSizes sector_size sectors_per_image.now) }
        ensures accepted { IsOk result ↔
            MakeMap sector_size (length sectors_per_image.now) sectors_per_image.now }

        ensures fault { IfErr result (IsMapFault sector_size sectors_per_image.now) }
        ensures refused { (fault : MapError)
            → IsMapFault sector_size sectors_per_image.now fault → result ≡ Err fault }
    {
        if !is_sector_size(sector_size) {
            return Err(MapError::BadSector);
        }
        if !are_images(sectors_per_image) {
            return Err(MapError::BadCount);
        }
        if !hold_trailers(sector_size, sectors_per_image) {
            return Err(MapError::TrailerFull);
        }
        if !are_addressed(sector_size, sectors_per_image) {
            return Err(MapError::TooLarge);
        }
        Ok(SectorMap {
            sector_size,
            images: sectors_per_image.len() as u8,
            sectors: table_of(sectors_per_image),
        })
    }
}

fn is_sector_size(size: u32) -> bool
    ensures { IsTrue result ↔ IsSectorSize size }
{
    size % 64 == 0 && 512 <= size && size <= 131072
}

fn are_images(counts: &[u32]) -> bool
    ensures { IsTrue result ↔ AreImages (length counts.now) counts.now }
{
    !counts.is_empty() && counts.len() <= MOST_IMAGES && counts.iter().all(|count| *count > 0)
}

fn hold_trailers(size: u32, counts: &[u32]) -> bool
    requires { 56 ≤ size }
    ensures { IsTrue result ↔ HoldTrailers size counts.now }
{
    counts
        .iter()
        .all(|count| 24 * u64::from(*count) + 56 <= u64::from(size))
}

fn are_addressed(size: u32, counts: &[u32]) -> bool
    requires sector { size ≤ 131072 }
    requires few { length counts.now ≤ MOST_IMAGES }
    ensures { IsTrue result ↔ AreAddressed size (length counts.now) counts.now }
{
    (2 * side_sectors(counts) + 4) * u64::from(size) <= u64::from(u32::MAX)
}

/// Returns the number of sectors of one side, trailers included.
#[tactic(auto, using(crate::proofs::Places::counting))]
fn side_sectors(counts: &[u32]) -> u64
    requires { length counts.now ≤ MOST_IMAGES }
    ensures sectors { result ≡ before counts.now (length counts.now) }
    ensures small { result ≤ 8 * 2 ^ 32 }
{
    let mut sectors = 0;
    for count in counts {
        sectors += u64::from(*count) + 1;
    }
    sectors
}

/// Returns the counts, with 0 for images that aren't there.
fn table_of(counts: &[u32]) -> [u32; MOST_IMAGES]
    requires { length counts.now ≤ MOST_IMAGES }
    ensures { (k : ℕ) → slice_index result k ≡ slice_index counts.now k }
{
    let mut table = [0; MOST_IMAGES];
    for i in 0..counts.len() {
        table[i] = counts[i];
    }
    table
}
