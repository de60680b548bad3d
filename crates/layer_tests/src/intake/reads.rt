//! A test of how many bytes of a flash are read to describe a slot.

ghost use Rattle.std.specs.Prelude.{◌≤◌};
ghost use Rattle.flash_model.specs.Blanks.{IsBlankOf};

use crate::counting::Counting;
use crate::images::{NEEDY, UNASKED};
use crate::intake::samples::{dependency, letters, spec};
use crate::memory::in_memory;
use flash_model::Flash;
use sector_map::{SectorMap, Side};
use std::alloc::Global;
use std::marker::Brand;
use std::process::Abort;
use std::sync::ledger::{Blank, Ledger};
use std::test::Fail;
use tlv::{ImageSpec, describe_slot, make_image};

/// Describes primary slot 0.
fn describe_first<F: Flash>(rt: &impl Abort, flash: &mut F) -> Result<(), Fail> {
    let map = SectorMap::new(512, &[2, 1])?;
    assert!(rt; map.images == 2 && map.fits(flash));
    let _described = describe_slot(flash, &map, 0, Side::Primary)?;
    Ok(())
}

/// The number of bytes that `describe_slot` reads from a slot with this image, in all calls and in
/// the longest one.
fn counted<L: Ledger>(
    rt: &(impl Abort + AllocGlobal),
    blank: Blank,
    image: &[u8],
) -> Result<(u64, usize), Fail>
    requires blank { IsBlankOf blank L.name L.parts 2 }
{
    let mut bytes = Vec::from_slice(rt.alloc(), image)?;
    bytes.resize(7168, 0xff)?;
    let mut flash = Counting::new(in_memory::<L>(rt, blank, bytes), 0, 7168);
    describe_first(rt, &mut flash)?;
    Ok((flash.read, flash.most))
}

fn bytes_read(rt: &(impl Abort + AllocGlobal), image: &[u8]) -> Result<(u64, usize), Fail> {
    counted::<Brand>(rt, Blank::new(2), image)
}

/// An image with a counter, 16 dependencies and `groups` groups of four alternatives.
fn needing(alloc: Global, groups: usize) -> Result<Vec<u8>, Fail>
    requires { groups ≤ 4 }
{
    let (dependencies, four) = ([dependency(); 16], [dependency(); 4]);
    let all = [four.as_slice(); 4];
    let asked = ImageSpec {
        counter: Some(5),
        groups: &all[..groups],
        ..spec(&dependencies)
    };
    Ok(make_image(alloc, &asked)?)
}

/// The length in bytes of the protected area of that image without groups.
const PROTECTED: u64 = 4 + (4 + 4) + 16 * (4 + 12);

/// The number of bytes that are read for each of five images, in all calls and in the longest one.
const READ: [(u64, usize); 5] = [
    (32 + 900 + 32 + 40, 256),
    (32 + 4 + 28 + 32 + 28 + 40, 64),
    (36 + PROTECTED + 32 + PROTECTED + 40, 256),
    (36 + PROTECTED + 208 + 32 + PROTECTED + 208 + 40, 256),
    (36 + 32 + 40 + 4 + 4, 36),
];

// The header, the body and the protected area are read once for the digest. These are read at most
// once more: the header, the head of each area and entry, and the values of dependencies, groups,
// digest and security counter. Other values aren't read.
#[test]
fn what_is_digested_is_read_once_and_each_entry_once_beside(rt: HostRuntime) -> Result<(), Fail> {
    let (long, many) = (letters(rt.alloc(), 900)?, needing(rt.alloc(), 0)?);
    let most = needing(rt.alloc(), 4)?;
    let images: [&[u8]; 5] = [
        long.as_slice(),
        &NEEDY,
        many.as_slice(),
        most.as_slice(),
        &UNASKED,
    ];
    for place in 0..5 {
        assert!(rt; bytes_read(&rt, images[place])? == READ[place]);
    }
    Ok(())
}
