//! A test of how many bytes of each part of the flash each call of a device reads.
//!
//! DESIGN.md, "What each call reads", says why.

ghost use Rattle.std.specs.Prelude.{◌≤◌};
ghost use Rattle.flash_model.specs.Blanks.{IsBlankOf};

use super::devices::{identity, put, put_log};
use crate::counting::Counting;
use crate::images::{COUNTED_FIVE, RUNNING};
use crate::memory::in_memory;
use boot_core::{Device, step};
use flash_model::{Flash, MemFlash, Torn};
use machine::{Event, Reply};
use sector_map::SectorMap;
use std::marker::Brand;
use std::process::Abort;
use std::sync::ledger::{Blank, Ledger};
use std::test::Fail;

/// What a check of RUNNING reads: the bytes that its digest covers, the header again, the head of
/// the area, the head of its entry, and the digest.
const OLD: u64 = 36 + 32 + 4 + 4 + 32;

/// What a check of COUNTED_FIVE reads: it also has a protected area, whose heads and counter are
/// read again.
const NEW: u64 = 48 + 32 + 4 + 4 + 4 + 4 + 4 + 32;

/// What a look at the length of RUNNING reads, after its check: the header, the head of the area and
/// the head of its entry.
const OLD_LENGTH: u64 = 32 + 4 + 4;

/// The same for COUNTED_FIVE, which has two areas of one entry each.
const NEW_LENGTH: u64 = 32 + 4 + 4 + 4 + 4;

/// A sector, which a swap copies once from each slot and once from scratch.
const MOVED: u64 = 512;

/// The most bytes that a call reads of ten parts. The first four are the parts of the image that is
/// upgraded: primary slot, its trailer, secondary slot, its trailer. The next four are those of any
/// other image. The last two are scratch and the log.
type Parts = [u64; 10];

const PLAIN: Parts = [OLD, 0, 8, 40, OLD, 0, 8, 40, 0, 128];

const ACCEPT: Parts = [0, 0, 1040, 552, 0, 0, 0, 0, 0, 720];

const PIECE: Parts = [0, 0, 48, 96, 0, 0, 0, 0, 0, 136];

const FINISH: Parts = [0, 0, 88 + NEW, 0, 0, 0, 0, 0, 0, 136];

const WITHDRAW: Parts = [0, 0, 24, 592, 0, 0, 0, 0, 0, 120];

const CONFIRM: Parts = [0, 8, 0, 0, 0, 0, 0, 0, 0, 112];

// Boots from one record to the next: from Steady to Swap, Settle and Trial; to one boot less; to
// Back, BackSettle and Steady.
const TO_SWAP: Parts = [
    OLD + OLD_LENGTH,
    568,
    NEW + NEW_LENGTH + 16,
    80,
    OLD,
    0,
    8,
    40,
    0,
    520,
];

const TO_SETTLE: Parts = [MOVED + NEW, 56, MOVED + OLD, 0, OLD, 0, 8, 40, MOVED, 448];

const TO_TRIAL: Parts = [NEW, 56, OLD, 0, OLD, 0, 8, 40, 0, 376];

const AGAIN: Parts = [NEW, 40, 0, 0, OLD, 0, 0, 0, 0, 304];

const TO_BACK: Parts = [NEW, 40, 2 * OLD, 568, 0, 0, 0, 0, 0, 232];

const TO_BACK_SETTLE: Parts = [MOVED + OLD, 0, MOVED, 56, 0, 0, 0, 0, MOVED, 160];

const TO_STEADY: Parts = [OLD, 32, 0, 88, 0, 0, 0, 0, 0, 640];

/// A boot that upgrades without a power cut.
const UPGRADE: Parts = [
    OLD + OLD_LENGTH + MOVED + NEW,
    624,
    NEW + NEW_LENGTH + 16 + MOVED + OLD,
    80,
    2 * OLD,
    0,
    16,
    80,
    MOVED,
    1192,
];

/// A boot that finds each image of the set confirmed.
const OVER: Parts = [2 * NEW, 40, 8, 40, 2 * OLD, 0, 8, 40, 0, 336];

/// The text of a manifest: COUNTED_FIVE for image 0, for a test. Another program computed the
/// digest.
const UPDATE: &[u8] = b"{\"components\":[{\"component-id\":0,\"kind\":\"test\",\
    \"payload-digest\":\
    \"f8811a47deb2811e4f7e5462f5099ff6d4e04a44b742f9231d3a076c6468920c\",\"size\":88}],\
    \"manifest-version\":1,\"sequence-number\":1,\
    \"vendor-id\":\"886313e1-3b8a-5372-9b90-0c9aee199e5d\",\
    \"class-id\":\"74b0b1ed-70fe-5a24-9102-6a41c2172c6d\"}";

/// Where the text has the number of the image.
const NUMBER: usize = 31;

/// The writes that a power cut interrupts: each is the first one after a new record is in the log.
/// The records are `Swap`, `Settle`, `Back` and `BackSettle`.
const CUTS: [u64; 4] = [19, 34, 45, 60];

/// A provisioned flash in memory, on which RUNNING runs as each image. Slots have two sectors.
fn started<L: Ledger>(
    rt: &(impl Abort + AllocGlobal),
    blank: Blank,
    images: usize,
) -> Result<MemFlash<L>, Fail>
    requires blank { IsBlankOf blank L.name L.parts 2 }
    requires images { images ≤ 8 }
{
    let log = (6 * images + 1) * 512;
    let mut bytes = vec![in rt.alloc(); 0xff; log + 1536]?;
    for image in 0..images {
        put(rt, &mut bytes, 3 * image * 512, &RUNNING);
    }
    put_log(rt, &mut bytes, log);
    let mut flash = in_memory::<L>(rt, blank, bytes);
    for write in CUTS {
        assert!(rt; write < 100);
        flash.arm(write, Torn::Keep)?;
    }
    Ok(flash)
}

/// The upgrades of one image, and what each event reads at most. The first is withdrawn, the second
/// reverts, and the third is confirmed.
fn upgrades<'a>(image: u8, text: &'a [u8]) -> [(Event<&'a [u8]>, Parts); 24] {
    let (first, second): (&'a [u8], &'a [u8]) = (&COUNTED_FIVE[..40], &COUNTED_FIVE[40..]);
    [
        (Event::Boot, PLAIN),
        (Event::Accept(text), ACCEPT),
        (Event::Piece(image, first), PIECE),
        (Event::Piece(image, second), PIECE),
        (Event::Finish(image), FINISH),
        (Event::Withdraw(image), WITHDRAW),
        (Event::Accept(text), ACCEPT),
        (Event::Piece(image, first), PIECE),
        (Event::Piece(image, second), PIECE),
        (Event::Finish(image), FINISH),
        (Event::Boot, TO_SWAP),
        (Event::Boot, TO_SETTLE),
        (Event::Boot, TO_TRIAL),
        (Event::Boot, AGAIN),
        (Event::Boot, TO_BACK),
        (Event::Boot, TO_BACK_SETTLE),
        (Event::Boot, TO_STEADY),
        (Event::Accept(text), ACCEPT),
        (Event::Piece(image, first), PIECE),
        (Event::Piece(image, second), PIECE),
        (Event::Finish(image), FINISH),
        (Event::Boot, UPGRADE),
        (Event::Confirm(image), CONFIRM),
        (Event::Boot, OVER),
    ]
}

/// Runs the upgrades of an image. No event is refused, and each reads at most what its row has of a
/// part.
///
/// - `upgraded`: the number of images, and the one that is upgraded.
/// - `sectors`: the first sector of the part, and how many it has.
/// - `part`: its index in a row.
fn run_upgrades<L: Ledger>(
    rt: &(impl Abort + AllocGlobal),
    blank: Blank,
    upgraded: (usize, u8),
    sectors: (u32, u32),
    part: usize,
) -> Result<(), Fail>
    requires blank { IsBlankOf blank L.name L.parts 2 }
{
    let ((images, image), (first, count)) = (upgraded, sectors);
    assert!(rt; images <= 8 && image < 8 && first < 128 && count < 128 && part < 10);
    let mut text = Vec::from_slice(rt.alloc(), UPDATE)?;
    put(rt, &mut text, NUMBER, &[b'0' + image]);
    let map = SectorMap::new(512, &[2; 8][..images])?;
    let flash = started::<L>(rt, blank, images)?;
    let flash = Counting::new(flash, 512 * first, 512 * (first + count));
    assert!(rt; map.fits(&flash));
    let mut device = Device::with_trial(flash, map, identity(map.images), 2);
    device.reset();
    for (event, most) in &upgrades(image, &text) {
        let before = device.flash().read;
        let reply = step(rt.alloc(), &mut device, event);
        let read = device.flash().read.saturating_sub(before);
        assert!(rt;
            !matches!(reply, Reply::Refused(_)) && read <= most[part],
            "{read} of {most:?}"
        );
    }
    Ok(())
}

fn check_part(
    rt: &(impl Abort + AllocGlobal),
    upgraded: (usize, u8),
    sectors: (u32, u32),
    part: usize,
) -> Result<(), Fail> {
    run_upgrades::<Brand>(rt, Blank::new(2), upgraded, sectors, part)
}

/// Checks the four parts of an image, given by its number. The first has the index `part`.
fn check_image(
    rt: &(impl Abort + AllocGlobal),
    upgraded: (usize, u8),
    number: u32,
    part: usize,
) -> Result<(), Fail> {
    assert!(rt; number < 8 && upgraded.0 <= 8 && part <= 4);
    let (primary, secondary) = (3 * number, 3 * (number + upgraded.0 as u32));
    check_part(rt, upgraded, (primary, 2), part)?;
    check_part(rt, upgraded, (primary + 2, 1), part + 1)?;
    check_part(rt, upgraded, (secondary, 2), part + 2)?;
    check_part(rt, upgraded, (secondary + 2, 1), part + 3)
}

#[test]
fn a_device_of_one_image_reads_no_more_than_it_needs(rt: HostRuntime) -> Result<(), Fail> {
    check_image(&rt, (1, 0), 0, 0)?;
    check_part(&rt, (1, 0), (6, 1), 8)?;
    check_part(&rt, (1, 0), (7, 3), 9)
}

#[test]
fn a_device_of_eight_images_reads_no_more_than_it_needs(rt: HostRuntime) -> Result<(), Fail> {
    for other in [0, 1, 2, 4, 5, 6, 7] {
        check_image(&rt, (8, 3), other, 4)?;
    }
    check_image(&rt, (8, 3), 3, 0)?;
    check_part(&rt, (8, 3), (48, 1), 8)?;
    check_part(&rt, (8, 3), (49, 3), 9)
}
