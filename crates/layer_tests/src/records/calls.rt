//! Calls on trailers, the log and slots of a flash in memory, for two images of two sectors.

ghost use Rattle.flash_model.specs.Blanks.{IsBlankOf};

use super::states::STEADY;
use crate::memory::in_memory;
use flash_model::{Flash, Result, Torn};
use sector_map::{SectorMap, Side, is_within};
use set_log::{append, read_state, start};
use std::marker::Brand;
use std::process::Abort;
use std::sync::ledger::{Blank, Ledger};
use std::test::Fail;
use swap_scratch::swap_set;
use trailer::{Kind, Magic, Settling, clear, read_trailer, request, set_ok, settle, withdraw};

/// A call. If it names no image, it is on a trailer or a slot of image 0.
#[derive(Clone, Copy)]
pub(super) enum Call {
    /// Clears the secondary trailer and requests the image.
    Request(Kind),
    Withdraw,
    Confirm,
    Settle(Settling),
    /// Swaps a set of images.
    Swap(u8),
    /// Starts a log with a steady state of this sequence number.
    Begin(u32),
    /// Appends such a state, or starts a log with it if there is no log.
    Append(u32),
}

/// The outcome of calls: the result of the last one, the numbers of writes and of completed erases,
/// and the bytes of the flash.
pub(super) type Outcome = (Result<()>, u64, u64, Vec<u8>);

/// Makes a call on a log.
fn record<F: Flash>(
    rt: &impl Abort,
    flash: &mut F,
    map: &SectorMap,
    sequence: u32,
    is_append: bool,
) -> Result<()> {
    let mut state = STEADY;
    state.sequence = sequence;
    assert!(rt; map.fits(flash) && state.fits(map.images));
    if is_append && read_state(flash, map).is_ok() {
        append(flash, map, &state)
    } else {
        start(flash, map, &state)
    }
}

/// Makes a call on trailers or slots.
fn make<F: Flash>(rt: &impl Abort, flash: &mut F, map: &SectorMap, call: Call) -> Result<()> {
    assert!(rt; map.images == 2 && map.fits(flash));
    match call {
        Call::Request(kind) => {
            clear(flash, map, 0, Side::Secondary)?;
            request(flash, map, 0, kind)
        }
        Call::Withdraw => withdraw(flash, map, 0),
        Call::Confirm => set_ok(flash, map, 0),
        Call::Settle(settling) => settle(flash, map, 0, settling),
        Call::Swap(mask) => {
            assert!(rt; is_within(map, mask));
            swap_set(flash, map, mask, Side::Primary)
        }
        Call::Begin(sequence) => record(rt, flash, map, sequence, false),
        Call::Append(sequence) => record(rt, flash, map, sequence, true),
    }
}

/// Makes calls on a flash of these bytes. The write with the number `cut` is cut and leaves `torn`.
fn made<L: Ledger>(
    rt: &(impl Abort + AllocGlobal),
    blank: Blank,
    bytes: Vec<u8>,
    cut: u32,
    torn: Torn,
    calls: &[Call],
) -> Result<Outcome, Fail>
    requires blank { IsBlankOf blank L.name L.parts 2 }
{
    let map = SectorMap::new(512, &[2, 2])?;
    let mut flash = in_memory::<L>(rt, blank, bytes);
    flash.arm(u64::from(cut), torn)?;
    let mut last = Ok(());
    for call in calls {
        last = make(rt, &mut flash, &map, *call);
    }
    let bytes = Vec::from_slice(rt.alloc(), flash.bytes())?;
    Ok((last, flash.writes(), flash.erases(), bytes))
}

/// The outcome of calls on a flash of these bytes. The write with the number `cut`, counted from 1,
/// is cut and leaves `torn`.
pub(super) fn torn_outcome_of(
    rt: &(impl Abort + AllocGlobal),
    bytes: Vec<u8>,
    cut: u32,
    torn: Torn,
    calls: &[Call],
) -> Result<Outcome, Fail> {
    made::<Brand>(rt, Blank::new(2), bytes, cut, torn, calls)
}

/// The outcome of calls on a flash of these bytes. The write with the number `cut`, counted from 1,
/// is cut and changes nothing.
pub(super) fn outcome_of(
    rt: &(impl Abort + AllocGlobal),
    bytes: Vec<u8>,
    cut: u32,
    calls: &[Call],
) -> Result<Outcome, Fail> {
    torn_outcome_of(rt, bytes, cut, Torn::Keep, calls)
}

/// Reads both values of `read_of`.
fn read<L: Ledger>(
    rt: &(impl Abort + AllocGlobal),
    blank: Blank,
    bytes: Vec<u8>,
) -> Result<(Option<u32>, Option<Magic>), Fail>
    requires blank { IsBlankOf blank L.name L.parts 2 }
{
    let map = SectorMap::new(512, &[2, 2])?;
    let mut flash = in_memory::<L>(rt, blank, bytes);
    assert!(rt; map.images == 2 && map.fits(&flash));
    let sequence = match read_state(&mut flash, &map) {
        Ok(state) => Some(state.sequence),
        Err(_) => None,
    };
    let magic = match read_trailer(&mut flash, &map, 0, Side::Secondary) {
        Ok(trailer) => Some(trailer.magic),
        Err(_) => None,
    };
    Ok((sequence, magic))
}

/// Two values that are read from a flash of these bytes: the sequence number of its state, and the
/// magic of the secondary trailer of image 0.
pub(super) fn read_of(
    rt: &(impl Abort + AllocGlobal),
    bytes: Vec<u8>,
) -> Result<(Option<u32>, Option<Magic>), Fail> {
    read::<Brand>(rt, Blank::new(2), bytes)
}
