//! Tests of flashes that are longer than their map or off, of logs that are started on any bytes,
//! and of a swap of no image.
//!
//! The primary trailers of the two images are in sectors 2 and 5.

use super::calls::{Call, outcome_of};
use flash_model::FlashError;
use std::alloc::Global;
use std::test::Fail;
use trailer::{Kind, Settling};

/// The byte at an address. It isn't 0xFF.
pub(super) fn odd_byte(at: u16) -> u8 {
    (at % 251) as u8
}

/// `count` bytes. Those of sectors 2 and 5 are 0xFF, and no other byte is.
pub(super) fn odd_bytes(alloc: Global, count: u16) -> Result<Vec<u8>, Fail> {
    let mut bytes = vec![in alloc; 0; 0]?;
    for at in 0..count {
        let is_erased = at / 512 == 2 || at / 512 == 5;
        bytes.push(if is_erased { 0xff } else { odd_byte(at) })?;
    }
    Ok(bytes)
}

/// Each kind of call.
const KINDS: [Call; 10] = [
    Call::Swap(0b11),
    Call::Request(Kind::Test),
    Call::Withdraw,
    Call::Request(Kind::Permanent),
    Call::Withdraw,
    Call::Settle(Settling::Test),
    Call::Confirm,
    Call::Settle(Settling::Permanent),
    Call::Settle(Settling::Back),
    Call::Begin(1),
];

/// Each kind of call, enough appends to use all sectors of the log, and one further call.
fn every_call(alloc: Global) -> Result<Vec<Call>, Fail> {
    let mut calls = Vec::from_slice(alloc, &KINDS)?;
    calls.extend_from_slice(&[Call::Append(1); 22])?;
    calls.push(Call::Swap(0b11))?;
    Ok(calls)
}

#[test]
fn sectors_behind_those_of_the_map_stay(rt: HostRuntime) -> Result<(), Fail> {
    let calls = every_call(rt.alloc())?;
    let usual = outcome_of(&rt, odd_bytes(rt.alloc(), 8192)?, 0, calls.as_slice())?;
    let longer = outcome_of(&rt, odd_bytes(rt.alloc(), 9728)?, 0, calls.as_slice())?;
    let odd = odd_bytes(rt.alloc(), 9728)?;
    let is_kept = longer.3.as_slice().starts_with(usual.3.as_slice())
        && longer.3.as_slice().get(8192..) == odd.as_slice().get(8192..);
    assert!(rt; is_kept && usual.1 > 100 && longer.0.is_ok() && longer.1 == usual.1);
    Ok(())
}

/// The place of a record with a steady state, and a closing unit that is set.
const PLACE: [u8; 64] = [
    1, 0, 0, 0, 1, 0, 0, 0, 0, 0, 0, 0, 5, 0, 0, 0, 0, 0, 0, 0, 0, 0, 0, 0, 0, 0, 0, 0, 0, 0, 0, 0,
    0, 0, 0, 0, 0, 0, 0, 0, 0, 0, 0, 0, 0, 0, 0, 0, 0, 0, 0, 0, 0, 0, 0, 0, 1, 0xff, 0xff, 0xff,
    0xff, 0xff, 0xff, 0xff,
];

#[test]
fn a_log_is_begun_on_any_bytes(rt: HostRuntime) -> Result<(), Fail> {
    let odd = odd_bytes(rt.alloc(), 8192)?;
    let (last, writes, erases, bytes) = outcome_of(
        &rt,
        odd_bytes(rt.alloc(), 8192)?,
        0,
        &[Call::Begin(1)],
    )?;
    let bytes = bytes.as_slice();
    let is_begun = bytes.get(..6656) == odd.as_slice().get(..6656)
        && bytes.get(6656..6720) == Some(&PLACE[..])
        && bytes.get(6720..8184) == Some(&[0xff; 1464][..])
        && bytes.get(8184..) == Some(&PLACE[56..]);
    assert!(rt; is_begun && last.is_ok() && writes == 6 && erases == 3);
    Ok(())
}

#[test]
fn a_swap_of_no_image_writes_nothing(rt: HostRuntime) -> Result<(), Fail> {
    let bytes = odd_bytes(rt.alloc(), 8192)?;
    let seen = outcome_of(&rt, bytes, 0, &[Call::Swap(0)])?;
    assert!(rt; seen == (Ok(()), 0, 0, odd_bytes(rt.alloc(), 8192)?));
    Ok(())
}

/// Three swaps in a row.
const SWAPS: [Call; 3] = [Call::Swap(0b01); 3];

#[test]
fn a_flash_that_is_off_stays_as_it_is(rt: HostRuntime) -> Result<(), Fail> {
    for count in 1..4 {
        let bytes = odd_bytes(rt.alloc(), 8192)?;
        let seen = outcome_of(&rt, bytes, 1, &SWAPS[..count])?;
        let error = if count == 1 {
            FlashError::Cut
        } else {
            FlashError::Off
        };
        assert!(rt; seen == (Err(error), 1, 0, odd_bytes(rt.alloc(), 8192)?));
    }
    Ok(())
}
