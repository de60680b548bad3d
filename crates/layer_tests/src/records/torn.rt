//! Tests of calls in which a power cut tears a write, and of a swap that continues.
//!
//! The primary slot of image 0 is in sectors 0 and 1, its trailer in sector 2, and the secondary
//! slot in sectors 6 and 7. Scratch is sector 12, and the log begins at sector 13.

use super::calls::{Call, outcome_of, read_of, torn_outcome_of};
use super::flashes::{odd_byte, odd_bytes};
use flash_model::{FlashError, Torn};
use std::alloc::Global;
use std::test::Fail;
use trailer::{Kind, Magic};

/// The calls that write a log of `count` states, with rising sequence numbers from `first` on.
fn log_of(alloc: Global, first: u8, count: u8) -> Result<Vec<Call>, Fail> {
    let mut calls = vec![in alloc; Call::Begin(u32::from(first))]?;
    for later in 1..count {
        calls.push(Call::Append(u32::from(first) + u32::from(later)))?;
    }
    Ok(calls)
}

#[test]
fn an_erase_that_leaves_later_records_leaves_the_older_state(rt: HostRuntime) -> Result<(), Fail> {
    // In `eight` seven records fill the first sector, and one is in the second. `later` has seven
    // records with higher sequence numbers.
    let (eight, later) = (log_of(rt.alloc(), 1, 8)?, log_of(rt.alloc(), 11, 7)?);
    let odd = odd_bytes(rt.alloc(), 8192)?;
    let later = outcome_of(&rt, odd, 0, later.as_slice())?;
    let sector = later.3.as_slice().get(6656..7168).unwrap_or(&[]);
    let torn = Torn::Bytes(Vec::from_slice(rt.alloc(), sector)?);
    let odd = odd_bytes(rt.alloc(), 8192)?;
    let (last, writes, _, bytes) = torn_outcome_of(&rt, odd, 19, torn, eight.as_slice())?;
    let is_torn = sector.len() == 512 && bytes.as_slice().get(7168..7680) == Some(sector);
    let read = read_of(&rt, bytes)?;
    assert!(rt; is_torn && last == Err(FlashError::Cut) && writes == 19 && read.0 == Some(7));
    Ok(())
}

#[test]
fn a_magic_that_is_torn_is_bad(rt: HostRuntime) -> Result<(), Fail> {
    let odd = odd_bytes(rt.alloc(), 8192)?;
    let calls = [Call::Request(Kind::Test)];
    let (last, writes, _, bytes) = torn_outcome_of(&rt, odd, 2, Torn::Half, &calls)?;
    let read = read_of(&rt, bytes)?;
    assert!(rt; last == Err(FlashError::Cut) && writes == 2 && read.1 == Some(Magic::Bad));
    Ok(())
}

/// The byte at an address of a flash on which the swap of image 0 has two steps left, or is done.
///
/// With two steps left, the sectors with index 1 are swapped and four status units are set. Scratch
/// has the old bytes of the secondary slot's first sector, and that sector has any bytes.
fn swap_byte(at: u16, is_done: bool) -> u8 {
    let set = if is_done { 48 } else { 32 };
    match at / 512 {
        0 if is_done => odd_byte(at % 512 + 6144),
        6 if is_done => odd_byte(at % 512),
        2 if at % 512 < set && at % 8 == 0 => 1,
        2 | 5 => 0xff,
        _ => odd_byte(at),
    }
}

/// All bytes of such a flash.
fn swap_bytes(alloc: Global, is_done: bool) -> Result<Vec<u8>, Fail> {
    let mut bytes = vec![in alloc; 0; 0]?;
    for at in 0..8192 {
        bytes.push(swap_byte(at, is_done))?;
    }
    Ok(bytes)
}

#[test]
fn a_swap_with_two_steps_left_takes_these_two(rt: HostRuntime) -> Result<(), Fail> {
    let bytes = swap_bytes(rt.alloc(), false)?;
    let seen = outcome_of(&rt, bytes, 0, &[Call::Swap(0b01)])?;
    assert!(rt; seen == (Ok(()), 8, 2, swap_bytes(rt.alloc(), true)?));
    Ok(())
}
