//! A test of flashes that are longer than the map: the bytes after the map don't change.

use super::devices::{PAIR, UPGRADE, outcome_of, two_images};
use crate::images::SECOND;
use machine::Event;
use std::process::Abort;
use std::test::Fail;

/// The events after the first upgrade: it is reverted, and a request is withdrawn.
const REVERTED: [Event<&[u8]>; 7] = [
    Event::Confirm(0),
    Event::Boot,
    Event::Accept(PAIR),
    Event::Piece(1, &SECOND),
    Event::Finish(1),
    Event::Withdraw(1),
    Event::Boot,
];

/// The events after the second upgrade: it is confirmed.
const CONFIRMED: [Event<&[u8]>; 3] = [Event::Confirm(0), Event::Confirm(1), Event::Boot];

/// The events: an upgrade that is reverted, a request that is withdrawn, and an upgrade that is
/// confirmed.
fn events(rt: &impl AllocGlobal) -> Result<Vec<Event<&'static [u8]>>, Fail> {
    let mut events = Vec::new(rt.alloc());
    events.push(Event::Boot)?;
    events.extend_from_slice(&UPGRADE)?;
    events.extend_from_slice(&REVERTED)?;
    events.extend_from_slice(&UPGRADE)?;
    events.extend_from_slice(&CONFIRMED)?;
    Ok(events)
}

/// Appends three sectors.
fn push_more(bytes: &mut Vec<u8>) -> Result<(), Fail> {
    for at in 0..1536u16 {
        bytes.push((at % 251) as u8)?;
    }
    Ok(())
}

/// Whether events on a longer flash have the same replies as on the usual one, and leave the same
/// bytes and those after the map.
fn is_same(rt: &(impl Abort + AllocGlobal), events: &[Event<&[u8]>]) -> Result<bool, Fail> {
    let (usual, mut wanted) = outcome_of(rt, two_images(rt)?, events)?;
    push_more(&mut wanted)?;
    let mut bytes = two_images(rt)?;
    push_more(&mut bytes)?;
    let (replies, bytes) = outcome_of(rt, bytes, events)?;
    Ok(replies == usual && bytes == wanted)
}

#[test]
fn what_a_device_does_changes_nothing_behind_its_map(rt: HostRuntime) -> Result<(), Fail> {
    let events = events(&rt)?;
    for count in 0..=events.len() {
        assert!(&rt; is_same(&rt, &events[..count])?);
    }
    Ok(())
}
