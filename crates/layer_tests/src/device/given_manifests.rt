//! Tests of manifests that are given by their fields: a device accepts them as it accepts their
//! text.

ghost use Rattle.flash_model.specs.Blanks.{IsBlankOf};

use super::devices::{UPGRADE, device_on, outcome_of, put, two_images};
use crate::images::{FIRST, FIRST_DIGEST, SECOND, SECOND_DIGEST};
use crate::memory::in_memory;
use machine::{Event, Fault, Reply, UploadError};
use manifest::{Component, Manifest, ManifestError};
use std::marker::Brand;
use std::process::Abort;
use std::sync::ledger::{Blank, Ledger};
use std::test::Fail;

/// A component for a test: a file of 96 bytes for an image.
fn component(image: u8, digest: [u8; 32]) -> Component {
    Component {
        image,
        permanent: false,
        size: 96,
        digest,
        precursor: None,
    }
}

/// A manifest with FIRST for image 0 and SECOND for the image `second`.
fn manifest(sequence: u32, second: u8) -> Result<Manifest, Fail> {
    let mut manifest = Manifest::default();
    manifest.sequence = sequence;
    for part in [component(0, FIRST_DIGEST), component(second, SECOND_DIGEST)] {
        manifest.components.try_push(part)?;
    }
    Ok(manifest)
}

/// The reply of the boot that tries the files of a manifest, on a new device, and the bytes of its
/// flash after it.
fn upgraded<L: Ledger>(
    rt: &(impl Abort + AllocGlobal),
    blank: Blank,
) -> Result<(Reply, Vec<u8>), Fail>
    requires blank { IsBlankOf blank L.name L.parts 2 }
{
    let manifest = manifest(1, 1)?;
    let mut device = device_on(rt, in_memory::<L>(rt, blank, two_images(rt)?))?;
    device.boot()?;
    let answers = [
        device.accept_manifest(&manifest),
        device.piece(0, &FIRST),
        device.piece(1, &SECOND),
        device.finish(0),
        device.finish(1),
    ];
    let tried = device.boot()?;
    let late = device.accept_manifest(&manifest);
    assert!(rt; answers == [Ok(()); 5] && late == Err(Fault::OnTrial));
    Ok((tried, Vec::from_slice(rt.alloc(), device.flash().bytes())?))
}

fn upgraded_by(rt: &(impl Abort + AllocGlobal)) -> Result<(Reply, Vec<u8>), Fail> {
    upgraded::<Brand>(rt, Blank::new(2))
}

#[test]
fn a_manifest_that_was_read_is_taken_as_its_text_is(rt: HostRuntime) -> Result<(), Fail> {
    let (tried, bytes) = upgraded_by(&rt)?;
    let mut events = vec![in rt.alloc(); Event::Boot]?;
    for event in UPGRADE {
        events.push(event)?;
    }
    let (replies, wanted) = outcome_of(&rt, two_images(&rt)?, events.as_slice())?;
    assert!(rt; replies.last() == Some(&tried) && bytes == wanted);
    Ok(())
}

/// The results of three calls on a new device: a manifest before the boot, the same after it, and a
/// manifest with this sequence number for image 0 and the image `second`. Then the bytes of the
/// flash.
fn refused<L: Ledger>(
    rt: &(impl Abort + AllocGlobal),
    blank: Blank,
    sequence: u32,
    second: u8,
) -> Result<([Result<(), Fault>; 3], Vec<u8>), Fail>
    requires blank { IsBlankOf blank L.name L.parts 2 }
{
    let usual = manifest(1, 1)?;
    let other = manifest(sequence, second)?;
    let mut device = device_on(rt, in_memory::<L>(rt, blank, two_images(rt)?))?;
    let early = device.accept_manifest(&usual);
    device.boot()?;
    let answers = [
        early,
        device.accept_manifest(&usual),
        device.accept_manifest(&other),
    ];
    Ok((
        answers,
        Vec::from_slice(rt.alloc(), device.flash().bytes())?,
    ))
}

fn refused_of(
    rt: &(impl Abort + AllocGlobal),
    sequence: u32,
    second: u8,
) -> Result<([Result<(), Fault>; 3], Vec<u8>), Fail> {
    refused::<Brand>(rt, Blank::new(2), sequence, second)
}

/// Manifests that are refused: the sequence number, the second image, and the fault. A missing
/// image and one that is named twice are reported before an old sequence number.
const REFUSED: [(u32, u8, Fault); 5] = [
    (2, 2, Fault::Manifest(ManifestError::NoComponent)),
    (0, 2, Fault::Manifest(ManifestError::NoComponent)),
    (2, 0, Fault::Manifest(ManifestError::RepeatedComponent)),
    (0, 0, Fault::Manifest(ManifestError::RepeatedComponent)),
    (0, 1, Fault::Upload(UploadError::OldSequence)),
];

#[test]
fn a_manifest_that_was_read_is_refused_and_nothing_changes(rt: HostRuntime) -> Result<(), Fail> {
    // The second record of the log has the sequence number 1, and its gate is set.
    let mut wanted = two_images(&rt)?;
    put(&rt, &mut wanted, 6720, &[0x00; 56]);
    put(&rt, &mut wanted, 6720, &[0x01, 0x00, 0x00, 0x00, 0x01]);
    put(&rt, &mut wanted, 6776, &[0x01]);
    for (sequence, second, fault) in REFUSED {
        let (answers, bytes) = refused_of(&rt, sequence, second)?;
        assert!(&rt; answers == [Err(Fault::NotBooted), Ok(()), Err(fault)] && bytes == wanted);
    }
    Ok(())
}
