//! Tests of uploads on a flash that has three sectors more than its map. The bytes after the map
//! don't change. A piece of a saved upload is refused if the upload doesn't match the flash.
//!
//! The map has 16 sectors of 512 bytes, for two images of two sectors. The secondary slots begin at
//! the addresses 3072 and 4608, and no image runs.

ghost use Rattle.std.specs.Prelude.{◌<◌, IsTrue, length};
ghost use Rattle.flash_model.specs.Blanks.{IsBlankOf};
ghost use Rattle.flash_model.specs.Memory.{chip_of};
ghost use Rattle.upload.specs.View.{view};
ghost use Rattle.upload.specs.Sessions.{AllOpenAt};
ghost use Rattle.upload.specs.Accepted.{AreThere};

use crate::images::{FIRST, FIRST_DIGEST, SECOND, SECOND_DIGEST};
use crate::memory::in_memory;
use arrayvec::ArrayVec;
use flash_model::{Flash, MemFlash};
use machine::UploadError;
use manifest::{Component, Manifest};
use sector_map::SectorMap;
use set_log::{State, read_state, start};
use std::alloc::Global;
use std::marker::Brand;
use std::process::Abort;
use std::sync::ledger::{Blank, Ledger};
use std::test::Fail;
use trailer::Kind;
use upload::{Upload, Uploads};

/// The bytes after the map's sectors.
const MORE: [u8; 1536] = [0xa5; 1536];

/// A manifest with this sequence number and these components.
fn manifest_of(sequence: u32, named: [Component; 2]) -> Result<Manifest, Fail> {
    let mut components = ArrayVec::new();
    components.try_push(named[0])?;
    components.try_push(named[1])?;
    Ok(Manifest {
        sequence,
        components,
    })
}

/// Components for images 0 and 1, each for a test: FIRST and SECOND, as files of `size` bytes.
fn files(size: u32) -> [Component; 2] {
    [(0, FIRST_DIGEST), (1, SECOND_DIGEST)].map(|(image, digest)| Component {
        image,
        permanent: false,
        size,
        digest,
        precursor: None,
    })
}

/// Whether the map has each image that the components name.
fn are_there(map: &SectorMap, components: &[Component]) -> bool
    ensures { IsTrue result → AreThere map.now components.now }
{
    for component in components {
        if component.image >= map.images {
            return false;
        }
    }
    true
}

/// A call on uploads.
#[derive(Clone, Copy)]
enum Step<'a> {
    Accept(&'a Manifest),
    Piece(u8, &'a [u8]),
    Finish(u8),
    Withdraw(u8),
}

/// Makes the call of a step.
fn take<F: Flash>(
    rt: &impl Abort,
    uploads: &mut Uploads,
    flash: &mut F,
    map: &SectorMap,
    step: Step,
) -> Result<Result<(), UploadError>, Fail>
    requires { AllOpenAt (view map.now (F.chip flash.old)) uploads.old.sessions }
    ensures { AllOpenAt (view map.now (F.chip flash.new)) uploads.new.sessions }
{
    assert!(rt; map.fits(flash));
    match step {
        Step::Accept(manifest) => {
            assert!(rt; are_there(map, manifest.components.as_slice()));
            let _state = read_state(flash, map)?;
            Ok(uploads.accept(flash, map, manifest))
        }
        Step::Piece(image, bytes) => Ok(uploads.piece(flash, map, image, bytes)),
        Step::Finish(image) => Ok(uploads.finish(flash, map, image)),
        Step::Withdraw(image) => Ok(uploads.withdraw(flash, map, image)),
    }
}

const DONE: Result<(), UploadError> = Ok(());

/// Makes the calls of steps. Each has to return the expected result, and to leave the bytes after
/// the map's sectors unchanged.
fn play<L: Ledger>(
    rt: &impl Abort,
    uploads: &mut Uploads,
    flash: &mut MemFlash<L>,
    map: &SectorMap,
    steps: &[(Step, Result<(), UploadError>)],
) -> Result<(), Fail>
    requires { AllOpenAt (view map.now (chip_of flash.old)) uploads.old.sessions }
    ensures { AllOpenAt (view map.now (chip_of flash.new)) uploads.new.sessions }
{
    for (step, expected) in steps {
        let answer = take(rt, uploads, flash, map, *step)?;
        assert!(rt; answer == *expected && flash.bytes().ends_with(&MORE));
    }
    Ok(())
}

/// The bytes of a flash: those of the map are erased, and `MORE` follows them.
fn longer(alloc: Global) -> Result<Vec<u8>, Fail> {
    let mut bytes = vec![in alloc; 0xff; 8192]?;
    bytes.extend_from_slice(&MORE)?;
    Ok(bytes)
}

/// A flash that is longer than its map by three sectors, with a new log of sequence number 3.
fn begun<L: Ledger>(
    rt: &(impl Abort + AllocGlobal),
    blank: Blank,
    map: &SectorMap,
) -> Result<MemFlash<L>, Fail>
    requires blank { IsBlankOf blank L.name L.parts 2 }
{
    let mut flash = in_memory::<L>(rt, blank, longer(rt.alloc())?);
    let state = State::steady(3, [0; 8]);
    assert!(rt; map.fits(&flash) && state.fits(map.images));
    start(&mut flash, map, &state)?;
    Ok(flash)
}

/// Makes uploads on a flash that is longer than its map.
fn uploaded<L: Ledger>(rt: &(impl Abort + AllocGlobal), blank: Blank) -> Result<(), Fail>
    requires blank { IsBlankOf blank L.name L.parts 2 }
{
    let map = SectorMap::new(512, &[2, 2])?;
    let mut flash = begun::<L>(rt, blank, &map)?;
    let mut uploads = Uploads::new();
    let [first, second] = files(96);
    let follower = Component {
        precursor: Some([0xff; 32]),
        ..second
    };
    // No image runs, so no file can have a precursor.
    let following = manifest_of(4, [first, follower])?;
    let steps = [(Step::Accept(&following), Err(UploadError::WrongPrecursor))];
    play(rt, &mut uploads, &mut flash, &map, &steps)?;
    let both = manifest_of(4, [first, second])?;
    let steps = [
        (Step::Accept(&both), DONE),
        (Step::Piece(0, &FIRST[..90]), DONE),
        (Step::Piece(1, &SECOND), DONE),
        (Step::Piece(0, &FIRST[90..]), DONE),
        (Step::Finish(1), DONE),
        (Step::Finish(0), DONE),
        (Step::Withdraw(0), DONE),
    ];
    play(rt, &mut uploads, &mut flash, &map, &steps)?;
    // Other files fill the slots.
    let [first, second] = files(1024);
    let others = manifest_of(5, [second, first])?;
    let steps = [
        (Step::Accept(&others), DONE),
        (Step::Piece(1, &[0x5a; 1024]), DONE),
        (Step::Piece(0, &[0x5a; 1024]), DONE),
        (Step::Finish(1), Err(UploadError::DigestWrong)),
        (Step::Piece(0, &[0x5a]), Err(UploadError::TooMuch)),
    ];
    play(rt, &mut uploads, &mut flash, &map, &steps)
}

#[test]
fn uploads_change_nothing_behind_the_map(rt: HostRuntime) -> Result<(), Fail> {
    uploaded::<Brand>(&rt, Blank::new(2))
}

/// A table with one upload, of 512 bytes for an image, as a caller may have saved it.
fn saved(rt: &impl Abort, image: usize, received: u32) -> Uploads {
    let mut uploads = Uploads::new();
    assert!(rt; image < uploads.sessions.len());
    uploads.sessions[image] = Some(Upload {
        size: 512,
        digest: FIRST_DIGEST,
        kind: Kind::Test,
        received,
        held: ArrayVec::new(),
    });
    uploads
}

/// Passes the first unit of FIRST to saved uploads, most of which don't match the flash.
fn resumed<L: Ledger>(rt: &(impl Abort + AllocGlobal), blank: Blank) -> Result<(), Fail>
    requires blank { IsBlankOf blank L.name L.parts 2 }
{
    let map = SectorMap::new(512, &[2, 2])?;
    let mut flash = begun::<L>(rt, blank, &map)?;
    let mut uploads = Uploads::new();
    let both = manifest_of(4, files(96))?;
    let steps = [
        (Step::Accept(&both), DONE),
        (Step::Piece(0, &FIRST[..48]), DONE),
        (Step::Piece(1, &SECOND), DONE),
        (Step::Finish(1), DONE),
    ];
    play(rt, &mut uploads, &mut flash, &map, &steps)?;
    let cases = [
        // The unit is written already.
        (0, 40, Err(UploadError::NoSession)),
        // The received bytes aren't complete units, and none is held.
        (0, 50, Err(UploadError::NoSession)),
        // More bytes come, or came before, than the file has.
        (0, 505, Err(UploadError::TooMuch)),
        (0, 600, Err(UploadError::TooMuch)),
        // The unit is erased, but the image is requested.
        (1, 104, Err(UploadError::NoSession)),
        // The unit is erased. The call doesn't read the bytes before it and after it.
        (0, 64, DONE),
        (0, 48, DONE),
    ];
    for (image, received, expected) in cases {
        assert!(rt; map.fits(&flash));
        let mut uploads = saved(rt, image, received);
        let answer = uploads.piece(&mut flash, &map, image as u8, &FIRST[..8]);
        assert!(rt; answer == expected);
    }
    Ok(())
}

#[test]
fn a_piece_of_an_upload_that_does_not_match_is_refused(rt: HostRuntime) -> Result<(), Fail> {
    resumed::<Brand>(&rt, Blank::new(2))
}
