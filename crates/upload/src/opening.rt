//! Opening an upload for each component of a manifest.

ghost use Rattle.std.specs.Prelude.{◌≡◌};
ghost use Rattle.sector_map.specs.Map.{HasImage, IsLaidOut};
ghost use Rattle.common.specs.Kind.{kind_of};
ghost use Rattle.upload.specs.Accepted.{AreThere, IsFresh};
ghost use Rattle.upload.specs.Opening.{OpensSlot, OpensUpload, OpensUploads};

use crate::sessions::{Upload, Uploads};
use crate::slots::erase_slot;
use arrayvec::ArrayVec;
use flash_model::{Flash, Result};
use manifest::Component;
use sector_map::SectorMap;
use trailer::{Kind, withdraw};

/// Withdraws the request of an image, and erases its secondary slot.
fn open_slot<F: Flash>(flash: &mut F, map: &SectorMap, image: u8) -> Result<()>
    requires { HasImage map.now image (F.chip flash.old) }
    ensures { OpensSlot map.now image (F.chip flash.old) (F.chip flash.new) result }
{
    withdraw(flash, map, image)?;
    erase_slot(flash, map, image)
}

/// Returns the kind of request for a component: permanent or a test.
fn kind_of(permanent: bool) -> Kind
    ensures { result ≡ kind_of permanent }
{
    if permanent {
        Kind::Permanent
    } else {
        Kind::Test
    }
}

/// Returns a new upload for a component, which has no bytes yet.
fn fresh(component: &Component) -> Upload
    ensures { IsFresh component.now result }
{
    Upload {
        size: component.size,
        digest: component.digest,
        kind: kind_of(component.permanent),
        received: 0,
        held: ArrayVec::new(),
    }
}

/// Opens the upload of one component.
fn open_one<F: Flash>(
    flash: &mut F,
    map: &SectorMap,
    uploads: &mut Uploads,
    component: &Component,
) -> Result<()>
    requires { HasImage map.now component.now.image (F.chip flash.old) }
    ensures { OpensUpload map.now component.now uploads.old.sessions uploads.new.sessions
        (F.chip flash.old) (F.chip flash.new) result }
{
    open_slot(flash, map, component.image)?;
    uploads.put(component.image, fresh(component));
    Ok(())
}

/// Opens the uploads of all components, in their order.
pub(crate) fn open_all<F: Flash>(
    flash: &mut F,
    map: &SectorMap,
    uploads: &mut Uploads,
    components: &[Component],
) -> Result<()>
    requires laid_out { IsLaidOut map.now (F.chip flash.old) }
    requires there { AreThere map.now components.now }
    ensures { OpensUploads map.now components.now uploads.old.sessions uploads.new.sessions
        (F.chip flash.old) (F.chip flash.new) result }
{
    for component in components {
        open_one(flash, map, uploads, component)?;
    }
    Ok(())
}
