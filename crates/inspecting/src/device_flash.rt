//! Reads the inputs of `show` and `slots`: a device file and the flash of the device.
ghost use Rattle.std.specs.Prelude.{◌≡◌, IfOk};
ghost use Rattle.host.specs.Input.{KeepsFiles};
ghost use Rattle.inspecting.specs.Answers.{ReadsDeviceFlash};

use device_texts::DeviceFile;
use host::{Access, Host, Refusal, Source};
use inputs::{BadMap, device_or_fault, read_flash};
use std::alloc::Global;

/// A device, and the bytes of its flash.
#[derive(Drop)]
pub(crate) struct DeviceFlash {
    pub device: DeviceFile,
    pub bytes: Vec<u8>,
}

/// Reads a device file and the bytes of the device's flash from `host` into memory of `alloc`. If
/// the sizes of the device file make no map, that file is returned, and the flash isn't read. No
/// file changes, and the flash is opened only for reading.
pub(crate) fn read_device_flash<H: Host>(
    alloc: Global,
    device: Source<'_>,
    flash: Source<'_>,
    host: &mut H,
) -> Result<Result<DeviceFlash, BadMap>, Refusal>
    ensures read { IfOk result (λ read. ReadsDeviceFlash read device.entry flash.entry
        (H.input host.old) (H.file host.old)) }
    ensures files { KeepsFiles (H.file host.old) (H.file host.new) }
    ensures to_read { (H.opened host.new).to_write ≡ (H.opened host.old).to_write }
{
    let device = match device_or_fault(alloc, device, host)? {
        Ok(device) => device,
        Err(refused) => return Ok(Err(refused)),
    };
    let bytes = read_flash(alloc, flash, &device.map, Access::Read, host)?;
    Ok(Ok(DeviceFlash { device, bytes }))
}
