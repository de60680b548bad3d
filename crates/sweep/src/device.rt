//! Makes the device of a run, from a device file and a flash.

ghost use Rattle.std.specs.Prelude.{◌≡◌, false};
ghost use Rattle.sector_map.specs.Map.{IsLaidOut};
ghost use Rattle.upload.specs.Sessions.{AllClosed};
ghost use Rattle.device_texts.specs.DeviceFile.{IsOfFile, setup_of};

use boot_core::Device;
use device_texts::DeviceFile;
use flash_model::Flash;

/// The device of this device file, over this flash, on which the device's map is laid out. It isn't
/// booted, and no upload is open.
pub fn device_over<F: Flash>(flash: F, device: &DeviceFile) -> Device<F>
    requires device { IsOfFile device.now }
    requires laid_out { IsLaidOut device.now.map (F.chip flash) }
    ensures setup { result.setup ≡ setup_of device.now }
    ensures flash { result.here.flash ≡ F.chip flash }
    ensures down { result.here.up ≡ false }
    ensures closed { AllClosed result.here.sessions }
{
    Device::with_trial(flash, device.map, device.identity, device.trial_boots)
}
