//! The input of a run: a device and its events.

ghost use Rattle.device_texts.specs.DeviceFile.{IsOfFile};
ghost use Rattle.device_texts.specs.FlashOf.{IsFlashOf};

use device_texts::DeviceFile;
use machine::Event;

/// A device and the events that it takes.
#[derive(Clone, Copy)]
pub struct Scenario<'a> {
    /// The device, which isn't booted before the first event.
    pub device: &'a DeviceFile,
    /// The bytes of its flash before the first event: those of all sectors of its map.
    pub bytes: &'a [u8],
    /// The first events, in order.
    pub events: &'a [Event<Vec<u8>>],
    /// The events after `events`, which a sweep inserts.
    pub between: &'a [Event<Vec<u8>>],
    /// The last events.
    pub more: &'a [Event<Vec<u8>>],
    ghost of_file: { IsOfFile device.now },
    ghost whole: { IsFlashOf device.now.map bytes.now },
}
