//! The trait of what explains a command's answer.

use crate::device_input::BadMap;
use device_texts::{DeviceFile, NoteList};
use host::Source;
use machine::{Event, Reply};
use sector_map::{SectorMap, Side};

/// Explains the answer of a command. The command hands it what it finds in its inputs. Nothing that
/// the command does depends on it.
pub trait Notes {
    /// Is handed the device of a device file.
    fn device(&mut self, device: &DeviceFile);

    /// Is handed a device file whose sizes make no map.
    fn bad_map(&mut self, bad: &BadMap);

    /// Is handed the file for the next image of a device: the first time for image 0.
    fn image(&mut self, source: Source<'_>, bytes: &[u8]);

    /// Is handed the body that an image is made of.
    fn body(&mut self, source: Source<'_>, bytes: &[u8]);

    /// Is handed a slot that doesn't begin with an intact image. `flash` has the bytes of the flash.
    fn damaged(&mut self, map: &SectorMap, flash: &[u8], image: u8, side: Side);

    /// Is called before the first event of a run. `flash` has the bytes of the device's flash.
    fn begin(&mut self, device: &DeviceFile, flash: &[u8]);

    /// Is called after each reply of a run. `number` is that of the event, from 1. Adds the notes that
    /// the answer is to have to `told`.
    fn tell(&mut self, number: usize, event: &Event<Vec<u8>>, reply: &Reply, told: &mut NoteList);
}

/// Explains nothing.
#[derive(Drop)]
pub struct NoNotes;

impl Notes for NoNotes {
    fn device(&mut self, _: &DeviceFile) {}

    fn bad_map(&mut self, _: &BadMap) {}

    fn image(&mut self, _: Source<'_>, _: &[u8]) {}

    fn body(&mut self, _: Source<'_>, _: &[u8]) {}

    fn damaged(&mut self, _: &SectorMap, _: &[u8], _: u8, _: Side) {}

    fn begin(&mut self, _: &DeviceFile, _: &[u8]) {}

    fn tell(&mut self, _: usize, _: &Event<Vec<u8>>, _: &Reply, _: &mut NoteList) {}
}
