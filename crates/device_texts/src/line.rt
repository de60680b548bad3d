//! The types of a line of a script.

use crate::part::PartText;
use machine::Event;

/// A line of a script. It borrows the line's text.
#[derive(Drop)]
pub enum Line<'a> {
    /// `cut K TORN`: power fails during a write of the flash.
    Cut {
        /// The number of the write, counted from 1 at the start of the script.
        write: u32,
        /// What the interrupted write leaves.
        torn: TornText<'a>,
    },
    /// An event of the device: `accept FILE`, `piece I FILE` or `piece I FILE FROM COUNT`,
    /// `finish I`, `withdraw I`, `confirm I`, `boot` or `reset`. Images have the numbers 0 to 255,
    /// whether or not the device has them.
    Event(Event<FileText<'a>>),
}

/// What an interrupted write leaves in its range, as the line says it.
#[derive(Clone, Copy)]
pub enum TornText<'a> {
    /// `keep`: the old contents.
    Keep,
    /// `done`: what the complete write leaves.
    Done,
    /// `hex:DIGITS`: these bytes, repeated. The number of digits is even and at least 2. Digits may
    /// be in upper and lower case.
    Hex(&'a [u8]),
}

/// The part of a file that a line names: the bytes of a manifest, or the next bytes of an image.
#[derive(Clone, Copy)]
pub struct FileText<'a> {
    /// The name of the file.
    pub name: &'a str,
    /// The part of the file, or `None` for the complete file. A manifest is always a complete file.
    pub part: Option<PartText<'a>>,
}
