//! Why a command doesn't do what it was asked to do.

use crate::source::Source;
use reports::Table;
use std::{fmt, io};
use thiserror::Error;

/// Why a command refuses. The text is printed after `error: ` on standard error.
#[derive(Debug, Drop, Error)]
pub enum Refusal {
    /// The text is no table. Its wrong line is the first with which no table continues.
    TableLine(BadText),
    /// The text is no report. Its wrong line is the first with which no report continues.
    ReportLine(BadText),
    /// A fleet doesn't begin with a line `device NAME`.
    FleetLine,
    /// The arguments of `plan` request two files as the image of this number.
    RequestedTwice(u8),
    /// The running images of this table don't fit each other.
    NotValid(Box<Table>),
    /// The text is no device file.
    DeviceFile(NamedText),
    /// Nothing can be made of the arguments. This text is never printed, because each fault is
    /// reported before.
    NotMade,
    /// The length of the flash file isn't that of the device's map.
    FlashSize(WrongLength),
    /// Another program uses the flash file.
    FlashInUse,
    /// The flash file to be made is one of the files that are read for it.
    FlashIsInput,
    /// The image file to be made is the file that its body is read from.
    ImageIsInput,
    /// The picture to be made is one of the files that are read.
    PictureIsInput,
    /// Another program uses the image file that is to be made.
    ImageInUse,
    /// The number of image files isn't this one, that of the images in the device's map.
    ImageCount(u8),
    /// There is no image of the number `image`. The device has `images` images.
    NoImage { image: u8, images: u8 },
    /// The file for the image of the number `image` is longer than its slot, which has `most` bytes.
    ImageTooBig { image: u8, most: u32 },
    /// A line of a script isn't an event that can be run.
    ScriptLine(ScriptLine),
    /// A fault of a file or of standard input.
    OfSource(SourceRefusal),
    /// The program is the core of `bootswap`, and the arguments ask for a command that it doesn't
    /// have.
    NotOfCore,
    /// Memory ran out.
    NoMemory,
    /// The system could not make or write the flash file, for this reason.
    FlashFile(io::Error),
    /// The answer could not be written completely. This text is never printed, because nothing is
    /// printed after a failed write.
    CannotWrite,
}

impl fmt::Display for Refusal {
    fn fmt<W: fmt::Write>(&self, f: &mut fmt::Formatter<W>) -> fmt::Result {
        let text = match self {
            Refusal::TableLine(bad) => return write!(f, "table line {}", bad.line),
            Refusal::ReportLine(bad) => return write!(f, "report line {}", bad.line),
            Refusal::FleetLine => "fleet line 1",
            Refusal::RequestedTwice(image) => return write!(f, "image {image} requested twice"),
            Refusal::NotValid(_) => "running set not valid",
            Refusal::DeviceFile(_) => "device file",
            Refusal::NotMade => "not made",
            Refusal::FlashSize(_) => "flash size",
            Refusal::FlashInUse => "flash in use",
            Refusal::FlashIsInput => "flash is an input",
            Refusal::ImageIsInput => "image is an input",
            Refusal::PictureIsInput => "picture is an input",
            Refusal::ImageInUse => "image in use",
            Refusal::ImageCount(_) => "image count",
            Refusal::NoImage { image, .. } => return write!(f, "no image {image}"),
            Refusal::ImageTooBig { image, .. } => return write!(f, "image {image} too big"),
            Refusal::ScriptLine(bad) => return write!(f, "script line {}", bad.line),
            Refusal::OfSource(refusal) => return write!(f, "{refusal}"),
            Refusal::NotOfCore => "not in the core of bootswap",
            Refusal::NoMemory => "memory",
            Refusal::FlashFile(_) => "flash file",
            Refusal::CannotWrite => "cannot write",
        };
        f.write_str(text)
    }
}

/// A text with a wrong line.
#[derive(Debug, Drop)]
pub struct BadText {
    /// The text, or its start if it is too long.
    pub text: Vec<u8>,
    /// The number of its first wrong line, from 1. If the text lacks a line, that of the lacking one.
    pub line: usize,
}

/// A text that was read.
#[derive(Debug, Drop)]
pub struct NamedText {
    /// The word by which the arguments name its source.
    pub name: String,
    /// The text, or its start if it is too long.
    pub text: Vec<u8>,
}

/// A line of a script that isn't an event that can be run.
#[derive(Debug, Drop)]
pub struct ScriptLine {
    /// The number of the line, from 1.
    pub line: usize,
    /// Why it can't be run.
    pub fault: ScriptFault,
    /// The text of the script. The command that has read it adds it.
    pub script: Option<Vec<u8>>,
}

/// Why a line of a script isn't an event that can be run.
#[derive(Clone, Copy, Debug)]
pub enum ScriptFault {
    /// It isn't spelled as a line of a script.
    Spelling,
    /// It cuts a write, and can't follow the lines before it.
    Order,
    /// It cuts a write, and this script may cut none.
    Cut,
    /// With this line the script is longer than the limit.
    TooLong,
    /// It names standard input, which was read before.
    InputRead,
    /// It names a part of a file by words that aren't two numbers.
    PartNumbers,
    /// It names a part that its file doesn't have. The file has so many bytes. `None` if the system
    /// can't tell how many.
    NoPart(Option<u64>),
}

/// The length of a flash that isn't that of its device, in bytes.
#[derive(Clone, Copy, Debug)]
pub struct WrongLength {
    /// The length that it has. Of standard input at most one byte more is read than is wanted.
    /// `None` if the system can't tell the length.
    pub found: Option<u64>,
    /// The length that it has to have.
    pub wanted: u32,
}

/// A fault of a file or of standard input, and the name of that source.
#[derive(Debug, Drop)]
pub struct SourceRefusal {
    /// The word by which the arguments, or a line of a script, name it.
    pub name: String,
    /// The fault.
    pub fault: SourceFault,
    /// The text of the script that was run, if one was. The command that has read it adds it.
    pub script: Option<Vec<u8>>,
}

impl SourceRefusal {
    /// Returns the file or standard input that this is about.
    pub fn source(&self) -> Source<'_> {
        Source::named(&self.name)
    }
}

/// The faults of a file or of standard input.
#[derive(Debug, Drop)]
pub enum SourceFault {
    /// The system could not read it to its end, for this reason.
    CannotRead(io::Error),
    /// It has more bytes than this limit.
    TooLong(u32),
    /// It is no flash, and it could not be made or replaced, for this reason of the system. `None` if
    /// another program uses it, or if it isn't a plain file.
    CannotReplace(Option<io::Error>),
    /// It was to hold an intact image and holds these bytes.
    NoImage(Vec<u8>),
    /// It was to be replaced by an image and holds something else. It is unchanged.
    NoOldImage,
    /// It was to be replaced by a picture and holds something else. It is unchanged.
    NoPicture,
    /// It holds no summary, or no output of a sweep, that can be merged with those before it. Its
    /// wrong line is the first that can't be.
    CannotMerge(BadText),
}

impl fmt::Display for SourceRefusal {
    fn fmt<W: fmt::Write>(&self, f: &mut fmt::Formatter<W>) -> fmt::Result {
        let source = self.source();
        match &self.fault {
            SourceFault::CannotRead(_) => write!(f, "cannot read {source}"),
            SourceFault::TooLong(most) => write!(f, "{source} is longer than {most} bytes"),
            SourceFault::CannotReplace(_) => write!(f, "cannot write {source}"),
            SourceFault::NoImage(_) | SourceFault::NoOldImage => write!(f, "{source} is no image"),
            SourceFault::NoPicture => write!(f, "{source} is no picture"),
            SourceFault::CannotMerge(bad) => {
                let line = bad.line;
                write!(f, "cannot merge {source} line {line}")
            }
        }
    }
}
