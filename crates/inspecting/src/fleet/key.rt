//! The keys of a summary: what a device does, in one line.

ghost use Rattle.std.specs.Fmt.{WritesOnOk};
ghost use Rattle.std.specs.Prelude.{◌≡◌, ◌+◌, ◌^◌, ◌<◌, Some, length};
ghost use Rattle.inspecting.specs.Key.{key_text};
ghost use Rattle.inspecting.specs.Summary.{take_key, taken_image, taken_images};

use reports::{Reason, ReportedImage};
use std::fmt;
use version_order::Version;

/// What a summary counts of a device.
#[derive(Drop)]
pub enum Key<'k> {
    /// It is a device.
    Device,
    /// Its table is bad or too long.
    Bad,
    /// Its running images don't fit each other.
    NotValid,
    /// It takes these of its images.
    Take(&'k [ReportedImage]),
    /// It refuses a request.
    Refuse {
        /// The number of the image.
        image: u8,
        /// The version that is requested, if the request is an intact image.
        version: Option<Version>,
        /// Why it refuses.
        reason: &'k Reason,
    },
}

impl fmt::Display for Key<'_> {
    ghost output = { λ key. Some (key_text key) };

    fn fmt<W: fmt::Write>(&self, f: &mut fmt::Formatter<W>) -> fmt::Result {
        match self {
            Key::Device => f.write_str("device"),
            Key::Bad => f.write_str("bad"),
            Key::NotValid => f.write_str("not-valid"),
            Key::Take(images) => write_take(f, images),
            Key::Refuse {
                image,
                version: Some(version),
                reason,
            } => write!(f, "refuse {image} {version} {reason}"),
            Key::Refuse {
                image,
                version: None,
                reason,
            } => write!(f, "refuse {image} {reason}"),
        }
    }
}

/// Writes `take`, and the images that are taken.
fn write_take<W: fmt::Write>(f: &mut fmt::Formatter<W>, images: &[ReportedImage]) -> fmt::Result
    ensures { WritesOnOk W.write_str_gives f.old result (take_key images.now) f.new }
{
    f.write_str("take")?;
    write_images(f, images)
}

/// Writes the images that are taken.
fn write_images<W: fmt::Write>(f: &mut fmt::Formatter<W>, images: &[ReportedImage]) -> fmt::Result
    ensures { WritesOnOk W.write_str_gives f.old result (taken_images 0 images.now) f.new }
{
    for (number, image) in images.iter().enumerate() {
        write_image(f, number, image)?;
    }
    Ok(())
}

/// Writes an image, if it is taken.
fn write_image<W: fmt::Write>(
    f: &mut fmt::Formatter<W>,
    number: usize,
    image: &ReportedImage,
) -> fmt::Result
    ensures { WritesOnOk W.write_str_gives f.old result (taken_image number image.now) f.new }
{
    if image.is_taken {
        let version = image.version;
        write!(f, " {number} {version}")
    } else {
        f.write_str("")
    }
}
