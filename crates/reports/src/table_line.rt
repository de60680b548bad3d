//! One line of a table's text.

ghost use Rattle.std.specs.Prelude.{◌≡◌};
ghost use Rattle.reports.specs.LineReading.{alternative_of, group_of, image_and_version_of, image_line_of, needs_line_of, request_line_of, table_line_of};

use common::ascii::{cut, number, number_u8};
use version_order::{Dependency, Group, Version};

/// The meaning of one line of a table.
#[derive(Drop)]
pub enum TableLine {
    /// `image I VERSION COUNTER FLOOR` begins image I: the running image, and the floor.
    Image {
        /// The number of the image.
        number: u8,
        /// The running version.
        version: Version,
        /// The security counter of the running image.
        counter: u32,
        /// The lowest security counter that is accepted.
        floor: u32,
    },
    /// `needs J VERSION`, a dependency of the running image or, after `request`, of the requested
    /// one.
    Needs(Dependency),
    /// `needs-one J VERSION ..`, a group of the running image or, after `request`, of the requested
    /// one. It comes after the dependencies.
    NeedsOne(Group),
    /// `request VERSION COUNTER`, an intact request.
    Request {
        /// The requested version.
        version: Version,
        /// The security counter of the requested image.
        counter: u32,
    },
    /// `damaged`, a request whose bytes are no intact image.
    Damaged,
}

// The first words of lines.
const IMAGE: &[u8] = b"image";

/// The first word of a dependency, and of the reason that one is out of reach.
pub(crate) const NEEDS: &[u8] = b"needs";

/// The first word of a group, and of the reason that one is out of reach.
pub(crate) const NEEDS_ONE: &[u8] = b"needs-one";

const REQUEST: &[u8] = b"request";

/// The only word of a request whose bytes are no intact image, and of the reason to refuse it.
pub(crate) const DAMAGED: &[u8] = b"damaged";

impl TableLine {
    /// Reads one line without its line feed. Returns `None` if it isn't a line of a table.
    #[tactic(auto, unfolding(crate::specs::LineReading::table_line_of))]
    pub(crate) fn read(line: &[u8]) -> Option<TableLine>
        ensures { result ≡ table_line_of line.now }
    {
        if line == DAMAGED {
            return Some(TableLine::Damaged);
        }
        let (word, Some(fields)) = cut(line, b' ') else {
            return None;
        };
        if word == IMAGE {
            image_line(fields)
        } else if word == NEEDS {
            needs_line(fields)
        } else if word == NEEDS_ONE {
            group(fields).map(TableLine::NeedsOne)
        } else if word == REQUEST {
            request_line(fields)
        } else {
            None
        }
    }
}

// Reads the fields after `image`.
#[tactic(auto, unfolding(crate::specs::LineReading::image_line_of))]
fn image_line(fields: &[u8]) -> Option<TableLine>
    ensures { result ≡ image_line_of fields.now }
{
    let (image, Some(rest)) = cut(fields, b' ') else {
        return None;
    };
    let (version, Some(rest)) = cut(rest, b' ') else {
        return None;
    };
    let (counter, Some(floor)) = cut(rest, b' ') else {
        return None;
    };
    Some(TableLine::Image {
        number: number_u8(image)?,
        version: Version::from_ascii(version).ok()?,
        counter: number(counter)?,
        floor: number(floor)?,
    })
}

// Reads the fields after `needs`.
#[tactic(auto, unfolding(crate::specs::LineReading::needs_line_of))]
fn needs_line(fields: &[u8]) -> Option<TableLine>
    ensures { result ≡ needs_line_of fields.now }
{
    let (image, minimum) = image_and_version(fields)?;
    Some(TableLine::Needs(Dependency { image, minimum }))
}

// Reads the fields after `request`.
#[tactic(auto, unfolding(crate::specs::LineReading::request_line_of))]
fn request_line(fields: &[u8]) -> Option<TableLine>
    ensures { result ≡ request_line_of fields.now }
{
    let (version, Some(counter)) = cut(fields, b' ') else {
        return None;
    };
    let version = Version::from_ascii(version).ok()?;
    let counter = number(counter)?;
    Some(TableLine::Request { version, counter })
}

/// Reads the number of an image and a version. Returns `None` if the fields are something else.
#[tactic(auto, unfolding(crate::specs::LineReading::image_and_version_of))]
pub(crate) fn image_and_version(fields: &[u8]) -> Option<(u8, Version)>
    ensures { result ≡ image_and_version_of fields.now }
{
    let (image, Some(version)) = cut(fields, b' ') else {
        return None;
    };
    let image = number_u8(image)?;
    let version = Version::from_ascii(version).ok()?;
    Some((image, version))
}

/// Reads one to four alternatives. Returns `None` if the fields are something else.
pub(crate) fn group(fields: &[u8]) -> Option<Group>
    ensures { result ≡ group_of fields.now }
{
    let mut group = Group::default();
    let mut rest = Some(fields);
    while let Some(fields) = rest {
        let (image, after) = cut(fields, b' ');
        let (minimum, after) = cut(after?, b' ');
        let alternative = alternative(image, minimum)?;
        group.alternatives.try_push(alternative).ok()?;
        rest = after;
    }
    Some(group)
}

// Reads the two words of an alternative.
#[tactic(auto, unfolding(crate::specs::LineReading::alternative_of))]
fn alternative(image: &[u8], minimum: &[u8]) -> Option<Dependency>
    ensures { result ≡ alternative_of image.now minimum.now }
{
    let image = number_u8(image)?;
    let minimum = Version::from_ascii(minimum).ok()?;
    Some(Dependency { image, minimum })
}
