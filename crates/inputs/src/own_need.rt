//! Finds files of images that may have changed places.

use host::Source;
use image_reading::Desc;
use std::fmt;
use version_order::Dependency;

/// A file of an image that needs an image of the number that the file is for. Files of two images
/// that need each other do so if they changed places.
#[derive(Clone, Copy)]
pub struct OwnNeed<'a> {
    file: Source<'a>,
    image: u8,
}

impl<'a> OwnNeed<'a> {
    /// The own need of an image in a file for the image of this number, if it has one.
    pub fn of(file: Source<'a>, image: u8, description: &Desc) -> Option<Self> {
        let mut groups = description.groups.iter();
        if names_image(description.dependencies.as_slice(), image)
            || groups.any(|group| names_image(group.alternatives.as_slice(), image))
        {
            Some(OwnNeed { file, image })
        } else {
            None
        }
    }
}

/// Whether one of these dependencies is on the image of this number.
fn names_image(needs: &[Dependency], number: u8) -> bool {
    needs.iter().any(|need| need.image == number)
}

impl fmt::Display for OwnNeed<'_> {
    fn fmt<W: fmt::Write>(&self, f: &mut fmt::Formatter<W>) -> fmt::Result {
        let OwnNeed { file, image } = self;
        write!(
            f,
            "{file} is for image {image} and needs image {image}, which is itself: it may be \
             the file of another image"
        )
    }
}
