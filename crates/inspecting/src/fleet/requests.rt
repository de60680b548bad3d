//! Requests that replace those of each table.

ghost use Rattle.std.specs.Prelude.{◌≡◌, ◌≤◌, length};
ghost use Rattle.common.specs.Limits.{MOST_IMAGES};
ghost use Rattle.inspecting.specs.Requests.{Replaces, with_request};

use common::limits::MOST_IMAGES;
use reports::{Entry, Image, Request, Table};

/// The images of a release: what is requested of each device in place of its own requests.
#[derive(Drop)]
pub struct Requests {
    /// For the number of each image the entry that is requested, if the release has that image.
    pub entries: [Option<Entry>; MOST_IMAGES],
}

impl Requests {
    /// Replaces the requests of a table. An image that the release doesn't have keeps its request,
    /// and an image that the table doesn't have is passed over.
    pub fn replace_in(&self, table: &mut Table)
        requires { length table.old.images.items ≤ MOST_IMAGES }
        ensures { Replaces self.now.entries table.old.images.items table.new.images.items }
    {
        for number in 0..table.images.len() {
            replace(&mut table.images[number], &self.entries[number]);
        }
    }
}

/// Replaces the request of an image, if there is an entry for it.
fn replace(image: &mut Image, entry: &Option<Entry>)
    ensures { image.new ≡ with_request entry.now image.old }
{
    if let Some(entry) = entry {
        image.request = match entry.clone() {
            Ok(entry) => Request::Entry(entry),
            Err(_) => unreachable!(),
        };
    }
}
