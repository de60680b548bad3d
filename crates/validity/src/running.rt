//! The trait of images that run: those of a table, or their entries alone.

ghost use Rattle.std.specs.Prelude.{◌≡◌, Option};
ghost use Rattle.std.specs.Option.{option_map};
ghost use Rattle.version_order.specs.declared.version.Version.{Version};
ghost use Rattle.reports.specs.declared.table.Table.{Table};
ghost use Rattle.reports.specs.Combination.{image_at};
ghost use Rattle.validity.specs.Running.{running_table, version_that_runs};

use arrayvec::ArrayVec;
use common::limits::MOST_IMAGES;
use reports::{Entry, Table};
use version_order::Version;

/// Images that run.
pub(crate) trait Running {
    // The table in which they run.
    ghost table: { Self → Table };

    /// Returns the version of an image, counted from 0, if there is one of this number.
    fn version_of(&self, image: u8) -> Option<Version>
        ensures { result ≡ option_map version_that_runs (image_at (table self.now) image) };
}

impl Running for Table {
    ghost table = { λ table. table };

    fn version_of(&self, image: u8) -> Option<Version> {
        self.images
            .get(usize::from(image))
            .map(|row| row.running.version)
    }
}

impl Running for ArrayVec<Entry, MOST_IMAGES> {
    ghost table = { λ running. running_table running.items };

    fn version_of(&self, image: u8) -> Option<Version> {
        self.get(usize::from(image)).map(|entry| entry.version)
    }
}
