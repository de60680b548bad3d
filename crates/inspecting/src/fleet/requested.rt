//! The versions that a table requests.

ghost use Rattle.std.specs.Prelude.{◌≡◌};
ghost use Rattle.inspecting.specs.Requested.{requested_version, requested_versions, version_at, version_of};

use common::limits::MOST_IMAGES;
use reports::{Request, Table};
use version_order::Version;

/// Returns for each image number the version that a table requests, if it requests an intact image.
pub fn requested_versions(table: &Table) -> [Option<Version>; MOST_IMAGES]
    ensures { result ≡ requested_versions table.now }
{
    [
        requested_version(table, 0),
        requested_version(table, 1),
        requested_version(table, 2),
        requested_version(table, 3),
        requested_version(table, 4),
        requested_version(table, 5),
        requested_version(table, 6),
        requested_version(table, 7),
    ]
}

/// Returns the version of an image among these.
pub fn version_at(requested: &[Option<Version>], image: u8) -> Option<Version>
    ensures { result ≡ version_at requested.now image }
{
    match requested.get(usize::from(image)) {
        Some(version) => *version,
        None => None,
    }
}

/// Returns the version that a table requests of an image, if an intact image is requested.
fn requested_version(table: &Table, image: u8) -> Option<Version>
    ensures { result ≡ requested_version table.now image }
{
    match table.images.as_slice().get(usize::from(image)) {
        Some(image) => version_of(&image.request),
        None => None,
    }
}

/// Returns the version of a request, if it is an intact image.
fn version_of(request: &Request) -> Option<Version>
    ensures { result ≡ version_of request.now }
{
    match request {
        Request::Entry(entry) => Some(entry.version),
        Request::None | Request::Damaged => None,
    }
}
