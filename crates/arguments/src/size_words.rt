//! Reads the sizes and addresses that arguments give.

ghost use Rattle.std.specs.Prelude.{◌≡◌, ◌^◌, codes};
ghost use Rattle.clap.specs.Words.{found_of, rows_of};
ghost use Rattle.command_line.specs.Given.{Finds};
ghost use Rattle.command_line.specs.Orders.{HasSize, size_at};

use clap::ArgMatches;
use command_line::{name_in, named, size_of};

/// Returns the size or address that is given for this argument.
pub fn size_in(names: &ArgMatches<'_>, argument: &str) -> Option<u32>
    ensures { result ≡ size_at argument.now (rows_of (found_of names.now)) }
{
    size_of(name_in(names, argument)?)
}

/// Returns the size or address for this argument, if one is given. Returns `None` if the value
/// isn't one.
pub fn size_said(names: &ArgMatches<'_>, argument: &str) -> Option<Option<u32>>
    ensures { Finds (HasSize argument.now (2 ^ 32) (rows_of (found_of names.now))) result }
{
    if name_in(names, argument).is_none() {
        return Some(None);
    }
    Some(Some(size_in(names, argument)?))
}

/// Returns the size of the header in bytes, if it is given. Returns `None` if it isn't a size
/// below 65536.
pub fn header_size_in(names: &ArgMatches<'_>) -> Option<Option<u16>>
    ensures { Finds (HasSize (codes "header-size") (2 ^ 16) (rows_of (found_of names.now)))
        result }
{
    if name_in(names, named::HEADER_SIZE).is_none() {
        return Some(None);
    }
    let size = u16::try_from(size_in(names, named::HEADER_SIZE)?).ok()?;
    Some(Some(size))
}
