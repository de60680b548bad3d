//! The table of swap types.

ghost use Rattle.std.specs.Prelude.{◌≡◌};
ghost use Rattle.trailer.specs.SwapTable.{swap_type_of};

use crate::kinds::{Magic, SwapType, Trailer};

/// Returns the swap type of an image, as MCUboot reads its trailers (MCUboot design document,
/// "Swapping"). The first case that applies counts: a test request, a permanent request, a trial
/// that wasn't confirmed.
///
/// A withdrawn request counts like any other. [`standing`](crate::standing) returns the pending
/// request.
pub fn swap_type(primary: &Trailer, secondary: &Trailer) -> SwapType
    ensures { result ≡ swap_type_of primary.now secondary.now }
{
    match (secondary.magic, primary.magic) {
        (Magic::Good, _) if !secondary.image_ok => SwapType::Test,
        (Magic::Good, _) => SwapType::Perm,
        (Magic::Unset, Magic::Good) if primary.copy_done && !primary.image_ok => SwapType::Revert,
        _ => SwapType::None,
    }
}
