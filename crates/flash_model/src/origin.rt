//! The first contents of a flash, for proofs only.

ghost use Rattle.std.specs.Prelude.{◌≡◌, ℕ, List};
ghost use Rattle.std.specs.Borrow.{ftrue};

use std::marker::Model;

/// The bytes that a flash held when it was made. Only proofs read them, and an `Origin` takes no
/// memory.
///
/// A driver has a field of this type and never changes it. With it the law `written` of
/// [`Flash`](crate::Flash) can say what the writes of the driver made of these bytes.
#[derive(Drop)]
pub struct Origin {
    pub ghost first: { List ℕ },
}

impl Model for Origin {
    ghost also_owns = { λ _. ftrue };
}

impl Origin {
    /// Returns the origin of a flash that holds these bytes.
    pub fn of(bytes: &[u8]) -> Origin
        ensures { result.first ≡ bytes.now }
    {
        Origin {}
    }
}
