//! The kinds of requests.

/// The kind of a request for an image.
#[derive(Clone, Copy, Debug, PartialEq, Eq)]
pub enum Kind {
    /// The image is tried. The device reverts to the old image unless the new one is confirmed.
    Test,
    /// The image stays, also without a confirmation.
    Permanent,
}
