//! The forms in which an answer is written.

/// The form in which an answer is written.
#[derive(Clone, Copy, PartialEq, Eq)]
pub enum Form {
    /// The text.
    Text,
    /// A JSON object in a line.
    Json,
}
