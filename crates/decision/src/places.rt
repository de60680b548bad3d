//! What a call that fills places of its caller returns.

/// What stands in the places of a table and a report.
#[derive(Clone, Copy)]
pub enum Verdict {
    /// The table that was read and the result for each request.
    Decided,
    /// Neither: this is the lowest image whose running bytes aren't an intact image.
    Damaged(u8),
    /// The table. The running set isn't valid.
    Invalid,
}
