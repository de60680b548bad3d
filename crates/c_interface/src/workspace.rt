//! Memory that C lends to a call in place of stack.

/// The words of 8 bytes that a table takes.
const TABLE_WORDS: usize = 913;

/// Room for a table, as C declares it: `struct bootswap_workspace`. It is no value: a call takes a
/// pointer to the room, makes a table there, and leaves room again. It has exactly the size of a
/// table, and the proofs of these calls rest on it.
#[repr(C)]
#[derive(Drop)]
pub struct Workspace {
    /// The room.
    pub words: [u64; TABLE_WORDS],
}
