//! Random numbers for a sample of a sweep. The same seed gives the same numbers.

/// Marsaglia's xorshift generator of 32 bits.
#[derive(Drop)]
pub struct Random {
    state: u32,
}

impl Random {
    /// A generator with this seed, which must not be 0.
    pub fn new(seed: u32) -> Self {
        Random { state: seed }
    }

    /// The next number, which is never 0.
    pub fn number(&mut self) -> u32 {
        self.state ^= self.state.wrapping_shl(13);
        self.state ^= self.state.wrapping_shr(17);
        self.state ^= self.state.wrapping_shl(5);
        self.state
    }
}
