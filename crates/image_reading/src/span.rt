//! Spans of a flash or of bytes in memory.

ghost use Rattle.std.specs.Prelude.{◌≡◌, ◌+◌, ◌^◌, ◌<◌, ◌≤◌, take, drop};
ghost use Rattle.flash_model.specs.Chip.{Chip};
ghost use Rattle.image_reading.specs.Span.{CanRead, bytes_of};

/// A span: `len` bytes from place `at` on. In a flash, `at` is the address of the first byte.
#[derive(Clone, Copy, Debug, PartialEq, Eq)]
pub struct Span {
    /// The place of the first byte, counted from 0.
    pub at: usize,
    /// The number of bytes.
    pub len: usize,
}

impl Span {
    /// The first `n` bytes of the span, which must have at least `n`.
    pub(crate) fn first(self, n: usize) -> Span
        requires { n ≤ self.len }
        ensures bytes { (chip : Chip) → bytes_of chip result ≡ take n (bytes_of chip self) }
        ensures readable { (chip : Chip) → CanRead chip self → CanRead chip result }
        ensures at { result.at ≡ self.at }
        ensures len { result.len ≡ n }
    {
        Span {
            at: self.at,
            len: n,
        }
    }

    /// The bytes after the first `n` of the span, which must have at least `n`.
    pub(crate) fn after(self, n: usize) -> Span
        requires within { n ≤ self.len }
        requires addressed { self.at + self.len < 2 ^ 63 }
        ensures bytes { (chip : Chip) → bytes_of chip result ≡ drop n (bytes_of chip self) }
        ensures readable { (chip : Chip) → CanRead chip self → CanRead chip result }
        ensures at { result.at ≡ self.at + n }
        ensures len { n + result.len ≡ self.len }
    {
        Span {
            at: self.at + n,
            len: self.len - n,
        }
    }
}
