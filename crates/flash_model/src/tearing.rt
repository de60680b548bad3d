//! Writes to bytes in memory, done or torn.

ghost use Rattle.std.specs.Prelude.{ℕ, ◌≡◌, ◌+◌, ◌<◌, ◌≤◌, length, replicate, slice_index};
ghost use Rattle.std.specs.Prelude.{slice_range};
ghost use Rattle.flash_model.specs.Torn.{half_done, replaced, torn_at, torn_bytes, with_pattern};
ghost use Rattle.flash_model.specs.declared.torn.Torn.TheVariants as Torn;

use crate::torn::Torn;

/// Fills `bytes` with `pattern`, repeated from the first byte on. An empty pattern changes nothing.
/// Does not allocate.
#[tactic(auto, using(crate::proofs::TornBytes::with_pattern_none, crate::proofs::TornBytes::with_pattern_each))]
pub fn repeat(bytes: &mut [u8], pattern: &[u8])
    ensures bytes { bytes.new ≡ with_pattern pattern.now bytes.old }
    ensures are_bytes { (k : ℕ) → slice_index bytes.new k < 256 }
{
    if pattern.is_empty() {
        return;
    }
    for i in 0..bytes.len() {
        bytes[i] = pattern[i % pattern.len()];
    }
}

/// Copies `bytes` to offset `at` of `all`.
pub(crate) fn put(all: &mut [u8], at: usize, bytes: &[u8])
    requires { at + length bytes.now ≤ length all.old }
    ensures bytes { all.new ≡ replaced at bytes.now all.old }
    ensures are_bytes { (k : ℕ) → slice_index all.new k < 256 }
{
    all[at..at + bytes.len()].copy_from_slice(bytes);
}

/// Sets the `n` bytes from offset `at` to 0xFF.
pub(crate) fn blank(all: &mut [u8], at: usize, n: usize)
    requires { at + n ≤ length all.old }
    ensures bytes { all.new ≡ replaced at (replicate n 0xff) all.old }
    ensures are_bytes { (k : ℕ) → slice_index all.new k < 256 }
{
    all[at..at + n].fill(0xff);
}

/// Repeats `pattern` over the `n` bytes from offset `at`.
fn put_pattern(all: &mut [u8], at: usize, n: usize, pattern: &[u8])
    requires { at + n ≤ length all.old }
    ensures bytes { all.new
        ≡ replaced at (with_pattern pattern.now (slice_range all.old at (at + n))) all.old }
    ensures are_bytes { (k : ℕ) → slice_index all.new k < 256 }
{
    repeat(&mut all[at..at + n], pattern);
}

/// Copies the first half of `bytes` to offset `at` of `all`.
#[tactic(auto, using(crate::proofs::TornBytes::half_put))]
fn put_half(all: &mut [u8], at: usize, bytes: &[u8])
    requires { at + length bytes.now ≤ length all.old }
    ensures bytes { all.new ≡ torn_at at bytes.now Torn.Half all.old }
    ensures are_bytes { (k : ℕ) → slice_index all.new k < 256 }
{
    put(all, at, &bytes[..bytes.len() / 2]);
}

/// Sets the first half of the `n` bytes from offset `at` to 0xFF.
#[tactic(auto, using(crate::proofs::TornBytes::half_blank))]
fn blank_half(all: &mut [u8], at: usize, n: usize)
    requires { at + n ≤ length all.old }
    ensures bytes { let old = slice_range all.old at (at + n) in
        all.new ≡ replaced at (half_done old (replicate n 0xff)) all.old }
    ensures are_bytes { (k : ℕ) → slice_index all.new k < 256 }
{
    blank(all, at, n / 2);
}

/// Leaves what an interrupted program of `bytes` at offset `at` leaves, as `torn` says.
pub(crate) fn tear_program(all: &mut [u8], at: usize, bytes: &[u8], torn: &Torn)
    requires { at + length bytes.now ≤ length all.old }
    ensures bytes { all.new ≡ torn_at at bytes.now torn.now all.old }
    ensures are_bytes { (k : ℕ) → slice_index all.new k < 256 }
{
    match torn {
        Torn::Keep => {}
        Torn::Done => put(all, at, bytes),
        Torn::Half => put_half(all, at, bytes),
        Torn::Bytes(pattern) => put_pattern(all, at, bytes.len(), pattern),
    }
}

/// Leaves what an interrupted erase of the `n` bytes from offset `at` leaves, as `torn` says.
pub(crate) fn tear_erase(all: &mut [u8], at: usize, n: usize, torn: &Torn)
    requires { at + n ≤ length all.old }
    ensures bytes { let old = slice_range all.old at (at + n) in
        all.new ≡ replaced at (torn_bytes torn.now old (replicate n 0xff)) all.old }
    ensures are_bytes { (k : ℕ) → slice_index all.new k < 256 }
{
    match torn {
        Torn::Keep => {}
        Torn::Done => blank(all, at, n),
        Torn::Half => blank_half(all, at, n),
        Torn::Bytes(pattern) => put_pattern(all, at, n, pattern),
    }
}
