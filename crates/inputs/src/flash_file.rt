//! The trait of a file to which a flash is written through.

ghost use Rattle.std.specs.Prelude.{◌≡◌, ◌+◌, ◌≤◌, ℕ, List, None, Option, length, option_map, OnOk};
ghost use Rattle.std.specs.Option.{ForSome};
ghost use Rattle.flash_model.specs.Torn.{replaced};

use std::io;

/// A file to which a flash is written through. It is open for writing, and as long as the flash.
///
/// Contracts know the contents of the file if the implementation defines `contents`. Otherwise they
/// say nothing about them.
pub trait FlashFile {
    // The contents of the file, if they are known.
    ghost contents: { Self → Option (List ℕ) } = { λ _. None };

    /// Overwrites the bytes of the file from `at` on. The file has at least as many there, so its
    /// length doesn't change.
    ///
    /// # Errors
    /// The error of the write. The file may hold any bytes then, and isn't written again.
    fn write_at(&mut self, at: u32, bytes: &[u8]) -> io::Result<()>
        requires { ForSome (contents self.old) (λ all. at + length bytes.now ≤ length all) }
        ensures { OnOk result (contents self.new
            ≡ option_map (replaced at bytes.now) (contents self.old)) };
}
