//! The trait that a driver of a flash implements.

ghost use Rattle.std.specs.Prelude.{◌≡◌, ◌^◌, ◌+◌, ◌*◌, ◌%◌, ◌<◌, ◌≤◌, ℕ, length, slice_index};
ghost use Rattle.std.specs.Prelude.{true};
ghost use Rattle.flash_model.specs.Chip.{Chip, size_of, IsCutAsArmed, IsErased};
ghost use Rattle.flash_model.specs.Written.{IsWritten};
ghost use Rattle.flash_model.specs.Calls.{Erases, Programs, ReadsBytes};

use crate::error::Result;

/// A flash: sectors of one size, which are erased as a whole, and units of 8 bytes, which are
/// programmed only while they are erased.
///
/// A flash has at most 4294967295 bytes. Each byte has an address of 32 bits, from 0. Sectors are
/// numbered from 0.
///
/// A *write* is a program or an erase. A write is done, interrupted by a power cut, or refused
/// because the flash is off. An interrupted write leaves any bytes in its range and all other bytes
/// unchanged.
///
/// Contracts see a flash as a chip (`specs/Chip.antt`): its bytes, whether it has power, and its
/// counts of writes, cuts, completed erases and faults. These counts exist for contracts only: a
/// driver doesn't have to store them.
///
/// A flash may record its writes in a journal, 12 bytes for each write, and for a program also its
/// bytes. The count `journaled` is how many bytes the writes asked for. It is 0 for a flash without
/// a journal, as for the driver of a real part.
///
/// # Implementing a driver
///
/// A driver keeps the contract of each call and the laws below. It also keeps these rules:
/// - A read fails only if the flash is off. If the bus or the error correction of a part can fail,
///   the driver retries or stops the device.
/// - Reads don't drift. A unit reads the same bytes until it is written, also a unit that a power
///   cut left half programmed. A unit that reads erased is erased, so it can be programmed. If a
///   part may read a torn unit differently each time, its driver has to prevent that. The part's
///   check for erased pages is one way.
/// - `sector_size`, `sectors` and what is `fixed` of the chip never change.
/// - A real part has no armed writes. Each power cut of a real part is a fault: a cut that wasn't
///   armed.
///
/// The laws tie the counts to what the driver did. To keep the law `written`, a driver has two more
/// fields. One is an [`Origin`](crate::Origin), which takes no memory and never changes. The other
/// is a ghost field with the fact `IsWrittenBy` of `specs/Written.antt`, which the driver proves
/// again at each write. `slice_flash` is a complete example. No number is stored for this law at
/// run time.
pub trait Flash {
    ghost chip: { Self → Chip };

    /// Returns the length of a sector in bytes. It never changes.
    fn sector_size(&self) -> u32
        ensures { result ≡ (chip self.now).sector_size };

    /// Returns the number of sectors. It never changes.
    fn sectors(&self) -> u32
        ensures { result ≡ (chip self.now).sectors };

    /// Fills `out` with the bytes from address `at` on. The range has to lie in the flash.
    ///
    /// # Errors
    /// `Off` if the flash was off: nothing of the flash changed, and `out` may hold any bytes.
    fn read(&mut self, at: u32, out: &mut [u8]) -> Result<()>
        requires { at + length out.old ≤ size_of (chip self.old) }
        ensures { ReadsBytes at out.new (chip self.old) (chip self.new) result };

    /// Programs `bytes` at address `at`. The range lies in the flash and is erased throughout. The
    /// bytes are whole units, at least one: `at` and the number of bytes are multiples of 8.
    ///
    /// # Errors
    /// - `Cut` if power failed: the range holds any bytes, all other bytes are unchanged, and the
    ///   flash is off.
    /// - `Off` if the flash was off before: nothing changed.
    fn program(&mut self, at: u32, bytes: &[u8]) -> Result<()>
        requires inside { at + length bytes.now ≤ size_of (chip self.old) }
        requires erased { IsErased (chip self.old) at (length bytes.now) }
        requires place { at % 8 ≡ 0 }
        requires units { length bytes.now % 8 ≡ 0 }
        requires some { 8 ≤ length bytes.now }
        ensures { Programs at bytes.now (chip self.old) (chip self.new) result };

    /// Erases a sector, given by its number from 0. Each byte of the sector is 0xFF afterwards.
    ///
    /// # Errors
    /// - `Cut` if power failed: the sector holds any bytes, all other bytes are unchanged, and the
    ///   flash is off. Such an erase isn't counted as completed, even if it left the sector erased.
    /// - `Off` if the flash was off before: nothing changed.
    fn erase(&mut self, sector: u32) -> Result<()>
        requires { sector < (chip self.old).sectors }
        ensures { Erases sector (chip self.old) (chip self.new) result };

    /// Turns the power on again. No byte changes.
    fn restart(&mut self)
        ensures { chip self.new ≡ record (chip self.old) { is_on = true } };

    /// The number of bytes is the number of sectors times their length.
    ghost whole: { (f : Self) → length (chip f).bytes ≡ size_of (chip f) };

    /// There are fewer than 2^32 bytes, so each byte has an address of 32 bits.
    ghost addressed: { (f : Self) → size_of (chip f) < 2 ^ 32 };

    /// Each byte is below 256.
    ghost bytes: { (f : Self) (k : ℕ) → slice_index (chip f).bytes k < 256 };

    /// The count of cuts is the number of armed writes that the flash took, plus the count of
    /// faults.
    ghost armed: { (f : Self) → IsCutAsArmed (chip f) };

    /// The bytes are exactly what the counted writes made of the bytes that the flash held first.
    /// Each of these writes is one that a driver accepts. The armed ones are torn as they were
    /// armed, and all others are done.
    ghost written: { (f : Self) → ∥ IsWritten (chip f) ∥₁ };
}
