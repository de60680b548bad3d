//! Writes texts to the outputs of a command.
ghost use Rattle.std.specs.Prelude.{◌≡◌, IfErr, OnOk};
ghost use Rattle.std.specs.Io.KnownBytes.{Appends};

use device_texts::write_all;
use host::Refusal;
use std::io::Write;

/// Writes a text to an output, and flushes it.
pub fn tell<W: Write>(text: &[u8], to: &mut W) -> Result<(), Refusal>
    ensures told { OnOk result (Appends (W.contents to.old) (W.contents to.new) text.now) }
    ensures untold { IfErr result (λ refusal. refusal ≡ Refusal.CannotWrite) }
{
    let Ok(()) = write_all(to, text) else {
        return Err(Refusal::CannotWrite);
    };
    match to.flush() {
        Ok(()) => Ok(()),
        Err(_) => Err(Refusal::CannotWrite),
    }
}
