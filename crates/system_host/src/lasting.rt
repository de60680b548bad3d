//! The order of writing and syncing. A durable write is on the medium before it returns. A new file
//! is on the medium before it takes the name of another, and that name is before the file counts as
//! made.

ghost use Rattle.std.specs.Prelude.{◌≡◌, Bool, IfErr, IsTrue, List, ℕ, OnOk, true};

use host::FlashFault;
use std::io;

/// A file to which bytes can be written at a place.
pub trait Medium {
    // Whether these bytes were written at this place and are still there; and whether all that was
    // written is on the medium, because a sync succeeded. The default of both is that it is so.
    ghost holds: { Self → ℕ → List ℕ → Bool } = { λ _ _ _. true };

    ghost synced: { Self → Bool } = { λ _. true };

    /// Writes all of `bytes` from byte `at` on.
    fn write(&mut self, at: u64, bytes: &[u8]) -> io::Result<()>
        ensures { OnOk result (IsTrue (holds self.new at bytes.now)) };

    /// Makes the system put all that was written on the medium.
    fn sync(&mut self) -> io::Result<()>
        ensures synced { OnOk result (IsTrue (synced self.new)) }
        ensures same { (at : ℕ) (bytes : List ℕ)
            → IsTrue (holds self.old at bytes) → IsTrue (holds self.new at bytes) };
}

/// Writes all of `bytes` to a file from byte `at` on. If `lasts`, they are on the medium before
/// this returns.
pub fn put<M: Medium>(medium: &mut M, at: u64, bytes: &[u8], lasts: bool) -> io::Result<()>
    ensures put { OnOk result (IsTrue (M.holds medium.new at bytes.now)) }
    ensures lasting { OnOk result (lasts ≡ true → IsTrue (M.synced medium.new)) }
{
    medium.write(at, bytes)?;
    if lasts {
        medium.sync()?;
    }
    Ok(())
}

/// A new file that is to take the name of another file, or one that no file has.
pub trait NewFile {
    // `holds`: it holds these bytes. `synced`: all that was written to it is on the medium, because
    // a sync succeeded. `named`: it took the name. `lasting`: the name is on the medium too,
    // because a sync of the folder succeeded. `removed`: the name under which it was made was
    // removed, or that was tried. The default of each is that it is so.
    ghost holds: { Self → List ℕ → Bool } = { λ _ _. true };

    ghost synced: { Self → Bool } = { λ _. true };

    ghost named: { Self → Bool } = { λ _. true };

    ghost lasting: { Self → Bool } = { λ _. true };

    ghost removed: { Self → Bool } = { λ _. true };

    /// Writes all of `bytes` to it while it is empty.
    fn fill(&mut self, bytes: &[u8]) -> Result<(), FlashFault>
        ensures { OnOk result (IsTrue (holds self.new bytes.now)) };

    /// Makes the system put all that was written on the medium.
    fn sync(&mut self) -> Result<(), FlashFault>
        ensures synced { OnOk result (IsTrue (synced self.new)) }
        ensures same { (bytes : List ℕ)
            → IsTrue (holds self.old bytes) → IsTrue (holds self.new bytes) };

    /// Takes the name. All that was written has to be on the medium. After a power cut, the file of
    /// that name holds either all of its old contents or all of these.
    fn take_name(&mut self) -> Result<(), FlashFault>
        requires { IsTrue (synced self.old) }
        ensures named { OnOk result (IsTrue (named self.new)) }
        ensures same { (bytes : List ℕ)
            → IsTrue (holds self.old bytes) → IsTrue (holds self.new bytes) };

    /// Makes the system put the name, which this file has to have, on the medium. After that a
    /// power cut doesn't restore the old contents of the folder.
    fn sync_folder(&mut self) -> Result<(), FlashFault>
        requires { IsTrue (named self.old) }
        ensures lasting { OnOk result (IsTrue (lasting self.new)) }
        ensures named { IsTrue (named self.new) }
        ensures same { (bytes : List ℕ)
            → IsTrue (holds self.old bytes) → IsTrue (holds self.new bytes) };

    /// Removes the name under which it was made, if it still has that. An error is ignored, because
    /// nothing can be done about it.
    fn remove(&mut self)
        ensures { IsTrue (removed self.new) };
}

/// Fills a new file, gives it its name once its bytes are on the medium, and then puts the name on
/// the medium. If one of these fails, the file is removed, unless it had already taken the name.
pub fn place<N: NewFile>(new: &mut N, bytes: &[u8]) -> Result<(), FlashFault>
    ensures placed { OnOk result (IsTrue (N.named new.new)) }
    ensures lasting { OnOk result (IsTrue (N.lasting new.new)) }
    ensures holds { OnOk result (IsTrue (N.holds new.new bytes.now)) }
    ensures removed { IfErr result (λ _. IsTrue (N.removed new.new)) }
{
    match put_in_place(new, bytes) {
        Ok(()) => Ok(()),
        Err(fault) => {
            new.remove();
            Err(fault)
        }
    }
}

/// Does the same as [`place`], but leaves the file there if it fails.
fn put_in_place<N: NewFile>(new: &mut N, bytes: &[u8]) -> Result<(), FlashFault>
    ensures placed { OnOk result (IsTrue (N.named new.new)) }
    ensures lasting { OnOk result (IsTrue (N.lasting new.new)) }
    ensures holds { OnOk result (IsTrue (N.holds new.new bytes.now)) }
{
    new.fill(bytes)?;
    new.sync()?;
    new.take_name()?;
    new.sync_folder()
}
