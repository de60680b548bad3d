//! How a command ends: its answer or its refusal, and the exit status.
ghost use Rattle.std.specs.Prelude.{◌≡◌, ◌⊎◌, None, Ok, Some, is_ok, if◌then◌else◌, option_map};
ghost use Rattle.std.specs.Io.KnownBytes.{Keeps};
ghost use Rattle.host.specs.declared.error.ScriptLine.{ScriptLine};
ghost use Rattle.host.specs.ScriptLines.{script_line};
ghost use Rattle.host.specs.Status.{Ends, status_of_answer, status_of_refusal};

use crate::error::{Refusal, ScriptFault, ScriptLine, SourceRefusal};
use std::io;
use std::io::Write;

/// The command did what it was asked to do.
const DONE: u8 = 0;

/// The program refused, or it could not write its output.
const REFUSED: u8 = 1;

/// The last event of a run was a power failure.
const CUT: u8 = 3;

/// The flash file could not be made or written.
const FLASH_FILE_FAILED: u8 = 4;

/// What the text says that a command wrote to standard output.
#[derive(Clone, Copy)]
pub enum Answer {
    /// The command did what it was asked to do.
    Done,
    /// The text is a refusal or a no.
    Refused,
    /// The text is the result of a run, and its last line says that the power failed.
    Cut,
}

impl Answer {
    /// Returns the exit status after this answer.
    fn status(self) -> u8
        ensures { result ≡ status_of_answer self }
    {
        match self {
            Answer::Done => DONE,
            Answer::Refused => REFUSED,
            Answer::Cut => CUT,
        }
    }
}

impl Refusal {
    /// Returns the exit status after this refusal.
    pub fn status(&self) -> u8
        ensures { result ≡ status_of_refusal self.now }
    {
        match self {
            Refusal::FlashFile(_) => FLASH_FILE_FAILED,
            _ => REFUSED,
        }
    }

    /// Returns the refusal of the line of this number of a script, from 1, for this reason.
    pub fn of_line(line: usize, fault: ScriptFault) -> Self
        ensures status { status_of_refusal result ≡ 1 }
        ensures line { script_line result
            ≡ Some (record { line = line; fault = fault; script = None }) }
    {
        Refusal::ScriptLine(ScriptLine {
            line,
            fault,
            script: None,
        })
    }

    /// Adds the text of the script that was run to a refusal of one of its lines, or of a file.
    pub fn in_script(self, text: Vec<u8>) -> Self
        ensures status { status_of_refusal result ≡ status_of_refusal self }
        ensures line { script_line result
            ≡ option_map (λ (bad : ScriptLine). record bad { script = Some text }) (script_line self) }
    {
        let script = Some(text);
        match self {
            Refusal::ScriptLine(ScriptLine { line, fault, .. }) => Refusal::ScriptLine(
                ScriptLine {
                    line,
                    fault,
                    script,
                },
            ),
            Refusal::OfSource(SourceRefusal { name, fault, .. }) => {
                Refusal::OfSource(SourceRefusal {
                    name,
                    fault,
                    script,
                })
            }
            other => other,
        }
    }
}

/// Ends a command and returns the exit status. An answer is flushed, and a refusal is written as an
/// error line. The contents of standard output stay as they are.
///
/// The status is that of the answer or the refusal, or 1 if a write failed. Nothing more is written
/// after a failed write. Therefore the status is 0 only if the answer is `Done` and was flushed.
pub fn finish<O: Write, E: Write>(outcome: &Result<Answer, Refusal>, out: &mut O, err: &mut E) -> u8
    ensures status { result ≡ 0 → outcome.now ≡ Ok Answer.Done }
    ensures ends { Ends outcome.now result }
    ensures kept { Keeps (O.contents out.old) (O.contents out.new) }
{
    match outcome {
        Ok(answer) => status_after(out.flush(), answer.status()),
        Err(Refusal::CannotWrite) => REFUSED,
        Err(refusal) => refuse(refusal, err),
    }
}

/// Flushes what a command wrote before it refused, so that it comes before the error line. Returns
/// the refusal to report: `CannotWrite` if the flush fails, and else `refusal`. After a failed write
/// nothing is flushed.
pub fn refuse_after<O: Write>(refusal: Refusal, out: &mut O) -> Refusal
    ensures { Keeps (O.contents out.old) (O.contents out.new) }
{
    if let Refusal::CannotWrite = refusal {
        return refusal;
    }
    match out.flush() {
        Ok(()) => refusal,
        Err(_) => Refusal::CannotWrite,
    }
}

/// Writes the error line of a refusal and returns its exit status, or 1 if a write failed.
pub fn refuse<E: Write>(refusal: &Refusal, err: &mut E) -> u8
    ensures { (result ≡ status_of_refusal refusal.now) ⊎ (result ≡ 1) }
{
    status_after(write_line(refusal, err), refusal.status())
}

fn write_line<E: Write>(refusal: &Refusal, err: &mut E) -> io::Result<()> {
    writeln!(err, "error: {refusal}")?;
    err.flush()
}

/// Returns the exit status after the last writes: `status`, or 1 if `written` is an error.
pub fn status_after(written: io::Result<()>, status: u8) -> u8
    ensures { result ≡ (if is_ok written then status else 1) }
{
    match written {
        Ok(()) => status,
        Err(_) => REFUSED,
    }
}
