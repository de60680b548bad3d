//! Writes the text of an answer.
ghost use Rattle.std.specs.Prelude.{◌≡◌, Err, IfErr, IfOk, string_bytes};
ghost use Rattle.std.specs.Io.KnownBytes.{Keeps};
ghost use Rattle.inspecting.specs.Written.{WritesText};

use device_texts::write_all;
use host::{Answer, Refusal};
use std::alloc::AllocError;
use std::io::Write;

/// Writes the text of an answer to `out`, and returns the answer.
///
/// # Errors
/// `CannotWrite` if a write fails. Then `out` has taken a prefix of the text.
pub(crate) fn write_text<W: Write>(
    answer: Answer,
    text: &str,
    out: &mut W,
) -> Result<Answer, Refusal>
    ensures { WritesText answer text.now result (W.contents out.old) (W.contents out.new) }
{
    match write_all(out, text.as_bytes()) {
        Ok(()) => Ok(answer),
        Err(_) => Err(Refusal::CannotWrite),
    }
}

/// Writes the text of an answer to `out`, and returns the answer. `text` is an error if memory ran
/// out for it. Then nothing is written.
///
/// # Errors
/// `NoMemory` if there is no text, `CannotWrite` if a write fails.
pub(crate) fn write_answer<W: Write>(
    answer: Answer,
    text: Result<String, AllocError>,
    out: &mut W,
) -> Result<Answer, Refusal>
    ensures no_text { IfErr text (λ _. (result ≡ Err Refusal.NoMemory)
        × Keeps (W.contents out.old) (W.contents out.new)) }
    ensures text { IfOk text (λ made. WritesText answer (string_bytes made) result
        (W.contents out.old) (W.contents out.new)) }
{
    match text {
        Ok(text) => write_text(answer, &text, out),
        Err(_) => Err(Refusal::NoMemory),
    }
}
