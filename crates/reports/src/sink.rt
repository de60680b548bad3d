//! The trait of what a text is written to, and the writing of numbers and versions.

ghost use Rattle.std.specs.Prelude.{ℕ, List, [], ◌++◌, IfOk, decimal};
ghost use Rattle.common.specs.Lines.{◌␣◌};
ghost use Rattle.version_order.specs.VersionText.{version_text};

use itoa::Buffer;
use std::fmt;
use version_order::Version;

/// A destination to which a text is written piece by piece: a formatter, or one of a caller's own.
///
/// If its error is `Infallible`, the complete text is written, and the contract has no other case.
pub trait Sink {
    /// Why a sink accepts no more. It is `Infallible` if it accepts every text.
    type Error: Drop;

    // The sink accepts this text, and is the second sink after that.
    ghost takes: { Self → List ℕ → Self → Type 0 };

    /// Accepts the next piece.
    fn put(&mut self, piece: &str) -> Result<(), Self::Error>
        ensures { IfOk result (λ done. takes self.old piece.now self.new) };

    // A sink that accepts the empty text is unchanged.
    ghost takes_nothing: { (sink : Self) → takes sink [] sink };

    // Two texts that a sink accepts one after the other are one text.
    ghost takes_both: { (first second third : Self) → (before after : List ℕ)
        → takes first before second → takes second after third
        → takes first (before ++ after) third };
}

impl<W: fmt::Write> Sink for fmt::Formatter<W> {
    type Error = fmt::Error;

    ghost use Rattle.std.specs.Fmt.{HasWritten, IsPlainFormatter};
    ghost use Rattle.std.specs.Prelude.{refl};
    ghost use Rattle.std.proofs.lemmas.Grind.{put_two};

    ghost takes = { λ old text new. IsPlainFormatter old
        → HasWritten W.write_str_gives old text new };

    fn put(&mut self, piece: &str) -> fmt::Result {
        self.write_str(piece)
    }

    ghost takes_nothing = { λ sink plain. record {
      wrote = record { parts = []; calls = refl; whole = refl };
      plain = plain;
    } };

    ghost takes_both = { λ first second third before after taken more plain.
        let written = taken plain in
        put_two W.write_str_gives _ _ _ _ _ _ written (more written.plain) refl };
}

/// Writes a text, followed by a number in decimal.
pub(crate) fn write_number<S: Sink>(sink: &mut S, before: &str, number: u32) -> Result<(), S::Error>
    ensures { IfOk result (λ done. S.takes sink.old (before.now ++ decimal number) sink.new) }
{
    sink.put(before)?;
    let mut digits = Buffer::new();
    sink.put(digits.format(number))
}

/// Writes a version.
pub(crate) fn write_version<S: Sink>(sink: &mut S, version: &Version) -> Result<(), S::Error>
    ensures { IfOk result (λ done. S.takes sink.old (version_text version.now) sink.new) }
{
    write_number(sink, "", u32::from(version.major))?;
    write_number(sink, ".", u32::from(version.minor))?;
    write_number(sink, ".", u32::from(version.revision))?;
    write_number(sink, "+", version.build)
}

/// Writes a text, followed by the number of an image, a space and a version.
pub(crate) fn write_image_and_version<S: Sink>(
    sink: &mut S,
    before: &str,
    image: u8,
    version: &Version,
) -> Result<(), S::Error>
    ensures { IfOk result (λ done. S.takes sink.old
        (before.now ++ (decimal image ␣ version_text version.now)) sink.new) }
{
    write_number(sink, before, u32::from(image))?;
    sink.put(" ")?;
    write_version(sink, version)
}
