//! Splits a text into lines, and reads them one by one into a state.

ghost use Rattle.std.specs.Prelude.{◌≡◌, ◌<◌, ◌∷◌, ℕ, List, Option, Some, None, Ok, Err, length, MatchBool, MatchResult};
ghost use Rattle.common.specs.Lines.{lines_of};
ghost use Rattle.common.specs.Reading.{read_lines};

use crate::ascii::cut;

/// A state that takes the lines of a text, one after another.
pub trait TakesLines {
    // The state after one more line, or none if the line can't follow the lines so far.
    ghost with_line: { Self → List ℕ → Option Self };

    /// Takes one more line, given without its line feed.
    ///
    /// Returns `false` if the line can't follow the lines so far. The state can't be used
    /// afterwards.
    fn take_line(&mut self, line: &[u8]) -> bool
        ensures { MatchBool result (with_line self.old line.now ≡ Some self.new)
            (with_line self.old line.now ≡ None) };
}

/// Reads a text into a state, line by line. A line ends with a line feed, which may be missing at
/// the end of the text.
///
/// # Errors
/// The number of the first line, counted from 1, that the state doesn't take. The state can't be
/// used afterwards.
pub fn read_lines<S: TakesLines>(state: &mut S, text: &[u8]) -> Result<(), usize>
    ensures { MatchResult result
        (λ done. read_lines S.with_line state.old 1 (lines_of text.now) ≡ Ok state.new)
        (λ bad. read_lines S.with_line state.old 1 (lines_of text.now) ≡ Err bad) }
{
    let mut number = 0;
    let mut rest = text;
    while !rest.is_empty() {
        let (line, after) = first_line(rest);
        number += 1;
        rest = after;
        if !state.take_line(line) {
            return Err(number);
        }
    }
    Ok(())
}

/// Returns the first line of a text, without its line feed, and the text after it. The text isn't
/// empty.
pub fn first_line(text: &[u8]) -> (&[u8], &[u8])
    requires { 0 < length text.now }
    ensures lines { lines_of text.now ≡ result.0.now ∷ lines_of result.1.now }
    ensures shorter { length result.1.now < length text.now }
{
    let (line, after) = cut(text, b'\n');
    (line, after.unwrap_or(&[]))
}
