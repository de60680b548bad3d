//! The argument for standard input, and a `Display` that makes a text safe to print in one line.

use std::fmt;

/// The argument for standard input.
pub const STANDARD_INPUT: &str = "-";

/// The most bytes that are printed of a text. No file name is longer.
const MOST_PRINTED: usize = 1 << 12;

/// A text that is printed in one line, with each character escaped that could change how a terminal
/// shows the line.
///
/// These characters are escaped as `char::escape_default` does (`\n`, `\u{1b}`, `\u{2028}`,
/// `\u{202e}`):
/// - control characters, line feeds included;
/// - the separators of lines and of paragraphs;
/// - characters that change the direction of the text after them.
///
/// All other characters are printed unchanged.
///
/// If more than 4,096 bytes would be printed, `...` replaces the middle. At most 2,048 bytes are
/// printed before it, and at most 2,048 bytes after it.
#[derive(Clone, Copy)]
pub struct Escaped<'a>(pub &'a str);

impl fmt::Display for Escaped<'_> {
    fn fmt<W: fmt::Write>(&self, f: &mut fmt::Formatter<W>) -> fmt::Result {
        let all = all_printed_bytes(self.0);
        let mut printed = 0usize;
        let mut is_left_out = false;
        for character in self.0.chars() {
            let start = printed;
            printed = printed.saturating_add(printed_bytes(character));
            if all <= MOST_PRINTED
                || printed <= MOST_PRINTED / 2
                || start >= all - MOST_PRINTED / 2
            {
                print(character, f)?;
            } else if !is_left_out {
                is_left_out = true;
                f.write_str("...")?;
            }
        }
        Ok(())
    }
}

/// Returns whether a character is the line separator or the paragraph separator. They end a line
/// and aren't control characters (Unicode Standard Annex #14, class BK).
fn ends_line(character: char) -> bool {
    matches!(character, '\u{2028}'..='\u{2029}')
}

/// Prints a character, escaped if necessary.
fn print<W: fmt::Write>(character: char, f: &mut fmt::Formatter<W>) -> fmt::Result {
    if is_escaped(character) {
        write!(f, "{}", character.escape_default())
    } else {
        f.write_char(character)
    }
}

/// Returns the number of bytes that would be printed of a text if none were left out.
fn all_printed_bytes(text: &str) -> usize {
    let mut all = 0usize;
    for character in text.chars() {
        all = all.saturating_add(printed_bytes(character));
    }
    all
}

/// Returns the number of bytes that are printed of a character.
fn printed_bytes(character: char) -> usize {
    if is_escaped(character) {
        character.escape_default().count()
    } else {
        character.len_utf8()
    }
}

/// Returns whether a character changes how a terminal shows a line.
fn is_escaped(character: char) -> bool {
    character.is_control() || ends_line(character) || turns_direction(character)
}

/// Returns whether a character changes the direction of the text after it: a mark, an embedding, an
/// override, an isolate, or the end of one (Unicode Standard Annex #9, section 2).
fn turns_direction(character: char) -> bool {
    matches!(
        character,
        '\u{61c}' | '\u{200e}'..='\u{200f}' | '\u{202a}'..='\u{202e}' | '\u{2066}'..='\u{2069}'
    )
}
