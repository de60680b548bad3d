//! Prints bytes and numbers in notes.

use std::fmt;

/// The largest number of characters to print, or of bytes if they aren't text.
const MOST: usize = 120;

/// Bytes to print in one line, shortened if they are long. Visible ASCII characters are unchanged.
/// Others are escaped: `\n`, `\u{e4}`, or `\xff` if the bytes aren't text.
#[derive(Clone, Copy)]
pub struct Shown<'a>(pub &'a [u8]);

impl fmt::Display for Shown<'_> {
    fn fmt<W: fmt::Write>(&self, f: &mut fmt::Formatter<W>) -> fmt::Result {
        match str::from_utf8(self.0) {
            Ok(text) => write_text(f, text)?,
            Err(_) => write_bytes(f, self.0)?,
        }
        if self.0.len() > MOST {
            f.write_str("..")?;
        }
        Ok(())
    }
}

fn write_text<W: fmt::Write>(f: &mut fmt::Formatter<W>, text: &str) -> fmt::Result {
    for character in text.chars().take(MOST) {
        if matches!(character, ' '..='~') {
            f.write_char(character)?;
        } else {
            write!(f, "{}", character.escape_default())?;
        }
    }
    Ok(())
}

fn write_bytes<W: fmt::Write>(f: &mut fmt::Formatter<W>, bytes: &[u8]) -> fmt::Result {
    for byte in &bytes[..bytes.len().min(MOST)] {
        if matches!(byte, b' '..=b'~') {
            f.write_char(char::from(*byte))?;
        } else {
            write!(f, "\\x{byte:02x}")?;
        }
    }
    Ok(())
}

/// Bytes as hexadecimal digits in lower case.
#[derive(Clone, Copy)]
pub struct Digits<'a>(pub &'a [u8]);

impl fmt::Display for Digits<'_> {
    fn fmt<W: fmt::Write>(&self, f: &mut fmt::Formatter<W>) -> fmt::Result {
        for byte in self.0 {
            write!(f, "{byte:02x}")?;
        }
        Ok(())
    }
}

/// The images of a device or of a table, by their count: `image 0`, `images 0 and 1`, `images 0 to 7`.
#[derive(Clone, Copy)]
pub struct Images(pub usize);

impl fmt::Display for Images {
    fn fmt<W: fmt::Write>(&self, f: &mut fmt::Formatter<W>) -> fmt::Result {
        match self.0 {
            0 => f.write_str("no image"),
            1 => f.write_str("image 0"),
            2 => f.write_str("images 0 and 1"),
            count => {
                let last = count.saturating_sub(1);
                write!(f, "images 0 to {last}")
            }
        }
    }
}
