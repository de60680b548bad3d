//! Reads a line of a script.

ghost use Rattle.std.specs.Prelude.{◌≡◌, IfNone, IfSome};
ghost use Rattle.std.specs.Char.{is_ascii_hexdigit};
ghost use Rattle.std.specs.List.{list_all};
ghost use Rattle.std.specs.Option.{option_map};
ghost use Rattle.machine.specs.Event.{event_map};
ghost use Rattle.device_texts.specs.LineReading.{accept_of, cut_line_of, event_at, hex_of, image_event, piece_of, said_of, torn_of};
ghost use Rattle.device_texts.specs.LineText.{IsLineText};
ghost use Rattle.device_texts.specs.Said.{Said, said, said_file, said_torn};

use crate::line::{FileText, Line, TornText};
use crate::part::PartText;
use crate::words::name;
use common::ascii::{cut, number, number_u8};
use machine::Event;

// The words at the beginning of lines, and the words for what a cut leaves.
const CUT: &[u8] = b"cut";

const KEEP: &[u8] = b"keep";

const DONE: &[u8] = b"done";

const HEX: &[u8] = b"hex";

const ACCEPT: &[u8] = b"accept";

const PIECE: &[u8] = b"piece";

const FINISH: &[u8] = b"finish";

const WITHDRAW: &[u8] = b"withdraw";

const CONFIRM: &[u8] = b"confirm";

const BOOT: &[u8] = b"boot";

const RESET: &[u8] = b"reset";

/// Reads a line of a script. The text has no line feed.
///
/// Returns `None` for a bad line: a text that isn't the text of a valid line.
/// [`LineOrder`](crate::LineOrder) checks whether the line can follow the lines before it.
///
/// # Examples
///
/// ```text
/// let (cut, boot) = (line_of(b"cut 3 keep"), line_of(b"boot"));
/// assert!(rt; matches!(cut, Some(Line::Cut { write: 3, .. })));
/// assert!(rt; matches!(boot, Some(Line::Event(Event::Boot))));
/// // Writes are counted from 1.
/// assert!(rt; line_of(b"cut 0 keep").is_none());
/// ```
pub fn line_of(line: &[u8]) -> Option<Line<'_>>
    ensures says { IfSome result (λ found. IsLineText line.now (said found)) }
    ensures other { IfNone result ((found : Said) → IsLineText line.now found → ⊥) }
{
    read_line(line)
}

// Reads the line of a text.
#[tactic(auto, unfolding(crate::specs::LineReading::said_of))]
fn read_line(line: &[u8]) -> Option<Line<'_>>
    ensures { option_map said result ≡ said_of line.now }
{
    if line == BOOT {
        return Some(Line::Event(Event::Boot));
    }
    if line == RESET {
        return Some(Line::Event(Event::Reset));
    }
    let (word, fields) = cut(line, b' ');
    let fields = fields?;
    if word == CUT {
        cut_line(fields)
    } else {
        Some(Line::Event(event(word, fields)?))
    }
}

// Reads the fields after `cut`.
#[tactic(auto, unfolding(crate::specs::LineReading::cut_line_of))]
fn cut_line(fields: &[u8]) -> Option<Line<'_>>
    ensures { option_map said result ≡ cut_line_of fields.now }
{
    let (write, rest) = cut(fields, b' ');
    let write = number(write)?;
    let torn = torn(rest?)?;
    if write == 0 {
        return None;
    }
    Some(Line::Cut { write, torn })
}

// Reads what a cut leaves.
#[tactic(auto, unfolding(crate::specs::LineReading::torn_of))]
fn torn(word: &[u8]) -> Option<TornText<'_>>
    ensures { option_map said_torn result ≡ torn_of word.now }
{
    if word == KEEP {
        return Some(TornText::Keep);
    }
    if word == DONE {
        return Some(TornText::Done);
    }
    let (kind, digits) = cut(word, b':');
    let digits = digits?;
    if kind == HEX { hex(digits) } else { None }
}

// Reads the digits after `hex:`.
#[tactic(auto, unfolding(crate::specs::LineReading::hex_of))]
fn hex(digits: &[u8]) -> Option<TornText<'_>>
    ensures { option_map said_torn result ≡ hex_of digits.now }
{
    if digits.is_empty() || digits.len() % 2 != 0 || !are_digits(digits) {
        return None;
    }
    Some(TornText::Hex(digits))
}

// Whether each byte is a hex digit, of either case.
fn are_digits(text: &[u8]) -> bool
    ensures { result ≡ list_all is_ascii_hexdigit text.now }
{
    text.iter().all(|byte| byte.is_ascii_hexdigit())
}

// Reads the event that begins with a word, with the fields after it.
#[tactic(auto, unfolding(crate::specs::LineReading::event_at))]
fn event<'a>(word: &[u8], fields: &'a [u8]) -> Option<Event<FileText<'a>>>
    ensures { option_map (event_map said_file) result ≡ event_at word.now fields.now }
{
    if word == ACCEPT {
        accept(fields)
    } else if word == PIECE {
        piece(fields)
    } else {
        event_of_image(word, number_u8(fields)?)
    }
}

// Reads the field after `accept`.
#[tactic(auto, unfolding(crate::specs::LineReading::accept_of))]
fn accept(fields: &[u8]) -> Option<Event<FileText<'_>>>
    ensures { option_map (event_map said_file) result ≡ accept_of fields.now }
{
    let name = name(fields)?;
    Some(Event::Accept(FileText { name, part: None }))
}

// Reads the fields after `piece`.
#[tactic(auto, unfolding(crate::specs::LineReading::piece_of))]
fn piece(fields: &[u8]) -> Option<Event<FileText<'_>>>
    ensures { option_map (event_map said_file) result ≡ piece_of fields.now }
{
    let (image, rest) = cut(fields, b' ');
    let image = number_u8(image)?;
    let (file, rest) = cut(rest?, b' ');
    let name = name(file)?;
    let Some(rest) = rest else {
        return Some(Event::Piece(image, FileText { name, part: None }));
    };
    let part = Some(PartText::read(rest)?);
    Some(Event::Piece(image, FileText { name, part }))
}

// The event of an image that a word names.
fn event_of_image<'a>(word: &[u8], image: u8) -> Option<Event<FileText<'a>>>
    ensures { option_map (event_map said_file) result ≡ image_event word.now image }
{
    if word == FINISH {
        Some(Event::Finish(image))
    } else if word == WITHDRAW {
        Some(Event::Withdraw(image))
    } else if word == CONFIRM {
        Some(Event::Confirm(image))
    } else {
        None
    }
}
