//! Writes the texts of help as roff, the language of manual pages.
//!
//! In the texts of help a line that begins with a space belongs to a table or to an example, and
//! keeps its line and its spaces. All other lines are paragraphs, which an empty line ends.

use crate::manual::rows::named;
use crate::manual::text_builder::{Escape, TextBuilder};

/// What the last line of a text was.
#[derive(Clone, Copy)]
enum Last {
    /// The title of a section, or there is none.
    Title,
    /// The title of the exit statuses, or a line of a status.
    Status,
    /// A line of a paragraph.
    Paragraph,
    /// An empty line.
    Gap,
    /// A line of a table or an example.
    Block,
}

/// The characters that roff changes. A hyphen is printed as itself, so that options can be copied.
pub const ESCAPES: &[Escape] = &[
    ('\\', "\\e"),
    ('-', "\\-"),
    ('`', "\\(ga"),
    ('\'', "\\(aq"),
    ('^', "\\(ha"),
    ('~', "\\(ti"),
];

/// The lines of help that begin a section, the section, and what its title is.
const SECTIONS: &[(&str, (&str, Last))] = &[
    ("Exit status:", (".SH EXIT STATUS\n", Last::Status)),
    ("Examples:", (".SH EXAMPLES\n", Last::Title)),
    ("Example:", (".SH EXAMPLES\n", Last::Title)),
];

/// Adds a line that roff reads as text. A full stop at its start would make it a request.
pub fn add_line(page: &mut TextBuilder, text: &str) {
    if text.starts_with('.') {
        page.add("\\&");
    }
    page.add_escaped("", text, "\n", ESCAPES);
}

/// Adds a text of paragraphs, blocks and sections at the start of a section.
pub fn add_text(page: &mut TextBuilder, text: &str) {
    let mut last = Last::Title;
    for line in text.lines() {
        last = add_line_after(page, last, line);
    }
    end_block(page, last);
}

/// Adds the next line of a text, and returns what it is.
fn add_line_after(page: &mut TextBuilder, last: Last, line: &str) -> Last {
    if let Some(indented) = line.strip_prefix("  ") {
        return add_indented(page, last, indented);
    }
    end_block(page, last);
    if line.is_empty() {
        return Last::Gap;
    }
    if let Some((section, title)) = named(SECTIONS, line) {
        page.add(section);
        return title;
    }
    if matches!(last, Last::Gap) {
        page.add(".PP\n");
    }
    add_line(page, line);
    Last::Paragraph
}

/// Ends the block, if the last line belongs to one.
fn end_block(page: &mut TextBuilder, last: Last) {
    if matches!(last, Last::Block) {
        page.add(".fi\n.RE\n");
    }
}

/// Adds a line that begins with two spaces, without these: a line of a status or of a block.
fn add_indented(page: &mut TextBuilder, last: Last, line: &str) -> Last {
    match last {
        Last::Status => {
            add_status_line(page, line);
            return Last::Status;
        }
        Last::Block => {}
        Last::Gap => page.add(".sp\n.RS 2\n.nf\n"),
        _ => page.add(".RS 2\n.nf\n"),
    }
    add_line(page, line);
    Last::Block
}

/// Adds a line of the exit statuses: the number of a status and its meaning, or after three spaces
/// more of the meaning.
fn add_status_line(page: &mut TextBuilder, line: &str) {
    if let Some(more) = line.strip_prefix("   ") {
        add_line(page, more);
    } else if let Some((number, meaning)) = line.split_once("  ") {
        page.add_between(".TP 4\n", number, "\n");
        add_line(page, meaning);
    } else {
        add_line(page, line);
    }
}
