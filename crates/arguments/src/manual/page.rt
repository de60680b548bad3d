//! Makes the manual pages `bootswap(1)` and `bootswap-COMMAND(1)`.

use crate::manual::listed::Listed;
use crate::manual::roff::{ESCAPES, add_line, add_text};
use crate::manual::text_builder::TextBuilder;
use command_line::{Help, PROGRAM, SUBCOMMANDS, Subcommand, VERSION};

/// The section of the manual, and the day of the release. A page has this date, so that each build
/// makes the same page.
const EDITION: &str = " 1 2026-11-30 \"bootswap ";

/// The option for help, which `clap` adds to each command.
const HELP_OPTION: &str = ".TP\n\\fB\\-h\\fR, \\fB\\-\\-help\\fR\nPrint help\n";

/// The option for the version, which `clap` adds to the program.
const VERSION_OPTION: &str = ".TP\n\\fB\\-V\\fR, \\fB\\-\\-version\\fR\nPrint version\n";

/// Adds the page of the program.
pub fn add_program_page(page: &mut TextBuilder) {
    let help = PROGRAM;
    add_head(page, "", "", help);
    add_text(page, help.long_about);
    add_commands(page);
    page.add(".SH OPTIONS\n");
    page.add(HELP_OPTION);
    page.add(VERSION_OPTION);
    add_text(page, help.long_after);
    add_command_pages(page);
}

/// Adds the page of a command. `list` is the long help of `codes`.
pub fn add_command_page(page: &mut TextBuilder, command: Subcommand, list: &str) {
    let help = command.help();
    add_head(page, "-", command.name(), help);
    add_text(page, command.long_about(list));
    page.add(".SH OPTIONS\n");
    for argument in command.arguments() {
        add_argument(page, &Listed::of(argument));
    }
    page.add(HELP_OPTION);
    add_text(page, help.long_after);
    page.add(".SH SEE ALSO\n.BR bootswap (1),\n.BR bootswap\\-formats (5)\n");
}

/// Adds the title of a page, its name, the usage and the title of the description. `hyphen` and
/// `command` are empty on the page of the program.
fn add_head(page: &mut TextBuilder, hyphen: &str, command: &str, help: &Help) {
    page.add(".TH BOOTSWAP");
    page.add_escaped("", hyphen, "", ESCAPES);
    add_uppercase(page, command);
    // Words stay whole and lines unstretched, so that what is printed can be found and copied.
    page.add_between(EDITION, VERSION, "\"\n.nh\n.ad l\n.SH NAME\nbootswap");
    page.add_escaped("", hyphen, "", ESCAPES);
    page.add_escaped("", command, "", ESCAPES);
    page.add_escaped(" \\- ", help.about, "\n", ESCAPES);
    page.add_escaped(".SH SYNOPSIS\n.nf\n", help.usage, "\n.fi\n", ESCAPES);
    page.add(".SH DESCRIPTION\n");
}

/// Adds a text in capital letters.
fn add_uppercase(page: &mut TextBuilder, text: &str) {
    for character in text.chars() {
        page.add_character(character.to_ascii_uppercase(), ESCAPES);
    }
}

/// Adds all commands with their purposes.
fn add_commands(page: &mut TextBuilder) {
    page.add(".SH COMMANDS\n");
    for command in &SUBCOMMANDS {
        page.add_escaped(".TP\n.B ", command.name(), "\n", ESCAPES);
        add_line(page, command.help().about);
    }
}

/// Adds an argument with its help.
fn add_argument(page: &mut TextBuilder, argument: &Listed) {
    page.add(".TP\n");
    page.add_escaped("\\fB\\-\\-", argument.option, "\\fR", ESCAPES);
    page.add_escaped(", \\fB\\-\\-", argument.alias, "\\fR", ESCAPES);
    if !argument.option.is_empty() && !argument.value.is_empty() {
        page.add(" ");
    }
    page.add_escaped("\\fI", argument.value, "\\fR", ESCAPES);
    page.add(if argument.is_repeated { " ...\n" } else { "\n" });
    add_line(page, argument.help);
}

/// Adds the names of the pages of all commands, of the library and of the formats.
fn add_command_pages(page: &mut TextBuilder) {
    page.add(".SH SEE ALSO\n");
    let mut before = ".BR bootswap\\-";
    for command in &SUBCOMMANDS {
        page.add_escaped(before, command.name(), " (1)", ESCAPES);
        before = ",\n.BR bootswap\\-";
    }
    page.add(",\n.BR libbootswap (3),\n.BR bootswap\\-formats (5)\n");
}
