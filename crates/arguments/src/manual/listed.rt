//! An argument of a command, as manual pages and completion scripts list it.

use crate::manual::rows::named;
use command_line::{Argument, OptionHelp};

/// An argument of a command.
#[derive(Drop)]
pub struct Listed {
    /// The name of an option, without hyphens. It is empty if the place of the argument says what
    /// the argument is.
    pub option: &'static str,
    /// The second name of an option, or empty.
    pub alias: &'static str,
    /// The name of its value in help. It is empty for a flag.
    pub value: &'static str,
    /// What its value is.
    pub kind: Kind,
    /// Whether it may be given more than once.
    pub is_repeated: bool,
    /// Its help.
    pub help: &'static str,
}

/// What the value of an argument is.
#[derive(Clone, Copy)]
pub enum Kind {
    /// There is none.
    Flag,
    /// The name of a file.
    File,
    /// The number of an image, `=` and the name of a file.
    Component,
    /// The side of a slot.
    Side,
    /// Another value, for which shells offer nothing.
    Other,
}

/// What a value is, by its name in help. By other names, the values of options are `Other`, and
/// other arguments are files. If `IMAGE` may be repeated, it is a file too.
const KINDS: &[(&str, Kind)] = &[
    ("FILE", Kind::File),
    ("FLASH", Kind::File),
    ("I=FILE", Kind::Component),
    ("IMAGE", Kind::Other),
    ("SIDE", Kind::Side),
];

impl Listed {
    /// Returns an argument as it is listed.
    pub fn of(argument: &Argument) -> Listed {
        match *argument {
            Argument::File(name, help) => {
                placed(name, named(KINDS, name).unwrap_or(Kind::File), false, help)
            }
            Argument::Files(name, help) => placed(name, Kind::File, true, help),
            Argument::Required(name, help) => option(name, "", help, false),
            Argument::Optional(name, help) => option(name, "", help, false),
            Argument::Aliased(name, alias, help) => option(name, alias, help, false),
            Argument::Repeated(name, help) => option(name, "", help, true),
            Argument::Flag(name, help) => Listed {
                option: name,
                alias: "",
                value: "",
                kind: Kind::Flag,
                is_repeated: false,
                help,
            },
        }
    }
}

/// Returns an argument without a name of its own.
fn placed(value: &'static str, kind: Kind, is_repeated: bool, help: &'static str) -> Listed {
    Listed {
        option: "",
        alias: "",
        value,
        kind,
        is_repeated,
        help,
    }
}

/// Returns an option with a value.
fn option(name: &'static str, alias: &'static str, help: OptionHelp, is_repeated: bool) -> Listed {
    Listed {
        option: name,
        alias,
        value: help.0,
        kind: named(KINDS, help.0).unwrap_or(Kind::Other),
        is_repeated,
        help: help.1,
    }
}
