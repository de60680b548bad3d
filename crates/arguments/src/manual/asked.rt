//! Reads which page or script the arguments ask for.
ghost use Rattle.std.specs.Prelude.{◌≡◌, is_some, map};
ghost use Rattle.arguments.specs.Asked.{asks_here, is_topic};

use crate::manual::rows::named;
use command_line::Subcommand;
use std::convert::AsStr;

/// A shell for which there is a completion script.
#[derive(Clone, Copy)]
pub enum Shell {
    Bash,
    Zsh,
    Fish,
}

/// The shells by their names.
const SHELLS: &[(&str, Shell)] = &[
    ("bash", Shell::Bash),
    ("zsh", Shell::Zsh),
    ("fish", Shell::Fish),
];

/// What `help` prints besides the help of commands.
#[derive(Clone, Copy)]
pub enum Topic {
    /// The names of what `help` prints.
    List,
    /// The page of the program.
    ProgramPage,
    /// The page of a command.
    CommandPage(Subcommand),
    /// A completion script.
    Script(Shell),
}

/// What arguments ask for that begin with `help man` or `help completions`, or are `help help`.
#[derive(Clone, Copy)]
pub enum Asked<'a> {
    /// A topic that there is.
    Known(Topic),
    /// A command or a shell that there isn't, or a word after a shell.
    Unknown(&'a str),
    /// A word after a command.
    TooMany(Subcommand, &'a str),
    /// The script of a shell that isn't named.
    NoShell,
}

/// Returns what the arguments ask for, or `None` unless they begin with `help man` or
/// `help completions`, or are `help help`. The first of `words` is the program's own name.
pub fn asked_in<'a, S: AsStr>(words: &'a [S]) -> Option<Asked<'a>>
    ensures { is_some result ≡ asks_here (map S.text words.entry.now) }
{
    let [_, help, topic, names @ ..] = words else {
        return None;
    };
    if help.as_str() == "help" {
        topic_in(topic.as_str(), names)
    } else {
        None
    }
}

/// Returns what this topic of `help`, with these names after it, asks for.
fn topic_in<'a, S: AsStr>(topic: &str, names: &'a [S]) -> Option<Asked<'a>>
    ensures { is_some result ≡ is_topic topic.now (map S.text names.entry.now) }
{
    if topic == "man" {
        Some(page_in(names))
    } else if topic == "completions" {
        Some(script_in(names))
    } else if topic == "help" && names.is_empty() {
        Some(Asked::Known(Topic::List))
    } else {
        None
    }
}

/// Returns the page that these names ask for.
fn page_in<'a, S: AsStr>(names: &'a [S]) -> Asked<'a> {
    let [name, others @ ..] = names else {
        return Asked::Known(Topic::ProgramPage);
    };
    let Some(command) = Subcommand::of_name(name.as_str()) else {
        return Asked::Unknown(name.as_str());
    };
    match others.first() {
        Some(other) => Asked::TooMany(command, other.as_str()),
        None => Asked::Known(Topic::CommandPage(command)),
    }
}

/// Returns the script that these names ask for.
fn script_in<'a, S: AsStr>(names: &'a [S]) -> Asked<'a> {
    let [name, others @ ..] = names else {
        return Asked::NoShell;
    };
    let Some(shell) = named(SHELLS, name.as_str()) else {
        return Asked::Unknown(name.as_str());
    };
    match others.first() {
        Some(other) => Asked::Unknown(other.as_str()),
        None => Asked::Known(Topic::Script(shell)),
    }
}
