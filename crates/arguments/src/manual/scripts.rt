//! Makes completion scripts.

use crate::manual::asked::Shell;
use crate::manual::text_builder::TextBuilder;
use crate::manual::{bash, fish, zsh};
use command_line::SUBCOMMANDS;

/// The texts of a script around those that are made for the commands.
pub struct Frame {
    /// The start, up to the names of the commands.
    pub start: &'static str,
    /// The text between the names of the commands and their arguments.
    pub middle: &'static str,
    /// The end, after the arguments of the commands.
    pub end: &'static str,
}

/// Adds the script of a shell.
pub fn add_script(script: &mut TextBuilder, shell: Shell) {
    let frame = match shell {
        Shell::Bash => bash::FRAME,
        Shell::Zsh => zsh::FRAME,
        Shell::Fish => fish::FRAME,
    };
    script.add(frame.start);
    match shell {
        Shell::Bash => add_names(script),
        Shell::Zsh => zsh::add_purposes(script),
        Shell::Fish => fish::add_topics(script),
    }
    script.add(frame.middle);
    add_commands(script, shell);
    script.add(frame.end);
}

/// Adds what is completed after each command.
fn add_commands(script: &mut TextBuilder, shell: Shell) {
    for command in &SUBCOMMANDS {
        match shell {
            Shell::Bash => bash::add_command(script, *command),
            Shell::Zsh => zsh::add_command(script, *command),
            Shell::Fish => fish::add_command(script, *command),
        }
    }
}

/// Adds the names of all commands, with a space after each.
pub fn add_names(script: &mut TextBuilder) {
    for command in &SUBCOMMANDS {
        script.add_between("", command.name(), " ");
    }
}
