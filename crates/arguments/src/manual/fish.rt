//! The completion script for fish.

use crate::manual::listed::{Kind, Listed};
use crate::manual::scripts::{Frame, add_names};
use crate::manual::text_builder::{Escape, TextBuilder};
use command_line::Subcommand;

/// The script around the topics of help and the commands.
pub const FRAME: &Frame = &Frame {
    start: "# Completion of bootswap for fish. Source this file, or install it as
# ~/.config/fish/completions/bootswap.fish.
function __bootswap_is -d 'Whether the command is this one'
    set -l words (commandline -opc)
    test (count $words) -ge 2; and test \"$words[2]\" = $argv[1]
end

function __bootswap_at -d 'Whether this place of this command is completed'
    set -l words (string match -v -- '-*' (commandline -opc))
    test (count $words) -eq (math $argv[2] + 1); and test \"$words[2]\" = $argv[1]
end

function __bootswap_topic -d 'Whether the help is of this topic'
    set -l words (commandline -opc)
    __bootswap_at help 2; and test \"$words[3]\" = $argv[1]
end

complete -c bootswap -n __fish_use_subcommand -f -a help \\
    -d 'Print help, a manual page or a completion script'
complete -c bootswap -n __fish_use_subcommand -f -s V -l version -d 'Print version'
complete -c bootswap -f -s h -l help -d 'Print help'
complete -c bootswap -n '__bootswap_is help' -f
complete -c bootswap -n '__bootswap_topic completions' -f -a 'bash zsh fish'
",
    middle: "",
    end: "",
};

/// How an apostrophe is written between apostrophes.
const QUOTED: &[Escape] = &[('\'', "\\'")];

/// Adds what may follow `help` and `help man`.
pub fn add_topics(script: &mut TextBuilder) {
    script.add("complete -c bootswap -n '__bootswap_at help 1' -f -a '");
    add_names(script);
    script.add("man completions'\ncomplete -c bootswap -n '__bootswap_topic man' -f -a '");
    add_names(script);
    script.add("'\n");
}

/// Adds a command with its arguments.
pub fn add_command(script: &mut TextBuilder, command: Subcommand) {
    let name = command.name();
    script.add("complete -c bootswap -n __fish_use_subcommand -f -a ");
    script.add(name);
    script.add_escaped(" -d '", command.help().about, "'\n", QUOTED);
    let mut place = 0usize;
    for argument in command.arguments() {
        place = place.saturating_add(1);
        add_argument(script, name, &Listed::of(argument), place);
    }
}

/// Adds an argument. Those without a name of their own come first, so that `place` is their place.
fn add_argument(script: &mut TextBuilder, command: &str, argument: &Listed, place: usize) {
    if !argument.option.is_empty() {
        return add_option(script, command, argument);
    }
    let offered = match argument.kind {
        Kind::Other => "' -f\n",
        Kind::Side => "' -f -a 'primary secondary'\n",
        _ => return,
    };
    script.add_between("complete -c bootswap -n '__bootswap_at ", command, " ");
    script.add_number(place);
    script.add(offered);
}

/// Adds an option.
fn add_option(script: &mut TextBuilder, command: &str, argument: &Listed) {
    script.add_between("complete -c bootswap -n '__bootswap_is ", command, "'");
    script.add_between(" -l ", argument.option, "");
    script.add_between(" -l ", argument.alias, "");
    script.add(match argument.kind {
        Kind::Flag => "",
        Kind::Other => " -x",
        _ => " -r -F",
    });
    script.add_escaped(" -d '", argument.help, "'\n", QUOTED);
}
