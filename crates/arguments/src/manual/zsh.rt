//! The completion script for zsh.

use crate::manual::listed::{Kind, Listed};
use crate::manual::scripts::Frame;
use crate::manual::text_builder::{Escape, TextBuilder};
use command_line::{SUBCOMMANDS, Subcommand};

/// The script around the purposes and the arguments of the commands.
pub const FRAME: &Frame = &Frame {
    start: "#compdef bootswap
# Completion of bootswap for zsh. Source this file after `compinit`, or install it as `_bootswap` in
# a folder of $fpath.
_bootswap_help() {
  if (( CURRENT == 2 )); then
    commands+=('man:Print a manual page' 'completions:Print a completion script')
    _describe -t commands command commands
  elif (( CURRENT == 3 )) && [[ $words[2] == man ]]; then
    _describe -t commands command commands
  elif (( CURRENT == 3 )) && [[ $words[2] == completions ]]; then
    compadd bash zsh fish
  fi
}

# Completes the file after the number of an image.
_bootswap_component() {
  compset -P '*='
  _files
}

_bootswap() {
  local -a commands
  commands=(
",
    middle: "  )
  if (( CURRENT == 2 )); then
    commands+=('help:Print help, a manual page or a completion script')
    _describe -t commands command commands
    compadd -- --help --version
    return
  fi
  local command=$words[2]
  shift words
  (( CURRENT-- ))
  case $command in
",
    end: "  (help)
    _bootswap_help ;;
  esac
}

if [[ $funcstack[1] == _bootswap ]]; then
  _bootswap \"$@\"
else
  compdef _bootswap bootswap
fi
",
};

/// How an apostrophe is written between apostrophes.
const APOSTROPHE: Escape = ('\'', "'\\''");

/// How characters are written between apostrophes.
const QUOTED: &[Escape] = &[APOSTROPHE];

/// How characters are written in the help of an option, which `_arguments` reads.
const EXPLAINED: &[Escape] = &[APOSTROPHE, ('[', "\\["), (']', "\\]"), (':', "\\:")];

/// Adds the names and purposes of all commands.
pub fn add_purposes(script: &mut TextBuilder) {
    for command in &SUBCOMMANDS {
        script.add_between("    '", command.name(), ":");
        script.add_escaped("", command.help().about, "'\n", QUOTED);
    }
}

/// Adds the case of a command.
pub fn add_command(script: &mut TextBuilder, command: Subcommand) {
    script.add_between("  (", command.name(), ")\n    _arguments");
    for argument in command.arguments() {
        add_argument(script, &Listed::of(argument));
    }
    script.add(" \\\n      '(- *)'{-h,--help}'[Print help]' ;;\n");
}

/// Adds an argument, by each of its names.
fn add_argument(script: &mut TextBuilder, argument: &Listed) {
    add_named(script, argument, argument.option);
    if !argument.alias.is_empty() {
        add_named(script, argument, argument.alias);
    }
}

/// Adds an argument by one of its names, or by its place if the name is empty.
fn add_named(script: &mut TextBuilder, argument: &Listed, name: &str) {
    script.add(" \\\n      '");
    script.add(if argument.is_repeated { "*" } else { "" });
    script.add_between("--", name, "");
    if !name.is_empty() {
        script.add_escaped("[", argument.help, "]", EXPLAINED);
    }
    script.add_between(":", argument.value, ":");
    script.add(action_of(argument.kind));
}

/// Returns what `_arguments` does to complete a value, and the end of the argument.
fn action_of(kind: Kind) -> &'static str {
    match kind {
        Kind::Flag => "'",
        Kind::File => "_files'",
        Kind::Component => "_bootswap_component'",
        Kind::Side => "(primary secondary)'",
        Kind::Other => " '",
    }
}
