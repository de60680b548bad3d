//! The completion script for bash.

use crate::manual::listed::{Kind, Listed};
use crate::manual::scripts::Frame;
use crate::manual::text_builder::TextBuilder;
use command_line::{Argument, Subcommand};

/// The script around the names and the arguments of the commands.
pub const FRAME: &Frame = &Frame {
    start: "# Completion of bootswap for bash. Source this file, or install it as
# bash-completion/completions/bootswap.
_bootswap_words() {
    mapfile -t COMPREPLY < <(compgen -W \"$1\" -- \"$current\")
}

_bootswap_files() {
    compopt -o filenames 2> /dev/null
    mapfile -t COMPREPLY < <(compgen -f -- \"$current\")
}

# Counts the words before the current one that are no options and no values of options.
_bootswap_place() {
    local index
    place=1
    for ((index = 2; index < COMP_CWORD; index++)); do
        case \" $files $values \" in
        *\" ${COMP_WORDS[index - 1]} \"*) continue ;;
        esac
        [[ ${COMP_WORDS[index]} == -?* ]] || place=$((place + 1))
    done
}

_bootswap_help() {
    case $COMP_CWORD:$previous in
    2:*) _bootswap_words \"$commands man completions\" ;;
    3:man) _bootswap_words \"$commands\" ;;
    3:completions) _bootswap_words \"bash zsh fish\" ;;
    esac
}

_bootswap() {
    local current=${COMP_WORDS[COMP_CWORD]} previous=${COMP_WORDS[COMP_CWORD - 1]}
    local options=\"\" files=\"\" values=\"\" kinds=\"\" rest=\"\" place
    local commands=\"",
    middle: "\"
    COMPREPLY=()
    if ((COMP_CWORD == 1)); then
        _bootswap_words \"$commands help --help --version\"
        return
    fi
    case ${COMP_WORDS[1]} in
",
    end: "    help)
        _bootswap_help
        return
        ;;
    *) return ;;
    esac
    if [[ $current == \"=\" ]]; then
        current=\"\"
        _bootswap_files
        return
    fi
    case \" = $files \" in
    *\" $previous \"*)
        _bootswap_files
        return
        ;;
    esac
    case \" $values \" in
    *\" $previous \"*) return ;;
    esac
    if [[ $current == -* ]]; then
        _bootswap_words \"$options --help\"
        return
    fi
    _bootswap_place
    kinds=($kinds)
    case ${kinds[place - 1]:-$rest} in
    file) _bootswap_files ;;
    side) _bootswap_words \"primary secondary\" ;;
    esac
}

complete -F _bootswap bootswap
",
};

/// Adds the case of a command.
pub fn add_command(script: &mut TextBuilder, command: Subcommand) {
    let arguments = command.arguments();
    script.add_between("    ", command.name(), ")\n        options=\"");
    add_options(script, arguments, Group::All);
    script.add("\"\n        files=\"");
    add_options(script, arguments, Group::Files);
    script.add("\"\n        values=\"");
    add_options(script, arguments, Group::Others);
    script.add("\"\n        kinds=\"");
    add_places(script, arguments);
    script.add("\"\n        ;;\n");
}

/// Which options are listed.
#[derive(Clone, Copy)]
enum Group {
    /// All.
    All,
    /// Those whose value is the name of a file.
    Files,
    /// Those with another value.
    Others,
}

/// Adds the names of the options of a group, with a space after each.
fn add_options(script: &mut TextBuilder, arguments: &[Argument], group: Group) {
    for argument in arguments {
        add_option(script, &Listed::of(argument), group);
    }
}

/// Adds the names of an option, if it is in the group.
fn add_option(script: &mut TextBuilder, argument: &Listed, group: Group) {
    if is_in(group, argument.kind) {
        script.add_between("--", argument.option, " ");
        script.add_between("--", argument.alias, " ");
    }
}

fn is_in(group: Group, kind: Kind) -> bool {
    match group {
        Group::All => true,
        Group::Files => matches!(kind, Kind::File),
        Group::Others => matches!(kind, Kind::Component | Kind::Other),
    }
}

/// Adds what is completed at each place. If the last may be repeated, `rest` is the same.
fn add_places(script: &mut TextBuilder, arguments: &[Argument]) {
    for argument in arguments {
        let argument = Listed::of(argument);
        if argument.option.is_empty() {
            script.add(word_of(&argument));
        }
    }
}

/// Returns the word of the script for what is completed at a place.
fn word_of(argument: &Listed) -> &'static str {
    if argument.is_repeated {
        return "\" rest=\"file";
    }
    match argument.kind {
        Kind::Other => "number ",
        Kind::Side => "side ",
        _ => "file ",
    }
}
