//! Defines the program and its subcommands for `clap`.

ghost use Rattle.std.specs.Prelude.{◌≡◌, IfOk, map};
ghost use Rattle.clap.specs.Words.{app_of, new_app, shape_of};
ghost use Rattle.command_line.specs.Commands.{bootswap, name_for, program, rule_for};
ghost use Rattle.command_line.specs.Commands.{shape_for, with_command};
ghost use Rattle.command_line.specs.Given.{Finds};

use crate::arguments::{Argument, with_arguments};
use crate::codes::INTRODUCTION;
use crate::help::Help;
use crate::{argument_help, help, table_help};
use clap::Command;
use std::alloc::{AllocError, Global};

/// The names of arguments in help, and those of options without their two hyphens.
pub mod named {
    pub const TABLE: &str = "TABLE";

    pub const REPORT: &str = "REPORT";

    pub const FLEET: &str = "FLEET";

    pub const REQUEST: &str = "request";

    pub const SUMMARY: &str = "summary";

    pub const MERGE: &str = "merge";

    pub const FILE: &str = "FILE";

    pub const DEVICE: &str = "DEVICE";

    pub const FLASH: &str = "FLASH";

    pub const IMAGE: &str = "IMAGE";

    pub const SCRIPT: &str = "SCRIPT";

    pub const SECTOR: &str = "sector";

    pub const SLOTS: &str = "slots";

    pub const VENDOR: &str = "vendor";

    pub const CLASS: &str = "class";

    pub const TRIAL_BOOTS: &str = "trial-boots";

    pub const DURABLE: &str = "durable";

    pub const SIDE: &str = "SIDE";

    pub const OUT: &str = "OUT";

    pub const BODY: &str = "BODY";

    pub const VERSION: &str = "version";

    pub const COUNTER: &str = "counter";

    pub const SECURITY_COUNTER: &str = "security-counter";

    pub const NEEDS: &str = "needs";

    pub const NEEDS_ONE: &str = "needs-one";

    pub const HEADER_SIZE: &str = "header-size";

    pub const LOAD_ADDRESS: &str = "load-address";

    pub const LOAD_ADDR: &str = "load-addr";

    pub const FLAGS: &str = "flags";

    pub const SEQUENCE: &str = "sequence";

    pub const PRECURSOR: &str = "precursor";

    pub const TEST: &str = "test";

    pub const PERMANENT: &str = "permanent";

    pub const TWICE: &str = "twice";

    pub const SAMPLE: &str = "sample";

    pub const SEED: &str = "seed";

    pub const SVG: &str = "svg";

    pub const PART: &str = "part";

    pub const JSON: &str = "json";

    pub const EXPLAIN: &str = "explain";

    pub const COLOR: &str = "color";

    pub const FORCE: &str = "force";

    pub const STRICT: &str = "strict";

    pub const DEPENDENCIES: &str = "dependencies";
}

/// An option that each subcommand has.
const EXPLAIN: Argument = Argument::Flag(named::EXPLAIN, argument_help::EXPLAIN);

/// The other option that each subcommand has.
const COLOR: Argument = Argument::Optional(named::COLOR, argument_help::COLOR);

/// The option that each subcommand has whose answer can be JSON.
const JSON: Argument = Argument::Flag(named::JSON, argument_help::JSON);

/// The option that each subcommand has that makes an image file.
const FORCE: Argument = Argument::Flag(named::FORCE, argument_help::FORCE);

/// The definition of a subcommand.
struct Definition {
    /// Its name.
    name: &'static str,
    /// Its name in its usage line.
    usage_name: &'static str,
    /// Its arguments, in the order of its help.
    arguments: &'static [Argument],
}

const CHOOSE: &Definition = &Definition {
    name: "choose",
    usage_name: "bootswap choose",
    arguments: &[
        Argument::File(named::TABLE, argument_help::TABLE_FILE),
        JSON,
        EXPLAIN,
        COLOR,
    ],
};

const CHECK: &Definition = &Definition {
    name: "check",
    usage_name: "bootswap check",
    arguments: &[
        Argument::File(named::TABLE, argument_help::TABLE_FILE),
        Argument::File(named::REPORT, argument_help::REPORT_FILE),
        JSON,
        EXPLAIN,
        COLOR,
    ],
};

const PLAN: &Definition = &Definition {
    name: "plan",
    usage_name: "bootswap plan",
    arguments: &[
        Argument::Files(named::FLEET, argument_help::FLEET_FILES),
        Argument::Repeated(named::REQUEST, argument_help::REQUEST),
        Argument::Flag(named::SUMMARY, argument_help::SUMMARY),
        Argument::Flag(named::MERGE, argument_help::MERGE_SUMMARIES),
        JSON,
        EXPLAIN,
        COLOR,
    ],
};

const IMAGE: &Definition = &Definition {
    name: "image",
    usage_name: "bootswap image",
    arguments: &[
        Argument::File(named::FILE, argument_help::IMAGE_FILE),
        JSON,
        EXPLAIN,
        COLOR,
    ],
};

const MANIFEST: &Definition = &Definition {
    name: "manifest",
    usage_name: "bootswap manifest",
    arguments: &[
        Argument::File(named::DEVICE, argument_help::DEVICE_FILE),
        Argument::File(named::FILE, argument_help::MANIFEST_FILE),
        JSON,
        EXPLAIN,
        COLOR,
    ],
};

const MAKE_DEVICE: &Definition = &Definition {
    name: "make-device",
    usage_name: "bootswap make-device",
    arguments: &[
        Argument::Required(named::SECTOR, argument_help::SECTOR),
        Argument::Required(named::SLOTS, argument_help::SLOTS),
        Argument::Required(named::VENDOR, argument_help::VENDOR),
        Argument::Required(named::CLASS, argument_help::CLASS),
        Argument::Optional(named::TRIAL_BOOTS, argument_help::TRIAL_BOOTS),
        EXPLAIN,
        COLOR,
    ],
};

const MAKE_IMAGE: &Definition = &Definition {
    name: "make-image",
    usage_name: "bootswap make-image",
    arguments: &[
        Argument::File(named::OUT, argument_help::NEW_IMAGE_FILE),
        Argument::File(named::BODY, argument_help::BODY_FILE),
        Argument::Required(named::VERSION, argument_help::VERSION),
        Argument::Aliased(
            named::COUNTER,
            named::SECURITY_COUNTER,
            argument_help::COUNTER,
        ),
        Argument::Repeated(named::NEEDS, argument_help::NEEDS),
        Argument::Repeated(named::DEPENDENCIES, argument_help::DEPENDENCIES),
        Argument::Repeated(named::NEEDS_ONE, argument_help::NEEDS_ONE),
        Argument::Optional(named::HEADER_SIZE, argument_help::HEADER_SIZE),
        Argument::Aliased(
            named::LOAD_ADDRESS,
            named::LOAD_ADDR,
            argument_help::LOAD_ADDRESS,
        ),
        Argument::Optional(named::FLAGS, argument_help::FLAGS),
        FORCE,
        EXPLAIN,
        COLOR,
    ],
};

const MAKE_MANIFEST: &Definition = &Definition {
    name: "make-manifest",
    usage_name: "bootswap make-manifest",
    arguments: &[
        Argument::File(named::DEVICE, argument_help::DEVICE_FILE),
        Argument::Required(named::SEQUENCE, argument_help::SEQUENCE),
        Argument::Optional(named::PRECURSOR, argument_help::PRECURSOR),
        Argument::Repeated(named::TEST, argument_help::TEST),
        Argument::Repeated(named::PERMANENT, argument_help::PERMANENT),
        Argument::Flag(named::STRICT, argument_help::STRICT),
        EXPLAIN,
        COLOR,
    ],
};

const PROVISION: &Definition = &Definition {
    name: "provision",
    usage_name: "bootswap provision",
    arguments: &[
        Argument::File(named::DEVICE, argument_help::DEVICE_FILE),
        Argument::File(named::FLASH, argument_help::NEW_FLASH_FILE),
        Argument::Files(named::IMAGE, argument_help::IMAGE_FILES),
        Argument::Flag(named::FORCE, argument_help::FORCE_FLASH),
        EXPLAIN,
        COLOR,
    ],
};

const EXTRACT: &Definition = &Definition {
    name: "extract",
    usage_name: "bootswap extract",
    arguments: &[
        Argument::File(named::DEVICE, argument_help::DEVICE_FILE),
        Argument::File(named::FLASH, argument_help::SHOWN_FLASH_FILE),
        Argument::File(named::IMAGE, argument_help::IMAGE_NUMBER),
        Argument::File(named::SIDE, argument_help::SLOT_SIDE),
        Argument::File(named::OUT, argument_help::NEW_IMAGE_FILE),
        FORCE,
        EXPLAIN,
        COLOR,
    ],
};

const SHOW: &Definition = &Definition {
    name: "show",
    usage_name: "bootswap show",
    arguments: &[
        Argument::File(named::DEVICE, argument_help::DEVICE_FILE),
        Argument::File(named::FLASH, argument_help::SHOWN_FLASH_FILE),
        JSON,
        EXPLAIN,
        COLOR,
    ],
};

const SLOTS: &Definition = &Definition {
    name: "slots",
    usage_name: "bootswap slots",
    arguments: &[
        Argument::File(named::DEVICE, argument_help::DEVICE_FILE),
        Argument::File(named::FLASH, argument_help::SHOWN_FLASH_FILE),
        JSON,
        EXPLAIN,
        COLOR,
    ],
};

const RUN: &Definition = &Definition {
    name: "run",
    usage_name: "bootswap run",
    arguments: &[
        Argument::File(named::DEVICE, argument_help::DEVICE_FILE),
        Argument::File(named::FLASH, argument_help::FLASH_FILE),
        Argument::File(named::SCRIPT, argument_help::SCRIPT_FILE),
        Argument::Flag(named::DURABLE, argument_help::DURABLE),
        Argument::Flag(named::STRICT, argument_help::STRICT_RUN),
        JSON,
        EXPLAIN,
        COLOR,
    ],
};

const SWEEP: &Definition = &Definition {
    name: "sweep",
    usage_name: "bootswap sweep",
    arguments: &[
        Argument::Files(named::FILE, argument_help::SWEPT_FILES),
        Argument::Flag(named::MERGE, argument_help::MERGE_OUTPUTS),
        Argument::Flag(named::TWICE, argument_help::TWICE),
        Argument::Optional(named::SAMPLE, argument_help::SAMPLE),
        Argument::Optional(named::SEED, argument_help::SEED),
        Argument::Optional(named::PART, argument_help::PART),
        Argument::Optional(named::SVG, argument_help::SVG),
        Argument::Flag(named::FORCE, argument_help::FORCE_PICTURE),
        JSON,
        EXPLAIN,
        COLOR,
    ],
};

const CODES: &Definition = &Definition {
    name: "codes",
    usage_name: "bootswap codes",
    arguments: &[JSON, EXPLAIN, COLOR],
};

/// A subcommand of the program.
#[derive(Clone, Copy)]
pub enum Subcommand {
    Choose,
    Check,
    Plan,
    Image,
    Manifest,
    MakeDevice,
    MakeImage,
    MakeManifest,
    Provision,
    Extract,
    Show,
    Slots,
    Run,
    Sweep,
    Codes,
}

/// The subcommands, in the order of the help.
pub const SUBCOMMANDS: [Subcommand; 15] = [
    Subcommand::Choose,
    Subcommand::Check,
    Subcommand::Plan,
    Subcommand::Image,
    Subcommand::Manifest,
    Subcommand::MakeDevice,
    Subcommand::MakeImage,
    Subcommand::MakeManifest,
    Subcommand::Provision,
    Subcommand::Extract,
    Subcommand::Show,
    Subcommand::Slots,
    Subcommand::Run,
    Subcommand::Sweep,
    Subcommand::Codes,
];

/// The version of the program, as in `include/bootswap.h`.
pub const VERSION: &str = "2.0.0";

/// The version and the commit, as `--version` prints them. Zeros mean that the commit is unknown. The
/// build writes the first twelve digits of the commit over them in the linked program, and a `+` over
/// the blank if the crates differ from the commit. So this text must occur nowhere else.
const VERSION_AND_COMMIT: &str = "2.0.0 (000000000000)";

/// Returns the program with its subcommands. `list` is the long help of `codes`.
pub fn bootswap<'a>(alloc: Global, list: &'a str) -> Result<Command<'a>, AllocError>
    ensures { IfOk result (λ command. app_of command ≡ bootswap) }
{
    let mut program = program(alloc)?;
    for subcommand in &SUBCOMMANDS {
        program = with_command(alloc, program, *subcommand, list)?;
    }
    Ok(program)
}

/// Returns the program without its subcommands. `clap` requires one of them.
fn program<'a>(alloc: Global) -> Result<Command<'a>, AllocError>
    ensures { IfOk result (λ command. app_of command ≡ program) }
{
    let long_about: &'a str = help::PROGRAM.long_about;
    let command = new_command(alloc, "bootswap", help::PROGRAM, long_about)
        .version(VERSION_AND_COMMIT)
        .subcommand_required(true);
    command.bin_name("bootswap")
}

/// Adds a subcommand to the program.
fn with_command<'a>(
    alloc: Global,
    program: Command<'a>,
    subcommand: Subcommand,
    list: &'a str,
) -> Result<Command<'a>, AllocError>
    ensures { IfOk result (λ more. app_of more ≡ with_command (app_of program.entry) subcommand) }
{
    program.subcommand(subcommand.command(alloc, list)?)
}

impl Subcommand {
    /// Returns the subcommand of this name.
    pub fn of_name(name: &str) -> Option<Subcommand>
        ensures { Finds (λ one. name.now ≡ name_for one) result }
    {
        for subcommand in &SUBCOMMANDS {
            if subcommand.name() == name {
                return Some(*subcommand);
            }
        }
        None
    }

    /// Returns the subcommand as `clap` defines it. `list` is the long help of `codes`.
    pub(crate) fn command<'a>(self, alloc: Global, list: &'a str) -> Result<Command<'a>, AllocError>
        ensures { IfOk result (λ command. shape_of command ≡ shape_for self) }
    {
        let definition = self.definition();
        let name: &'a str = definition.name;
        let command = new_command(alloc, name, self.help(), self.long_about(list));
        with_arguments(alloc, command, definition.arguments)
    }

    /// Returns the subcommand for an error, with its name in its usage line. The help of `codes` has no
    /// list.
    pub(crate) fn named_command<'a>(self, alloc: Global) -> Result<Command<'a>, AllocError> {
        self.command(alloc, INTRODUCTION)?
            .bin_name(self.usage_name())
    }

    /// Returns its definition.
    fn definition(self) -> &'static Definition
        ensures name { result.now.name.now ≡ name_for self }
        ensures arguments { map rule_for result.now.arguments.now ≡ (shape_for self).rules }
    {
        match self {
            Subcommand::Choose => CHOOSE,
            Subcommand::Check => CHECK,
            Subcommand::Plan => PLAN,
            Subcommand::Image => IMAGE,
            Subcommand::Manifest => MANIFEST,
            Subcommand::MakeDevice => MAKE_DEVICE,
            Subcommand::MakeImage => MAKE_IMAGE,
            Subcommand::MakeManifest => MAKE_MANIFEST,
            Subcommand::Provision => PROVISION,
            Subcommand::Extract => EXTRACT,
            Subcommand::Show => SHOW,
            Subcommand::Slots => SLOTS,
            Subcommand::Run => RUN,
            Subcommand::Sweep => SWEEP,
            Subcommand::Codes => CODES,
        }
    }

    /// Returns its help.
    pub fn help(self) -> &'static Help {
        match self {
            Subcommand::Choose => table_help::CHOOSE,
            Subcommand::Check => table_help::CHECK,
            Subcommand::Plan => table_help::PLAN,
            Subcommand::Image => help::IMAGE,
            Subcommand::Manifest => help::MANIFEST,
            Subcommand::MakeDevice => help::MAKE_DEVICE,
            Subcommand::MakeImage => help::MAKE_IMAGE,
            Subcommand::MakeManifest => help::MAKE_MANIFEST,
            Subcommand::Provision => help::PROVISION,
            Subcommand::Extract => help::EXTRACT,
            Subcommand::Show => help::SHOW,
            Subcommand::Slots => help::SLOTS,
            Subcommand::Run => help::RUN,
            Subcommand::Sweep => help::SWEEP,
            Subcommand::Codes => help::CODES,
        }
    }

    /// Returns its long help: its purpose, and the form of its files and its answer. That of `codes` is
    /// `list`.
    pub fn long_about<'a>(self, list: &'a str) -> &'a str {
        match self {
            Subcommand::Codes => list,
            _ => self.help().long_about,
        }
    }

    /// Returns its name.
    pub fn name(self) -> &'static str
        ensures { result.now ≡ name_for self }
    {
        self.definition().name
    }

    /// Returns its arguments, in the order of its help.
    pub fn arguments(self) -> &'static [Argument] {
        self.definition().arguments
    }

    /// Returns its name in its usage line.
    fn usage_name(self) -> &'static str {
        self.definition().usage_name
    }
}

/// Returns a command with its help and without arguments.
fn new_command<'a>(alloc: Global, name: &'a str, help: &Help, long_about: &'a str) -> Command<'a>
    ensures { app_of result ≡ new_app name.entry.now }
{
    Command::new(alloc, name)
        .override_usage(help.usage)
        .about(help.about)
        .long_about(long_about)
        .after_help(help.after)
        .after_long_help(help.long_after)
}
