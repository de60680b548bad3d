//! The orders of the commands that write nothing but their answer, and their arguments.

ghost use Rattle.std.specs.Prelude.{◌≡◌, nat_lt};
ghost use Rattle.clap.specs.Words.{found_of, rows_of};
ghost use Rattle.command_line.specs.Commands.{name_for};
ghost use Rattle.command_line.specs.Given.{Finds, standard_inputs};
ghost use Rattle.command_line.specs.Orders.{AsksToRead};
ghost use Rattle.command_line.specs.ReadOrders.{names_of, subcommand_for};

use crate::commands::{Subcommand, named};
use crate::matching::name_in;
use crate::standard_input::is_standard_input;
use clap::ArgMatches;

/// An order of a command that only reads.
#[derive(Clone, Copy)]
pub enum ReadOrder<'a> {
    /// `choose`: chooses over a table.
    Choose {
        /// The name of the table.
        table: &'a str,
    },
    /// `check`: checks whether a report is right for a table.
    Check {
        /// The name of the table.
        table: &'a str,
        /// The name of the report.
        report: &'a str,
    },
    /// `image`: describes an image.
    Image {
        /// The name of the image.
        file: &'a str,
    },
    /// `manifest`: describes a manifest for a device.
    Manifest {
        /// The name of the device file.
        device: &'a str,
        /// The name of the manifest.
        file: &'a str,
    },
    /// `show`: describes the state of a flash.
    Show {
        /// The name of the device file.
        device: &'a str,
        /// The name of the flash file.
        flash: &'a str,
    },
    /// `slots`: describes the slots of a flash, and what the next boot would decide.
    Slots {
        /// The name of the device file.
        device: &'a str,
        /// The name of the flash file.
        flash: &'a str,
    },
    /// `codes`: prints the meaning of the codes and names of refusals.
    Codes,
}

impl ReadOrder<'_> {
    /// Returns its subcommand.
    pub fn subcommand(&self) -> Subcommand
        ensures { result ≡ subcommand_for self.now }
    {
        match self {
            ReadOrder::Choose { .. } => Subcommand::Choose,
            ReadOrder::Check { .. } => Subcommand::Check,
            ReadOrder::Image { .. } => Subcommand::Image,
            ReadOrder::Manifest { .. } => Subcommand::Manifest,
            ReadOrder::Show { .. } => Subcommand::Show,
            ReadOrder::Slots { .. } => Subcommand::Slots,
            ReadOrder::Codes => Subcommand::Codes,
        }
    }

    /// Returns whether two of its files are standard input, which can be read only once.
    pub fn reads_standard_input_twice(&self) -> bool
        ensures { result ≡ nat_lt 1 (standard_inputs (names_of self.now)) }
    {
        match self {
            ReadOrder::Choose { .. } | ReadOrder::Image { .. } | ReadOrder::Codes => false,
            ReadOrder::Check {
                table: one,
                report: other,
            }
            | ReadOrder::Manifest {
                device: one,
                file: other,
            }
            | ReadOrder::Show {
                device: one,
                flash: other,
            }
            | ReadOrder::Slots {
                device: one,
                flash: other,
            } => is_standard_input(one) && is_standard_input(other),
        }
    }
}

/// Returns the order of a subcommand with these matches. `None` if the subcommand doesn't only read,
/// or a name is missing.
pub fn read_order_in<'a>(subcommand: Subcommand, names: &ArgMatches<'a>) -> Option<ReadOrder<'a>>
    ensures { Finds (AsksToRead (name_for subcommand) (rows_of (found_of names.now))) result }
{
    let order = match subcommand {
        Subcommand::Choose => ReadOrder::Choose {
            table: name_in(names, named::TABLE)?,
        },
        Subcommand::Check => ReadOrder::Check {
            table: name_in(names, named::TABLE)?,
            report: name_in(names, named::REPORT)?,
        },
        Subcommand::Image => ReadOrder::Image {
            file: name_in(names, named::FILE)?,
        },
        Subcommand::Manifest => ReadOrder::Manifest {
            device: name_in(names, named::DEVICE)?,
            file: name_in(names, named::FILE)?,
        },
        Subcommand::Show => ReadOrder::Show {
            device: name_in(names, named::DEVICE)?,
            flash: name_in(names, named::FLASH)?,
        },
        Subcommand::Slots => ReadOrder::Slots {
            device: name_in(names, named::DEVICE)?,
            flash: name_in(names, named::FLASH)?,
        },
        Subcommand::Codes => ReadOrder::Codes,
        _ => return None,
    };
    Some(order)
}
