//! The definitions of commands for `clap`, their help, and the parsing of orders to a device.
//!
//! - Promises: The arguments give an order to a device exactly as `clap` defines it, or another
//!   answer with its reason: a fault in them, which ends with 2, help or the version, or lack of
//!   memory. An order names standard input at most once.
//! - Main calls: `device_request`, `matches_of`
//! - Allocates: to read the arguments and to make texts.
//! - Callers: commands and programs.
//!
//! `device_request` reads only the orders to a device, `provision` and `run`. `Order` is the type of
//! all orders, which a program with more commands reads. This crate names files and opens none.
#![tactic(auto)]

mod argument_help;
mod arguments;
mod code_text;
mod codes;
mod commands;
mod device_orders;
mod error;
pub mod fault_texts;
mod faults;
mod help;
mod matching;
mod orders;
mod read_orders;
mod sizes;
mod standard_input;
mod table_help;

pub use argument_help::OptionHelp;
pub use arguments::Argument;
pub use code_text::{code_list_text, meaning_text};
pub use codes::{Code, CodeGroup, code_groups};
pub use commands::{SUBCOMMANDS, Subcommand, VERSION, named};
pub use device_orders::{DeviceOrder, DeviceRequest, device_request, provision_in, run_in};
pub use error::OrderError;
pub use faults::{fault_of, misuse_error, no_text, program_error, subcommand_error};
pub use help::{Help, PROGRAM};
pub use matching::{
    images_in, is_explained, is_given, is_json, matches_of, name_in, named_in, names_in,
};
pub use orders::{
    NewComponent, NewDevice, NewFile, NewImage, NewManifest, Order, PlanOrder, Request,
    RequestedFile, SweepChoices, SweepPart,
};
pub use read_orders::{ReadOrder, read_order_in};
pub use sizes::size_of;
pub use standard_input::{inputs_with, is_standard_input, standard_inputs};
