//! The orders of all commands, and their arguments.

use crate::{DeviceOrder, ReadOrder};
use sector_map::Side;
use version_order::{Dependency, Version};

/// The device that the arguments of `make-device` describe.
#[derive(Drop)]
pub struct NewDevice<'a> {
    /// The length of a sector in bytes.
    pub sector_size: u32,
    /// The number of sectors of each of an image's slots, an entry for each image.
    pub sectors: Vec<u32>,
    /// The domain name of the vendor.
    pub vendor: &'a str,
    /// The name of its class.
    pub class: &'a str,
    /// The number of boots of a trial, if it is given: 1 to [`common::limits::MOST_TRIAL_BOOTS`].
    pub trial_boots: Option<u8>,
}

/// The image that the arguments of `make-image` describe.
#[derive(Drop)]
pub struct NewImage {
    /// Its version.
    pub version: Version,
    /// Its security counter, if it is given.
    pub counter: Option<u32>,
    /// Its dependencies, in the order of the arguments.
    pub dependencies: Vec<Dependency>,
    /// Its groups, in the order of the arguments. It needs one dependency of each. None is empty.
    pub groups: Vec<Vec<Dependency>>,
    /// The size of its header in bytes, if it is given.
    pub header_size: Option<u16>,
    /// Its load address, if it is given.
    pub load_address: Option<u32>,
    /// The flags of its header, if they are given.
    pub flags: Option<u32>,
}

/// The image file to make.
#[derive(Clone, Copy)]
pub struct NewFile<'a> {
    /// Its name, which isn't that of standard input.
    pub name: &'a str,
    /// Whether it is replaced even if it isn't an image.
    pub is_forced: bool,
}

/// A file of a manifest.
#[derive(Clone, Copy)]
pub struct NewComponent<'a> {
    /// The number of the image that it is for.
    pub image: u8,
    /// Whether it is requested permanently. Otherwise it is for a test.
    pub permanent: bool,
    /// The name of the file.
    pub file: &'a str,
}

/// The manifest that the arguments of `make-manifest` describe.
#[derive(Drop)]
pub struct NewManifest<'a> {
    /// Its sequence number.
    pub sequence: u32,
    /// The name of the flash file whose running images are the precursors, if it is given.
    pub precursor: Option<&'a str>,
    /// The files: those for a test in the order of the arguments, and then the permanent ones.
    pub components: Vec<NewComponent<'a>>,
    /// Whether the exit status is 1 if there is a note.
    pub is_strict: bool,
}

/// A part of the runs of a sweep, which is shared by several processes.
#[derive(Clone, Copy)]
pub struct SweepPart {
    /// Its number, from 1.
    pub number: u32,
    /// The number of parts, at least `number`.
    pub parts: u32,
}

/// The options of `sweep`.
#[derive(Clone, Copy)]
pub struct SweepChoices<'a> {
    /// Whether each write of the boot after a cut is cut too.
    pub is_twice: bool,
    /// The number of random cuts, if it is given.
    pub sample: Option<u32>,
    /// The seed of the random cuts, if it is given.
    pub seed: Option<u32>,
    /// The part of the runs to make. If `None`, it is all of them.
    pub part: Option<SweepPart>,
    /// The name of the picture to make, if it is given.
    pub picture: Option<&'a str>,
    /// Whether the picture's file is replaced whatever it holds.
    pub is_forced: bool,
}

/// A file whose image is requested of each device of a fleet.
#[derive(Clone, Copy)]
pub struct RequestedFile<'a> {
    /// The number of the image, 0 to 7.
    pub image: u8,
    /// The name of the file, which isn't that of standard input.
    pub file: &'a str,
}

/// An order to plan a fleet, or to add up summaries.
#[derive(Drop)]
pub enum PlanOrder<'a> {
    /// Decides over the table of each device of a fleet.
    Fleet {
        /// The name of the fleet.
        fleet: &'a str,
        /// The images that are requested in place of the requests in the tables.
        requests: Vec<RequestedFile<'a>>,
        /// Whether the results are counted instead of listed.
        is_summary: bool,
    },
    /// `--merge`: adds summaries.
    Merge {
        /// The names of the summaries, in the order of their parts of the fleet.
        summaries: Vec<&'a str>,
    },
}

/// An order: a subcommand, with the names of its files and its options.
#[derive(Drop)]
pub enum Order<'a> {
    /// A command that writes nothing but its answer.
    Read(ReadOrder<'a>),
    /// `plan`: decides for each device of a fleet, or adds summaries.
    Plan(PlanOrder<'a>),
    /// `make-device`: makes a device file.
    MakeDevice {
        /// The device.
        device: NewDevice<'a>,
    },
    /// `make-image`: makes an image.
    MakeImage {
        /// The file of the image.
        image: NewFile<'a>,
        /// The name of the file that holds its body.
        body: &'a str,
        /// The values of the image.
        values: NewImage,
    },
    /// `make-manifest`: makes a manifest.
    MakeManifest {
        /// The name of the device file.
        device: &'a str,
        /// The values of the manifest.
        manifest: NewManifest<'a>,
    },
    /// A command that makes a flash file, or runs a device on one.
    Device(DeviceOrder<'a>),
    /// `extract`: copies an image out of its slot.
    Extract {
        /// The name of the device file.
        device: &'a str,
        /// The name of the flash file.
        flash: &'a str,
        /// The number of the image.
        image: u8,
        /// The side of its slot.
        side: Side,
        /// The file that is made.
        out: NewFile<'a>,
    },
    /// `sweep`: runs a script on a device once for each of its writes, and cuts that write.
    Sweep {
        /// The name of the device file.
        device: &'a str,
        /// The name of the script.
        script: &'a str,
        /// The names of the images that run at the start, in their order.
        images: Vec<&'a str>,
        /// Its options.
        choices: SweepChoices<'a>,
    },
    /// `sweep --merge`: adds up the outputs of sweeps.
    MergeSweeps {
        /// The names of the outputs.
        outputs: Vec<&'a str>,
        /// The name of the picture to make, if it is given.
        picture: Option<&'a str>,
        /// Whether the picture's file is replaced whatever it holds.
        forced: bool,
    },
}

/// An order, and how to answer it.
#[derive(Drop)]
pub struct Request<'a> {
    /// The order.
    pub order: Order<'a>,
    /// Whether to explain the answer (`--explain`).
    pub is_explained: bool,
    /// Whether the answer is to be JSON (`--json`).
    pub is_json: bool,
}
