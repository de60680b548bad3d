//! The help texts of arguments and options. No line is longer than 80 columns.

/// The help of an option: the name of its value, and its meaning.
#[derive(Clone, Copy)]
pub struct OptionHelp(pub &'static str, pub &'static str);

pub const TABLE_FILE: &str = "The file of the table; `-` is standard input";

pub const REPORT_FILE: &str = "The file of the report; `-` is standard input";

pub const FLEET_FILES: &str = "The file of the fleet, or of summaries; `-` is standard input";

pub const REQUEST: OptionHelp = OptionHelp("I=FILE", "Request FILE as image I of each device");

pub const SUMMARY: &str = "Count the results instead of listing them";

pub const MERGE_SUMMARIES: &str = "Add the summaries in these files";

pub const IMAGE_FILE: &str = "The file of the image; `-` is standard input";

pub const DEVICE_FILE: &str = "The device file; `-` is standard input";

pub const MANIFEST_FILE: &str = "The file of the manifest; `-` is standard input";

pub const NEW_FLASH_FILE: &str = "The flash file to make";

pub const IMAGE_FILES: &str = "The files of the images, in order; `-` is standard input";

pub const IMAGE_NUMBER: &str = "The number of the image, 0 to 7";

pub const SLOT_SIDE: &str = "Its slot: `primary` or `secondary`";

pub const SHOWN_FLASH_FILE: &str = "The flash file; `-` is standard input";

pub const FLASH_FILE: &str = "The flash file, which the device writes";

pub const SCRIPT_FILE: &str = "The file of the script; `-` is standard input";

pub const DURABLE: &str = "Sync each write of a plain file before the next one";

pub const JSON: &str = "Print the answer, or the error, as JSON";

pub const EXPLAIN: &str = "Print the reasons on standard error";

pub const COLOR: OptionHelp = OptionHelp("WHEN", "Color messages: always, never [default: auto]");

pub const SECTOR: OptionHelp = OptionHelp(
    "BYTES",
    "Bytes of a sector, 512 to 131072, such as 4096 or 4k",
);

pub const SLOTS: OptionHelp = OptionHelp("N,N,..", "Sectors of each image's slots, image by image");

pub const VENDOR: OptionHelp = OptionHelp("DOMAIN", "Domain name of the maker");

pub const CLASS: OptionHelp = OptionHelp("NAME", "Name of the class of devices");

pub const TRIAL_BOOTS: OptionHelp = OptionHelp("N", "Boots of a trial, 1 to 7 [default: 1]");

pub const NEW_IMAGE_FILE: &str = "The image file to make";

pub const FORCE: &str = "Replace OUT even if it is no image";

pub const FORCE_FLASH: &str = "Replace FLASH whatever it holds";

pub const FORCE_PICTURE: &str = "Replace the picture's FILE whatever it holds";

pub const BODY_FILE: &str = "The file of the body; `-` is standard input";

pub const VERSION: OptionHelp = OptionHelp("VERSION", "Version of the image, such as 1.4.2+7");

pub const COUNTER: OptionHelp = OptionHelp("N", "Security counter");

pub const NEEDS: OptionHelp = OptionHelp("J VERSION", "It needs image J, in at least this version");

pub const DEPENDENCIES: OptionHelp = OptionHelp("(J, V)", "The same, as imgtool spells it");

pub const NEEDS_ONE: OptionHelp = OptionHelp("J VERSION ..", "It needs one of these 1 to 4 images");

pub const HEADER_SIZE: OptionHelp = OptionHelp(
    "BYTES",
    "Bytes of the header, 32 to 65535 [default: 32]",
);

pub const LOAD_ADDRESS: OptionHelp = OptionHelp("N", "Load address [default: 0]");

pub const FLAGS: OptionHelp = OptionHelp("N", "Sum of the flags 1, 16 and 256 [default: 0]");

pub const SEQUENCE: OptionHelp = OptionHelp("N", "Sequence number, 0 to 4294967295");

pub const PRECURSOR: OptionHelp = OptionHelp("FLASH", "Require the images that run on this flash");

pub const TEST: OptionHelp = OptionHelp("I=FILE", "Request FILE as image I for a test");

pub const PERMANENT: OptionHelp = OptionHelp(
    "I=FILE",
    "Request it permanently; beside --test it may revert",
);

pub const STRICT: &str = "End with status 1 if there is a note";

pub const STRICT_RUN: &str = "End with status 1 if any reply or report refuses something";

pub const SWEPT_FILES: &str = "DEVICE, SCRIPT and IMAGEs, or OUTPUTs; `-` is standard input";

pub const MERGE_OUTPUTS: &str = "Merge the outputs of parts, and run nothing";

pub const TWICE: &str = "Also cut each write of the boot after a cut";

pub const SAMPLE: OptionHelp = OptionHelp(
    "N",
    "Try N random cuts, 0 to 4294967295, instead of all",
);

pub const SEED: OptionHelp = OptionHelp(
    "N",
    "Seed of the random cuts, 0 to 4294967295 [default: 1]",
);

pub const PART: OptionHelp = OptionHelp("K/N", "Make the share K of N of the runs, such as 1/4");

pub const SVG: OptionHelp = OptionHelp("FILE", "The picture to make");
