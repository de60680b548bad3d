//! The texts of faults in the arguments of single commands.

/// The number of an image isn't valid.
pub const NO_IMAGE_NUMBER: &str = "IMAGE is the number of an image, in digits, below 256";

/// The side of a slot isn't valid.
pub const NO_SIDE: &str = "SIDE is `primary` or `secondary`";

/// The sequence number isn't valid.
pub const NO_SEQUENCE: &str = "`--sequence` is a number, in digits, below 4294967296";

/// A file for a test isn't valid.
pub const NO_TEST: &str = "`--test` is the number of an image and its file: 0=a.img";

/// A permanent file isn't valid.
pub const NO_PERMANENT: &str = "`--permanent` is the number of an image and its file: 0=a.img";

/// The arguments name no file, or more files than a device may have images.
pub const NO_COMPONENTS: &str =
    "give one to eight files that may come, by `--test I=FILE` or `--permanent I=FILE`";

/// A file that is requested isn't valid.
pub const NO_REQUEST: &str = "`--request` is the number of an image, 0 to 7, and its file, which \
     can't be standard input: 0=a.img";

/// The arguments name more than one fleet.
pub const SEVERAL_FLEETS: &str = "name one fleet, or add summaries by `--merge`";

/// The arguments give more than summaries for their sum.
pub const NOT_MERGED: &str = "`--merge` adds summaries, so there is no `--request` or `--summary`";

/// The version isn't valid.
pub const NO_VERSION: &str = "`--version` is `major.minor.revision+build`, such as 1.4.2+7, up to \
     255.255.65535+4294967295; last parts may be left out";

/// The security counter isn't a number.
pub const NO_COUNTER: &str = "`--counter` is a number, in digits, below 4294967296";

/// The size of the header isn't valid.
pub const NO_HEADER_SIZE: &str =
    "`--header-size` is a number of bytes, 32 to 65535, such as 512, 0x200 or 1k";

/// The load address isn't valid.
pub const NO_LOAD_ADDRESS: &str =
    "`--load-address` is an address, 0 to 4294967295, such as 131072, 0x20000 or 128k";

/// The flags aren't valid.
pub const NO_FLAGS: &str = "`--flags` is a number, 0 to 4294967295, such as 16 or 0x10";

/// A dependency isn't valid.
pub const NO_NEEDS: &str =
    "`--needs` is the number of an image and a version, in one word: '1 2.0.0'";

/// A dependency in brackets isn't valid.
pub const NO_DEPENDENCIES: &str =
    "`--dependencies` is the number of an image and a version, in brackets: '(1, 2.0.0)'";

/// A group isn't valid.
pub const NO_NEEDS_ONE: &str =
    "`--needs-one` is numbers of images, each with a version, in one word: '1 2.0.0 2 2.0.0'";

/// The size of a sector isn't valid.
pub const NO_SECTOR: &str =
    "`--sector` is a number of bytes, 512 to 131072, such as 4096, 0x1000 or 4k";

/// The slots aren't numbers.
pub const NO_SLOTS: &str =
    "`--slots` are numbers of sectors, one for each image, separated by commas, such as 2,2: the \
     bytes of a slot divided by `--sector`";

/// The number of boots of a trial isn't valid.
pub const NO_TRIAL_BOOTS: &str = "`--trial-boots` is a number from 1 to 7";

/// The number of random cuts isn't valid.
pub const NO_SAMPLE: &str = "`--sample` is a number, in digits, below 4294967296";

/// The seed of the random cuts isn't a number.
pub const NO_SEED: &str = "`--seed` is a number, in digits, below 4294967296";

/// The part of a sweep isn't valid.
pub const NO_PART: &str = "`--part` is the number of a part, `/`, and the number of parts: 1/4";

/// An option of the runs of a sweep is given beside `--merge`.
pub const MERGE_ALONE: &str =
    "`--merge` makes no runs, so it can't be used with --twice, --sample, --seed or --part";

/// The arguments of `sweep` name a device file alone.
pub const NO_SWEPT_SCRIPT: &str =
    "the following required arguments were not provided:\n  <SCRIPT>\n  <IMAGE>...";

/// The arguments of `sweep` name a device file and a script, and no image.
pub const NO_SWEPT_IMAGE: &str =
    "the following required arguments were not provided:\n  <IMAGE>...";

/// The order makes an image on standard input.
pub const IMAGE_WRITTEN: &str = "the image file is made, so it can't be standard input, `-`";

/// The order makes a picture on standard input.
pub const PICTURE_WRITTEN: &str = "the picture is made, so it can't be standard input, `-`";

/// The arguments give no order.
pub const NO_ORDER: &str = "a subcommand is required but one was not provided";
