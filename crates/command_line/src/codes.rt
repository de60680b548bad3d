//! The meaning of each code and name of a refusal, in groups. `code_text` writes them.

ghost use Rattle.std.specs.Prelude.{◌≡◌, map};
ghost use Rattle.command_line.specs.CodeList.{code_groups, group_of};

/// The code of a refusal, its name, and the lines of its meaning, of at most 54 characters. A reason
/// of a report has no code. A tuple, since a clause can't name a constant of a struct with texts.
pub type Code = (Option<u8>, &'static str, &'static [&'static str]);

/// What one layer refuses.
#[derive(Clone, Copy)]
pub struct CodeGroup {
    /// What is refused.
    pub title: &'static str,
    /// Its codes, in order.
    pub codes: &'static [Code],
}

/// The line before the groups.
pub const INTRODUCTION: &str = "A refusal has a code and a name. Their meaning:";

/// Makes the title of a group and its codes.
macro_rules! codes {
    ($title:literal; $($code:literal $name:literal $($line:literal)+;)+) => {
        ($title, &[$((Some($code), $name, &[$($line),+])),+])
    };
}

/// Makes the title of a group and its reasons.
macro_rules! reasons {
    ($title:literal; $($name:literal $($line:literal)+;)+) => {
        ($title, &[$((None, $name, &[$($line),+])),+])
    };
}

/// The checks of an image.
pub const IMAGE: (&str, &[Code]) = codes! {
    "An image, also after `NotAnImage`";
    1 "Short" "there are fewer than 32 bytes";
    2 "BadMagic" "the header's magic number is another";
    3 "BadHeaderSize" "the header's length is below 32";
    4 "UnsupportedFlags" "a flag is set that isn't accepted";
    5 "Truncated" "the bytes end before a part does";
    6 "BadTlvMagic" "an area begins with another magic number";
    7 "BadTlvSize" "an area's total isn't the header's, is below 4, or"
        "isn't filled by its entries";
    8 "NoDigest" "there is no digest entry";
    9 "TwoDigests" "there are two or more";
    10 "BadDigest" "the digest entry isn't the SHA-256, or isn't 32 bytes"
        "long";
    11 "BadDependency" "a dependency isn't 12 bytes long, or a group isn't 12,"
        "24, 36 or 48, or one of the three bytes of a"
        "dependency or an alternative isn't 0";
    12 "TooManyDependencies" "there are more than 16";
    13 "TrailingBytes" "bytes follow the image";
    14 "BadCounter" "a counter isn't 4 bytes long, or there are two";
    15 "TooManyGroups" "there are more than 4 groups";
};

/// Why no image is made of given values.
pub const NEW_IMAGE: (&str, &[Code]) = codes! {
    "The values of `make-image`, of which 6 is checked before 4";
    1 "BadHeaderSize" "the length of the header is below 32";
    2 "UnsupportedFlags" "a flag other than 0x1, 0x10 and 0x100 is set";
    3 "TooManyDependencies" "there are more than 16 dependencies";
    4 "TooBig" "the body has 2^32 bytes or more";
    5 "NoMemory" "memory ran out, which is `error: memory`";
    6 "BadGroups" "there are more than 4 groups, or one has more than 4"
        "alternatives";
};

/// Why the sizes of a device make no map.
pub const SIZES: (&str, &[Code]) = codes! {
    "The sizes of a device, `refused map`";
    1 "BadSector" "the bytes of a sector aren't a multiple of 64 from 512"
        "to 131072";
    2 "BadCount" "there are no images or more than 8, or one has no"
        "sectors";
    3 "TrailerFull" "an image has so many sectors n that its trailer"
        "doesn't fit into one: 24 n + 56 is more than its bytes";
    4 "TooLarge" "there are more than 4294967295 bytes in all";
};

/// Why a device refuses a call.
pub const DEVICE: (&str, &[Code]) = codes! {
    "A device, `refused boot`";
    1 "NotBooted" "the device isn't booted";
    2 "OnTrial" "an upload or a withdrawal while a set is on trial";
    3 "NotOnTrial" "a confirmation of an image that isn't in a set on"
        "trial";
    4 "NotProvisioned" "the log has no state";
    5 "RunningDamaged" "a running image isn't intact, or, during an upgrade,"
        "an image of its set; reports the lowest such image";
    6 "InvalidSet" "a dependency of a running image isn't met, or the set"
        "of an upgrade isn't the one that would be chosen";
    7 "Flash" "the flash stopped the call";
    8 "NoMemory" "memory ran out, while the text of a manifest was read";
    9 "Manifest" "the text is no manifest for this device; the refusal"
        "follows";
    10 "Upload" "the upload is refused; the refusal follows";
};

/// Why a text is no manifest.
pub const MANIFEST: (&str, &[Code]) = codes! {
    "A manifest, `refused manifest`, and of the command `manifest`";
    1 "NotJson" "the bytes are not the JSON text of a value";
    2 "BadKey" "the value isn't an object with exactly the keys of a"
        "manifest; or `components` is a list, and an object in"
        "it lacks a needed key or has one that isn't known";
    3 "BadValue" "the value of a key isn't what the tables say";
    4 "WrongVendor" "`vendor-id` isn't the device's";
    5 "WrongClass" "`class-id` isn't the device's";
    6 "NoComponent" "a `component-id` isn't below the number of the"
        "device's images";
    7 "RepeatedComponent" "two components have the same `component-id`";
    8 "NoMemory" "memory ran out; no property of the value";
};

/// Why an upload is refused.
pub const UPLOAD: (&str, &[Code]) = codes! {
    "An upload, `refused upload`";
    1 "OldSequence" "the manifest's sequence number is below the one in the"
        "log";
    2 "TooBig" "a file is longer than its slot";
    3 "NoSession" "no upload of the image is open, or there is no such"
        "image";
    4 "TooMuch" "more bytes came than the manifest said";
    5 "SizeWrong" "fewer bytes came than the manifest said";
    6 "DigestWrong" "their SHA-256 isn't the manifest's";
    7 "NotAnImage" "they are no intact image; the number of the first"
        "check that fails follows";
    8 "WrongPrecursor" "the image that runs isn't the one that the manifest"
        "asks for";
    9 "NothingRequested" "no request is pending for the image, or there is no"
        "such image";
    10 "Flash" "the flash stopped the call";
    11 "NoMemory" "no call answers it: none allocates";
};

/// Why a report refuses a request.
pub const REQUEST: (&str, &[Code]) = reasons! {
    "A request, `refuse I REASON` of a report";
    "damaged" "the request's bytes are no intact image";
    "older" "its version is below the running one";
    "counter" "its security counter is below the floor";
    "no-such-image J" "it depends on image J, and the device has no such"
        "image";
    "needs J VERSION" "it depends on image J with at least this version,"
        "image J exists, and its best version is below that";
    "needs-one J VERSION .." "it has this group, and of each of its pairs image J"
        "doesn't exist or has a best version below that";
};

/// Returns the groups of refusals.
pub fn code_groups() -> [CodeGroup; 7]
    ensures { map group_of result ≡ code_groups }
{
    [
        CodeGroup::of(IMAGE),
        CodeGroup::of(NEW_IMAGE),
        CodeGroup::of(SIZES),
        CodeGroup::of(DEVICE),
        CodeGroup::of(MANIFEST),
        CodeGroup::of(UPLOAD),
        CodeGroup::of(REQUEST),
    ]
}

impl CodeGroup {
    /// Returns the group of a constant.
    fn of(group: (&'static str, &'static [Code])) -> CodeGroup
        ensures title { result.title ≡ group.entry.0 }
        ensures codes { result.codes ≡ group.entry.1 }
    {
        let (title, codes) = group;
        CodeGroup { title, codes }
    }
}
