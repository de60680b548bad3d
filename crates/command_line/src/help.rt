//! The help texts of the program and its commands. No line is longer than 80 columns.

use crate::codes::INTRODUCTION;

/// The help texts of a command.
#[derive(Clone, Copy)]
pub struct Help {
    /// The usage line, as `clap` would make it: options that aren't required are `[OPTIONS]`.
    pub usage: &'static str,
    /// The purpose of the command in one line.
    pub about: &'static str,
    /// The purpose of the command, and the form of its files and its answer.
    pub long_about: &'static str,
    /// The end of short help: the exit statuses in one line, and an example.
    pub after: &'static str,
    /// The end of long help: the exit statuses, and examples.
    pub long_after: &'static str,
}

pub const PROGRAM: &Help = &Help {
    usage: "bootswap [COMMAND]",
    about: "Run a device's bootloader on a flash file; decide which images run together",
    long_about: "A bootloader core and firmware updater in the manner of MCUboot, on files. It
provisions and runs a device whose flash is a file, decides which requested
images run together, checks such decisions, and makes and checks images and
manifests.

A device has several images, each with a primary and a secondary slot. An upload
writes a new image to the secondary slot. A boot takes the greatest set of
requested images that can run together, swaps it with the running images, and
tries it. If the trial isn't confirmed, the set reverts. Power may fail at any
write: a script of `run` says where, and the next boot continues from there.

A request can be taken if it is an intact image that isn't older than the
running one, with a security counter not below the floor. Each image that runs
then must find the images that it needs, in at least the versions that it needs.
The greatest set is the one that contains every other set with these properties.
`choose` decides it from a table of what runs and what is requested.

Without arguments the program does `choose` on standard input. `-` as a file
name is standard input. With `--explain` a command prints on standard error why
its answer is as it is: what is wrong in a refused file, what may stand there,
and why a request is refused. With `--json` the commands `choose`, `check`,
`plan`, `image`, `manifest`, `show`, `slots`, `run`, `sweep` and `codes` print
their answer as JSON, and an error too.",
    after: "Exit status: 0 done, 1 refused, 2 usage error, 3 power cut, 4 flash file failed.
See `bootswap --help` for more, `bootswap help run` for the lines of a script,
and `bootswap codes` for the codes and names of refusals.",
    long_after: "Exit status:
  0  done; `check` answers `yes`
  1  refused: the answer is a refusal, or `no` of `check`; the last reply of
     `run` is a refusal, or with `--strict` any reply or report refuses
     something; standard error has a line `error: ..`, such as
     `error: table line 3`; or the output could not be written
  2  usage error
  3  power failed in the last event of `run`
  4  the flash file could not be made or written: `error: flash file`

Examples:
  bootswap make-device --sector 512 --slots 2,2 --vendor python.org \\
      --class sensor > device.json
  bootswap make-image a.img body.bin --version 1.0.0
  bootswap make-manifest device.json --sequence 2 --test 0=a.img > manifest.json
  bootswap provision device.json flash.bin a.img b.img
  bootswap show device.json flash.bin
  bootswap extract device.json flash.bin 0 primary running.img
  bootswap run device.json flash.bin script.txt
  bootswap sweep device.json script.txt a.img b.img
  bootswap choose table.txt
  bootswap choose table.txt > report.txt
  bootswap check table.txt report.txt --explain
  bootswap plan fleet.txt --summary --request 0=a.img
  bootswap image firmware.img
  bootswap manifest device.json manifest.json

See `bootswap help COMMAND` for what a command reads and prints.",
};

pub const IMAGE: &Help = &Help {
    usage: "bootswap image [OPTIONS] <FILE>",
    about: "Check an image and print its description",
    long_about: "Read an image of MCUboot's format, check it, and print its version, its length
in bytes, its security counter, its digest, and the images that it needs. The
digest is checked, signatures aren't. The description of an image that needs
another one:
  version 1.0.0+0
  length 104
  counter 5
  digest d972280151bc22f533247969edbfb7596c1b97815061e90b65f3d2641146fc05
  needs 1 2.0.0+0

A line `needs-one IMAGE VERSION ..` follows for each group of images of which it
needs one.

If the file is no intact image, the command prints the first check that fails,
by its number and name: `refused CODE NAME`, such as `refused 10 BadDigest`.",
    after: "Exit status: 0 intact, 1 refused, 2 usage error.
Example: bootswap image firmware.img
See `bootswap image --help` for what is printed.",
    long_after: "Exit status:
  0  the file is an intact image, and its description is printed
  1  it isn't; or standard error has a line `error: ..`; or the answer could not
     be written
  2  usage error

Example:
  bootswap image firmware.img",
};

pub const MANIFEST: &Help = &Help {
    usage: "bootswap manifest [OPTIONS] <DEVICE> <FILE>",
    about: "Check a manifest for a device and print its contents",
    long_about: "Read a device file and a manifest, check whether the manifest is for that
device, and print its contents: its sequence number, and for each component the
image, the length of the file in bytes, the kind of the request, and the digest
of the file. `precursor` and a digest follow if the manifest requires that
image to run. With all 64 digits of the digest:
  sequence 1
  component 0 3 test ba7816bf8f01cfea414140de5dae2223..

A device file is a JSON object: the bytes of a sector, the sectors of each
image's slots, and the vendor and class that manifests must name. Optional
`trial-boots` is the number of boots of a trial, 1 to 7; the default is 1:
  {\"sector\":512,\"sectors\":[2,2],
   \"vendor-id\":\"886313e1-3b8a-5372-9b90-0c9aee199e5d\",
   \"class-id\":\"11111111-2222-5333-8444-555555555555\"}

A manifest is a JSON object too. The `kind` of a component is `test` or
`permanent`, and `precursor-digest` is optional:
  {\"manifest-version\":1,\"sequence-number\":1,
   \"vendor-id\":\"886313e1-3b8a-5372-9b90-0c9aee199e5d\",
   \"class-id\":\"11111111-2222-5333-8444-555555555555\",
   \"components\":[{\"component-id\":0,\"kind\":\"test\",\"size\":3,
    \"payload-digest\":
    \"ba7816bf8f01cfea414140de5dae2223b00361a396177a9cb410ff61f20015ad\"}]}

If the file is no manifest for the device, the command prints the lowest refusal
that applies, by its number and name: `refused CODE NAME`, such as
`refused 4 WrongVendor`. If the sizes of the device make no map of its flash, it
prints `refused map CODE NAME`, such as `refused map 1 BadSector`.",
    after: "Exit status: 0 for that device, 1 refused, 2 usage error.
Example: bootswap manifest device.json manifest.json
See `bootswap manifest --help` for the contents of both files.",
    long_after: "Exit status:
  0  the file is a manifest for the device, and its contents are printed
  1  it isn't, or the sizes of the device are refused; or standard error has a
     line `error: ..`, such as `error: device file` if DEVICE is none; or the
     answer could not be written
  2  usage error

Examples:
  bootswap manifest device.json manifest.json
  bootswap manifest device.json - < manifest.json",
};

pub const MAKE_DEVICE: &Help = &Help {
    usage: "bootswap make-device [OPTIONS] --sector <BYTES> --slots <N,N,..>
           --vendor <DOMAIN> --class <NAME>",
    about: "Make a device file, and print where the flash's parts are",
    long_about: "Make a device file from the sizes of a device's flash and the names of its
vendor and class. Print it on standard output, and where the parts of the flash
are on standard error. BYTES may be typed 4096, 0x1000 or 4k; `k` and `K` are
1024 bytes, `M` is 1024 k. `--slots` counts sectors: 448k are 112 sectors of 4k.
A device of two images, whose slots have two sectors of 512 bytes each:
  bootswap make-device --sector 512 --slots 2,2 --vendor python.org \\
      --class sensor > device.json

Its device file. The UUIDs are made of both names, as in manifests:
  {\"sector\":512,\"sectors\":[2,2],
   \"vendor-id\":\"886313e1-3b8a-5372-9b90-0c9aee199e5d\",
   \"class-id\":\"9ed1b5d5-f629-5008-93c6-1958ba5b9953\"}

On standard error: the first byte and the length of each part of the flash, the
most bytes of each image, and the length of the flash, all in bytes:
  slot 0 primary 0 1024
  trailer 0 primary 1024 512
  slot 1 primary 1536 1024
  trailer 1 primary 2560 512
  slot 0 secondary 3072 1024
  trailer 0 secondary 4096 512
  slot 1 secondary 4608 1024
  trailer 1 secondary 5632 512
  scratch 6144 512
  log 6656 1536
  largest 0 1024
  largest 1 1024
  flash 8192

If the sizes make no map, the command prints `refused map CODE NAME`:
  refused map 1 BadSector    a sector has 512 to 131072 bytes, a multiple of 64
  refused map 2 BadCount     a device has 1 to 8 images, each with a sector
  refused map 3 TrailerFull  a slot of n sectors needs 24 n + 56 bytes a sector:
                             168 sectors at most if a sector has 4096 bytes
  refused map 4 TooLarge     a flash has at most 4294967295 bytes",
    after: "Exit status: 0 done, 1 refused, 2 usage error.
Example: bootswap make-device --sector 512 --slots 2,2 --vendor python.org \\
             --class sensor > device.json
See `bootswap make-device --help` for what is printed.",
    long_after: "Exit status:
  0  the device file is printed
  1  the sizes make no map, and the refusal is printed; or standard error has
     the line `error: memory`; or the output could not be written
  2  usage error, also for a value that is no number or is 4294967296 or more

Examples:
  bootswap make-device --sector 4096 --slots 60 --vendor example.com \\
      --class 'Weather station' --trial-boots 3 > device.json
  bootswap provision device.json flash.bin a.img",
};

pub const MAKE_IMAGE: &Help = &Help {
    usage: "bootswap make-image [OPTIONS] --version <VERSION> <OUT> <BODY>",
    about: "Make an image of MCUboot's format from its body",
    long_about: "Read the body of an image from BODY, and make the image in the file OUT: header,
body, security counter, dependencies and digest. Print `done`. An image of
version 2.0.0+0, with security counter 5, that needs image 1 in at least version
2.0.0+0:
  bootswap make-image a.img body.bin --version 2.0.0 --counter 5 \\
      --needs '1 2.0.0'

What `bootswap image` prints of it, if the body is `ABCD`:
  version 2.0.0+0
  length 104
  counter 5
  digest 3a93df27e2afd898a939255877208cb1c4cac33854961dc724212a7bbe2ba2bc
  needs 1 2.0.0+0

VERSION is `major.minor.revision+build`, up to 255.255.65535+4294967295; parts
at the end may be left out if they are 0. `--needs` may be given up to 16 times.
`--dependencies '(1, 2.0.0)'` is the spelling of MCUboot's imgtool for the same.
`--needs-one '1 2.0.0 2 2.0'` means that the image needs one of these 1 to 4
images; it may be given up to 4 times. Quotes keep the words of one dependency
together.

A counter is 0 to 4294967295. Without `--counter` the image has none, which
counts as 0. Zero bytes fill a header of more than 32 bytes. A load address is 0
to 4294967295. It, `--header-size` and `--flags` may be typed 4096, 0x1000 or
4k; `k` and `K` are 1024, `M` is 1024 k. The image isn't signed.

OUT comes before BODY, unlike in `cp` and `imgtool`. The command replaces OUT if
it is one intact image or empty, once the new image is complete. It replaces
another file, such as a flash, only with `--force`, and never BODY.

If no image can have these values, the command prints `refused CODE NAME`:
  refused 1 BadHeaderSize        the header has at least 32 bytes
  refused 2 UnsupportedFlags     the flags are 0, or a sum of 1, 16 and 256
  refused 3 TooManyDependencies  an image has at most 16 dependencies
  refused 4 TooBig               a body has at most 4294967295 bytes
  refused 6 BadGroups            an image has at most 4 groups of 1 to 4 images",
    after: "Exit status: 0 done, 1 refused, 2 usage error.
Example: bootswap make-image a.img body.bin --version 1.0.0
See `bootswap make-image --help` for the values of an image.",
    long_after: "Exit status:
  0  OUT is made, and `done` is printed
  1  the values are refused, and the refusal is printed; or standard error has a
     line `error: ..`: `image is an input` if OUT is BODY, `NAME is no image` if
     OUT isn't one intact image and `--force` isn't given, `image in use` if
     another program holds OUT, `cannot read NAME`, `cannot write NAME` if OUT
     could not be made or replaced, or `memory`; or the answer could not be
     written
  2  usage error, also for a value that is no number, version or dependency

Examples:
  bootswap make-image a.img body.bin --version 1.0.0
  bootswap make-image a.img - --version 1.4.2+7 --counter 3 \\
      --needs '1 2.0.0' --needs-one '2 1.0.0 3 1.0.0' < body.bin
  bootswap image a.img",
};

pub const MAKE_MANIFEST: &Help = &Help {
    usage: "bootswap make-manifest [OPTIONS] --sequence <N> <DEVICE>",
    about: "Make a manifest of the files that may come to a device",
    long_about: "Read a device file and the files that may come to the device, and print the
manifest that allows them: for the device's vendor and class, with the length
and the SHA-256 of each file. `--test 0=a.img` requests the file a.img as image
0 for a test: the device reverts to the old image unless the new one is
confirmed. `--permanent 0=a.img` requests it permanently. Both may be repeated,
once for each image of the device:
  bootswap make-manifest device.json --sequence 2 --test 0=a.img \\
      --test 1=b.img > manifest.json

The manifest of the file `abc` for a test of image 0:
  {\"manifest-version\":1,\"sequence-number\":1,
   \"vendor-id\":\"886313e1-3b8a-5372-9b90-0c9aee199e5d\",
   \"class-id\":\"9ed1b5d5-f629-5008-93c6-1958ba5b9953\",
   \"components\":[
    {\"component-id\":0,\"kind\":\"test\",\"size\":3,
     \"payload-digest\":\"ba7816bf8f01cfea414140de5dae2223b00361a396177a9cb410ff61f20015ad\"}]}

A device refuses a manifest with a lower sequence number than that of the last
one that it accepted. With `--precursor FLASH` the files are only for devices
that run the images that run on that flash: the manifest names their digests.
FLASH is only read.

A boot tries the images that it takes as one set. If one of them was requested
for a test, all are tried, also those requested permanently, and also those that
don't depend on it. All revert unless each is confirmed.

A line `note: ..` on standard error names a file that the device will not take,
since it is no intact image or is longer than its slot, and one that needs the
image that it is for, as two files do that changed places. Further notes say if
the manifest has files of both kinds, and if the device of FLASH accepted a
higher sequence number or is on trial. The manifest is made nevertheless. With
`--strict` the exit status is 1 if there is a note.

Refusals:
  refused 6 NoComponent               the device has no such image
  refused 7 RepeatedComponent         two files are for one image
  refused boot 5 RunningDamaged IMAGE no intact image runs on FLASH
  refused map CODE NAME               the sizes of the device make no map",
    after: "Exit status: 0 done, 1 refused, 2 usage error.
Example: bootswap make-manifest device.json --sequence 2 --test 0=a.img
See `bootswap make-manifest --help` for what is printed.",
    long_after: "Exit status:
  0  the manifest is printed
  1  a refusal is printed; or, with `--strict`, the manifest and a note are; or
     standard error has a line `error: ..`: `device file` if DEVICE is none,
     `flash size` if FLASH isn't as long as the device's flash, `flash in use`
     if another program writes to FLASH, `cannot read NAME`, or `memory`; or the
     output could not be written
  2  usage error

Examples:
  bootswap make-manifest device.json --sequence 2 --test 0=a.img > manifest.json
  bootswap make-manifest device.json --sequence 3 --precursor flash.bin \\
      --permanent 0=a.img --permanent 1=b.img > manifest.json
  bootswap manifest device.json manifest.json",
};

pub const PROVISION: &Help = &Help {
    usage: "bootswap provision [OPTIONS] <DEVICE> <FLASH> <IMAGE>...",
    about: "Make the flash file of a device from its images",
    long_about: "Make the flash of a device in the file FLASH, and print `done`. FLASH gets the
length of the device's flash, filled with 0xFF, and each IMAGE at the start of
its primary slot, the first for image 0. The trailers are empty, and the log has
the security counters of the images as floors. An existing file FLASH is
replaced, once the new flash is complete, if it is empty, erased (each byte is
0xFF) or as long as the flash. The command replaces another file only with
`--force`, and never an input file. A block device of the flash's length is
written in place. When `done` is printed, everything is on the disk.

IMAGE is an intact image of MCUboot's format that isn't longer than its slot, as
`bootswap image` checks it. There is one for each image of the device, and each
must find the images that it needs, in at least the versions that it needs.

A device file is a JSON object: the bytes of a sector, the sectors of each
image's slots, and the vendor and class that manifests must name. Optional
`trial-boots` is the number of boots of a trial, 1 to 7; the default is 1:
  {\"sector\":512,\"sectors\":[2,2],
   \"vendor-id\":\"886313e1-3b8a-5372-9b90-0c9aee199e5d\",
   \"class-id\":\"11111111-2222-5333-8444-555555555555\"}

If the device can't run the images, the command prints `refused boot CODE NAME`,
such as `refused boot 6 InvalidSet`, or `refused boot 5 RunningDamaged 1` for
image 1 if it isn't intact. If the sizes of the device make no map of its flash,
it prints `refused map CODE NAME`, such as `refused map 1 BadSector`.

A refusal and an error line leave FLASH as it was. But after a failed write a
block device holds a part of the new flash: provision it again.",
    after: "Exit status: 0 done, 1 refused, 2 usage error, 4 flash file failed.
Example: bootswap provision device.json flash.bin a.img b.img
See `bootswap provision --help` for the contents of the files.",
    long_after: "Exit status:
  0  FLASH is made and provisioned, and `done` is printed
  1  the images or the sizes of the device are refused; or standard error has a
     line `error: ..`: `device file` if DEVICE is none, `image count` if the
     device has another number of images, `image 1 too big` if that file is
     longer than its slot, `flash is an input` if FLASH is one of the input
     files, `flash in use` if another program holds FLASH or makes it meanwhile,
     or if it is a block device that is mounted, swapped to or held,
     `flash size` if it is a block device of another length, or a file of
     another length that isn't erased and `--force` isn't given,
     `cannot read NAME`, or `memory`; or the answer could not be written
  2  usage error
  4  standard error has the line `error: flash file`: FLASH could not be made,
     replaced or written; or it was, and its folder could not be synced

A killed run may leave a file `.bootswap-` with 16 hex digits beside FLASH. You
may remove it. Two nodes of one block device exclude each other only if the
system has `/sys`.

Examples:
  bootswap provision device.json flash.bin a.img b.img
  bootswap provision device.json flash.bin a.img - < b.img",
};

pub const EXTRACT: &Help = &Help {
    usage: "bootswap extract [OPTIONS] <DEVICE> <FLASH> <IMAGE> <SIDE> <OUT>",
    about: "Copy the image in a slot of a flash to a file",
    long_about: "Read a device file and a flash file, and copy the intact image at the start of a
slot to the file OUT. IMAGE is the number of the image, from 0. SIDE is
`primary`, the slot from which the image runs, or `secondary`, the slot to which
an upload writes. Print `done`:
  bootswap extract device.json flash.bin 0 primary running.img

OUT gets the image alone, byte for byte, and nothing of what follows it in the
slot. FLASH is only read. The command replaces OUT if it is one intact image or
empty, once the copy is complete. It replaces another file only with `--force`,
and never an input file.

If the slot begins with no intact image, the command prints `refused CODE NAME`,
as `bootswap image` does. If the sizes of the device make no map of its flash,
it prints `refused map CODE NAME`.",
    after: "Exit status: 0 done, 1 refused, 2 usage error.
Example: bootswap extract device.json flash.bin 0 primary running.img
See `bootswap extract --help` for which files are replaced.",
    long_after: "Exit status:
  0  OUT is made, and `done` is printed
  1  the slot has no intact image, or the sizes of the device are refused; or
     standard error has a line `error: ..`: `device file` if DEVICE is none,
     `no image 2` if the device has no image of this number, `flash size` if
     FLASH isn't as long as the device's flash, `flash in use` if another
     program writes to FLASH, `image is an input` if OUT is an input file,
     `NAME is no image` if OUT isn't one intact image and `--force` isn't given,
     `image in use` if another program holds OUT, `cannot read NAME`,
     `cannot write NAME` if OUT could not be made or replaced, or `memory`; or
     the answer could not be written
  2  usage error

Examples:
  bootswap extract device.json flash.bin 0 primary running.img
  bootswap extract device.json - 1 secondary requested.img < flash.bin
  bootswap image running.img",
};

pub const SHOW: &Help = &Help {
    usage: "bootswap show [OPTIONS] <DEVICE> <FLASH>",
    about: "Print the log and the swap types of a device's flash",
    long_about: "Read a device file and a flash file, and print the contents of the flash's log
and trailers:
  state trial      the record of the log: `steady`, `swap`, `settle`, `trial`,
                   `back` or `back-settle`
  set 0 1          the images that are swapped or on trial; `-` if none
  left 1           the remaining boots of the trial; no line if 0
  sequence 1       the lowest accepted sequence number of a manifest
  floor 0 0        for each image the lowest accepted security counter
  floor 1 0
  swap 0 revert    for each image MCUboot's swap type of its trailers: `none`,
  swap 1 revert    `test`, `perm` or `revert`

The command changes nothing. See `bootswap help provision` for device files and
flash files.

If the flash was never provisioned, the command prints
`refused boot 4 NotProvisioned`. If the sizes of the device make no map of its
flash, it prints `refused map CODE NAME`, such as `refused map 1 BadSector`.",
    after: "Exit status: 0 done, 1 refused, 2 usage error.
Example: bootswap show device.json flash.bin
See `bootswap show --help` for what is printed.",
    long_after: "Exit status:
  0  the contents of the log and the trailers are printed
  1  the flash isn't provisioned, or the sizes of the device are refused; or
     standard error has a line `error: ..`: `device file` if DEVICE is none,
     `flash size` if FLASH isn't as long as the device's flash, `flash in use`
     if another program writes to FLASH, `cannot read NAME`, or `memory`; or the
     answer could not be written
  2  usage error

Examples:
  bootswap show device.json flash.bin
  bootswap show device.json - < flash.bin",
};

pub const SLOTS: &Help = &Help {
    usage: "bootswap slots [OPTIONS] <DEVICE> <FLASH>",
    about: "Print the contents of the slots, and what a boot would take",
    long_about: "Read a device file and a flash file, and print what `show` prints, then the
contents of the slots, image by image:
  slot 0 primary     the slot from which image 0 runs. The lines of
                     `bootswap help image` follow if it begins with an intact
                     image; else one of the next two lines
  erased             all its bytes are 0xFF
  damaged 1 BadMagic the first check of an image that fails
  slot 0 secondary   the slot to which an upload writes
  request 0 test     the request for image 0: `test`, `permanent`, `none`
  moved 0 4 of 12    an open swap has done 4 of its 12 steps: three for each
                     sector that it moves

If `state` is `steady`, the decision of the next boot follows: its report, with
the lines of `bootswap help choose`, or its refusal, such as
`refused boot 5 RunningDamaged 0`. In any other state the next boot continues
what was begun, as `state`, `set` and `left` say.

The command changes nothing. If the flash was never provisioned, it prints
`refused boot 4 NotProvisioned`. If the sizes of the device make no map of its
flash, it prints `refused map CODE NAME`.",
    after: "Exit status: 0 done, 1 refused, 2 usage error.
Example: bootswap slots device.json flash.bin
See `bootswap slots --help` for what is printed.",
    long_after: "Exit status:
  0  the contents of the slots are printed
  1  the same, but the next boot would be refused, as the last line says; or the
     sizes of the device are refused; or standard error has a line `error: ..`:
     `device file` if DEVICE is none, `flash size` if FLASH isn't as long as the
     device's flash, `flash in use` if another program writes to FLASH,
     `cannot read NAME`, or `memory`; or the answer could not be written
  2  usage error

Examples:
  bootswap slots device.json flash.bin
  bootswap slots device.json - < flash.bin",
};

pub const RUN: &Help = &Help {
    usage: "bootswap run [OPTIONS] <DEVICE> <FLASH> <SCRIPT>",
    about: "Run a device on a flash file by a script; print its replies",
    long_about: "Run a device on a flash file by a script, and print a reply to each event. Each
write goes to FLASH immediately, so the next run continues from there. FLASH may
be a block device, on which each write is synced. No other program may use it.
With `--durable` each write to a plain file is synced too, before the next one.
Then a power cut of this machine is one of the device.
See `bootswap help provision` for device files and flash files.

A script begins with the writes that are cut, if any, in ascending order:
  cut WRITE TORN
      power fails in this write of the run, counted from 1, and leaves TORN:
      `keep`, what was there; `done`, what was to be written; or `hex:00ff`,
      these bytes, repeated. A cut in a write that isn't reached does nothing
Events follow:
  accept FILE                  this manifest comes to the device
  piece IMAGE FILE             these bytes come next for the image
  piece IMAGE FILE FROM COUNT  COUNT of its bytes come, after the first FROM
  finish IMAGE                 the upload is complete: check it, and request it
  withdraw IMAGE               take the request back
  confirm IMAGE                the image on trial works
  boot                         the device boots
  reset                        the device stops, and needs a boot
One space separates the words of a line, and FILE is a name without spaces. All
files are read and checked before the device runs. FLASH, the script's text and
its cuts are in memory, the file of a line only during its event, unless it
can't be read twice. A script:
  boot
  accept manifest.json
  piece 0 a.img
  finish 0
  boot

A reply begins with the number of its event:
  1 done                  the call is done
  2 plain                 the device booted and took no request; the report
                          follows, with the lines of `bootswap help choose`
  3 trial                 it took the requests of the report that follows, and
                          reverts them unless they are confirmed
  4 permanent             it took them permanently; the report follows
  5 reverted 0 1          it booted, and the old images of this set run again
  6 trial-again 0 1 left 1
                          it booted; this set stays on trial, for 1 more boot
  7 cut                   power failed in the event; what comes before the next
                          `boot` is refused
  8 refused GROUP CODE NAME
                          the call is refused; GROUP is `boot`, `manifest` or
                          `upload`; `RunningDamaged` has the image after it,
                          `NotAnImage` the number of the check that failed

If the sizes of the device make no map of its flash, the command prints
`refused map CODE NAME`, such as `refused map 1 BadSector`.",
    after: "Exit status: 0 done, 1 refused, 2 usage error, 3 power cut, 4 flash file failed.
Example: bootswap run device.json flash.bin script.txt
See `bootswap run --help` for the lines of a script.",
    long_after: "Exit status:
  0  the script was run, and its last reply is neither a refusal nor `cut`
  1  the last reply is a refusal, or with `--strict` any reply is, or any report
     refuses a request, and the last reply isn't `cut`; or the sizes of the
     device are refused; or standard error has a line `error: ..`: `device file`
     if DEVICE is none, `flash size` if FLASH isn't as long as the device's
     flash, `flash in use` if another program holds FLASH, or if it is a block
     device that is mounted, swapped to or held, `script line 3` for the first
     wrong line, `cannot read NAME`, or `memory`; or the replies could not be
     written
  2  usage error
  3  the last reply is `cut`
  4  standard error has the line `error: flash file`: FLASH can't be opened for
     writing, and nothing was run; or, however the run ended, a write of FLASH
     failed, which is a power cut to the device; or FLASH was removed or
     replaced, or its length changed

Examples:
  bootswap run device.json flash.bin script.txt
  echo boot | bootswap run device.json flash.bin -
  bootswap run --durable device.json flash.bin script.txt",
};

pub const SWEEP: &Help = &Help {
    usage: "bootswap sweep [OPTIONS] <DEVICE> <SCRIPT> <IMAGE>...
       bootswap sweep --merge [--svg <FILE>] <OUTPUT>...",
    about: "Cut power at each write of a script, and print how runs end",
    long_about: "Provision a device in memory with these images, as `provision` does, and run a
script on it as `run` does: once for each write of its flash and each way to
tear that write. After the cut the device boots until a boot isn't cut, and the
script continues. No flash file is changed. The script has no lines `cut`. If
standard error is a terminal, it shows the progress and the sums so far.

The command prints a line for each event, with a character for each of its
writes: what the next boot answered if that write was cut. So it shows from
which write on the next boot takes an upgrade:
  6 finish 0 from 8 *
  7 boot from 9 ttttttttttttttttttttttttttttttttttttt*
`from` has the number of the event's first write. The characters:
  .  it took nothing                  a  it tried the set on trial again
  t  it took a set on trial           x  it gave no answer
  p  it took a set permanently        *  different answers, for different bytes
  r  it reverted                         that the cut left
  _  no run cut this write
Then it prints the number of runs, and each set of images that ran at the end of
a run, with the number of these runs and the first cut that leads to it, such as
`cut 9 keep`, or `uncut`:
  runs 547
  end 547 uncut
  run 0 1.0.0+0
  run 1 1.0.0+0
A write is torn in six ways: `keep`, `done`, `hex:ff`, `hex:00` and copies of a
trailer's magic, as in scripts, and `half`: the first half is written.

`other COUNT cut WRITE TORN` counts unexpected ends: the script can't end so if
power fails before or after the event, or if the event is left out.
`refused COUNT cut WRITE TORN` counts runs in which a boot gave no answer.

`--twice` also cuts each write of the boot after a cut. `--sample N` tries N
random cuts instead of all, for a long script. `--svg FILE` draws the output. It
replaces FILE if that is such a picture or empty, and with `--force` any file
but an input.

`--part K/N` makes the share K of N of the runs, so that N processes can share a
sweep. The run without a cut counts in part 1. `--merge` reads the outputs of
all parts, and prints what one process prints for all runs.",
    after: "Exit status: 0 done, 1 refused, 2 usage error.
Example: bootswap sweep device.json script.txt a.img b.img
See `bootswap sweep --help` for what is printed.",
    long_after: "Exit status:
  0  each boot gave an answer, and each run ended as the script without a cut,
     or as if power had failed before or after the event
  1  one didn't, as the lines `other` and `refused` say; or the images or the
     sizes of the device are refused, as by `provision`; or standard error has a
     line `error: ..`: `device file`, `image count`, `image 1 too big`,
     `script line 1` for the first wrong line, `picture is an input` if FILE is
     an input file or one that the script names, `NAME is no picture` if it is
     something else and `--force` isn't given, `cannot write NAME` if it can't
     be made, `cannot read NAME`, `cannot merge NAME line 3` for the first line
     of an OUTPUT that is wrong or doesn't fit those before it, or `memory`; or
     the output could not be written
  2  usage error

Examples:
  bootswap sweep device.json script.txt a.img b.img
  bootswap sweep --twice --svg sweep.svg device.json script.txt a.img b.img
  bootswap sweep --sample 10000 --seed 7 device.json long.txt a.img b.img
  bootswap sweep --part 1/2 device.json script.txt a.img b.img > 1.txt
  bootswap sweep --part 2/2 device.json script.txt a.img b.img > 2.txt
  bootswap sweep --merge 1.txt 2.txt",
};

pub const CODES: &Help = &Help {
    usage: "bootswap codes [OPTIONS]",
    about: "List the codes and names of refusals",
    long_about: INTRODUCTION,
    after: "Exit status: 0 done, 1 the list could not be written, 2 usage error.
Example: bootswap codes",
    long_after: "Exit status:
  0  the list above is printed
  1  it could not be written
  2  usage error

Examples:
  bootswap codes
  bootswap codes | grep BadDigest",
};
