//! The help texts of the commands that decide over tables. No line is longer than 80 columns.

use crate::help::Help;

pub const CHOOSE: &Help = &Help {
    usage: "bootswap choose [OPTIONS] <TABLE>",
    about: "Decide which requested images of a table run together",
    long_about: "Read a table, decide which of its requested images run together, and print the
report.

A table has 1 to 8 images, in these lines:
  image IMAGE VERSION COUNTER FLOOR
      begin an image: its number, from 0 in order; the running version; its
      security counter; the floor, which is the lowest accepted counter
  needs IMAGE VERSION
      the running or requested image above needs that image, in at least that
      version; at most 16 lines each
  needs-one IMAGE VERSION ..
      it needs one of these 1 to 4 images, in at least its version; at most 4
      lines each, after those with `needs`
  request VERSION COUNTER
      this intact image is requested in place of the running one
  damaged
      the requested bytes are no intact image

An image has at most one line `request` or `damaged`. One space separates the
words of a line. VERSION is `major.minor.revision+build`; parts at the end may
be left out if they are 0. IMAGE is 0 to 255, COUNTER and FLOOR 0 to 4294967295.

A table of two images, of which each request needs the other:
  image 0 1.0.0+0 0 0
  request 2.0.0+0 0
  needs 1 2.0.0+0
  image 1 1.0.0+0 0 0
  request 2.0.0+0 0
  needs 0 2.0.0+0

The report has a line `take IMAGE VERSION` or `run IMAGE VERSION` for each
image, then a line `refuse IMAGE REASON` for each refused request. The report of
the table above:
  take 0 2.0.0+0
  take 1 2.0.0+0

See `bootswap help check` for the reasons.",
    after: "Exit status: 0 done, 1 refused, 2 usage error.
Example: bootswap choose table.txt
See `bootswap choose --help` for the lines of a table.",
    long_after: "Exit status:
  0  the report is printed
  1  standard error has a line `error: ..`: `table line 3` for the first line
     after which nothing makes the text a table, `running set not valid` if the
     running images don't fit each other, `cannot read NAME`, or `memory`; or
     the report could not be written
  2  usage error

Examples:
  bootswap choose table.txt
  bootswap choose - < table.txt",
};

pub const CHECK: &Help = &Help {
    usage: "bootswap check [OPTIONS] <TABLE> <REPORT>",
    about: "Check whether a report is right for a table",
    long_about: "Read a table and a report, and print `yes` if the report is right for the table,
else `no`.

A report is right if it has the table's images, takes a valid set, and refuses
each other request once, for a reason that holds given the refusals before it.
Then the set that it takes is the greatest valid set. The reasons:
  damaged              the requested bytes are no intact image
  older                its version is below the running one
  counter              its security counter is below the floor
  no-such-image IMAGE  it needs an image that the table doesn't have
  needs IMAGE VERSION  it needs this version of an image, and no request that
                       can still be taken reaches it
  needs-one IMAGE VERSION ..
                       it needs one of these images, and none of them can still
                       reach its version

A report for a table of three images:
  run 0 1.0.0+0
  take 1 2.0.0+0
  run 2 1.0.0+0
  refuse 0 older
  refuse 2 needs 0 1.0.0+1

See `bootswap help choose` for the lines of a table.",
    after: "Exit status: 0 yes, 1 no or refused, 2 usage error.
Example: bootswap check table.txt report.txt
See `bootswap check --help` for the lines of a report.",
    long_after: "Exit status:
  0  the answer is `yes`
  1  the answer is `no`; or standard error has a line `error: ..`, such as
     `table line 3`, or `report line 2` for the first line after which nothing
     makes the text a report; or the answer could not be written
  2  usage error

Examples:
  bootswap check table.txt report.txt
  bootswap choose table.txt | bootswap check table.txt -",
};

pub const PLAN: &Help = &Help {
    usage: "bootswap plan [OPTIONS] <FLEET>...",
    about: "Decide for each device of a fleet, or count the results",
    long_about: "Read a fleet: for each device a line `device NAME`, then the lines of its table.
Decide over each table as `choose` does, and print the line `device NAME` and
the report. A name has 1 to 255 visible characters of ASCII. A fleet:
  device truck-1
  image 0 1.0.0+0 0 0
  request 2.0.0+0 0
  device truck-2
  image 0 1.0.0+0 0 4
  request 2.0.0+0 0

What is printed:
  device truck-1
  take 0 2.0.0+0
  device truck-2
  run 0 1.0.0+0
  refuse 0 counter

Instead of a report a device may have one of these lines:
  bad-line N           line N of its table is the first after which nothing
                       makes it a table; the line after `device NAME` is line 1
  too-long             its table has more than 65536 bytes
  not-valid            its running images don't fit each other

`--request I=FILE` requests the image in FILE as image I of each device that has
an image I, in place of the request in its table. So a release is tried on the
fleet as it is. `--summary` prints a line `COUNT FIRST KEY` for each result
instead: how many devices have it, the name of the first, and one of these keys:
  device               each device
  take IMAGE VERSION ..
                       the complete set that a device takes; `take` is none
  refuse IMAGE VERSION REASON
                       a refused request; without VERSION if it is damaged
  bad                  a table that is too long or has a bad line
  not-valid            running images that don't fit each other

The summary of a fleet is the sum of the summaries of its parts. `--merge` reads
summaries instead of a fleet, in the order of the parts, and prints their sum.
The memory in use doesn't grow with the number of devices.

See `bootswap help choose` for the lines of tables and reports.",
    after: "Exit status: 0 done, 1 a device has no report, or refused, 2 usage error.
Example: bootswap plan fleet.txt --request 0=a.img --summary
See `bootswap plan --help` for the lines of a fleet.",
    long_after: "Exit status:
  0  each device has a report
  1  some device has none: its result is `bad-line`, `too-long` or `not-valid`;
     or standard error has a line `error: ..`: `fleet line 1` if the first line
     begins no device, `image 0 requested twice`, `NAME is no image` for a file
     that is requested, `cannot merge NAME line 3`, `cannot read NAME`, or
     `memory`; or the output could not be written
  2  usage error

Examples:
  bootswap plan fleet.txt
  bootswap plan fleet.txt --summary --request 0=a.img --request 1=b.img
  bootswap plan part-1.txt --summary > 1.txt
  bootswap plan part-2.txt --summary > 2.txt
  bootswap plan --merge 1.txt 2.txt",
};
