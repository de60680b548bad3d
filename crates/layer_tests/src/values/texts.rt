//! Tests of texts, numbers and names that no command prints.

use certificate::{BadReport, BadTable, Table};
use image_header::HeaderError;
use std::test::Fail;
use version_order::BadVersion;

/// The sentences for a table that is bad from line 3 on, for a report that is bad from the last
/// possible line on, for a text that isn't a version, and for a header.
const SAID: &str = "no table continues with line 3\n\
    no report continues with line 18446744073709551615\n\
    not a version: write major.minor.revision+build in decimal without leading zeros, as 1.4.0+7; \
    parts may be left out from the right\n\
    a header length below 32\n";

#[test]
fn refusals_have_texts(rt: HostRuntime) -> Result<(), Fail> {
    let table = BadTable(3);
    let report = BadReport(18446744073709551615);
    let header = HeaderError::BadHeaderSize;
    let said = format!(in rt.alloc(); "{table}\n{report}\n{BadVersion}\n{header}\n")?;
    assert!(rt; said.as_str() == SAID);
    Ok(())
}

#[test]
fn faults_of_headers_have_numbers_and_names(rt: HostRuntime) {
    let numbers = (
        HeaderError::Short.code(),
        HeaderError::UnsupportedFlags.code(),
    );
    assert!(rt; numbers == (1, 4) && HeaderError::BadMagic.name() == "BadMagic");
}

/// A table with each kind of line.
const TABLE: &str = "image 0 1.0.0+0 5 4\n\
    needs 1 1.0.0+0\n\
    needs-one 1 3.0.0+0 255 255.255.65535+4294967295\n\
    needs-one 1 4.0.0+0 255 255.255.65535+4294967295\n\
    request 2.0.0+0 6\n\
    needs 1 2.0.0+0\n\
    needs-one 1 3.0.0+0 255 255.255.65535+4294967295\n\
    needs-one 1 4.0.0+0 255 255.255.65535+4294967295\n\
    image 1 255.254.65535+4294967295 4294967295 0\n\
    damaged\n\
    image 2 0.0.0+0 0 0\n";

#[test]
fn a_table_is_printed(rt: HostRuntime) -> Result<(), Fail> {
    let text = Table::parse(TABLE.as_bytes())?.to_string(rt.alloc())?;
    assert!(rt; text.as_str() == TABLE);
    Ok(())
}

/// The running version of an image, after its number, and its request, with the largest numbers.
const RUNNING: &str = " 255.255.65535+4294967295 4294967295 4294967295\n";

const REQUEST: &str = "request 255.255.65535+4294967295 4294967295\n";

/// The needs of each: the largest number of dependencies and groups.
const NEEDS: &str = "needs 255 255.255.65535+4294967295\n\
    needs 255 255.255.65535+4294967295\n\
    needs 255 255.255.65535+4294967295\n\
    needs 255 255.255.65535+4294967295\n\
    needs 255 255.255.65535+4294967295\n\
    needs 255 255.255.65535+4294967295\n\
    needs 255 255.255.65535+4294967295\n\
    needs 255 255.255.65535+4294967295\n\
    needs 255 255.255.65535+4294967295\n\
    needs 255 255.255.65535+4294967295\n\
    needs 255 255.255.65535+4294967295\n\
    needs 255 255.255.65535+4294967295\n\
    needs 255 255.255.65535+4294967295\n\
    needs 255 255.255.65535+4294967295\n\
    needs 255 255.255.65535+4294967295\n\
    needs 255 255.255.65535+4294967295\n\
    needs-one 255 255.255.65535+4294967295 255 255.255.65535+4294967295 255 \
    255.255.65535+4294967295 255 255.255.65535+4294967295\n\
    needs-one 255 255.255.65535+4294967295 255 255.255.65535+4294967295 255 \
    255.255.65535+4294967295 255 255.255.65535+4294967295\n\
    needs-one 255 255.255.65535+4294967295 255 255.255.65535+4294967295 255 \
    255.255.65535+4294967295 255 255.255.65535+4294967295\n\
    needs-one 255 255.255.65535+4294967295 255 255.255.65535+4294967295 255 \
    255.255.65535+4294967295 255 255.255.65535+4294967295\n";

#[test]
fn a_full_table_is_printed(rt: HostRuntime) -> Result<(), Fail> {
    let image = format!(in rt.alloc(); "{RUNNING}{NEEDS}{REQUEST}{NEEDS}")?;
    let full = format!(in rt.alloc();
        "image 0{image}image 1{image}image 2{image}image 3{image}\
        image 4{image}image 5{image}image 6{image}image 7{image}"
    )?;
    let printed = Table::parse(full.as_bytes())?.to_string(rt.alloc())?;
    assert!(rt; printed.as_str() == full.as_str());
    Ok(())
}
