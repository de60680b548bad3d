//! A test of errors: their sentences, and the numbers and names that no command prints.

use manifest::ManifestError;
use std::test::Fail;
use tlv::{ImageError, MakeError};

#[test]
fn errors_have_numbers_names_and_texts(rt: HostRuntime) -> Result<(), Fail> {
    assert!(rt; MakeError::NoMemory.code() == 5 && MakeError::TooBig.name() == "TooBig");
    assert!(rt; ManifestError::NoMemory.code() == 8);
    let text = format!(in rt.alloc();
        "{}; {}; {}; {}",
        ImageError::TooManyDependencies,
        ImageError::TooManyGroups,
        ManifestError::NoComponent,
        MakeError::TooBig
    )?;
    let wanted = "more than 16 dependencies; more than 4 groups; \
        a component for an image that the device doesn't have; \
        a body of 2^32 bytes or more";
    assert!(rt; text.as_str() == wanted);
    Ok(())
}
