//! Tests of the steps that a choice counts.

use certificate::{Table, is_valid};
use chooser::{Steps, choose_counted};
use std::test::Fail;

/// The counts before each choice.
const BEFORE: Steps = Steps {
    passes: 10,
    drops: 20,
    looks: 30,
};

/// The counts after the choice for a table, which is a text. They are unchanged if its running
/// images don't fit each other.
fn steps_after(text: &str) -> Result<Steps, Fail> {
    let table = Table::parse(text.as_bytes())?;
    let mut steps = BEFORE;
    if is_valid(&table) {
        choose_counted(&table, &mut steps);
    }
    Ok(steps)
}

/// The numbers of passes, drops and looks after a choice.
fn counts_after(text: &str) -> Result<[u32; 3], Fail> {
    let Steps {
        passes,
        drops,
        looks,
    } = steps_after(text)?;
    Ok([passes, drops, looks])
}

/// One pass marks images 2 and 3. The drop of image 2 leads to a look at image 0.
const DEPENDENT: &str = "image 0 1.0.0+0 0 0\n\
    request 2.0.0+0 0\n\
    needs 2 2.0.0+0\n\
    image 1 1.0.0+0 0 0\n\
    image 2 1.0.0+0 0 0\n\
    request 2.0.0+0 0\n\
    needs 1 2.0.0+0\n\
    image 3 1.0.0+0 0 0\n\
    request 2.0.0+0 0\n\
    needs 1 2.0.0+0\n";

/// The pass marks image 2. Its drop leads to a look at image 0, which has it as an alternative.
/// Image 0 is dropped too.
const ALTERNATIVE: &str = "image 0 1.0.0+0 0 0\n\
    request 2.0.0+0 0\n\
    needs-one 1 2.0.0+0 2 2.0.0+0\n\
    image 1 1.0.0+0 0 0\n\
    image 2 1.0.0+0 0 0\n\
    request 2.0.0+0 0\n\
    needs 1 2.0.0+0\n";

#[test]
fn a_drop_leads_to_a_look_at_what_names_it(rt: HostRuntime) -> Result<(), Fail> {
    assert!(rt; counts_after(DEPENDENT)? == [11, 23, 31]);
    assert!(rt; counts_after(ALTERNATIVE)? == [11, 22, 31]);
    Ok(())
}

/// The lines of an image after its number: its running version, and its request.
const IMAGE: &str = " 1 0 0\nrequest 2 0\n";

/// The further dependencies of each request: every running image, until the entry has its 16
/// dependencies.
const RUNNING: &str = "needs 0 1\nneeds 1 1\nneeds 2 1\nneeds 3 1\nneeds 4 1\nneeds 5 1\n\
    needs 6 1\nneeds 7 1\nneeds 0 1\nneeds 1 1\nneeds 2 1\nneeds 3 1\nneeds 4 1\nneeds 5 1\n\
    needs 6 1\n";

#[test]
fn eight_requests_that_fall_one_by_one_take_28_looks(rt: HostRuntime) -> Result<(), Fail> {
    // Each request needs the next one. The last one needs a version that nobody requests.
    let text = format!(in rt.alloc();
        "image 0{IMAGE}needs 1 2\n{RUNNING}\
        image 1{IMAGE}needs 2 2\n{RUNNING}image 2{IMAGE}needs 3 2\n{RUNNING}\
        image 3{IMAGE}needs 4 2\n{RUNNING}image 4{IMAGE}needs 5 2\n{RUNNING}\
        image 5{IMAGE}needs 6 2\n{RUNNING}image 6{IMAGE}needs 7 2\n{RUNNING}\
        image 7{IMAGE}needs 0 3\n{RUNNING}"
    )?;
    // After the first drop 7 requests are looked at again, then 6, and so on.
    let counted = Steps {
        passes: 11,
        drops: 20 + 8,
        looks: 30 + 7 + 6 + 5 + 4 + 3 + 2 + 1,
    };
    assert!(rt; steps_after(text.as_str())? == counted);
    Ok(())
}
