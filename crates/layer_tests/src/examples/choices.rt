//! Examples of versions, tables and reports, scripts, and device files.

use certificate::{Report, Table, check, is_valid};
use chooser::choose;
use device_texts::{DeviceFile, Event, Line, line_of};
use machine::Fault;
use std::test::Fail;
use version_order::Version;

#[test]
fn versions_are_compared(rt: HostRuntime) -> Result<(), Fail> {
    // example: version_order::Version::parse
    let running = Version::parse("1.9.2+7")?;
    let requested = Version::parse("1.10")?;
    assert!(rt; requested > running);
    assert!(rt; requested.to_string(rt.alloc())?.as_str() == "1.10.0+0");
    // end of example
    Ok(())
}

#[test]
fn a_report_is_checked(rt: HostRuntime) -> Result<(), Fail> {
    // example: checker::check
    // Image 0 requests 2.0.0+0, which needs image 1 at 2.0.0+0. Nothing is requested for image 1.
    let table = Table::parse(
        b"image 0 1.0.0+0 0 0\nrequest 2.0.0+0 0\nneeds 1 2.0.0+0\nimage 1 1.0.0+0 0 0\n",
    )?;
    let right = Report::parse(b"run 0 1.0.0+0\nrun 1 1.0.0+0\nrefuse 0 needs 1 2.0.0+0\n")?;
    let wrong = Report::parse(b"take 0 2.0.0+0\nrun 1 1.0.0+0\n")?;
    assert!(rt; check(&table, &right) && !check(&table, &wrong));
    // end of example
    Ok(())
}

#[test]
fn a_request_is_taken(rt: HostRuntime) -> Result<(), Fail> {
    // example: chooser::choose
    // Image 0 runs 1.0.0+0 and requests 2.0.0+0. The security counters and the floor are 0.
    let table = Table::parse(b"image 0 1.0.0+0 0 0\nrequest 2.0.0+0 0\n")?;
    assert!(rt; is_valid(&table));
    let report = choose(&table);
    assert!(rt; check(&table, &report));
    assert!(rt; report.to_string(rt.alloc())?.as_str() == "take 0 2.0.0+0\n");
    // end of example
    Ok(())
}

#[test]
fn a_line_of_a_script_is_read(rt: HostRuntime) {
    // example: device_texts::line_of
    let (cut, boot) = (line_of(b"cut 3 keep"), line_of(b"boot"));
    assert!(rt; matches!(cut, Some(Line::Cut { write: 3, .. })));
    assert!(rt; matches!(boot, Some(Line::Event(Event::Boot))));
    // Writes are counted from 1.
    assert!(rt; line_of(b"cut 0 keep").is_none());
    // end of example
}

#[test]
fn a_device_file_is_read(rt: HostRuntime) -> Result<(), Fail> {
    // example: device_texts::DeviceFile::read
    // Two images of two sectors each. Without `trial-boots` a trial has one boot.
    let text = b"{\"sector\": 512, \"sectors\": [2, 2], \
        \"vendor-id\": \"886313e1-3b8a-5372-9b90-0c9aee199e5d\", \
        \"class-id\": \"74b0b1ed-70fe-5a24-9102-6a41c2172c6d\"}";
    let device = DeviceFile::read(rt.alloc(), text)?;
    assert!(rt; device.map.images == 2 && device.trial_boots == 1);
    // end of example
    Ok(())
}

#[test]
fn a_fault_has_a_number_and_a_name(rt: HostRuntime) -> Result<(), Fail> {
    // example: machine::Fault::name
    let fault = Fault::RunningDamaged(1);
    assert!(rt; fault.code() == 5 && fault.name() == "RunningDamaged");
    let sentence = format!(in rt.alloc(); "{fault}")?;
    assert!(rt; sentence.as_str() == "the running image 1 is damaged");
    // end of example
    Ok(())
}
