//! Tests of the laws of the log and of swaps, and of the log's errors; and a state for other tests.

use flash_model::FlashError;
use sector_map::SectorMap;
use set_log::{
    LogError, RecordKind, State, a_log_that_is_left_keeps_its_state, one_sector_is_active,
    records_are_read_back,
};
use std::test::Fail;
use swap_scratch::swap_laws;

/// A steady device. The security counter of its second image must be at least 5.
pub(super) const STEADY: State = State {
    kind: RecordKind::Steady,
    mask: 0,
    permanent: false,
    sequence: 1,
    floors: [0, 5, 0, 0, 0, 0, 0, 0],
    left: 0,
};

#[test]
fn laws_are_called(rt: HostRuntime) -> Result<(), Fail> {
    let map = SectorMap::new(512, &[2, 2])?;
    records_are_read_back();
    a_log_that_is_left_keeps_its_state(&map);
    one_sector_is_active();
    swap_laws(&map);
    Ok(())
}

#[test]
fn each_error_has_its_number_name_and_sentence(rt: HostRuntime) -> Result<(), Fail> {
    let (none, off) = (LogError::NoLog, LogError::Flash(FlashError::Off));
    let line = format!(in rt.alloc();
        "{} {}: {none}; {} {}: {off}",
        none.code(),
        none.name(),
        off.code(),
        off.name()
    )?;
    let wanted = "1 NoLog: the log has no state; 2 Flash: the flash is off";
    assert!(rt; line.as_str() == wanted);
    Ok(())
}
