//! Explains why a report isn't right for a table.

use crate::Result;
use crate::needs::{explain_set, is_taken, times_refused, version_in};
use crate::texts::Images;
use checker::{Flaw, first_flaw};
use device_texts::NoteList;
use reports::{Image, Report, Request, Table};

/// Adds why a report is wrong for a table: the first condition of a right report that doesn't hold, as
/// the checker finds it. Lines of the report are numbered from 1.
pub fn explain_no(notes: &mut NoteList, table: &Table, report: &Report) -> Result {
    match first_flaw(table, report) {
        None => Ok(()),
        Some(Flaw::Images) => explain_count(notes, table, report),
        Some(Flaw::Version { .. }) => explain_versions(notes, table, report),
        Some(Flaw::Request { .. }) => explain_requests(notes, table, report),
        Some(Flaw::Member { .. }) => explain_members(notes, table, report),
        Some(Flaw::Dependencies { .. }) => explain_set(notes, table, report),
        Some(Flaw::Reason { refusal }) => explain_reason(notes, report, refusal),
    }
}

/// Adds that the table and the report have different numbers of images.
fn explain_count(notes: &mut NoteList, table: &Table, report: &Report) -> Result {
    let (here, there) = (table.images.len(), report.images.len());
    notes.add(format_args!("the report tells of {there} images, and the table of {here}"))
}

/// The line of a report, from 1, with the refusal of this index, from 0.
fn line_of(report: &Report, place: usize) -> usize {
    place.saturating_add(report.images.len()).saturating_add(1)
}

/// Adds the versions of a report that aren't those of the table.
fn explain_versions(notes: &mut NoteList, table: &Table, report: &Report) -> Result {
    for (number, reported) in report.images.iter().enumerate() {
        if let Some(image) = table.images.get(number) {
            let (version, told) = (version_in(image, reported.is_taken), reported.version);
            let line = number.saturating_add(1);
            if told != version {
                notes.add(format_args!(
                    "report line {line}: image {number} would run {version}, and {told} is told"
                ))?;
            }
        }
    }
    Ok(())
}

/// Adds the requests that aren't taken or refused exactly once.
fn explain_requests(notes: &mut NoteList, table: &Table, report: &Report) -> Result {
    explain_strangers(notes, table, report)?;
    for (number, image) in table.images.iter().enumerate() {
        let refused = times_refused(report.refusals.as_slice(), number);
        let times = refused.saturating_add(usize::from(is_taken(report, number)));
        explain_times(notes, number, image.request != Request::None, times)?;
    }
    Ok(())
}

/// Adds the refusals of images that the table doesn't have.
fn explain_strangers(notes: &mut NoteList, table: &Table, report: &Report) -> Result {
    let count = table.images.len();
    let all = Images(count);
    for (place, refusal) in report.refusals.iter().enumerate() {
        let (line, image) = (line_of(report, place), refusal.image);
        if usize::from(image) >= count {
            notes.add(format_args!(
                "report line {line}: there is no image {image}; the table has {all}"
            ))?;
        }
    }
    Ok(())
}

/// Adds that the request of an image isn't decided exactly once, or that there is no request to
/// decide.
fn explain_times(notes: &mut NoteList, number: usize, is_requested: bool, times: usize) -> Result {
    match (is_requested, times) {
        (true, 1) | (false, 0) => Ok(()),
        (true, 0) => notes.add(format_args!(
            "image {number}: the report neither takes nor refuses its request"
        )),
        (true, _) => notes.add(format_args!(
            "image {number}: the report decides its request {times} times"
        )),
        (false, _) => notes.add(format_args!(
            "image {number}: nothing is requested, and the report decides a request"
        )),
    }
}

/// Adds the requests that are taken but have to be refused.
fn explain_members(notes: &mut NoteList, table: &Table, report: &Report) -> Result {
    for (number, image) in table.images.iter().enumerate() {
        if is_taken(report, number) {
            explain_member(notes, number, image)?;
        }
    }
    Ok(())
}

/// Adds why the request of an image has to be refused, if it has.
fn explain_member(notes: &mut NoteList, number: usize, image: &Image) -> Result {
    let line = number.saturating_add(1);
    let Request::Entry(entry) = &image.request else {
        return notes.add(format_args!(
            "report line {line} takes a request that is no intact image"
        ));
    };
    let (version, running) = (entry.version, image.running.version);
    let (counter, floor) = (entry.counter, image.floor);
    if version < running {
        notes.add(format_args!(
            "report line {line} takes {version}, and {running} runs, which is newer"
        ))
    } else if counter < floor {
        notes.add(format_args!(
            "report line {line} takes the security counter {counter}, below the floor {floor}"
        ))
    } else {
        Ok(())
    }
}

/// Adds that a reason doesn't hold after the refusals before it: that of the refusal at this place of
/// the report's list, from 0.
fn explain_reason(notes: &mut NoteList, report: &Report, place: usize) -> Result {
    let Some(refusal) = report.refusals.get(place) else {
        return Ok(());
    };
    let line = line_of(report, place);
    let (image, reason) = (refusal.image, &refusal.reason);
    notes.add(format_args!(
        "report line {line}: `{reason}` is no reason to refuse image {image} after the lines before"
    ))
}
