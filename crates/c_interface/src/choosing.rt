//! The choice for a table, and the check of a report, both as texts.
//!
//! Tables and reports are filled in place, since each one that is moved is copied on the stack. A
//! table takes most of the stack of a choice and of a check, so each has a second call, which fills
//! one in memory that its caller lends.

ghost use Rattle.std.specs.Borrow.{sem};
ghost use Rattle.std.specs.Ptr.{room_at};
ghost use Rattle.c_interface.specs.Choosing.{AnswersCheck, AnswersChoice};
ghost use Rattle.c_interface.specs.contracts.workspace.Workspace.{the_row as workspace_row};

use crate::numbers::{DONE, INVALID_SET, NO_REPORT, NO_TABLE, TOO_SMALL, WRONG};
use crate::texts::put_report;
use crate::workspace::Workspace;
use checker::check;
use chooser::choose_into;
use reports::{BadReport, BadTable, Report, Table};
use validity::is_valid;

/// Chooses among the requests of a table, which is a text, and writes the text of the report to the
/// front of `buffer`. The table is read to a place, which may hold any. Both calls from C have this
/// code, which is there once.
#[inline(never)]
fn choose_at(place: &mut Table, text: &[u8], buffer: &mut [u8], length: &mut u64) -> u32
    ensures { AnswersChoice text.now buffer.old buffer.new length.new result }
{
    if let Err(BadTable(line)) = Table::parse_into(text, place) {
        *length = line as u64;
        return NO_TABLE;
    }
    if !is_valid(place) {
        *length = 0;
        return INVALID_SET;
    }
    let mut report = Report::default();
    choose_into(place, &mut report);
    match put_report(&report, buffer) {
        Some(put) => {
            *length = u64::from(put);
            DONE
        }
        None => {
            *length = 0;
            TOO_SMALL
        }
    }
}

/// Chooses among the requests of a table, which is a text, and writes the text of the report to the
/// front of `buffer`. A buffer of 2048 bytes is always large enough.
///
/// Returns 0, and in `length` the length of the report in bytes; `NO_TABLE`, and in `length` the
/// number of the first bad line, counted from 1; `INVALID_SET` if the running images don't fit each
/// other; or `TOO_SMALL`, only if the report has more bytes than `buffer`.
#[unsafe(no_mangle)]
pub extern "C" fn bootswap_choose(table: &[u8], buffer: &mut [u8], length: &mut u64) -> u32
    ensures { AnswersChoice table.now buffer.old buffer.new length.new result }
{
    let mut place = Table::default();
    choose_at(&mut place, table, buffer, length)
}

/// Chooses as [`bootswap_choose`] does, with the table in the workspace, so that it takes no stack.
///
/// # Safety
/// The workspace is the call's until it returns. It may hold anything.
#[unsafe(no_mangle)]
pub unsafe extern "C" fn bootswap_choose_in(
    workspace: *mut Workspace,
    table: &[u8],
    buffer: &mut [u8],
    length: &mut u64,
) -> u32
    requires* room { sem 𝓛 (room_at workspace_row workspace) }
    ensures* room { sem 𝓛 (room_at workspace_row workspace) }
    ensures answer { AnswersChoice table.now buffer.old buffer.new length.new result }
{
    let place = workspace as *mut Table;
    place.write(Table::default());
    choose_at(&mut *place, table, buffer, length)
}

/// Checks whether a report is right for a table. Both are texts. The table is read to a place, which
/// may hold any. Both calls from C have this code, which is there once.
#[inline(never)]
fn check_at(place: &mut Table, rows: &[u8], lines: &[u8], line: &mut u64) -> u32
    ensures { AnswersCheck rows.now lines.now line.new result }
{
    if let Err(BadTable(bad)) = Table::parse_into(rows, place) {
        *line = bad as u64;
        return NO_TABLE;
    }
    let mut report = Report::default();
    if let Err(BadReport(bad)) = Report::parse_into(lines, &mut report) {
        *line = bad as u64;
        return NO_REPORT;
    }
    *line = 0;
    if check(place, &report) { DONE } else { WRONG }
}

/// Checks whether a report is right for a table. Both are texts.
///
/// Returns 0 if it is, `WRONG` if it isn't; or `NO_TABLE` or `NO_REPORT`, and in `line` the number
/// of the first bad line, counted from 1. In every other case `line` is 0.
#[unsafe(no_mangle)]
pub extern "C" fn bootswap_check(table: &[u8], report: &[u8], line: &mut u64) -> u32
    ensures { AnswersCheck table.now report.now line.new result }
{
    let mut place = Table::default();
    check_at(&mut place, table, report, line)
}

/// Checks as [`bootswap_check`] does, with the table in the workspace, so that it takes no stack.
///
/// # Safety
/// The workspace is the call's until it returns. It may hold anything.
#[unsafe(no_mangle)]
pub unsafe extern "C" fn bootswap_check_in(
    workspace: *mut Workspace,
    table: &[u8],
    report: &[u8],
    line: &mut u64,
) -> u32
    requires* room { sem 𝓛 (room_at workspace_row workspace) }
    ensures* room { sem 𝓛 (room_at workspace_row workspace) }
    ensures answer { AnswersCheck table.now report.now line.new result }
{
    let place = workspace as *mut Table;
    place.write(Table::default());
    check_at(&mut *place, table, report, line)
}
