//! Marks the remaining requests that have a dependency or a group out of reach.

ghost use Rattle.std.specs.Prelude.{◌≡◌, ◌+◌, ◌^◌, ◌<◌, ◌≤◌, ℕ, length};
ghost use Rattle.reports.specs.Reasons.{times_refused};
ghost use Rattle.reports.specs.Rightness.{has_request, once_if};
ghost use Rattle.chooser.specs.Marks.{AreMarks, AreMarksApartFrom, has_need};

use crate::needs::{has_unmet, is_refused};
use crate::steps::Steps;
use common::limits::MOST_IMAGES;
use common::mask::is_member;
use reports::{Refusal, Table};
use validity::dependants;

/// Returns the marks after these refusals, with one look at each remaining request.
pub(crate) fn marks_after(table: &Table, refusals: &[Refusal]) -> [bool; MOST_IMAGES]
    ensures { AreMarks table.now refusals.now result }
{
    let mut marks = [false; MOST_IMAGES];
    for number in 0..table.images.len() as u8 {
        marks[usize::from(number)] = has_need(table, refusals, number);
    }
    marks
}

/// Returns whether the request of an image isn't refused and has a dependency or a group out of
/// reach.
fn has_need(table: &Table, refusals: &[Refusal], number: u8) -> bool
    ensures { result ≡ has_need table.now refusals.now number }
{
    !is_refused(refusals, number) && has_unmet(table, refusals, number)
}

/// Updates the marks after the request of `dropped` was refused, and counts the looks. It looks at
/// the remaining requests that depend on that image or have it as an alternative. The marks of all
/// others stay right, because the refusal puts nothing that they need out of reach.
pub(crate) fn mark_dependants(
    table: &Table,
    refusals: &[Refusal],
    dropped: u8,
    marks: &mut [bool; MOST_IMAGES],
    steps: &mut Steps,
)
    requires others { AreMarksApartFrom table.now refusals.now dropped marks.old }
    requires once { (i : ℕ) → times_refused refusals.now i ≤ once_if (has_request table.now i) }
    requires room { steps.old.looks + MOST_IMAGES < 2 ^ 32 }
    ensures marks { AreMarks table.now refusals.now marks.new }
    ensures looks { steps.new.looks + length refusals.now
        ≤ steps.old.looks + length table.now.images.items }
    ensures only_looks { (steps.old.looks ≤ steps.new.looks)
        × (steps.new ≡ record steps.old { looks = steps.new.looks }) }
{
    let dependants = dependants(table, dropped);
    for number in 0..table.images.len() as u8 {
        if is_member(dependants, number) && !is_refused(refusals, number) {
            steps.looks += 1;
            marks[usize::from(number)] = has_unmet(table, refusals, number);
        }
    }
}
