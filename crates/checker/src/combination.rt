//! Checks the combination of requests that a report takes.

ghost use Rattle.std.specs.List.{list_all};
ghost use Rattle.std.specs.Prelude.{◌≡◌, ◌↔◌, IsTrue};
ghost use Rattle.reports.specs.Combination.{entry_in, is_group_met, is_met, meets_all, HasMetDependencies, IsAcceptable};
ghost use Rattle.checker.specs.Flaws.{IsAcceptableIfTaken, IsFirstFailure};
ghost use Rattle.reports.specs.Rightness.{taken_in};

use crate::images::{entry_in, is_taken};
use reports::{Image, Report, Request, Table};
use version_order::{Dependency, Group};

/// Returns the lowest image whose request a report takes and that has no acceptable request.
pub(crate) fn first_unacceptable_member(table: &Table, report: &Report) -> Option<usize>
    ensures { IsFirstFailure (IsAcceptableIfTaken table.now report.now) result }
{
    for number in 0..report.images.len() {
        if is_taken(report, number) && !is_acceptable(table, number) {
            return Some(number);
        }
    }
    None
}

/// Returns whether a table has an image `number` with an acceptable request: it is intact, it isn't
/// older than the running image, and its security counter isn't below the floor.
fn is_acceptable(table: &Table, number: usize) -> bool
    ensures { IsTrue result ↔ IsAcceptable table.now number }
{
    let Some(image) = table.images.get(number) else {
        return false;
    };
    match &image.request {
        Request::Entry(entry) => {
            entry.version >= image.running.version && entry.counter >= image.floor
        }
        _ => false,
    }
}

/// Returns the lowest image of a table, taken or running on, of which the combination of a report
/// doesn't meet all dependencies and groups.
pub(crate) fn first_unmet(table: &Table, report: &Report) -> Option<usize>
    ensures { IsFirstFailure (HasMetDependencies table.now (taken_in report.now)) result }
{
    for (number, image) in table.images.iter().enumerate() {
        if !can_run_on(table, report, number, image) {
            return Some(number);
        }
    }
    None
}

/// Returns whether the combination of a report meets all dependencies and groups of image `number`,
/// which is taken or runs on.
fn can_run_on(table: &Table, report: &Report, number: usize, image: &Image) -> bool
    ensures { result
        ≡ meets_all table.now (taken_in report.now)
        (entry_in image.now (taken_in report.now number)) }
{
    let entry = entry_in(image, is_taken(report, number));
    meets_dependencies(table, report, &entry.dependencies)
        && meets_groups(table, report, &entry.groups)
}

fn meets_dependencies(table: &Table, report: &Report, dependencies: &[Dependency]) -> bool
    ensures { result ≡ list_all (is_met table.now (taken_in report.now)) dependencies.now }
{
    dependencies
        .iter()
        .all(|dependency| is_met(table, report, dependency))
}

fn meets_groups(table: &Table, report: &Report, groups: &[Group]) -> bool
    ensures { result ≡ list_all (is_group_met table.now (taken_in report.now)) groups.now }
{
    groups
        .iter()
        .all(|group| is_group_met(table, report, group))
}

/// Returns whether the combination of a report meets at least one alternative of a group.
fn is_group_met(table: &Table, report: &Report, group: &Group) -> bool
    ensures { result ≡ is_group_met table.now (taken_in report.now) group.now }
{
    group
        .alternatives
        .iter()
        .any(|alternative| is_met(table, report, alternative))
}

/// Returns whether the combination of a report meets a dependency.
fn is_met(table: &Table, report: &Report, dependency: &Dependency) -> bool
    ensures { result ≡ is_met table.now (taken_in report.now) dependency.now }
{
    let number = usize::from(dependency.image);
    match table.images.get(number) {
        Some(image) => entry_in(image, is_taken(report, number)).version >= dependency.minimum,
        None => false,
    }
}
