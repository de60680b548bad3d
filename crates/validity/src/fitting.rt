//! Checks whether running images fit each other.

ghost use Rattle.std.specs.List.{list_all};
ghost use Rattle.std.specs.Prelude.{◌≡◌, ◌↔◌, IsTrue};
ghost use Rattle.reports.specs.Combination.{IsValid, is_group_met, is_met, meets_all, running_set};
ghost use Rattle.validity.specs.Running.{running_table};

use crate::running::Running;
use arrayvec::ArrayVec;
use common::limits::MOST_IMAGES;
use reports::{Entry, Table};
use version_order::{Dependency, Group};

/// Returns whether the running versions meet the dependencies and groups of the running images.
/// Then the combination that takes no request is valid (MCUboot, dependency check). A table of no
/// images is valid.
#[tactic(auto, using(crate::proofs::RunningSet::running_set_is_valid))]
pub fn is_valid(table: &Table) -> bool
    ensures { IsTrue result ↔ IsValid table.now running_set }
{
    table
        .images
        .iter()
        .all(|image| meets_all(table, &image.running))
}

/// Returns whether images meet each other's dependencies and groups: `is_valid` of the table in
/// which they run, and nothing is requested. Such a table takes twice the memory of the entries.
pub fn can_run_together(running: &ArrayVec<Entry, MOST_IMAGES>) -> bool
    ensures { IsTrue result ↔ IsValid (running_table running.now.items) running_set }
{
    can_all_run(running, running)
}

/// Returns whether running versions meet the dependencies and groups of several images that run.
fn can_all_run<R: Running>(running: &R, entries: &[Entry]) -> bool
    ensures { result ≡ list_all (meets_all (R.table running.now) running_set) entries.now }
{
    entries.iter().all(|entry| meets_all(running, entry))
}

/// Returns whether running versions meet the dependencies and groups of an image that runs.
fn meets_all<R: Running>(running: &R, entry: &Entry) -> bool
    ensures { result ≡ meets_all (R.table running.now) running_set entry.now }
{
    meets_dependencies(running, &entry.dependencies) && meets_groups(running, &entry.groups)
}

fn meets_dependencies<R: Running>(running: &R, dependencies: &[Dependency]) -> bool
    ensures { result ≡ list_all (is_met (R.table running.now) running_set) dependencies.now }
{
    dependencies
        .iter()
        .all(|dependency| is_met(running, dependency))
}

fn meets_groups<R: Running>(running: &R, groups: &[Group]) -> bool
    ensures { result ≡ list_all (is_group_met (R.table running.now) running_set) groups.now }
{
    groups.iter().all(|group| is_group_met(running, group))
}

/// Returns whether the running versions meet at least one alternative of a group.
fn is_group_met<R: Running>(running: &R, group: &Group) -> bool
    ensures { result ≡ is_group_met (R.table running.now) running_set group.now }
{
    group
        .alternatives
        .iter()
        .any(|alternative| is_met(running, alternative))
}

/// Returns whether a running version meets a dependency.
fn is_met<R: Running>(running: &R, dependency: &Dependency) -> bool
    ensures { result ≡ is_met (R.table running.now) running_set dependency.now }
{
    match running.version_of(dependency.image) {
        Some(version) => version >= dependency.minimum,
        None => false,
    }
}
