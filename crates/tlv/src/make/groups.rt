//! Checks the groups of an image, and writes their entries.

ghost use Rattle.std.specs.Prelude.{◌≡◌, ◌↔◌, ◌≤◌, IsTrue, length, map};
ghost use Rattle.std.specs.List.{AllByRecursion};
ghost use Rattle.image_reading.specs.Area.{entries_bytes, entry_bytes};
ghost use Rattle.image_reading.specs.Fields.{FitsDependency, FitsGroup, alternatives_bytes, group_kind};
ghost use Rattle.tlv.specs.Making.{AreGroups, HasAlternatives, group_entry, groups_of};
ghost use Rattle.tlv.specs.Writing.{PutsAfter};

use crate::make::entries::{put_dependency, put_head};
use common::limits::{MOST_ALTERNATIVES, MOST_GROUPS};
use image_reading::format::{DEPENDENCY_LENGTH, GROUP_KIND, HEAD_LENGTH};
use version_order::Dependency;

/// Whether an image may have these groups: at most `MOST_GROUPS`, each with at least one
/// alternative and at most `MOST_ALTERNATIVES`.
pub fn are_groups(groups: &[&[Dependency]]) -> bool
    ensures { IsTrue result ↔ AreGroups (groups_of groups.now) }
{
    if groups.len() > MOST_GROUPS {
        return false;
    }
    for alternatives in groups {
        if alternatives.is_empty() || alternatives.len() > MOST_ALTERNATIVES {
            return false;
        }
    }
    true
}

/// The length in bytes of the entries of groups.
pub fn groups_length(groups: &[&[Dependency]]) -> usize
    requires { AreGroups (groups_of groups.now) }
    ensures length { result ≡ length (entries_bytes (map group_entry (groups_of groups.now))) }
    ensures few { result ≤ 208 }
{
    let mut length = 0;
    for alternatives in groups {
        length += HEAD_LENGTH + DEPENDENCY_LENGTH * alternatives.len();
    }
    length
}

/// Writes the alternatives of a group.
#[tactic(auto, using(std::proofs::lemmas::List::take_all))]
fn put_alternatives(buffer: &mut [u8], place: usize, alternatives: &[Dependency]) -> usize
    ensures written { PutsAfter place buffer.old (alternatives_bytes alternatives.now) result
        buffer.new }
    ensures fit { AllByRecursion FitsDependency alternatives.now }
{
    let mut end = place;
    for alternative in alternatives {
        end = put_dependency(buffer, end, alternative);
    }
    end
}

/// Writes the entry of a group.
fn put_group(buffer: &mut [u8], place: usize, alternatives: &[Dependency]) -> usize
    requires { length alternatives.now ≤ MOST_ALTERNATIVES }
    ensures entry { let value = alternatives_bytes alternatives.now in
        let entry = entry_bytes (record { kind = group_kind; value = value }) in
        PutsAfter place buffer.old entry result buffer.new }
    ensures fit { AllByRecursion FitsDependency alternatives.now }
{
    let size = DEPENDENCY_LENGTH * alternatives.len();
    let place = put_head(buffer, place, GROUP_KIND, size as u16);
    put_alternatives(buffer, place, alternatives)
}

/// Writes the entries of groups.
#[tactic(auto, using(std::proofs::lemmas::List::take_all))]
pub fn put_groups(buffer: &mut [u8], place: usize, groups: &[&[Dependency]]) -> usize
    requires { AllByRecursion HasAlternatives (groups_of groups.now) }
    ensures entries { let entries = entries_bytes (map group_entry (groups_of groups.now)) in
        PutsAfter place buffer.old entries result buffer.new }
    ensures fit { AllByRecursion FitsGroup (groups_of groups.now) }
{
    let mut end = place;
    for alternatives in groups {
        end = put_group(buffer, end, alternatives);
    }
    end
}
