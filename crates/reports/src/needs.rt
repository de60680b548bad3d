//! Prints dependencies and groups, in tables, in reports and in descriptions of an image.

ghost use Rattle.std.specs.Prelude.{◌≡◌, IfOk, Some};
ghost use Rattle.reports.specs.DependencyText.{alternatives_text, needs_one_text, needs_text};

use crate::sink::{Sink, write_image_and_version};
use std::fmt;
use version_order::{Dependency, Group};

/// A dependency, printed as `needs J VERSION` without a line feed: image J in at least this
/// version.
#[derive(Clone, Copy, Debug, PartialEq, Eq)]
pub struct Needs(pub Dependency);

impl fmt::Display for Needs {
    ghost output = { λ needs. Some (needs_text needs.0) };

    fn fmt<W: fmt::Write>(&self, f: &mut fmt::Formatter<W>) -> fmt::Result {
        write_dependency(f, &self.0)
    }
}

/// A group, printed as `needs-one J VERSION ..` without a line feed: at least one of these images,
/// in at least its version.
#[derive(Clone, Copy, Debug, PartialEq, Eq)]
pub struct NeedsOne<'a>(pub &'a Group);

impl<'a> fmt::Display for NeedsOne<'a> {
    ghost output = { λ needs. Some (needs_one_text needs.0.now) };

    fn fmt<W: fmt::Write>(&self, f: &mut fmt::Formatter<W>) -> fmt::Result {
        write_group(f, self.0)
    }
}

/// Writes a dependency without a line feed.
pub(crate) fn write_dependency<S: Sink>(
    sink: &mut S,
    dependency: &Dependency,
) -> Result<(), S::Error>
    ensures { IfOk result (λ done. S.takes sink.old (needs_text dependency.now) sink.new) }
{
    write_image_and_version(sink, "needs ", dependency.image, &dependency.minimum)
}

/// Writes a group without a line feed.
pub(crate) fn write_group<S: Sink>(sink: &mut S, group: &Group) -> Result<(), S::Error>
    ensures { IfOk result (λ done. S.takes sink.old (needs_one_text group.now) sink.new) }
{
    sink.put("needs-one")?;
    write_alternatives(sink, group.alternatives.as_slice())
}

// Writes for each alternative a space, the number of its image, a space, and its version.
fn write_alternatives<S: Sink>(sink: &mut S, alternatives: &[Dependency]) -> Result<(), S::Error>
    ensures { IfOk result (λ done. S.takes sink.old (alternatives_text alternatives.now) sink.new) }
{
    for alternative in alternatives {
        write_image_and_version(sink, " ", alternative.image, &alternative.minimum)?;
    }
    Ok(())
}
