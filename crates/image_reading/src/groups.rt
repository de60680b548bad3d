//! Reads groups of alternatives.

use crate::format::DEPENDENCY_LENGTH;
use crate::medium::Medium;
use crate::met::Spelled;
use crate::span::Span;
use arrayvec::ArrayVec;
use common::limits::MOST_ALTERNATIVES;
use version_order::{Dependency, Group};

/// The length in bytes of the longest group.
const MOST_GROUP_LENGTH: usize = MOST_ALTERNATIVES * DEPENDENCY_LENGTH;

impl Spelled for Group {
    ghost use Rattle.image_reading.specs.Gathered.{group_spelling};

    ghost spelling = { group_spelling };

    // Reads the alternatives one by one, twelve bytes each.
    fn at<M: Medium>(medium: &mut M, value: Span) -> Option<Group> {
        let is_whole = value.len % DEPENDENCY_LENGTH == 0;
        if value.len == 0 || value.len > MOST_GROUP_LENGTH || !is_whole {
            return None;
        }
        let mut alternatives = ArrayVec::new();
        let mut rest = value;
        while rest.len > 0 {
            let alternative = Dependency::at(medium, rest.first(DEPENDENCY_LENGTH))?;
            alternatives.push(alternative);
            rest = rest.after(DEPENDENCY_LENGTH);
        }
        Some(Group { alternatives })
    }
}
