//! Gathers the fields of an area in one walk over its entries, and checks that they fill the area.

ghost use Rattle.std.specs.Prelude.{◌≡◌, ℕ, ◌+◌, ◌^◌, ◌<◌, ◌∷◌, List, IfNone, IfSome, OnSome};
ghost use Rattle.flash_model.specs.Chip.{Chip};
ghost use Rattle.image_reading.specs.Area.{Entry, values_of};
ghost use Rattle.image_reading.specs.Fault.{IsFilled};
ghost use Rattle.image_reading.specs.Gathered.{HasGatheredProtected, HasGatheredUnprotected, HasNoNeeds, IsOccurrence};
ghost use Rattle.image_reading.specs.SlotTlvs.{slot_tlv_view};
ghost use Rattle.image_reading.specs.Span.{CanRead, bytes_of};

use crate::desc::Desc;
use crate::format::{COUNTER_KIND, DEPENDENCY_KIND, DIGEST_KIND, GROUP_KIND};
use crate::medium::Medium;
use crate::met::ItemFaults;
use crate::slot_tlvs::{SlotTlv, SlotTlvs};
use crate::span::Span;

/// How often a type occurs of which an area may have only one entry.
#[derive(Clone, Copy)]
pub(crate) enum Occurrence {
    /// There is no entry of the type.
    Absent,
    /// There is one. This is the span of its value.
    Once(Span),
    /// There are two or more.
    Repeated,
}

impl Occurrence {
    /// How often the type occurs if this entry is counted too.
    fn with(self, kind: u16, entry: SlotTlv) -> Occurrence
        ensures { (chip : Chip) (values : List (List ℕ)) (left : List Entry)
            → CanRead chip entry.value
            → IsOccurrence chip values (values_of kind (slot_tlv_view chip entry ∷ left)) self
            → IsOccurrence chip values (values_of kind left) result }
    {
        if entry.kind != kind {
            return self;
        }
        match self {
            Occurrence::Absent => Occurrence::Once(entry.value),
            Occurrence::Once(_) => Occurrence::Repeated,
            Occurrence::Repeated => Occurrence::Repeated,
        }
    }
}

/// The fields of a protected area, except its dependencies and groups: these are in a description.
#[derive(Clone, Copy)]
pub(crate) struct ProtectedFields {
    /// The span of the entries, without the area's first four bytes; no bytes if the area is
    /// absent.
    pub(crate) entries: Span,
    /// The faults of the dependencies of these entries.
    pub(crate) dependencies: ItemFaults,
    /// The faults of the groups of these entries.
    pub(crate) groups: ItemFaults,
    /// The security counter of these entries.
    pub(crate) counter: Occurrence,
}

/// The fields of an unprotected area.
#[derive(Clone, Copy)]
pub(crate) struct UnprotectedFields {
    /// The span of the entries, without the area's first four bytes.
    pub(crate) entries: Span,
    /// The digest of these entries.
    pub(crate) digest: Occurrence,
}

/// Gathers the fields of a protected area, if the entries fill it. Adds its dependencies and groups
/// to a description that has none yet.
pub(crate) fn protected_fields<M: Medium>(
    medium: &mut M,
    area: Span,
    description: &mut Desc,
) -> Option<ProtectedFields>
    requires readable { CanRead (M.chip medium.old) area }
    requires short { 4 + area.len < 2 ^ 16 }
    requires blank { HasNoNeeds description.old }
    ensures same { M.chip medium.new ≡ M.chip medium.old }
    ensures filled { OnSome result (IsFilled (bytes_of (M.chip medium.old) area)) }
    ensures not_filled { IfNone result (IsFilled (bytes_of (M.chip medium.old) area) → ⊥) }
    ensures place { IfSome result (λ fields. fields.entries ≡ area) }
    ensures gathered { IfSome result (λ fields.
        HasGatheredProtected (M.chip medium.old) fields description.new) }
{
    let mut protected = SlotTlvs::new(area);
    let mut dependencies = ItemFaults::new();
    let mut groups = ItemFaults::new();
    let mut counter = Occurrence::Absent;
    while let Some(entry) = protected.step(medium) {
        dependencies.meet(
            &mut description.dependencies,
            medium,
            DEPENDENCY_KIND,
            entry,
        );
        groups.meet(&mut description.groups, medium, GROUP_KIND, entry);
        counter = counter.with(COUNTER_KIND, entry);
    }
    let is_filled = protected.rest().len == 0;
    if !is_filled {
        return None;
    }
    Some(ProtectedFields {
        entries: area,
        dependencies,
        groups,
        counter,
    })
}

/// Gathers the fields of an unprotected area, if the entries fill it.
pub(crate) fn unprotected_fields<M: Medium>(medium: &mut M, area: Span) -> Option<UnprotectedFields>
    requires readable { CanRead (M.chip medium.old) area }
    requires short { 4 + area.len < 2 ^ 16 }
    ensures same { M.chip medium.new ≡ M.chip medium.old }
    ensures filled { OnSome result (IsFilled (bytes_of (M.chip medium.old) area)) }
    ensures not_filled { IfNone result (IsFilled (bytes_of (M.chip medium.old) area) → ⊥) }
    ensures place { IfSome result (λ fields. fields.entries ≡ area) }
    ensures gathered { IfSome result (HasGatheredUnprotected (M.chip medium.old)) }
{
    let mut unprotected = SlotTlvs::new(area);
    let mut digest = Occurrence::Absent;
    while let Some(entry) = unprotected.step(medium) {
        digest = digest.with(DIGEST_KIND, entry);
    }
    let is_filled = unprotected.rest().len == 0;
    if !is_filled {
        return None;
    }
    Some(UnprotectedFields {
        entries: area,
        digest,
    })
}
