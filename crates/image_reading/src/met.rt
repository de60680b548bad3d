//! Collects the items of the entries of one type, entry by entry.

ghost use Rattle.std.specs.Prelude.{◌≡◌, ◌∷◌, ℕ, List, IfNone, IfSome, false};
ghost use Rattle.image_reading.specs.Area.{Entry, values_of};
ghost use Rattle.image_reading.specs.Gathered.{HasMet, Spelling};
ghost use Rattle.image_reading.specs.SlotTlvs.{slot_tlv_view};
ghost use Rattle.image_reading.specs.Span.{CanRead, bytes_of};

use crate::medium::Medium;
use crate::slot_tlvs::SlotTlv;
use crate::span::Span;
use arrayvec::ArrayVec;

/// An item that the value of an entry encodes.
pub(crate) trait Spelled: Default + Drop {
    ghost spelling: { Spelling Self };

    /// Reads the item of a value, if the value has the form of one.
    fn at<M: Medium>(medium: &mut M, value: Span) -> Option<Self>
        requires { CanRead (M.chip medium.old) value }
        ensures same { M.chip medium.new ≡ M.chip medium.old }
        ensures fits { IfSome result spelling.Fits }
        ensures spelled { IfSome result (λ item.
            bytes_of (M.chip medium.old) value ≡ spelling.bytes item) }
        ensures none { IfNone result (spelling.IsForm (bytes_of (M.chip medium.old) value) → ⊥) };
}

/// The faults of the entries of one type that were read so far.
#[derive(Clone, Copy)]
pub(crate) struct ItemFaults {
    /// Whether there were more items than an image may have.
    pub(crate) too_many: bool,
    /// Whether a value didn't have the form of an item. Later values aren't read.
    pub(crate) bad: bool,
}

impl ItemFaults {
    /// No entry was read.
    pub(crate) fn new() -> ItemFaults
        ensures bad { result.bad ≡ false }
        ensures too_many { result.too_many ≡ false }
    {
        ItemFaults {
            too_many: false,
            bad: false,
        }
    }

    /// Takes an entry. Its value is read if the entry is of this type. `kept` has the first items:
    /// no more than an image may have.
    pub(crate) fn meet<T: Spelled, const MOST: usize, M: Medium>(
        &mut self,
        kept: &mut ArrayVec<T, MOST>,
        medium: &mut M,
        kind: u16,
        entry: SlotTlv,
    )
        requires { CanRead (M.chip medium.old) entry.value }
        ensures same { M.chip medium.new ≡ M.chip medium.old }
        ensures met { (values : List (List ℕ)) (left : List Entry)
            → HasMet T.spelling MOST values (values_of kind
            (slot_tlv_view (M.chip medium.old) entry ∷ left)) kept.old.items self.old
            → HasMet T.spelling MOST values (values_of kind left) kept.new.items self.new }
    {
        if entry.kind != kind || self.bad {
            return;
        }
        let Some(item) = T::at(medium, entry.value) else {
            self.bad = true;
            return;
        };
        if kept.is_full() {
            self.too_many = true;
        } else {
            kept.push(item);
        }
    }
}
