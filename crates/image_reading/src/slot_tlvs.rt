//! Walks over the entries of an area in a flash.

ghost use Rattle.std.specs.Prelude.{◌≡◌, ◌<◌, [], IfNone, IfOk, IfSome, OnErr, OnOk};
ghost use Rattle.flash_model.specs.Chip.{Ends};
ghost use Rattle.image_reading.specs.Reading.{rest_of};
ghost use Rattle.image_reading.specs.SlotTlvs.{IsStep, LiesAtStep, slot_tlvs_rest};
ghost use Rattle.image_reading.specs.Span.{CanRead, IsInside, bytes_of};

use crate::medium::Medium;
use crate::span::Span;
use crate::walk::first_slot_tlv;
use flash_model::{Flash, Result};

/// An entry of an area in a flash (MCUboot's `struct image_tlv`), with the span of its value.
#[derive(Clone, Copy, Debug, PartialEq, Eq)]
pub struct SlotTlv {
    /// The type, which defines the meaning of the value.
    pub kind: u16,
    /// The span of the value.
    pub value: Span,
}

/// A walk over the entries of an area in a flash, up to the first entry that doesn't fit. Each call
/// borrows the flash, and reads only the type and length of entries.
#[derive(Clone, Copy, Debug)]
pub struct SlotTlvs {
    rest: Span,
}

impl SlotTlvs {
    /// Starts a walk over an area. `area` is the area without its magic number and length.
    pub fn new(area: Span) -> SlotTlvs
        ensures { slot_tlvs_rest result ≡ area }
    {
        SlotTlvs { rest: area }
    }

    /// The span of the bytes after the entries given so far.
    pub fn rest(&self) -> Span
        ensures { result ≡ slot_tlvs_rest self.now }
    {
        self.rest
    }

    /// Returns the next entry, or `None` after the last. The area must be inside the flash.
    ///
    /// # Errors
    /// `Off` if the flash was off. The walk doesn't advance.
    pub fn next<F: Flash>(&mut self, flash: &mut F) -> Result<Option<SlotTlv>>
        requires { IsInside (F.chip flash.old) (slot_tlvs_rest self.old) }
        ensures same { F.chip flash.new ≡ F.chip flash.old }
        ensures inside { IsInside (F.chip flash.old) (slot_tlvs_rest self.new) }
        // The old entries are this one followed by the remaining ones.
        ensures ok { IfOk result (IsStep (F.chip flash.old) self.old self.new) }
        // The entry is at the beginning of the old rest.
        ensures lies { IfOk result (LiesAtStep self.old self.new) }
        ensures err { OnErr result (self.new ≡ self.old) }
        ensures erases { OnOk result ((F.chip flash.new).erases ≡ (F.chip flash.old).erases) }
        ensures ends { Ends result (F.chip flash.old) (F.chip flash.new) }
    {
        flash.read(0, &mut [])?;
        Ok(self.step(flash))
    }

    /// Returns the next entry, if there is one, of an area that can be read.
    pub(crate) fn step<M: Medium>(&mut self, medium: &mut M) -> Option<SlotTlv>
        requires { CanRead (M.chip medium.old) (slot_tlvs_rest self.old) }
        ensures same { M.chip medium.new ≡ M.chip medium.old }
        ensures readable { CanRead (M.chip medium.old) (slot_tlvs_rest self.new) }
        ensures steps { IsStep (M.chip medium.old) self.old self.new result }
        // The bytes after all entries stay the same, and are the rest at the end.
        ensures rest { rest_of (bytes_of (M.chip medium.old) (slot_tlvs_rest self.new))
            ≡ rest_of (bytes_of (M.chip medium.old) (slot_tlvs_rest self.old)) }
        ensures ended { IfNone result (bytes_of (M.chip medium.old) (slot_tlvs_rest self.new)
            ≡ rest_of (bytes_of (M.chip medium.old) (slot_tlvs_rest self.old))) }
        ensures lies { LiesAtStep self.old self.new result }
        ensures shorter { IfSome result (λ _.
            (slot_tlvs_rest self.new).len < (slot_tlvs_rest self.old).len) }
        ensures value { IfSome result (λ tlv. CanRead (M.chip medium.old) tlv.value) }
    {
        let (tlv, rest) = first_slot_tlv(medium, self.rest)?;
        self.rest = rest;
        Some(tlv)
    }
}
