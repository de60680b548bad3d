//! Explains what a read-only command found.

use crate::Result;
use crate::device_files::explain_map;
use crate::faults::explain_no_state;
use crate::image_notes::explain_image;
use crate::manifest_notes::explain_manifest;
use crate::needs::{explain_refusals, explain_running};
use crate::slots::explain_slot;
use crate::verdicts::explain_no;
use device_texts::NoteList;
use inspecting::{Inspection, NextDecision};
use sector_map::Side;
use std::alloc::Global;

/// Adds why what a read-only command found is a no or a refusal, or why a decision refuses requests.
/// JSON values and the sizes of a map are in memory of `alloc`.
pub fn explain_inspection(notes: &mut NoteList, alloc: Global, found: &Inspection) -> Result {
    match found {
        Inspection::Choice(choice) => explain_refusals(notes, &choice.table, &choice.report),
        Inspection::Verdict(verdict) if !verdict.is_right => {
            explain_no(notes, &verdict.table, &verdict.report)
        }
        Inspection::RefusedImage(refused) => explain_image(notes, &refused.bytes, refused.fault),
        Inspection::RefusedManifest(refused) => {
            explain_manifest(notes, alloc, &refused.text, &refused.identity)
        }
        Inspection::RefusedMap(refused) => explain_map(notes, alloc, &refused.text, refused.fault),
        Inspection::NoState => explain_no_state(notes),
        Inspection::Slots(_, slots) => match &slots.decision {
            Some(decision) => explain_decision(notes, decision),
            None => Ok(()),
        },
        Inspection::Verdict(_)
        | Inspection::Image(_)
        | Inspection::Manifest(_)
        | Inspection::State(_)
        | Inspection::Codes(_) => Ok(()),
    }
}

/// Adds why the decision of the next boot refuses requests, or why the boot would be refused.
fn explain_decision(notes: &mut NoteList, decision: &NextDecision) -> Result {
    match decision {
        NextDecision::Decided { table, report } => explain_refusals(notes, table, report),
        NextDecision::Damaged { image, slot } => {
            explain_slot(notes, slot, *image, Side::Primary)
        }
        NextDecision::Invalid { table } => explain_running(notes, table),
    }
}
