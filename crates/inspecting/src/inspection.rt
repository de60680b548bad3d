//! What a read-only command finds in its inputs, and the two forms in which it is written.
ghost use Rattle.std.specs.Prelude.{◌≡◌, IfOk, OnOk, string_bytes};
ghost use Rattle.serde_json.specs.Data.{no_members, string};
ghost use Rattle.serde_json.specs.View.{members_view, view};
ghost use Rattle.inspecting.specs.Inspection.{WritesInspection, answer_of, members_of, text_of, written};
ghost use Rattle.device_texts.specs.Notes.{sentences};
ghost use Rattle.device_texts.specs.declared.form.Form.TheVariants as form;

use crate::answer::{write_answer, write_text};
use crate::check::Verdict;
use crate::choose::Choice;
use crate::flash_state::FlashState;
use crate::image::RefusedImage;
use crate::json::{put_codes, put_description, put_manifest, put_slots, put_state};
use crate::manifest_file::RefusedManifest;
use crate::slots::{answer_to, listing_text};
use crate::slots_found::SlotsFound;
use crate::{check, image, manifest_file, show};
use command_line::{CodeGroup, code_list_text};
use device_texts::json::{
    Object, code_value, fault_value, map_value, put_notes, put_refused, put_report, put_value,
    value_line,
};
use device_texts::{Form, NoteList, map_refusal_text, refused_fault_text, write_all};
use host::{Answer, Refusal};
use image_reading::Desc;
use inputs::BadMap;
use machine::Fault;
use manifest::Manifest;
use serde_json::{Map, Value};
use std::alloc::{AllocError, Global};
use std::io::Write;

/// What a read-only command finds in its inputs. It owns what the notes of `--explain` need.
#[derive(Drop)]
pub enum Inspection {
    /// A table, and the right report on it.
    Choice(Choice),
    /// Whether a report is right for a table.
    Verdict(Verdict),
    /// The description of an intact image.
    Image(Desc),
    /// Bytes that aren't an intact image.
    RefusedImage(RefusedImage),
    /// A manifest for a device.
    Manifest(Manifest),
    /// A text that isn't a manifest for a device.
    RefusedManifest(RefusedManifest),
    /// A device file whose sizes make no map.
    RefusedMap(BadMap),
    /// The state of a device.
    State(FlashState),
    /// The log of a flash has no state.
    NoState,
    /// The state of a device, what its slots hold, and the decision of its next boot.
    Slots(FlashState, SlotsFound),
    /// The list of all codes and names.
    Codes(CodeList),
}

/// The codes and names of refusals.
#[derive(Clone, Copy)]
pub struct CodeList {
    /// The groups.
    pub groups: [CodeGroup; 7],
}

impl Inspection {
    /// Returns the answer: `Refused` if something is refused, or for a no.
    pub fn answer(&self) -> Answer
        ensures { result ≡ answer_of self.now }
    {
        match self {
            Inspection::Choice(_)
            | Inspection::Image(_)
            | Inspection::Manifest(_)
            | Inspection::State(_)
            | Inspection::Codes(_) => Answer::Done,
            Inspection::RefusedImage(_)
            | Inspection::RefusedManifest(_)
            | Inspection::RefusedMap(_)
            | Inspection::NoState => Answer::Refused,
            Inspection::Verdict(verdict) => check::verdict_answer(verdict.is_right),
            Inspection::Slots(_, slots) => answer_to(&slots.decision),
        }
    }

    /// Makes the text in memory of `alloc`.
    fn text(&self, alloc: Global) -> Result<String, AllocError>
        ensures { IfOk result (λ text. string_bytes text ≡ text_of self.now) }
    {
        match self {
            Inspection::Choice(Choice { report, .. }) => format!(in alloc; "{report}"),
            Inspection::Verdict(verdict) => String::from_str(
                alloc,
                check::verdict_text(verdict.is_right),
            ),
            Inspection::Image(description) => image::description_text(alloc, description),
            Inspection::RefusedImage(refused) => image::refusal_text(alloc, refused.fault),
            Inspection::Manifest(manifest) => manifest_file::manifest_text(alloc, manifest),
            Inspection::RefusedManifest(refused) => {
                manifest_file::refusal_text(alloc, refused.fault)
            }
            Inspection::RefusedMap(refused) => map_refusal_text(alloc, refused.fault),
            Inspection::State(state) => show::state_text(alloc, state),
            Inspection::NoState => refused_fault_text(alloc, Fault::NotProvisioned),
            Inspection::Slots(state, slots) => listing_text(alloc, state, slots),
            Inspection::Codes(list) => code_list_text(alloc, &list.groups),
        }
    }

    /// Makes the members of the object in memory of `alloc`.
    fn members(&self, alloc: Global) -> Result<Object, AllocError>
        ensures { IfOk result (λ object. members_view object.entries ≡ members_of self.now) }
    {
        let mut object = Map::new(alloc);
        self.put_members(alloc, &mut object)?;
        Ok(object)
    }

    /// Adds the members of the object to an object without members.
    fn put_members(&self, alloc: Global, object: &mut Object) -> Result<(), AllocError>
        requires { members_view object.old.entries ≡ no_members }
        ensures { OnOk result (members_view object.new.entries ≡ members_of self.now) }
    {
        match self {
            Inspection::Choice(choice) => put_report(alloc, object, &choice.report),
            Inspection::Verdict(verdict) => put_value(
                alloc,
                object,
                "right",
                Value::Bool(verdict.is_right),
            ),
            Inspection::Image(description) => put_description(alloc, object, description),
            Inspection::RefusedImage(refused) => {
                let (code, name) = (refused.fault.code(), refused.fault.name());
                put_refused(alloc, object, code_value(alloc, code, name)?)
            }
            Inspection::Manifest(manifest) => put_manifest(alloc, object, manifest),
            Inspection::RefusedManifest(refused) => {
                let (code, name) = (refused.fault.code(), refused.fault.name());
                put_refused(alloc, object, code_value(alloc, code, name)?)
            }
            Inspection::RefusedMap(refused) => {
                put_refused(alloc, object, map_value(alloc, refused.fault)?)
            }
            Inspection::State(state) => put_state(alloc, object, state),
            Inspection::NoState => {
                put_refused(alloc, object, fault_value(alloc, Fault::NotProvisioned)?)
            }
            Inspection::Slots(state, slots) => {
                put_slots(alloc, object, slots)?;
                put_state(alloc, object, state)
            }
            Inspection::Codes(list) => put_codes(alloc, object, &list.groups),
        }
    }
}

/// Writes what was found to `out` in a form, and returns the answer. The object has the notes in
/// its member `notes`, if there are any. The text has none.
///
/// The text or the object is made in memory of `alloc` before it is written. `yes` and `no` need no
/// memory.
///
/// # Errors
/// `NoMemory` if memory runs out. Then nothing is written. `CannotWrite` if a write fails. Then
/// `out` has taken a prefix.
pub fn write_inspection<W: Write>(
    alloc: Global,
    form: Form,
    notes: &NoteList,
    found: &Inspection,
    out: &mut W,
) -> Result<Answer, Refusal>
    ensures { WritesInspection result (answer_of found.now)
        (written form (sentences notes.now) found.now)
        (W.contents out.old) (W.contents out.new) }
{
    let answer = found.answer();
    match form {
        Form::Text => match found {
            Inspection::Verdict(verdict) => write_text(
                answer,
                check::verdict_text(verdict.is_right),
                out,
            ),
            _ => write_answer(answer, found.text(alloc), out),
        },
        Form::Json => write_answer(answer, object_line(alloc, notes, found), out),
    }
}

/// Makes the line of the object with its notes.
fn object_line(alloc: Global, notes: &NoteList, found: &Inspection) -> Result<String, AllocError>
    ensures { IfOk result (λ line. string_bytes line
        ≡ written form.Json (sentences notes.now) found.now) }
{
    let mut object = found.members(alloc)?;
    put_notes(alloc, &mut object, notes)?;
    value_line(alloc, &Value::Object(object))
}
