//! Makes the JSON of the findings of a sweep.
ghost use Rattle.std.specs.Prelude.{◌≡◌, IfOk, OnOk, map, option_map, string_bytes};
ghost use Rattle.serde_json.specs.View.{members_view, view};
ghost use Rattle.sweep.specs.Findings.{marks_text, numbered};
ghost use Rattle.sweep.specs.FoundJson.{cut_json, cuts_json, event_json, place_json, set_json};
ghost use Rattle.sweep.specs.FoundJson.{versions_json, with_found, with_image_if, with_runs};
ghost use Rattle.sweep.specs.FoundJson.{with_tally, with_versions, with_writes};
ghost use Rattle.device_texts.specs.Json.{versioned_json};

use crate::cuts::{Cuts, TornWrite};
use crate::found::{EventWrites, Found, SetTally, image_of, kind_of};
use crate::marks::Mark;
use crate::tally::Tally;
use arrayvec::ArrayVec;
use common::limits::MOST_IMAGES;
use device_texts::json::{Json, Object, put_each, put_number, put_text, put_value, put_values};
use machine::Event;
use serde_json::{Map, Value, push};
use std::alloc::{AllocError, Global};
use version_order::Version;

/// Adds the members of the findings of a sweep.
///
/// # Errors
/// `AllocError` if memory is refused.
pub(crate) fn put_found(alloc: Global, object: &mut Object, found: &Found) -> Result<(), AllocError>
    ensures { OnOk result (members_view object.new.entries
        ≡ with_found found.now (members_view object.old.entries)) }
{
    put_runs(alloc, object, "refused_runs", found.refused)?;
    put_runs(alloc, object, "other", found.others)?;
    put_each(alloc, object, "ends", found.sets.as_slice())?;
    put_number(alloc, object, "runs", found.runs)?;
    let events = event_values(alloc, found, found.events.as_slice())?;
    put_values(alloc, object, "events", events)
}

/// Makes the objects of these events of the findings, from the first one on.
fn event_values(
    alloc: Global,
    found: &Found,
    events: &[Event<()>],
) -> Result<Vec<Value>, AllocError>
    ensures { IfOk result (λ values. map view values.items
        ≡ numbered (place_json found.now) 0 events.now) }
{
    let mut values = Vec::new(alloc);
    for (place, event) in events.iter().enumerate() {
        let number = place as u64 + 1;
        let value = event_value(alloc, number, event, found.writes_of(place))?;
        push(&mut values, value)?;
    }
    Ok(values)
}

/// Makes the object of the event of this number, counted from 1, with its writes.
fn event_value(
    alloc: Global,
    number: u64,
    event: &Event<()>,
    writes: EventWrites<'_>,
) -> Result<Value, AllocError>
    ensures { IfOk result (λ value. view value
        ≡ event_json number event.now writes.entry.before writes.entry.marks.now) }
{
    let mut object = Map::new(alloc);
    put_writes(alloc, &mut object, writes)?;
    put_image(alloc, &mut object, image_of(event))?;
    put_text(alloc, &mut object, "kind", kind_of(event))?;
    put_number(alloc, &mut object, "event", number)?;
    Ok(Value::Object(object))
}

/// Adds the number of the first write of an event and a character for each write, if it has writes.
fn put_writes(alloc: Global, object: &mut Object, writes: EventWrites<'_>) -> Result<(), AllocError>
    ensures { OnOk result (members_view object.new.entries
        ≡ with_writes writes.entry.before writes.entry.marks.now (members_view object.old.entries)) }
{
    if writes.marks.is_empty() {
        return Ok(());
    }
    let replies = marks_text(alloc, writes.marks)?;
    put_text(alloc, object, "replies", &replies)?;
    put_number(alloc, object, "first_write", u64::from(writes.before) + 1)
}

/// Makes the text of marks: a character for each.
fn marks_text(alloc: Global, marks: &[Mark]) -> Result<String, AllocError>
    ensures { IfOk result (λ text. string_bytes text ≡ marks_text marks.now) }
{
    let mut text = String::new(alloc);
    for mark in marks {
        text.push_str(mark.character())?;
    }
    Ok(text)
}

/// Adds the number of the image of an event, if it has one.
fn put_image(alloc: Global, object: &mut Object, image: Option<u8>) -> Result<(), AllocError>
    ensures { OnOk result (members_view object.new.entries
        ≡ with_image_if image (members_view object.old.entries)) }
{
    match image {
        Some(image) => put_number(alloc, object, "image", u64::from(image)),
        None => Ok(()),
    }
}

impl Json for SetTally {
    ghost json = { set_json };

    fn json(&self, alloc: Global) -> Result<Value, AllocError> {
        let mut object = Map::new(alloc);
        put_versions(alloc, &mut object, &self.versions)?;
        put_tally(alloc, &mut object, self.tally)?;
        Ok(Value::Object(object))
    }
}

/// Adds the images of a set, or that one is damaged.
fn put_versions(
    alloc: Global,
    object: &mut Object,
    versions: &Option<ArrayVec<Version, MOST_IMAGES>>,
) -> Result<(), AllocError>
    ensures { OnOk result (members_view object.new.entries
        ≡ with_versions (option_map (λ all. all.items) versions.now)
        (members_view object.old.entries)) }
{
    match versions {
        None => put_value(alloc, object, "damaged", Value::Bool(true)),
        Some(versions) => {
            let values = version_values(alloc, versions.as_slice())?;
            put_values(alloc, object, "run", values)
        }
    }
}

/// Makes the objects of the images with these versions, from 0 on.
fn version_values(alloc: Global, versions: &[Version]) -> Result<Vec<Value>, AllocError>
    ensures { IfOk result (λ values. map view values.items ≡ versions_json versions.now) }
{
    let mut values = Vec::new(alloc);
    for (image, version) in versions.iter().enumerate() {
        let value = version_value(alloc, image as u64, *version)?;
        push(&mut values, value)?;
    }
    Ok(values)
}

/// Makes the object of an image with its version.
fn version_value(alloc: Global, image: u64, version: Version) -> Result<Value, AllocError>
    ensures { IfOk result (λ value. view value ≡ versioned_json image version) }
{
    let mut object = Map::new(alloc);
    let version = format!(in alloc; "{version}")?;
    put_text(alloc, &mut object, "version", &version)?;
    put_number(alloc, &mut object, "image", image)?;
    Ok(Value::Object(object))
}

/// Adds a member for runs that went wrong, if there are any.
fn put_runs(alloc: Global, object: &mut Object, key: &str, tally: Tally) -> Result<(), AllocError>
    ensures { OnOk result (members_view object.new.entries
        ≡ with_runs key.now tally (members_view object.old.entries)) }
{
    if tally.runs == 0 {
        return Ok(());
    }
    let mut runs = Map::new(alloc);
    put_tally(alloc, &mut runs, tally)?;
    put_value(alloc, object, key, Value::Object(runs))
}

/// Adds a number of runs and the cuts of the first of them.
fn put_tally(alloc: Global, object: &mut Object, tally: Tally) -> Result<(), AllocError>
    ensures { OnOk result (members_view object.new.entries
        ≡ with_tally tally (members_view object.old.entries)) }
{
    let cuts = cut_values(alloc, tally.first)?;
    put_value(alloc, object, "cuts", Value::Array(cuts))?;
    put_number(alloc, object, "runs", tally.runs)
}

/// Makes the objects of the cuts of a run.
fn cut_values(alloc: Global, cuts: Option<Cuts>) -> Result<Vec<Value>, AllocError>
    ensures { IfOk result (λ values. map view values.items ≡ cuts_json cuts) }
{
    let mut values = Vec::new(alloc);
    match cuts {
        None => {}
        Some(Cuts::One(cut)) => {
            let value = cut_value(alloc, cut)?;
            push(&mut values, value)?;
        }
        Some(Cuts::Two(first, second)) => {
            let value = cut_value(alloc, first)?;
            push(&mut values, value)?;
            let value = cut_value(alloc, second)?;
            push(&mut values, value)?;
        }
    }
    Ok(values)
}

/// Makes the object of a torn write.
fn cut_value(alloc: Global, cut: TornWrite) -> Result<Value, AllocError>
    ensures { IfOk result (λ value. view value ≡ cut_json cut) }
{
    let mut object = Map::new(alloc);
    put_text(alloc, &mut object, "torn", cut.tear.name())?;
    put_number(alloc, &mut object, "write", u64::from(cut.write))?;
    Ok(Value::Object(object))
}
