//! Makes the JSON of reports.
ghost use Rattle.std.specs.Prelude.{◌≡◌, IfOk, OnOk, map};
ghost use Rattle.serde_json.specs.View.{members_view, view};
ghost use Rattle.device_texts.specs.Json.{dependency_json, group_json, needs_of, reason_word, refusal_json};
ghost use Rattle.device_texts.specs.Json.{reported_images, versioned_json, with_report};

use crate::json::{Json, Object, put_each, put_number, put_text, put_values, values_of};
use reports::{Reason, Refusal, Report, ReportedImage};
use serde_json::{Map, Value, push};
use std::alloc::{AllocError, Global};
use version_order::{Dependency, Group, Version};

/// Adds the members of a report: `take`, `run` and `refuse`.
pub fn put_report(alloc: Global, object: &mut Object, report: &Report) -> Result<(), AllocError>
    ensures { OnOk result (members_view object.new.entries
        ≡ with_report report.now (members_view object.old.entries)) }
{
    put_each(alloc, object, "refuse", report.refusals.as_slice())?;
    let run = reported_images(alloc, false, report.images.as_slice())?;
    put_values(alloc, object, "run", run)?;
    let take = reported_images(alloc, true, report.images.as_slice())?;
    put_values(alloc, object, "take", take)
}

/// Makes the objects of the images whose requests are taken, or of those whose aren't.
fn reported_images(
    alloc: Global,
    is_taken: bool,
    images: &[ReportedImage],
) -> Result<Vec<Value>, AllocError>
    ensures { IfOk result (λ values. map view values.items
        ≡ reported_images is_taken 0 images.now) }
{
    let mut values = Vec::new(alloc);
    for (number, image) in images.iter().enumerate() {
        if is_taken == image.is_taken {
            let value = versioned_value(alloc, number as u64, image.version)?;
            push(&mut values, value)?;
        }
    }
    Ok(values)
}

/// Makes the object of a version of an image.
fn versioned_value(alloc: Global, number: u64, version: Version) -> Result<Value, AllocError>
    ensures { IfOk result (λ value. view value ≡ versioned_json number version) }
{
    let mut object = Map::new(alloc);
    let version = format!(in alloc; "{version}")?;
    put_text(alloc, &mut object, "version", &version)?;
    put_number(alloc, &mut object, "image", number)?;
    Ok(Value::Object(object))
}

impl Json for Dependency {
    ghost json = { dependency_json };

    fn json(&self, alloc: Global) -> Result<Value, AllocError> {
        versioned_value(alloc, u64::from(self.image), self.minimum)
    }
}

impl Json for Group {
    ghost json = { group_json };

    fn json(&self, alloc: Global) -> Result<Value, AllocError> {
        let mut object = Map::new(alloc);
        put_each(alloc, &mut object, "any_of", self.alternatives.as_slice())?;
        Ok(Value::Object(object))
    }
}

impl Json for Refusal {
    ghost json = { refusal_json };

    fn json(&self, alloc: Global) -> Result<Value, AllocError> {
        let mut object = Map::new(alloc);
        put_text(alloc, &mut object, "reason", reason_word(&self.reason))?;
        let needs = needs_of(alloc, &self.reason)?;
        put_values(alloc, &mut object, "needs", needs)?;
        put_number(alloc, &mut object, "image", u64::from(self.image))?;
        Ok(Value::Object(object))
    }
}

/// Returns the word for a reason.
fn reason_word(reason: &Reason) -> &'static str
    ensures { result.now ≡ reason_word reason.now }
{
    match reason {
        Reason::Damaged => "damaged",
        Reason::Older => "older",
        Reason::Counter => "counter",
        Reason::NoSuchImage(_) => "no-such-image",
        Reason::Needs(..) => "needs",
        Reason::NeedsOne(_) => "needs-one",
    }
}

/// Makes the objects of what a refused request needs: a version of an image, an image, or one of
/// several versions.
fn needs_of(alloc: Global, reason: &Reason) -> Result<Vec<Value>, AllocError>
    ensures { IfOk result (λ values. map view values.items ≡ needs_of reason.now) }
{
    let mut values = Vec::new(alloc);
    match reason {
        Reason::NoSuchImage(number) => {
            let mut object = Map::new(alloc);
            put_number(alloc, &mut object, "image", u64::from(*number))?;
            push(&mut values, Value::Object(object))?;
        }
        Reason::Needs(number, minimum) => {
            let value = versioned_value(alloc, u64::from(*number), *minimum)?;
            push(&mut values, value)?;
        }
        Reason::NeedsOne(group) => return values_of(alloc, group.alternatives.as_slice()),
        Reason::Damaged | Reason::Older | Reason::Counter => {}
    }
    Ok(values)
}
