//! Makes the JSON of the rows of a summary.

ghost use Rattle.std.specs.Prelude.{◌≡◌, IfOk, List, OnOk, map};
ghost use Rattle.serde_json.specs.View.{members_view, view};
ghost use Rattle.inspecting.specs.Row.{Row};
ghost use Rattle.inspecting.specs.Rows.{AreRows, row_at};
ghost use Rattle.inspecting.specs.RowKey.{row_key_of};
ghost use Rattle.inspecting.specs.SummaryJson.{first_word, key_members, row_json, with_version};
ghost use Rattle.inspecting.specs.declared.fleet.row_key.RowKey.TheVariants as key;

use crate::fleet::row_key::RowKey;
use crate::fleet::rows::{Rows, Tally};
use device_texts::json::{Json, Object, put_each, put_number, put_text};
use reports::Refusal;
use serde_json::{Map, Value, push};
use std::alloc::{AllocError, Global};
use version_order::Version;

/// Makes the objects of rows, in their order.
pub fn row_values(alloc: Global, rows: &Rows) -> Result<Vec<Value>, AllocError>
    ensures { IfOk result (λ values. (list : List Row) × AreRows list rows.now
        × (map view values.items ≡ map row_json list)) }
{
    let mut values = Vec::new(alloc);
    for (key, tally) in rows.iter() {
        let value = row_value(alloc, key, tally)?;
        push(&mut values, value)?;
    }
    Ok(values)
}

/// Makes the object of a row.
fn row_value(alloc: Global, key: &str, tally: &Tally) -> Result<Value, AllocError>
    ensures { IfOk result (λ value. view value ≡ row_json (row_at key.now tally.now)) }
{
    let mut object = members_of_text(alloc, key)?;
    put_text(alloc, &mut object, "kind", kind_of(key))?;
    put_text(alloc, &mut object, "first", &tally.first)?;
    put_number(alloc, &mut object, "count", tally.count)?;
    Ok(Value::Object(object))
}

/// Returns the first word of a key.
fn kind_of(key: &str) -> &str
    ensures { result.now ≡ first_word key.now }
{
    match key.split_once(' ') {
        Some((kind, _)) => kind,
        None => key,
    }
}

/// Makes the members of what the devices of a row do.
fn members_of_text(alloc: Global, text: &str) -> Result<Object, AllocError>
    ensures { IfOk result (λ object. members_view object.entries
        ≡ key_members (row_key_of text.now)) }
{
    let key = RowKey::of(alloc, text)?;
    key_members(alloc, &key)
}

/// Makes the members of a key.
fn key_members(alloc: Global, key: &RowKey) -> Result<Object, AllocError>
    ensures { IfOk result (λ object. members_view object.entries ≡ key_members key.now) }
{
    let mut object = Map::new(alloc);
    match key {
        RowKey::Take(images) => {
            put_each(alloc, &mut object, "take", images.as_slice())?;
            Ok(object)
        }
        RowKey::Refuse(version, refusal) => refusal_members(alloc, *version, refusal),
        RowKey::Device | RowKey::Bad | RowKey::NotValid | RowKey::Other => Ok(object),
    }
}

/// Makes the members of a refused request.
fn refusal_members(
    alloc: Global,
    version: Option<Version>,
    refusal: &Refusal,
) -> Result<Object, AllocError>
    ensures { IfOk result (λ object. members_view object.entries
        ≡ key_members (key.Refuse version refusal.now)) }
{
    let Value::Object(mut object) = refusal.json(alloc)? else {
        // A refusal is an object, so this doesn't come.
        return Ok(Map::new(alloc));
    };
    put_version(alloc, &mut object, version)?;
    Ok(object)
}

/// Adds the version that is requested, if an intact image is.
fn put_version(
    alloc: Global,
    object: &mut Object,
    version: Option<Version>,
) -> Result<(), AllocError>
    ensures { OnOk result (members_view object.new.entries
        ≡ with_version version (members_view object.old.entries)) }
{
    let Some(version) = version else {
        return Ok(());
    };
    let version = format!(in alloc; "{version}")?;
    put_text(alloc, object, "version", &version)
}
