//! Makes the JSON of the list of codes.
ghost use Rattle.std.specs.Prelude.{◌≡◌, IfOk, OnOk, map};
ghost use Rattle.serde_json.specs.View.{members_view, view};
ghost use Rattle.command_line.specs.CodeList.{entry_of, group_of};
ghost use Rattle.inspecting.specs.Json.{entry_json, group_json, with_codes, with_name};

use command_line::{Code, CodeGroup, meaning_text};
use device_texts::json::{Object, put_code, put_text, put_values};
use serde_json::{Map, Value, push};
use std::alloc::{AllocError, Global};

/// Adds the member of the groups of codes.
pub(crate) fn put_codes(
    alloc: Global,
    object: &mut Object,
    groups: &[CodeGroup],
) -> Result<(), AllocError>
    ensures { OnOk result (members_view object.new.entries
        ≡ with_codes (map group_of groups.now) (members_view object.old.entries)) }
{
    let values = group_values(alloc, groups)?;
    put_values(alloc, object, "groups", values)
}

/// Makes the objects of groups.
fn group_values(alloc: Global, groups: &[CodeGroup]) -> Result<Vec<Value>, AllocError>
    ensures { IfOk result (λ values. map view values.items
        ≡ map group_json (map group_of groups.now)) }
{
    let mut values = Vec::new(alloc);
    for group in groups {
        let value = group_value(alloc, group)?;
        push(&mut values, value)?;
    }
    Ok(values)
}

/// Makes the object of a group: its title and the objects of its codes.
fn group_value(alloc: Global, group: &CodeGroup) -> Result<Value, AllocError>
    ensures { IfOk result (λ value. view value ≡ group_json (group_of group.now)) }
{
    let mut object = Map::new(alloc);
    let codes = code_values(alloc, group.codes)?;
    put_values(alloc, &mut object, "codes", codes)?;
    put_text(alloc, &mut object, "title", group.title)?;
    Ok(Value::Object(object))
}

/// Makes the objects of codes.
fn code_values(alloc: Global, codes: &[Code]) -> Result<Vec<Value>, AllocError>
    ensures { IfOk result (λ values. map view values.items
        ≡ map entry_json (map entry_of codes.now)) }
{
    let mut values = Vec::new(alloc);
    for code in codes {
        let value = code_value(alloc, code)?;
        push(&mut values, value)?;
    }
    Ok(values)
}

/// Makes the object of a code or a reason, with its meaning in one line.
fn code_value(alloc: Global, code: &Code) -> Result<Value, AllocError>
    ensures { IfOk result (λ value. view value ≡ entry_json (entry_of code.now)) }
{
    let (code, name, lines) = *code;
    let mut object = Map::new(alloc);
    let meaning = meaning_text(alloc, lines, " ")?;
    put_text(alloc, &mut object, "meaning", &meaning)?;
    put_name(alloc, &mut object, code, name)?;
    Ok(Value::Object(object))
}

/// Adds a code with its name, or the name of a reason.
fn put_name(
    alloc: Global,
    object: &mut Object,
    code: Option<u8>,
    name: &str,
) -> Result<(), AllocError>
    ensures { OnOk result (members_view object.new.entries
        ≡ with_name code name.now (members_view object.old.entries)) }
{
    match code {
        Some(code) => put_code(alloc, object, code, name),
        None => put_text(alloc, object, "reason", name),
    }
}
