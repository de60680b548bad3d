//! The rows of a summary, sorted by their keys.

ghost use Rattle.std.specs.Prelude.{◌≡◌, ◌+◌, ◌++◌, ◌∷◌, ℕ, IfOk, List, None, OnOk, [], string_bytes};
ghost use Rattle.std.specs.BTreeMap.{get_by_text};
ghost use Rattle.inspecting.specs.Rows.{AddsRow, AreRows, IsTallied, row_line};
ghost use Rattle.inspecting.specs.Row.{Row, summary_text};

use std::alloc::{AllocError, Global};
use std::collections::BTreeMap;

/// Why a row can't be added.
#[derive(Clone, Copy, Debug)]
pub enum RowFault {
    /// Memory ran out.
    NoMemory,
    /// A count would be 2^64 or more.
    TooMany,
}

/// How often a key occurs, and the first device that has it.
#[derive(Drop)]
pub struct Tally {
    /// How often.
    pub count: u64,
    /// The name of the device.
    pub first: String,
}

/// For each key that occurs its tally. The keys are sorted by their bytes.
pub type Rows = BTreeMap<String, Tally>;

/// Adds a row: its count to that of its key. A key that has a tally keeps its first device.
///
/// Does not allocate if the key has a tally.
///
/// # Errors
/// `NoMemory` if memory runs out, `TooMany` if the sum is 2^64 or more.
pub fn add_row(
    rows: &mut Rows,
    alloc: Global,
    count: u64,
    first: &str,
    key: &str,
) -> Result<(), RowFault>
    ensures { OnOk result (AddsRow (record { count = count; first = first.now; key = key.now })
        rows.old rows.new) }
{
    match rows.get_mut(key) {
        Some(tally) => raise(tally, count),
        None => {
            let Ok(tally) = new_tally(alloc, count, first) else {
                return Err(RowFault::NoMemory);
            };
            add_key(rows, alloc, key, tally)
        }
    }
}

/// Adds to the count of a tally.
fn raise(tally: &mut Tally, count: u64) -> Result<(), RowFault>
    ensures count { OnOk result (tally.new.count ≡ tally.old.count + count) }
    ensures first { tally.new.first ≡ tally.old.first }
{
    let Some(sum) = tally.count.checked_add(count) else {
        return Err(RowFault::TooMany);
    };
    tally.count = sum;
    Ok(())
}

/// Adds the tally of a key that has none.
fn add_key(rows: &mut Rows, alloc: Global, key: &str, tally: Tally) -> Result<(), RowFault>
    requires { get_by_text rows.old key.now ≡ None }
    ensures { OnOk result (AddsRow
        (record { count = tally.count; first = string_bytes tally.first; key = key.now })
        rows.old rows.new) }
{
    let Ok(key) = String::from_str(alloc, key) else {
        return Err(RowFault::NoMemory);
    };
    let Ok(_) = rows.insert(key, tally) else {
        return Err(RowFault::NoMemory);
    };
    Ok(())
}

/// Returns a tally in memory of `alloc`.
fn new_tally(alloc: Global, count: u64, first: &str) -> Result<Tally, AllocError>
    ensures count { IfOk result (λ tally. tally.count ≡ count) }
    ensures first { IfOk result (λ tally. string_bytes tally.first ≡ first.now) }
{
    let first = String::from_str(alloc, first)?;
    Ok(Tally { count, first })
}

/// Returns the text of the rows in memory of `alloc`: a line `COUNT FIRST KEY` for each.
pub fn rows_text(alloc: Global, rows: &Rows) -> Result<Vec<u8>, AllocError>
    ensures { IfOk result (λ text. (list : List Row) × AreRows list rows.now
        × (text.items ≡ summary_text list)) }
{
    let mut text = Vec::new(alloc);
    for (key, tally) in rows.iter() {
        push_row(alloc, &mut text, key, tally)?;
    }
    Ok(text)
}

/// Appends the line of a row to a text.
fn push_row(alloc: Global, text: &mut Vec<u8>, key: &str, tally: &Tally) -> Result<(), AllocError>
    ensures { OnOk result (text.new.items ≡ text.old.items ++ row_line key.now tally.now) }
{
    let count = tally.count;
    let count = format!(in alloc; "{count} ")?;
    text.extend_from_slice(count.as_bytes())?;
    text.extend_from_slice(tally.first.as_bytes())?;
    text.push(b' ')?;
    text.extend_from_slice(key.as_bytes())?;
    text.push(b'\n')?;
    Ok(())
}
