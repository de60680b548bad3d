//! Makes the text of the list of codes, as `bootswap codes` and its help print it. No line is longer
//! than 80 columns.

ghost use Rattle.std.specs.List.{flat_map};
ghost use Rattle.std.specs.Prelude.{◌≡◌, ◌++◌, IfOk, map, string_bytes};
ghost use Rattle.command_line.specs.CodeList.{entry_of, entry_text, gap_after, group_of, group_text, list_text};
ghost use Rattle.command_line.specs.CodeList.{meaning_text, number_text};

use crate::codes::{Code, CodeGroup, INTRODUCTION};
use std::alloc::{AllocError, Global};

/// The width of the column of names.
const NAME_WIDTH: usize = 21;

/// The end of a line, and the columns before a meaning.
const NEXT_LINE: &str = "\n                          ";

/// Makes the text of these groups in memory of `alloc`.
pub fn code_list_text(alloc: Global, groups: &[CodeGroup]) -> Result<String, AllocError>
    ensures { IfOk result (λ text. string_bytes text ≡ list_text (map group_of groups.now)) }
{
    let mut text = format!(in alloc; "{INTRODUCTION}\n")?;
    write_groups(alloc, &mut text, groups)?;
    Ok(text)
}

/// Adds the lines of each group to a text.
fn write_groups(alloc: Global, text: &mut String, groups: &[CodeGroup]) -> Result<(), AllocError>
    ensures { IfOk result (λ _. string_bytes text.new
        ≡ string_bytes text.old ++ flat_map group_text (map group_of groups.now)) }
{
    for group in groups {
        write_group(alloc, text, group)?;
    }
    Ok(())
}

/// Adds the lines of a group to a text.
fn write_group(alloc: Global, text: &mut String, group: &CodeGroup) -> Result<(), AllocError>
    ensures { IfOk result (λ _. string_bytes text.new
        ≡ string_bytes text.old ++ group_text (group_of group.now)) }
{
    let title = group.title;
    write!(text, "\n{title}:\n")?;
    write_codes(alloc, text, group.codes)
}

/// Adds the lines of each code to a text.
fn write_codes(alloc: Global, text: &mut String, codes: &[Code]) -> Result<(), AllocError>
    ensures { IfOk result (λ _. string_bytes text.new
        ≡ string_bytes text.old ++ flat_map entry_text (map entry_of codes.now)) }
{
    for code in codes {
        write_code(alloc, text, code)?;
    }
    Ok(())
}

/// Adds the lines of a code to a text.
fn write_code(alloc: Global, text: &mut String, code: &Code) -> Result<(), AllocError>
    ensures { IfOk result (λ _. string_bytes text.new
        ≡ string_bytes text.old ++ entry_text (entry_of code.now)) }
{
    let (code, name, lines) = *code;
    let number = number_text(alloc, code)?;
    let gap = gap_after(alloc, name)?;
    let meaning = meaning_text(alloc, lines, NEXT_LINE)?;
    write!(text, "{number}{name}{gap}{meaning}\n")
}

/// Makes the text of a meaning, with `between` between two of its lines, in memory of `alloc`.
#[tactic(auto, using(crate::proofs::CodeListLaws::joined_lines))]
pub fn meaning_text(alloc: Global, lines: &[&str], between: &str) -> Result<String, AllocError>
    ensures { IfOk result (λ text. string_bytes text
        ≡ meaning_text between.now (map (λ line. line.now) lines.now)) }
{
    lines.join(alloc, between)
}

/// Makes the column of a code.
fn number_text(alloc: Global, number: Option<u8>) -> Result<String, AllocError>
    ensures { IfOk result (λ text. string_bytes text ≡ number_text number) }
{
    match number {
        None => String::from_str(alloc, "     "),
        Some(number) => {
            let spaces = if number < 10 { "   " } else { "  " };
            format!(in alloc; "{spaces}{number} ")
        }
    }
}

/// Makes what separates a name from its meaning.
fn gap_after(alloc: Global, name: &str) -> Result<String, AllocError>
    ensures { IfOk result (λ gap. string_bytes gap ≡ gap_after name.now) }
{
    if name.len() < NAME_WIDTH {
        " ".repeat(alloc, NAME_WIDTH - name.len())
    } else {
        String::from_str(alloc, NEXT_LINE)
    }
}
