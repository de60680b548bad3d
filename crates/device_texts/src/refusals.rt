//! The texts of refusals, for standard output.
ghost use Rattle.std.specs.Prelude.{◌≡◌, IfOk, string_bytes};
ghost use Rattle.device_texts.specs.AnswerText.{map_refusal_text, refused_group_text, refused_text};

use sector_map::MapError;
use std::alloc::{AllocError, Global};

/// The line `refused CODE NAME`, with the number and the name of a refusal, in memory of `alloc`.
///
/// # Errors
/// `AllocError` if memory is refused.
pub fn refused_text(alloc: Global, code: u8, name: &str) -> Result<String, AllocError>
    ensures { IfOk result (λ text. string_bytes text ≡ refused_text code name.now) }
{
    format!(in alloc; "refused {code} {name}\n")
}

/// The text `refused GROUP CODE NAME`: the word of the layer that refused, the number and the name
/// of its refusal.
pub fn refused_group_text(
    alloc: Global,
    group: &str,
    code: u8,
    name: &str,
) -> Result<String, AllocError>
    ensures { IfOk result
        (λ text. string_bytes text ≡ refused_group_text group.now code name.now) }
{
    format!(in alloc; "refused {group} {code} {name}\n")
}

/// The line `refused map CODE NAME`, in memory of `alloc`. It has the number and the name of the
/// first check that the sizes of a device file fail.
///
/// # Errors
/// `AllocError` if memory is refused.
pub fn map_refusal_text(alloc: Global, fault: MapError) -> Result<String, AllocError>
    ensures { IfOk result (λ text. string_bytes text ≡ map_refusal_text fault) }
{
    refused_group_text(alloc, "map", fault.code(), fault.name())
}
