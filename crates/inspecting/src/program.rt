//! Runs the read-only command that an order names.
ghost use Rattle.std.specs.Prelude.{IfOk};
ghost use Rattle.inspecting.specs.ReadingEnd.{Finds};

use crate::check::inspect_report;
use crate::choose::inspect_table;
use crate::flash_text::{FlashText, inspect_flash};
use crate::image::inspect_image;
use crate::inspection::{CodeList, Inspection};
use crate::manifest_file::inspect_manifest;
use command_line::{ReadOrder, code_groups};
use host::{Host, Refusal, Source};
use std::alloc::Global;

/// Returns what the command of an order finds. Its inputs are read from `host` into memory of
/// `alloc`.
///
/// # Errors
/// The errors of the command.
pub fn inspect<H: Host>(
    alloc: Global,
    order: ReadOrder<'_>,
    host: &mut H,
) -> Result<Inspection, Refusal>
    ensures { IfOk result (λ found. Finds order.entry
        (H.input host.old) (H.file host.old) found) }
{
    match order {
        ReadOrder::Choose { table } => inspect_table(alloc, Source::named(table), host),
        ReadOrder::Check { table, report } => {
            inspect_report(alloc, Source::named(table), Source::named(report), host)
        }
        ReadOrder::Image { file } => inspect_image(alloc, Source::named(file), host),
        ReadOrder::Manifest { device, file } => {
            inspect_manifest(alloc, Source::named(device), Source::named(file), host)
        }
        ReadOrder::Show { device, flash } => {
            let (device, flash) = (Source::named(device), Source::named(flash));
            inspect_flash(alloc, FlashText::State, device, flash, host)
        }
        ReadOrder::Slots { device, flash } => {
            let (device, flash) = (Source::named(device), Source::named(flash));
            inspect_flash(alloc, FlashText::Slots, device, flash, host)
        }
        ReadOrder::Codes => Ok(Inspection::Codes(CodeList {
            groups: code_groups(),
        })),
    }
}
