//! Flashes in memory with sectors of 512 bytes.

ghost use Rattle.flash_model.specs.Blanks.{IsBlankOf};

use flash_model::MemFlash;
use std::process::Abort;
use std::sync::ledger::{Blank, Ledger};

/// A flash in memory that has these bytes: whole sectors, and fewer than 65536 bytes.
pub(crate) fn in_memory<L: Ledger>(
    rt: &(impl Abort + AllocGlobal),
    blank: Blank,
    bytes: Vec<u8>,
) -> MemFlash<L>
    requires blank { IsBlankOf blank L.name L.parts 2 }
{
    assert!(rt; bytes.len() % 512 == 0 && bytes.len() < 65536);
    MemFlash::<L>::from_bytes(rt.alloc(), blank, 512, bytes)
}
