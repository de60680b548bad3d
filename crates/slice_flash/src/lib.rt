//! A flash over the caller's bytes, without a heap: the example for authors of drivers.
//!
//! - Promises: A flash over the caller's bytes keeps the trait `Flash`, and is interrupted exactly
//!   as its table says. The caller knows the bytes afterwards. A flash over bytes that are only read
//!   records each write in a journal, and reads show the writes: performed one by one on these bytes,
//!   the recorded writes make those of the flash. If the journal is as long as what the writes ask
//!   for, none is refused.
//! - Main calls: `SliceFlash`, `OverlayFlash`, `ReadOnlyFlash`
//! - Allocates: no.
//! - Callers: any program without a heap, and tests.
//!
//! For a `SliceFlash` the caller passes a `&mut` to the bytes, and a table of the writes that are to
//! be interrupted. For an `OverlayFlash` it passes a `&` to the bytes, and a `&mut` to those of a
//! journal. For a `ReadOnlyFlash` it passes only a `&` to the bytes. When the flash is dropped, the
//! caller knows about the bytes behind a `&mut` what the contracts of the flash said. This holds
//! even if generic calls borrowed the flash in between.
//!
//! A driver has these parts, with `SliceFlash` as the example:
//! - a `Chip` for contracts, `chip_of`, and the laws of `Flash`, as ghost fields of the struct;
//! - an `Origin`, which takes no bytes: the first contents of the flash. With it the law `written`
//!   says that the bytes are exactly what the counted writes made of the first ones;
//! - a name in the chip's `fixed`, if the bytes are borrowed. The calls of the trait and all code
//!   above keep what is fixed, so the driver holds the same borrow after them as before;
//! - two tokens of a ledger, which count cuts and completed erases for contracts and take no bytes;
//! - a single function, `write`, that writes a range and in which power can fail.
#![tactic(auto)]

mod flash;
mod index;
mod overlay;
mod read_only;
mod steps;
mod table;

pub use flash::SliceFlash;
pub use overlay::OverlayFlash;
pub use read_only::ReadOnlyFlash;
pub use table::{ArmedCut, Left};
