//! The trait `Flash`: what a flash driver implements, and what each call leaves, even if power
//! fails.
//!
//! - Promises: A call on a flash is done, interrupted or refused. A flash in memory keeps this, and
//!   is interrupted exactly as armed. Whether a range is erased is answered exactly.
//! - Main calls: the trait `Flash`, `MemFlash`, `is_erased`, `set_unit`
//! - Allocates: to make a flash in memory and to arm a cut; no call on a flash does.
//! - Callers: any crate.
//!
//! All layers above write to the device's flash through the trait [`Flash`] alone. Each proves its
//! promises from the contracts of that trait, so they hold for every flash that keeps them.
//!
//! Contracts see a flash as a `Chip`: its bytes by address, whether it has power, and its counts of
//! writes, cuts and completed erases. Two laws of the trait tie these counts to what happened:
//! - `armed`: there was one cut for each armed write that the flash took, and one for each fault.
//! - `written`: the bytes are exactly what the counted writes made of the bytes that the flash held
//!   first (`specs/Written.antt`).
//!
//! No proof sees the hardware: the author of a driver for a real part promises what the trait says.
//! `docs/PORTING.md` lists the steps of a port. `sector_map` says where the parts of a device are
//! on a flash; layers above it name parts, not addresses.
#![tactic(auto)]

mod erased_ranges;
mod error;
mod flash;
mod memory;
mod origin;
mod tearing;
mod torn;
mod unit;

pub use erased_ranges::{are_erased, is_erased};
pub use error::{FlashError, Result};
pub use flash::Flash;
pub use memory::MemFlash;
pub use origin::Origin;
pub use tearing::repeat;
pub use torn::{Armed, Torn};
pub use unit::{FLAG, UNIT, is_unit_erased, set_unit};
