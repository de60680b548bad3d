//! The power cuts of a run, and the bytes that they leave.

ghost use Rattle.std.specs.Fmt.{WritesOnOk};
ghost use Rattle.std.specs.Prelude.{◌≡◌, IfOk, Some};
ghost use Rattle.device_texts.specs.FlashOf.{armed_in};
ghost use Rattle.sweep.specs.Cuts.{AreArmedFor, IsCopies, IsTorn};
ghost use Rattle.sweep.specs.Findings.{tear_text};
ghost use Rattle.sweep.specs.FoundText.{cut_text, cuts_text};
ghost use Rattle.sweep.specs.Tallies.{cuts_place, tear_place, torn_place};

use device_texts::CutWrite;
use flash_model::Torn;
use std::alloc::{AllocError, Global};
use std::fmt;
use trailer::MAGIC;

/// What a power cut leaves of the range of a write.
#[derive(Clone, Copy)]
pub enum Tear {
    /// The old bytes.
    Keep,
    /// The new bytes.
    Done,
    /// 0xff throughout.
    Ones,
    /// 0x00 throughout.
    Zeros,
    /// Copies of a trailer's magic, like a write to the wrong place.
    Magic,
    /// The first half of the new bytes, then the old ones.
    Half,
}

/// All ways to tear a write, in the order in which a sweep tries them.
pub const TEARS: [Tear; 6] = [
    Tear::Keep,
    Tear::Done,
    Tear::Ones,
    Tear::Zeros,
    Tear::Magic,
    Tear::Half,
];

impl Tear {
    /// The form in which a flash in memory is armed with it. The pattern is in memory of `alloc`.
    ///
    /// # Errors
    /// `AllocError` if memory is refused.
    pub fn torn(self, alloc: Global) -> Result<Torn, AllocError>
        ensures { IfOk result (IsTorn self) }
    {
        match self {
            Tear::Keep => Ok(Torn::Keep),
            Tear::Done => Ok(Torn::Done),
            Tear::Ones => copies_of(alloc, &[0xff]),
            Tear::Zeros => copies_of(alloc, &[0x00]),
            Tear::Magic => copies_of(alloc, &MAGIC),
            Tear::Half => Ok(Torn::Half),
        }
    }

    /// Its name in a `cut` line of a script, after the number of the write. Scripts have no line
    /// for `Half`.
    pub fn name(self) -> &'static str
        ensures { result.now ≡ tear_text self }
    {
        match self {
            Tear::Keep => "keep",
            Tear::Done => "done",
            Tear::Ones => "hex:ff",
            Tear::Zeros => "hex:00",
            Tear::Magic => "hex:77c295f360d2ef7f3552500f2cb67980",
            Tear::Half => "half",
        }
    }

    /// Its place in [`TEARS`].
    fn place(self) -> u32
        ensures { result ≡ tear_place self }
    {
        match self {
            Tear::Keep => 0,
            Tear::Done => 1,
            Tear::Ones => 2,
            Tear::Zeros => 3,
            Tear::Magic => 4,
            Tear::Half => 5,
        }
    }
}

/// The way to tear a write that has this name.
pub fn tear_named(name: &str) -> Option<Tear> {
    TEARS.iter().find(|tear| tear.name() == name).copied()
}

/// The torn write that leaves copies of these bytes.
fn copies_of(alloc: Global, bytes: &[u8]) -> Result<Torn, AllocError>
    ensures { IfOk result (IsCopies bytes.now) }
{
    Ok(Torn::Bytes(Vec::from_slice(alloc, bytes)?))
}

/// A write that a power cut tears.
#[derive(Clone, Copy)]
pub struct TornWrite {
    /// The number of the write, from 1 for the first after the run began.
    pub write: u32,
    /// What the power cut leaves.
    pub tear: Tear,
}

/// The form in which a flash in memory is armed with these cuts, in memory of `alloc`.
///
/// # Errors
/// `AllocError` if memory is refused.
pub fn cut_writes(alloc: Global, cuts: &[TornWrite]) -> Result<Vec<CutWrite>, AllocError>
    ensures { IfOk result (λ writes. AreArmedFor cuts.now (armed_in writes.items)) }
{
    let mut writes = Vec::new(alloc);
    for cut in cuts {
        let write = cut.write;
        let torn = cut.tear.torn(alloc)?;
        writes.push(CutWrite { write, torn })?;
    }
    Ok(writes)
}

/// The power cuts of a run.
#[derive(Clone, Copy)]
pub enum Cuts {
    /// One power cut.
    One(TornWrite),
    /// Two power cuts. The second is in the boot after the first.
    Two(TornWrite, TornWrite),
}

/// The place of the cuts of a run in the order of a sweep: by the first cut, and then by the second
/// one. The run without a cut is before all others.
pub fn place_of(cuts: Option<Cuts>) -> u128
    ensures { result ≡ cuts_place cuts }
{
    match cuts {
        None => 0,
        Some(Cuts::One(cut)) => place_of_cut(cut) * (1 << 36),
        Some(Cuts::Two(first, second)) => {
            place_of_cut(first) * (1 << 36) + place_of_cut(second) + 1
        }
    }
}

/// The place of a torn write: by its number, and then by the way to tear it.
fn place_of_cut(cut: TornWrite) -> u128
    ensures { result ≡ torn_place cut }
{
    u128::from(cut.write) * 8 + u128::from(cut.tear.place())
}

impl fmt::Display for Cuts {
    ghost output = { λ cuts. Some (cuts_text cuts) };

    fn fmt<W: fmt::Write>(&self, f: &mut fmt::Formatter<W>) -> fmt::Result {
        match self {
            Cuts::One(cut) => write_cut(f, *cut),
            Cuts::Two(first, second) => {
                write_cut(f, *first)?;
                write!(f, " ")?;
                write_cut(f, *second)
            }
        }
    }
}

/// Writes a cut as a `cut` line of a script.
fn write_cut<W: fmt::Write>(f: &mut fmt::Formatter<W>, cut: TornWrite) -> fmt::Result
    ensures { WritesOnOk W.write_str_gives f.old result (cut_text cut) f.new }
{
    let TornWrite { write, tear } = cut;
    let name = tear.name();
    write!(f, "cut {write} {name}")
}
