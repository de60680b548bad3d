//! The state of a device that persists across its boots.

ghost use Rattle.std.specs.Prelude.{◌≡◌, ◌<◌, ◌≤◌, ◌==◌, drop};
ghost use Rattle.std.specs.List.{list_all};
ghost use Rattle.set_log.specs.Record.{fits, kind_fits, kind_number, kind_of, steady};

use common::limits::{MOST_BOOTS_LEFT, MOST_IMAGES};

/// The phase of an upgrade. The numbers in records are 1 to 6, in this order.
#[derive(Clone, Copy, Debug, PartialEq, Eq)]
pub enum RecordKind {
    /// No upgrade: the running images stay.
    Steady,
    /// The images of the set are being swapped in.
    Swap,
    /// They are swapped in, and their trailers are being settled.
    Settle,
    /// They are on trial.
    Trial,
    /// They are being swapped back.
    Back,
    /// They are swapped back, and their trailers are being settled.
    BackSettle,
}

/// The state of a device that persists across its boots. A record of the log holds one such state.
/// A state *fits* a number of images if it keeps the table of records (`fits`).
#[derive(Clone, Copy, Debug, PartialEq, Eq)]
pub struct State {
    /// The phase of the upgrade.
    pub kind: RecordKind,
    /// The set of images of the upgrade: bit i for image i.
    pub mask: u8,
    /// Whether the set stays without a trial.
    pub permanent: bool,
    /// The sequence number of the last accepted manifest.
    pub sequence: u32,
    /// The lowest security counter that each image may have; 0 past the last image.
    pub floors: [u32; MOST_IMAGES],
    /// In a trial, the number of further boots that it lasts, 0 to 6; otherwise 0.
    pub left: u8,
}

impl RecordKind {
    /// Returns the number of a kind in a record: 1 to 6, in the order of the kinds. Does not allocate.
    pub fn number(self) -> u8
        ensures { result ≡ kind_number self }
    {
        match self {
            RecordKind::Steady => 1,
            RecordKind::Swap => 2,
            RecordKind::Settle => 3,
            RecordKind::Trial => 4,
            RecordKind::Back => 5,
            RecordKind::BackSettle => 6,
        }
    }

    /// The kind with a number.
    pub(crate) fn from_number(number: u8) -> Option<RecordKind>
        ensures { result ≡ kind_of number }
    {
        match number {
            1 => Some(RecordKind::Steady),
            2 => Some(RecordKind::Swap),
            3 => Some(RecordKind::Settle),
            4 => Some(RecordKind::Trial),
            5 => Some(RecordKind::Back),
            6 => Some(RecordKind::BackSettle),
            _ => None,
        }
    }
}

/// Whether all numbers are 0.
fn are_zero(numbers: &[u32]) -> bool
    ensures { result ≡ list_all (λ number. number == 0) numbers.now }
{
    numbers.iter().all(|number| *number == 0)
}

/// Whether all floors past the last image are 0.
fn has_no_floor_from(floors: &[u32; MOST_IMAGES], images: u8) -> bool
    requires { images ≤ MOST_IMAGES }
    ensures { result ≡ list_all (λ floor. floor == 0) (drop images floors.now) }
{
    are_zero(&floors[images as usize..])
}

impl State {
    /// Returns the state between upgrades, with this sequence number and these floors. Does not
    /// allocate.
    pub fn steady(sequence: u32, floors: [u32; MOST_IMAGES]) -> State
        ensures { result ≡ steady sequence floors }
    {
        State {
            kind: RecordKind::Steady,
            mask: 0,
            permanent: false,
            sequence,
            floors,
            left: 0,
        }
    }

    /// Whether the state keeps the table of records on a device with `images` images, at most 8:
    ///
    /// - The set has only images of the device.
    /// - `Steady` has no set, isn't permanent and has no boots left.
    /// - Each other kind has a set, with 0 to 6 boots left in `Trial` and none in the others.
    /// - The floors past the last image are 0.
    ///
    /// Does not allocate.
    pub fn fits(&self, images: u8) -> bool
        requires { images ≤ MOST_IMAGES }
        ensures { result ≡ fits images self.now }
    {
        u32::from(self.mask) < 1 << images
            && self.fits_kind()
            && has_no_floor_from(&self.floors, images)
    }

    /// Whether the set, the permanence and the boots left match the kind.
    fn fits_kind(&self) -> bool
        ensures { result ≡ kind_fits self.now.kind self.now.mask self.now.permanent self.now.left }
    {
        match self.kind {
            RecordKind::Steady => self.mask == 0 && !self.permanent && self.left == 0,
            RecordKind::Trial => self.mask != 0 && self.left <= MOST_BOOTS_LEFT,
            RecordKind::Swap | RecordKind::Settle | RecordKind::Back | RecordKind::BackSettle => {
                self.mask != 0 && self.left == 0
            }
        }
    }
}
