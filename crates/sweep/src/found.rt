//! The findings of a sweep, counted over its runs.

ghost use Rattle.std.specs.Prelude.{◌≡◌};
ghost use Rattle.sweep.specs.Findings.{image_of, is_good, kind_text, marks_of, writes_before};

use crate::cuts::{Cuts, place_of};
use crate::marks::Mark;
use crate::notes::{BootOutcome, ScenarioEnd};
use crate::tally::Tally;
use arrayvec::ArrayVec;
use common::limits::MOST_IMAGES;
use machine::Event;
use std::alloc::{AllocError, Global};
use version_order::Version;

/// The runs that ended with these images.
#[derive(Drop)]
pub struct SetTally {
    /// The running versions, image by image. `None` if an image is damaged.
    pub versions: Option<ArrayVec<Version, MOST_IMAGES>>,
    /// The number of these runs.
    pub tally: Tally,
}

/// The findings of a sweep, or of a part of its runs.
#[derive(Drop)]
pub struct Found {
    /// The events, without their bytes.
    pub events: Vec<Event<()>>,
    /// For each event the number of writes up to its end, without a power cut.
    pub writes: Vec<u32>,
    /// The mark of each write.
    pub marks: Vec<Mark>,
    /// The number of runs.
    pub runs: u64,
    /// The sets that ran at the end of a run. [`Found::sort`] puts them in the order of their first
    /// runs.
    pub sets: Vec<SetTally>,
    /// The runs with an unexpected end. Expected are the end of the run without a power cut, and
    /// the ends beside the first cut: without the event of the cut, and with a power failure in
    /// place of that event or after it.
    pub others: Tally,
    /// The runs in which a boot was refused.
    pub refused: Tally,
}

/// The writes of an event.
#[derive(Clone, Copy)]
pub(crate) struct EventWrites<'f> {
    /// The number of writes before the event.
    pub before: u32,
    /// The mark of each write.
    pub marks: &'f [Mark],
}

impl Found {
    /// The findings of no runs, and of no events yet. Its lists are in memory of `alloc`.
    pub(crate) fn nothing(alloc: Global) -> Self {
        Found {
            events: Vec::new(alloc),
            writes: Vec::new(alloc),
            marks: Vec::new(alloc),
            runs: 0,
            sets: Vec::new(alloc),
            others: Tally::none(),
            refused: Tally::none(),
        }
    }

    /// Whether no boot was refused, and no run had an unexpected end, as `others` defines it.
    pub fn is_good(&self) -> bool
        ensures { result ≡ is_good self.now }
    {
        self.others.runs == 0 && self.refused.runs == 0
    }

    /// The writes of this event. Events are counted from 0.
    pub(crate) fn writes_of(&self, event: usize) -> EventWrites<'_>
        ensures before { result.before ≡ writes_before self.now.writes.items event }
        ensures marks { result.marks.now ≡ marks_of self.now event }
    {
        let before = match event.checked_sub(1) {
            Some(last) => self.writes.get(last).copied().unwrap_or(0),
            None => 0,
        };
        let end = self.writes.get(event).copied().unwrap_or(before);
        let marks = self.marks.get(before as usize..end as usize);
        let marks = marks.unwrap_or(&[]);
        EventWrites { before, marks }
    }

    /// Counts a run with these cuts and this end.
    pub(crate) fn count_run(
        &mut self,
        cuts: Option<Cuts>,
        end: ScenarioEnd,
    ) -> Result<(), AllocError> {
        self.runs = self.runs.saturating_add(1);
        if end.is_refused {
            self.refused.count(cuts);
        }
        self.add_set(SetTally {
            versions: end.versions,
            tally: Tally::one(cuts),
        })
    }

    /// Counts runs that ended with these images.
    pub(crate) fn add_set(&mut self, more: SetTally) -> Result<(), AllocError> {
        for set in &mut self.sets {
            if is_same(&set.versions, &more.versions) {
                set.tally = set.tally.sum(more.tally);
                return Ok(());
            }
        }
        match self.sets.push(more) {
            Ok(()) => Ok(()),
            Err(_) => Err(AllocError),
        }
    }

    /// Notes the outcome of the boot after a power cut at this write.
    pub(crate) fn mark(&mut self, write: u32, outcome: BootOutcome) {
        let Some(mark) = self.marks.get_mut((write as usize).wrapping_sub(1)) else {
            return;
        };
        *mark = mark.sum(Mark::All(outcome));
    }

    /// Puts the sets in the order of their first runs.
    pub(crate) fn sort(&mut self) {
        self.sets
            .sort_unstable_by_key(|set| place_of(set.tally.first));
    }
}

/// The event without its bytes.
pub(crate) fn without_bytes(event: &Event<Vec<u8>>) -> Event<()> {
    match event {
        Event::Accept(_) => Event::Accept(()),
        Event::Piece(image, _) => Event::Piece(*image, ()),
        Event::Finish(image) => Event::Finish(*image),
        Event::Withdraw(image) => Event::Withdraw(*image),
        Event::Confirm(image) => Event::Confirm(*image),
        Event::Boot => Event::Boot,
        Event::Reset => Event::Reset,
    }
}

/// The word for an event in a script.
pub(crate) fn kind_of(event: &Event<()>) -> &'static str
    ensures { result.now ≡ kind_text event.now }
{
    match event {
        Event::Accept(_) => "accept",
        Event::Piece(..) => "piece",
        Event::Finish(_) => "finish",
        Event::Withdraw(_) => "withdraw",
        Event::Confirm(_) => "confirm",
        Event::Boot => "boot",
        Event::Reset => "reset",
    }
}

/// The image of an event, if it has one.
pub(crate) fn image_of(event: &Event<()>) -> Option<u8>
    ensures { result ≡ image_of event.now }
{
    match event {
        Event::Piece(image, _)
        | Event::Finish(image)
        | Event::Withdraw(image)
        | Event::Confirm(image) => Some(*image),
        Event::Accept(_) | Event::Boot | Event::Reset => None,
    }
}

/// Whether two sets have the same versions.
pub(crate) fn is_same(
    one: &Option<ArrayVec<Version, MOST_IMAGES>>,
    other: &Option<ArrayVec<Version, MOST_IMAGES>>,
) -> bool {
    match (one, other) {
        (None, None) => true,
        (Some(one), Some(other)) => one.as_slice() == other.as_slice(),
        _ => false,
    }
}
