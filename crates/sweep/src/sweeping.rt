//! Makes all runs of a sweep.

ghost use Rattle.std.specs.Prelude.{◌≡◌, true};
ghost use Rattle.flash_model.specs.Blanks.{IsBlankOf};

use crate::cuts::{Cuts, TEARS, Tear, TornWrite};
use crate::device::device_over;
use crate::found::{Found, is_same, without_bytes};
use crate::marks::Mark;
use crate::notes::{CutNote, ScenarioEnd, had_memory};
use crate::parts::{WHOLE, has_cut, has_uncut, share_of};
use crate::progress::{Cutting, Step, Watch};
use crate::random_numbers::Random;
use crate::scenario::Scenario;
use crate::scenario_run::run_scenario;
use arrayvec::ArrayVec;
use boot_core::{Device, step};
use command_line::{SweepChoices, SweepPart};
use common::limits::MOST_IMAGES;
use device_texts::flash_of;
use flash_model::MemFlash;
use machine::Event;
use std::alloc::{AllocError, Global};
use std::marker::Brand;
use std::sync::ledger::{Blank, Ledger};
use version_order::Version;

/// The versions that run at the end of a scenario without one of its events, or with a power
/// failure in place of it or after it. `None` if an image is damaged.
#[derive(Drop)]
struct EndsBeside {
    /// The number of the event, from 0.
    event: usize,
    /// The end without the event.
    left_out: Option<ArrayVec<Version, MOST_IMAGES>>,
    /// The end with a power failure in place of the event.
    before: Option<ArrayVec<Version, MOST_IMAGES>>,
    /// The end with a power failure after the event.
    after: Option<ArrayVec<Version, MOST_IMAGES>>,
}

/// The runs of a sweep so far.
#[derive(Drop)]
struct Runs<'s, 'c, 'w, W> {
    alloc: Global,
    scenario: &'s Scenario<'s>,
    watch: &'w mut W,
    choices: &'c SweepChoices<'c>,
    /// The part of the runs to make.
    part: SweepPart,
    found: Found,
    /// The versions that run at the end without a power cut. `None` if an image is damaged.
    uncut: Option<ArrayVec<Version, MOST_IMAGES>>,
    /// The ends beside the event of the last cut.
    beside: Option<EndsBeside>,
    /// How far the runs are.
    at: Cutting,
}

/// Runs a scenario once without a power cut, and then once for each write and each way to tear it,
/// or as `choices` say. `watch` sees each event of the first run, and each run after it.
///
/// If `choices` have a part of the runs, the findings are those of this part. The findings of all
/// parts add up to those of all runs.
///
/// Memory of `alloc` holds two copies of the flash at a time, and a few numbers for each write and
/// each event.
///
/// # Errors
/// `AllocError` if memory is refused, also if the device has none for a manifest.
pub(crate) fn sweep<W: Watch>(
    alloc: Global,
    scenario: &Scenario<'_>,
    choices: &SweepChoices<'_>,
    watch: &mut W,
) -> Result<Found, AllocError> {
    let mut found = Found::nothing(alloc);
    found.writes = count_writes::<Brand, _>(alloc, Blank::new(2), scenario, watch)?;
    let count = found.writes.last().copied().unwrap_or(0);
    found.marks = vec![in alloc; Mark::NotTried; count as usize]?;
    for event in scenario.events {
        found.events.push(without_bytes(event))?;
    }
    let part = choices.part.unwrap_or(WHOLE);
    let mut runs = Runs {
        alloc,
        scenario,
        watch,
        choices,
        part,
        found,
        uncut: None,
        beside: None,
        at: Cutting {
            done: 0,
            all: share_of(part, firsts_of(choices, count)),
            seconds_done: 0,
            seconds: 0,
            runs: 0,
            others: 0,
            refused: 0,
        },
    };
    runs.run_uncut()?;
    match choices.sample {
        None => runs.cut_each()?,
        Some(_) => runs.cut_sample()?,
    }
    Ok(runs.into_found())
}

/// The number of first cuts that a sweep tries, if the run without a cut makes this many writes.
fn firsts_of(choices: &SweepChoices<'_>, writes: u32) -> u64 {
    match choices.sample {
        None => u64::from(writes) * TEARS.len() as u64,
        Some(_) if writes == 0 => 0,
        Some(sample) => u64::from(sample),
    }
}

/// Runs the scenario without a power cut. Returns for each event the number of writes up to its
/// end.
fn count_writes<L: Ledger, W: Watch>(
    alloc: Global,
    blank: Blank,
    scenario: &Scenario<'_>,
    watch: &mut W,
) -> Result<Vec<u32>, AllocError>
    requires blank { IsBlankOf blank L.name L.parts 2 }
{
    let bytes = Vec::from_slice(alloc, scenario.bytes)?;
    let flash = flash_of::<L>(alloc, blank, &scenario.device.map, bytes);
    let mut device = device_over(flash, scenario.device);
    count_through(alloc, &mut device, scenario.events, watch)
}

/// Passes events to a device whose flash has power. Returns for each event the number of writes up
/// to its end.
fn count_through<L: Ledger, W: Watch>(
    alloc: Global,
    device: &mut Device<MemFlash<L>>,
    events: &[Event<Vec<u8>>],
    watch: &mut W,
) -> Result<Vec<u32>, AllocError>
    requires { device.old.here.flash.is_on ≡ true }
{
    let mut writes = Vec::with_capacity(alloc, events.len())?;
    for event in events {
        watch.see(Step::Counting {
            event: writes.len().saturating_add(1),
            events: events.len(),
        });
        let event = event.as_deref();
        let reply = step(alloc, device, &event);
        had_memory(&reply)?;
        let count = device.flash().writes().min(u64::from(u32::MAX)) as u32;
        writes.push(count)?;
    }
    Ok(writes)
}

impl<W: Watch> Runs<'_, '_, '_, W> {
    /// Runs the scenario without a power cut. The run counts in the first part only.
    fn run_uncut(&mut self) -> Result<(), AllocError> {
        self.watch.see(Step::Uncut);
        let end = run_scenario(self.alloc, self.scenario, &[])?;
        self.uncut = end.versions.clone()?;
        if has_uncut(self.part) {
            self.found.count_run(None, end)?;
        }
        Ok(())
    }

    /// The number of writes in the run without a power cut.
    fn writes(&self) -> u32 {
        self.found.marks.len().min(u32::MAX as usize) as u32
    }

    /// Tears each write in each way.
    fn cut_each(&mut self) -> Result<(), AllocError> {
        for index in 0..firsts_of(self.choices, self.writes()) {
            if has_cut(self.part, index) {
                self.cut_first(first_at(index))?;
            }
        }
        Ok(())
    }

    /// Makes a run with this power cut. If second cuts are asked for, also makes one for each
    /// write of the boot after it.
    fn cut_first(&mut self, first: TornWrite) -> Result<(), AllocError> {
        let writes = self.try_cuts(Cuts::One(first))?;
        if self.choices.is_twice {
            self.at.seconds = u64::from(writes) * TEARS.len() as u64;
            for place in 0..writes {
                let write = first.write.saturating_add(place).saturating_add(1);
                self.cut_second(first, write)?;
            }
        }
        self.end_first();
        Ok(())
    }

    /// Tears this write in each way, after a first power cut.
    fn cut_second(&mut self, first: TornWrite, write: u32) -> Result<(), AllocError> {
        for tear in &TEARS {
            let second = TornWrite { write, tear: *tear };
            self.try_cuts(Cuts::Two(first, second))?;
            self.at.seconds_done = self.at.seconds_done.saturating_add(1);
        }
        Ok(())
    }

    /// Makes a sample of runs, with random writes and random ways to tear them.
    fn cut_sample(&mut self) -> Result<(), AllocError> {
        let count = self.writes();
        // The generator takes any number but 0.
        let mut random = Random::new(self.choices.seed.unwrap_or(1).max(1));
        for index in 0..firsts_of(self.choices, count) {
            // Each run draws the same numbers in each part, and however the other runs end.
            let first = Draw::from(&mut random);
            let second = match self.choices.is_twice {
                true => Some(Draw::from(&mut random)),
                false => None,
            };
            if has_cut(self.part, index) {
                self.cut_drawn(first, second)?;
            }
        }
        Ok(())
    }

    /// Makes a run with the first cut that was drawn, and one with both if there is a second one.
    fn cut_drawn(&mut self, first: Draw, second: Option<Draw>) -> Result<(), AllocError> {
        let Some(first) = first.cut(0, self.writes()) else {
            return Ok(());
        };
        let writes = self.try_cuts(Cuts::One(first))?;
        if let Some(second) = second.and_then(|second| second.cut(first.write, writes)) {
            self.try_cuts(Cuts::Two(first, second))?;
        }
        self.end_first();
        Ok(())
    }

    /// Notes that all runs of a first cut are finished.
    fn end_first(&mut self) {
        self.at.done = self.at.done.saturating_add(1);
        self.at.seconds = 0;
        self.at.seconds_done = 0;
    }

    /// Runs the scenario with these power cuts, and counts the outcome. Returns the number of
    /// writes after the first cut, up to the end of the first boot that wasn't interrupted.
    fn try_cuts(&mut self, cuts: Cuts) -> Result<u32, AllocError> {
        let (ended, first) = match cuts {
            Cuts::One(first) => (run_scenario(self.alloc, self.scenario, &[first]), first),
            Cuts::Two(first, second) => (
                run_scenario(self.alloc, self.scenario, &[first, second]),
                first,
            ),
        };
        let end = ended?;
        let mut writes = 0;
        if let Some(cut) = end.cut {
            self.found.mark(first.write, cut.outcome);
            writes = cut.writes.min(u64::from(u32::MAX)) as u32;
            if self.is_other(&cut, &end)? {
                self.found.others.count(Some(cuts));
            }
        }
        self.found.count_run(Some(cuts), end)?;
        self.at.runs = self.found.runs;
        self.at.others = self.found.others.runs;
        self.at.refused = self.found.refused.runs;
        self.watch.see(Step::Cutting(self.at));
        Ok(writes)
    }

    /// Whether a run had an unexpected end, as [`Found::others`] defines it.
    fn is_other(&mut self, cut: &CutNote, end: &ScenarioEnd) -> Result<bool, AllocError> {
        if is_same(&self.uncut, &end.versions) {
            return Ok(false);
        }
        if let Some(known) = &self.beside {
            if known.event == cut.event {
                return Ok(!known.has(end));
            }
        }
        let known = run_beside(self.alloc, self.scenario, cut.event)?;
        let answer = !known.has(end);
        self.beside = Some(known);
        Ok(answer)
    }

    /// The findings of the runs.
    fn into_found(self) -> Found {
        let Runs {
            alloc,
            scenario,
            watch,
            choices,
            part,
            mut found,
            uncut,
            beside,
            at,
        } = self;
        found.sort();
        found
    }
}

/// The first cut of this index, in the order of a sweep that tears each write in each way.
fn first_at(index: u64) -> TornWrite {
    let tears = TEARS.len() as u64;
    let write = (index / tears).saturating_add(1).min(u64::from(u32::MAX)) as u32;
    TornWrite {
        write,
        tear: TEARS[(index % tears) as usize],
    }
}

/// Two random numbers, which select a write and a way to tear it.
#[derive(Clone, Copy)]
struct Draw {
    write: u32,
    tear: u32,
}

impl Draw {
    /// The next two numbers.
    fn from(random: &mut Random) -> Self {
        Draw {
            write: random.number(),
            tear: random.number(),
        }
    }

    /// The cut at one of the `count` writes after the first `before`. `None` if `count` is 0.
    fn cut(self, before: u32, count: u32) -> Option<TornWrite> {
        if count == 0 {
            return None;
        }
        let place = self.write % count;
        Some(TornWrite {
            write: before.saturating_add(place).saturating_add(1),
            tear: TEARS[(self.tear % TEARS.len() as u32) as usize],
        })
    }
}

impl EndsBeside {
    /// Whether a run that ended like this is one of them.
    fn has(&self, end: &ScenarioEnd) -> bool {
        is_same(&self.left_out, &end.versions)
            || is_same(&self.before, &end.versions)
            || is_same(&self.after, &end.versions)
    }
}

/// Runs a scenario without the event of this number, with a power failure in place of it, and with
/// one after it. Events are counted from 0.
fn run_beside(
    alloc: Global,
    scenario: &Scenario<'_>,
    event: usize,
) -> Result<EndsBeside, AllocError> {
    let events = scenario.events;
    let (before, _) = events.split_at(event.min(events.len()));
    let (through, more) = events.split_at(event.saturating_add(1).min(events.len()));
    // After a power failure between two events the device is reset, and boots.
    let power_fails = [Event::Reset, Event::Boot];
    Ok(EndsBeside {
        event,
        left_out: end_of(alloc, scenario, before, &[], more)?,
        before: end_of(alloc, scenario, before, &power_fails, more)?,
        after: end_of(alloc, scenario, through, &power_fails, more)?,
    })
}

/// The versions that run at the end if the device of a scenario takes these events instead, without
/// a power cut.
fn end_of(
    alloc: Global,
    scenario: &Scenario<'_>,
    events: &[Event<Vec<u8>>],
    between: &[Event<Vec<u8>>],
    more: &[Event<Vec<u8>>],
) -> Result<Option<ArrayVec<Version, MOST_IMAGES>>, AllocError> {
    let scenario = Scenario {
        device: scenario.device,
        bytes: scenario.bytes,
        events,
        between,
        more,
    };
    let end = run_scenario(alloc, &scenario, &[])?;
    Ok(end.versions)
}
