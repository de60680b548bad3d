//! What a sweep notes during a run.

use arrayvec::ArrayVec;
use common::limits::MOST_IMAGES;
use machine::{Fault, Reply};
use manifest::ManifestError;
use std::alloc::AllocError;
use version_order::Version;

/// The outcome of a boot.
#[derive(Clone, Copy, PartialEq, Eq)]
pub enum BootOutcome {
    /// It took no request.
    Plain,
    /// It took a set on trial.
    Trial,
    /// It took a set permanently.
    Permanent,
    /// It reverted to the old set.
    Reverted,
    /// It tried the set on trial again.
    TrialAgain,
    /// It decided nothing: it was refused or interrupted.
    Refused,
}

/// The outcome of the first power cut of a run.
#[derive(Clone, Copy)]
pub struct CutNote {
    /// The event during which the power failed, from 0.
    pub event: usize,
    /// The outcome of the first boot that wasn't interrupted.
    pub outcome: BootOutcome,
    /// The number of writes after the cut, up to the end of that boot.
    pub writes: u64,
}

/// How a run ended.
#[derive(Drop)]
pub struct ScenarioEnd {
    /// The running versions, image by image. `None` if an image is damaged.
    pub versions: Option<ArrayVec<Version, MOST_IMAGES>>,
    /// The outcome of the first power cut. `None` if there was none.
    pub cut: Option<CutNote>,
    /// Whether a boot was refused that wasn't interrupted.
    pub is_refused: bool,
}

/// The notes on a run in progress.
#[derive(Drop)]
pub struct Notes {
    /// How often the device boots at most after an interrupted event.
    pub most_boots: usize,
    /// The number of events so far.
    pub events: usize,
    /// The outcome of the first power cut, if there was one.
    pub cut: Option<CutNote>,
    /// Whether a boot was refused that wasn't interrupted.
    pub is_refused: bool,
}

impl Notes {
    /// The notes on a run that begins, whose device boots at most this often after an interrupted
    /// event.
    pub fn new(most_boots: usize) -> Self {
        Notes {
            most_boots,
            events: 0,
            cut: None,
            is_refused: false,
        }
    }

    /// Notes the outcome of a boot of the script, or of one after a power cut.
    pub fn note_boot(&mut self, reply: &Reply) {
        self.is_refused |= boot_outcome(reply) == BootOutcome::Refused;
    }

    /// Notes the outcome of a power cut: the reply of the first boot that wasn't interrupted, and
    /// the number of writes up to its end. Only the first cut of a run is noted.
    pub fn note_cut(&mut self, reply: &Reply, writes: u64) {
        if self.cut.is_none() {
            self.cut = Some(CutNote {
                event: self.events,
                outcome: boot_outcome(reply),
                writes,
            });
        }
    }

    /// Notes the end of an event with this reply.
    ///
    /// # Errors
    /// `AllocError` if the device had no memory for it.
    pub fn end_event(&mut self, reply: &Reply) -> Result<(), AllocError> {
        self.events = self.events.saturating_add(1);
        had_memory(reply)
    }
}

/// Checks that the device had memory for the event with this reply.
///
/// # Errors
/// `AllocError` if it had none.
pub fn had_memory(reply: &Reply) -> Result<(), AllocError> {
    match reply {
        Reply::Refused(Fault::NoMemory)
        | Reply::Refused(Fault::Manifest(ManifestError::NoMemory)) => Err(AllocError),
        _ => Ok(()),
    }
}

/// The outcome of a boot with this reply.
fn boot_outcome(reply: &Reply) -> BootOutcome {
    match reply {
        Reply::Booted {
            table: _,
            report,
            permanent,
        } => {
            if !report.images.iter().any(|image| image.is_taken) {
                BootOutcome::Plain
            } else if *permanent {
                BootOutcome::Permanent
            } else {
                BootOutcome::Trial
            }
        }
        Reply::Reverted(_) => BootOutcome::Reverted,
        Reply::TrialAgain { set: _, left: _ } => BootOutcome::TrialAgain,
        Reply::Done | Reply::Refused(_) | Reply::Cut => BootOutcome::Refused,
    }
}
