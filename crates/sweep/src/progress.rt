//! Watches the progress of a sweep, and prints it on standard error.

use host::Host;
use std::io;
use std::io::Write;

/// How far the runs with power cuts are.
#[derive(Clone, Copy)]
pub struct Cutting {
    /// The number of first cuts whose runs are all finished.
    pub done: u64,
    /// The number of first cuts.
    pub all: u64,
    /// The number of finished runs with a second cut, among those of the current first cut.
    pub seconds_done: u64,
    /// The number of runs with a second cut, among those of the current first cut.
    pub seconds: u64,
    /// The number of runs so far.
    pub runs: u64,
    /// The number of them with an unexpected end.
    pub others: u64,
    /// The number of them in which a boot was refused.
    pub refused: u64,
}

/// A step of a sweep.
#[derive(Clone, Copy)]
pub enum Step {
    /// The first run, without a power cut, which counts the writes.
    Counting {
        /// The number of the event, from 1.
        event: usize,
        /// The number of events.
        events: usize,
    },
    /// Another run without a power cut, which finds what runs at its end.
    Uncut,
    /// The runs with power cuts.
    Cutting(Cutting),
}

/// Watches the progress of a sweep.
pub trait Watch {
    /// Sees the start of a step, and the end of each run with power cuts.
    fn see(&mut self, step: Step);
}

/// Writes the progress of a sweep to standard error, if that is a terminal.
#[derive(Drop)]
pub struct Progress<'a, H, E> {
    /// The clock.
    host: &'a H,
    /// Standard error.
    err: &'a mut E,
    /// The time of the last line, in seconds.
    told: Option<u64>,
    /// The time at which the runs with cuts began, in seconds.
    began: Option<u64>,
}

impl<'a, H: Host, E: Write> Progress<'a, H, E> {
    /// The progress of a sweep that begins now.
    pub fn new(host: &'a H, err: &'a mut E) -> Self {
        Progress {
            host,
            err,
            told: None,
            began: None,
        }
    }

    /// Removes the progress line. A failed write changes nothing.
    pub fn clear(&mut self) {
        if self.told.is_some() {
            let _ = self.err.write_all(b"\r\x1b[K");
            let _ = self.err.flush();
        }
    }

    /// Writes the step of the sweep over the last line. A failed write changes nothing.
    fn tell(&mut self, step: Step, now: u64) {
        let _ = match step {
            Step::Counting { event, events } => {
                write!(
                    self.err,
                    "\rsweep: first run, event {event} of {events}\x1b[K"
                )
            }
            Step::Uncut => write!(self.err, "\rsweep: second run\x1b[K"),
            Step::Cutting(at) => {
                let went = now.saturating_sub(self.began.unwrap_or(now));
                write_cutting(self.err, at, seconds_left(at, went))
            }
        };
        let _ = self.err.flush();
    }
}

impl<H: Host, E: Write> Watch for Progress<'_, H, E> {
    fn see(&mut self, step: Step) {
        let Some(now) = self.host.watched_seconds() else {
            return;
        };
        if let (None, Step::Cutting(_)) = (self.began, step) {
            self.began = Some(now);
        }
        if self.told == Some(now) {
            return;
        }
        self.told = Some(now);
        self.tell(step, now);
    }
}

/// Writes over the last line how far the runs with cuts are, the sums of the runs so far, and the
/// seconds that are left.
fn write_cutting<E: Write>(err: &mut E, at: Cutting, left: Option<u64>) -> io::Result<()> {
    let Cutting {
        done,
        all,
        runs,
        others,
        refused,
        ..
    } = at;
    write!(
        err,
        "\rsweep: cuts {done} of {all}, {runs} runs, {others} other, {refused} refused"
    )?;
    if let Some(left) = left {
        write!(err, ", {left} s left")?;
    }
    err.write_all(b"\x1b[K")
}

/// The estimated seconds of the other runs, if the runs so far took `went` seconds. `None` before a
/// thousandth of the runs of the first cut is finished.
fn seconds_left(at: Cutting, went: u64) -> Option<u64> {
    let part = at.seconds_done.saturating_mul(1000) / at.seconds.max(1);
    let done = at.done.saturating_mul(1000).saturating_add(part);
    let left = at.all.saturating_mul(1000).saturating_sub(done);
    went.saturating_mul(left).checked_div(done)
}
