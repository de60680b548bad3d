//! The summary of a plan while its devices are decided.

ghost use Rattle.std.specs.Prelude.{◌≡◌, ◌++◌, ◌∷◌, List, OnOk, [], map};
ghost use Rattle.inspecting.specs.Key.{key_text};
ghost use Rattle.inspecting.specs.Plan.{Planned};
ghost use Rattle.inspecting.specs.Summary.{decision_keys, once, outcome_keys, refusal_key};
ghost use Rattle.inspecting.specs.SummaryRows.{AddsRows, Summarizes};

use crate::fleet::key::Key;
use crate::fleet::outcome::{Decision, Outcome};
use crate::fleet::requested::version_at;
use crate::fleet::rows::{RowFault, Rows, add_row};
use reports::Refusal;
use std::alloc::Global;
use std::collections::BTreeMap;

/// What the devices of a plan do, how many do it, and which is the first.
///
/// Its memory grows with the number of keys only, and not with that of devices.
#[derive(Drop)]
pub struct Summary {
    /// Where its texts are.
    alloc: Global,
    /// Its rows.
    pub rows: Rows,
    /// The text of the last key.
    key: String,
}

impl Summary {
    /// Creates a summary of no devices, in memory of `alloc`.
    pub fn new(alloc: Global) -> Self
        ensures { Summarizes [] result }
    {
        Summary {
            alloc,
            rows: BTreeMap::new(alloc),
            key: String::new(alloc),
        }
    }

    /// Adds a device of this name with its result.
    ///
    /// # Errors
    /// `NoMemory` if memory runs out, `TooMany` if a count would be 2^64 or more. Then some of its
    /// keys are counted.
    pub fn add(&mut self, name: &str, outcome: &Outcome) -> Result<(), RowFault>
        ensures { OnOk result ((plan : List Planned) (planned : Planned)
            → name.now ≡ planned.device.name → outcome.now ≡ planned.outcome
            → Summarizes plan self.old → Summarizes (plan ++ planned ∷ []) self.new) }
    {
        self.count(name, &Key::Device)?;
        self.add_outcome(name, outcome)
    }

    /// Adds a row of another summary.
    ///
    /// # Errors
    /// The same as those of [`Summary::add`]. Then nothing is counted.
    pub fn add_row(&mut self, count: u64, first: &str, key: &str) -> Result<(), RowFault>
        ensures { OnOk result (AddsRows
            (record { count = count; first = first.now; key = key.now } ∷ [])
            self.old.rows self.new.rows) }
    {
        add_row(&mut self.rows, self.alloc, count, first, key)
    }

    /// Counts the keys of a result.
    fn add_outcome(&mut self, name: &str, outcome: &Outcome) -> Result<(), RowFault>
        ensures { OnOk result (AddsRows (map (once name.now) (outcome_keys outcome.now))
            self.old.rows self.new.rows) }
    {
        match outcome {
            Outcome::Decided(decision) => self.add_decision(name, decision),
            Outcome::NotValid => self.count(name, &Key::NotValid),
            Outcome::BadLine(_) | Outcome::TooLong => self.count(name, &Key::Bad),
        }
    }

    /// Counts the keys of a decision.
    fn add_decision(&mut self, name: &str, decision: &Decision) -> Result<(), RowFault>
        ensures { OnOk result (AddsRows (map (once name.now) (decision_keys decision.now))
            self.old.rows self.new.rows) }
    {
        self.count(name, &Key::Take(decision.report.images.as_slice()))?;
        for refusal in decision.report.refusals.as_slice() {
            self.add_refusal(name, decision, refusal)?;
        }
        Ok(())
    }

    /// Counts the key of a refusal.
    fn add_refusal(
        &mut self,
        name: &str,
        decision: &Decision,
        refusal: &Refusal,
    ) -> Result<(), RowFault>
        ensures { OnOk result (AddsRows (once name.now (refusal_key decision.now.requested refusal.now) ∷ [])
            self.old.rows self.new.rows) }
    {
        let key = Key::Refuse {
            image: refusal.image,
            version: version_at(&decision.requested, refusal.image),
            reason: &refusal.reason,
        };
        self.count(name, &key)
    }

    /// Counts a key once.
    fn count(&mut self, name: &str, key: &Key<'_>) -> Result<(), RowFault>
        ensures { OnOk result (AddsRows (once name.now (key_text key.now) ∷ [])
            self.old.rows self.new.rows) }
    {
        self.key.clear();
        let Ok(()) = write!(self.key, "{key}") else {
            return Err(RowFault::NoMemory);
        };
        add_row(&mut self.rows, self.alloc, 1, name, &self.key)
    }
}
