//! Numbers of runs, each with the first of them.

ghost use Rattle.std.specs.Prelude.{◌∷◌, []};
ghost use Rattle.sweep.specs.Tallies.{IsFirstOf, IsTallyOf, IsTallySum};

use crate::cuts::{Cuts, place_of};

/// A number of runs.
#[derive(Clone, Copy)]
pub struct Tally {
    /// The number of runs.
    pub runs: u64,
    /// The cuts of the first of these runs, in the order of [`place_of`]. `None` if it is the run
    /// without a power cut, or if there are no runs.
    pub first: Option<Cuts>,
}

impl Tally {
    /// The tally of no runs.
    pub fn none() -> Self
        ensures { IsTallyOf [] result }
    {
        Tally {
            runs: 0,
            first: None,
        }
    }

    /// The tally of one run, with these cuts.
    pub fn one(cuts: Option<Cuts>) -> Self
        ensures { IsTallyOf (cuts ∷ []) result }
    {
        Tally {
            runs: 1,
            first: cuts,
        }
    }

    /// The tally of the runs of both tallies.
    #[tactic(auto, using(crate::proofs::TallyLaws::tally_summed))]
    pub fn sum(self, other: Tally) -> Tally
        ensures { IsTallySum self other result }
    {
        let runs = self.runs.saturating_add(other.runs);
        let first = first_of(self, other);
        Tally { runs, first }
    }

    /// Counts a run with these cuts.
    pub fn count(&mut self, cuts: Option<Cuts>) {
        *self = self.sum(Tally::one(cuts));
    }
}

/// The cuts of the first run of both tallies.
fn first_of(one: Tally, other: Tally) -> Option<Cuts>
    ensures { IsFirstOf one other result }
{
    if one.runs == 0 {
        return other.first;
    }
    if other.runs == 0 {
        return one.first;
    }
    if place_of(other.first) < place_of(one.first) {
        other.first
    } else {
        one.first
    }
}
