//! The mark of a write: what the boots after power cuts at it did.

ghost use Rattle.std.specs.Prelude.{◌≡◌};
ghost use Rattle.sweep.specs.Findings.{mark_text};
ghost use Rattle.sweep.specs.Marks.{IsMarkSum};

use crate::notes::BootOutcome;

/// The outcomes of the boots after power cuts at one write.
#[derive(Clone, Copy)]
pub enum Mark {
    /// No run had a power cut at the write.
    NotTried,
    /// All boots had this outcome.
    All(BootOutcome),
    /// The outcome depended on what the power cut left.
    Several,
}

impl Mark {
    /// The mark of a write that has this mark in one part of the runs, and `other` in another part.
    #[tactic(auto, using(crate::proofs::MarkLaws::mark_sums))]
    pub fn sum(self, other: Mark) -> Mark
        ensures { IsMarkSum self other result }
    {
        match (self, other) {
            (Mark::NotTried, mark) => mark,
            (mark, Mark::NotTried) => mark,
            (Mark::All(one), Mark::All(two)) => {
                if one == two {
                    Mark::All(one)
                } else {
                    Mark::Several
                }
            }
            (Mark::Several, _) => Mark::Several,
            (_, Mark::Several) => Mark::Several,
        }
    }

    /// The mark of this character of an output. `None` if it is no mark's.
    pub fn of_character(character: char) -> Option<Mark> {
        match character {
            '_' => Some(Mark::NotTried),
            '*' => Some(Mark::Several),
            '.' => Some(Mark::All(BootOutcome::Plain)),
            't' => Some(Mark::All(BootOutcome::Trial)),
            'p' => Some(Mark::All(BootOutcome::Permanent)),
            'r' => Some(Mark::All(BootOutcome::Reverted)),
            'a' => Some(Mark::All(BootOutcome::TrialAgain)),
            'x' => Some(Mark::All(BootOutcome::Refused)),
            _ => None,
        }
    }

    /// Its character in an output.
    pub fn character(self) -> &'static str
        ensures { result.now ≡ mark_text self }
    {
        match self {
            Mark::NotTried => "_",
            Mark::Several => "*",
            Mark::All(BootOutcome::Plain) => ".",
            Mark::All(BootOutcome::Trial) => "t",
            Mark::All(BootOutcome::Permanent) => "p",
            Mark::All(BootOutcome::Reverted) => "r",
            Mark::All(BootOutcome::TrialAgain) => "a",
            Mark::All(BootOutcome::Refused) => "x",
        }
    }
}
