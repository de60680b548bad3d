//! The result for one device.

ghost use Rattle.std.specs.Prelude.{◌≡◌, ◌≤◌, ℕ, List, Some, length};
ghost use Rattle.common.specs.Limits.{MOST_IMAGES};
ghost use Rattle.inspecting.specs.Bounded.{Holds};
ghost use Rattle.inspecting.specs.Outcome.{IsDecision, IsOutcome, is_bad, outcome_text};

use crate::fleet::bounded::Bounded;
use crate::fleet::requested::requested_versions;
use crate::fleet::requests::Requests;
use chooser::choose;
use common::limits::MOST_IMAGES;
use reports::{Report, Table};
use std::fmt;
use validity::is_valid;
use version_order::Version;

/// What was requested of a device, and the decision.
#[derive(Drop)]
pub struct Decision {
    /// For each image number the version that is requested, if an intact image is.
    pub requested: [Option<Version>; MOST_IMAGES],
    /// Which of the requests are taken, and why each of the others is refused.
    pub report: Report,
}

/// What a device does with its requests, or why that can't be said.
///
/// It is printed as lines: the report as `choose` prints it, or the line `not-valid`, `bad-line N`
/// or `too-long`.
#[derive(Drop)]
pub enum Outcome {
    /// It takes the greatest valid set of its table, by a right report.
    Decided(Decision),
    /// Its running images don't fit each other.
    NotValid,
    /// Its table is bad. The number, from 1, is that of the first line with which no table
    /// continues.
    BadLine(usize),
    /// Its table has more than 65,536 bytes.
    TooLong,
}

impl Outcome {
    /// Returns whether planning failed.
    pub fn is_bad(&self) -> bool
        ensures { result ≡ is_bad self.now }
    {
        !matches!(self, Outcome::Decided(_))
    }
}

impl fmt::Display for Outcome {
    ghost output = { λ outcome. Some (outcome_text outcome) };

    fn fmt<W: fmt::Write>(&self, f: &mut fmt::Formatter<W>) -> fmt::Result {
        match self {
            Outcome::Decided(decision) => write!(f, "{}", decision.report),
            Outcome::NotValid => f.write_str("not-valid\n"),
            Outcome::BadLine(line) => write!(f, "bad-line {line}\n"),
            Outcome::TooLong => f.write_str("too-long\n"),
        }
    }
}

/// Decides over the table of a device with this text, with its requests replaced by those of a
/// release. The table is written to `place`, since it is large.
pub fn outcome_of(requests: &Requests, text: &Bounded, place: &mut Table) -> Outcome
    ensures { (bytes : List ℕ) → Holds bytes text.now
        → IsOutcome requests.now.entries bytes result }
{
    if text.is_too_long {
        return Outcome::TooLong;
    }
    match Table::parse_into(&text.bytes, place) {
        Ok(()) => decide(requests, place),
        Err(bad) => Outcome::BadLine(bad.0),
    }
}

/// Decides over a table, after it replaced its requests by those of a release.
fn decide(requests: &Requests, table: &mut Table) -> Outcome
    requires { length table.old.images.items ≤ MOST_IMAGES }
    ensures { IsDecision requests.now.entries table.old result }
{
    requests.replace_in(table);
    if !is_valid(table) {
        return Outcome::NotValid;
    }
    Outcome::Decided(Decision {
        requested: requested_versions(table),
        report: choose(table),
    })
}
