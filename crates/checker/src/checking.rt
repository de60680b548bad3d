//! Checks whether a report is right for a table, and finds the first flaw of one that isn't.

ghost use Rattle.std.specs.Prelude.{◌≡◌, ◌↔◌, None, Some, IsTrue};
ghost use Rattle.reports.specs.Combination.{IsGreatest};
ghost use Rattle.checker.specs.Flaws.{IsFirstFlaw};
ghost use Rattle.reports.specs.Rightness.{IsRight, taken_in};

use crate::{combination, images, reasons, requests};
use reports::{Report, Table};

/// What makes a report wrong for a table: the first condition of a right report that doesn't hold,
/// and where. The conditions are in this order.
#[derive(Clone, Copy, Debug, PartialEq, Eq)]
pub enum Flaw {
    /// The report doesn't have as many images as the table.
    Images,
    /// The report doesn't have the version of this image that the table has for it: that of the
    /// taken request, or the running one.
    Version {
        /// The number of the image.
        image: usize,
    },
    /// The request of this image isn't taken or refused exactly once, or there is no request and it
    /// is taken or refused.
    Request {
        /// The number of the image. Perhaps only a refusal names it.
        image: usize,
    },
    /// The taken request of this image may not replace it: it isn't intact, is older, or has a
    /// counter below the floor.
    Member {
        /// The number of the image.
        image: usize,
    },
    /// A dependency or a group of this image isn't met by the versions that would run.
    Dependencies {
        /// The number of the image, taken or not.
        image: usize,
    },
    /// The reason of this refusal doesn't hold after the refusals before it.
    Reason {
        /// The place of the refusal in the report's list, from 0.
        refusal: usize,
    },
}

/// Returns whether a report is right for a table.
///
/// - `table`: the running and the requested images, and the floors of the security counters.
/// - `report`: which requests are said to be taken, and why each other one is refused.
///
/// The answer is yes exactly if all of these hold:
///
/// - The report has the table's images. The version of each is that of the taken request, or the
///   running version.
/// - Each request is either taken or refused, once, and nothing else is.
/// - The taken requests are a valid combination.
/// - Each refusal has a reason that holds after the refusals before it.
///
/// Then the taken requests are the greatest valid combination. The refusals may have any order in
/// which each reason holds at its place.
///
/// `first_flaw` says which of these fails. The answer depends on these two values alone, and not on
/// how the report was made. There is an answer for any table and any report, also if their numbers
/// of images differ. A yes doesn't say that the table is that of the device. The call doesn't
/// allocate.
///
/// # Examples
///
/// ```text
/// // Image 0 requests 2.0.0+0, which needs image 1 at 2.0.0+0. Nothing is requested for image 1.
/// let table = Table::parse(
///     b"image 0 1.0.0+0 0 0\nrequest 2.0.0+0 0\nneeds 1 2.0.0+0\nimage 1 1.0.0+0 0 0\n",
/// )?;
/// let right = Report::parse(b"run 0 1.0.0+0\nrun 1 1.0.0+0\nrefuse 0 needs 1 2.0.0+0\n")?;
/// let wrong = Report::parse(b"take 0 2.0.0+0\nrun 1 1.0.0+0\n")?;
/// assert!(rt; check(&table, &right) && !check(&table, &wrong));
/// ```
#[tactic(auto, using(reports::proofs::Greatest::right_is_greatest))]
pub fn check(table: &Table, report: &Report) -> bool
    ensures exact { IsTrue result ↔ IsRight table.now report.now }
    ensures greatest { IsTrue result → IsGreatest table.now (taken_in report.now) }
{
    first_flaw(table, report).is_none()
}

/// Returns what makes a report wrong for a table: the first condition that fails, at the lowest
/// image or the first refusal at which it fails. `None` if the report is right.
///
/// - `table`: the running and the requested images, and the floors of the security counters.
/// - `report`: which requests are said to be taken, and why each other one is refused.
///
/// The conditions are those of `check`, in the order of `Flaw`. There is a result for any table and
/// any report. The call doesn't allocate.
pub fn first_flaw(table: &Table, report: &Report) -> Option<Flaw>
    ensures right { (result ≡ None) ↔ IsRight table.now report.now }
    ensures first { (named : Flaw)
        → (result ≡ Some named) ↔ IsFirstFlaw table.now report.now named }
{
    if !images::has_as_many_images(table, report) {
        return Some(Flaw::Images);
    }
    if let Some(image) = images::first_wrong_version(table, report) {
        return Some(Flaw::Version { image });
    }
    if let Some(image) = requests::first_not_decided_once(table, report) {
        return Some(Flaw::Request { image });
    }
    if let Some(image) = combination::first_unacceptable_member(table, report) {
        return Some(Flaw::Member { image });
    }
    if let Some(image) = combination::first_unmet(table, report) {
        return Some(Flaw::Dependencies { image });
    }
    if let Some(refusal) = reasons::first_unfounded(table, &report.refusals) {
        return Some(Flaw::Reason { refusal });
    }
    None
}
