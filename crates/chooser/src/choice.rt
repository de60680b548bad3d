//! Chooses among the requests of a table.

ghost use Rattle.std.specs.Prelude.{◌≡◌, ◌+◌, ◌≤◌, ℕ, None, false};
ghost use Rattle.reports.specs.Combination.{IsGreatest, IsValid, running_set};
ghost use Rattle.reports.specs.Reasons.{is_refused, times_refused};
ghost use Rattle.reports.specs.Rightness.{IsRight, has_request, once_if, taken_in};
ghost use Rattle.reports.specs.StandardOrder.{IsInStandardOrder, needs_reason};
ghost use Rattle.common.specs.Limits.{MOST_DROPS, MOST_LOOKS, MOST_PASSES};
ghost use Rattle.chooser.specs.Counted.{HasRoom, RisesAtMost, drops_in};

use crate::marks::{mark_dependants, marks_after};
use crate::needs::next_need;
use crate::own_reasons::put_own_refusals;
use crate::reporting::put_images;
use crate::steps::Steps;
use arrayvec::ArrayVec;
use reports::{MOST_REFUSALS, Refusal, Report, Table, right_reports_are_greatest};

/// Chooses among the requests of a table. Takes the requests of the greatest valid combination, and
/// refuses each other one with the lowest reason that holds of it, in the standard order.
///
/// The running images must fit each other, which `validity::is_valid` checks. The call doesn't
/// allocate and never fails. A table of no images has an empty report. If the table fits its
/// fields, as any table does that was read, its report has a text: see
/// `reports::right_reports_have_a_text`.
///
/// # Examples
///
/// ```text
/// // Image 0 runs 1.0.0+0 and requests 2.0.0+0. The security counters and the floor are 0.
/// let table = Table::parse(b"image 0 1.0.0+0 0 0\nrequest 2.0.0+0 0\n")?;
/// assert!(rt; is_valid(&table));
/// let report = choose(&table);
/// assert!(rt; check(&table, &report));
/// assert!(rt; report.to_string(rt.alloc())?.as_str() == "take 0 2.0.0+0\n");
/// ```
pub fn choose(table: &Table) -> Report
    requires { IsValid table.now running_set }
    ensures right { IsRight table.now result }
    ensures greatest { IsGreatest table.now (taken_in result) }
    ensures standard { IsInStandardOrder table.now result.refusals.items }
{
    choose_counted(table, &mut Steps::default())
}

/// Chooses as [`choose`] does, and writes the report to a place, so that none is copied. What the
/// place held before doesn't matter.
pub fn choose_into(table: &Table, report: &mut Report)
    requires { IsValid table.now running_set }
    ensures right { IsRight table.now report.new }
    ensures greatest { IsGreatest table.now (taken_in report.new) }
    ensures standard { IsInStandardOrder table.now report.new.refusals.items }
{
    put_report(table, report, &mut Steps::default());
}

/// Chooses as [`choose`] does, and adds to a count of its steps: at most one pass over all
/// requests; a drop for each refusal with a reason above 4 (`Needs` and `NeedsOne`); and after each
/// drop a look at the remaining requests that depend on the dropped one or have it as an
/// alternative.
///
/// Each count must be below 2^31, so that it can't overflow. A count that began with
/// `Steps::default()` is below that for at least the first seventy million choices.
pub fn choose_counted(table: &Table, steps: &mut Steps) -> Report
    requires running { IsValid table.now running_set }
    requires room { HasRoom steps.old }
    ensures right { IsRight table.now result }
    ensures greatest { IsGreatest table.now (taken_in result) }
    ensures standard { IsInStandardOrder table.now result.refusals.items }

    ensures passes { RisesAtMost MOST_PASSES steps.old.passes steps.new.passes }
    ensures drops { steps.new.drops ≡ steps.old.drops + drops_in result.refusals.items }
    ensures most_drops { steps.new.drops ≤ steps.old.drops + MOST_DROPS }
    ensures looks { RisesAtMost MOST_LOOKS steps.old.looks steps.new.looks }
{
    let mut report = Report::default();
    put_report(table, &mut report, steps);
    report
}

/// Writes to a place the report of a choice, and adds to a count of its steps.
fn put_report(table: &Table, report: &mut Report, steps: &mut Steps)
    requires running { IsValid table.now running_set }
    requires room { HasRoom steps.old }
    ensures right { IsRight table.now report.new }
    ensures greatest { IsGreatest table.now (taken_in report.new) }
    ensures standard { IsInStandardOrder table.now report.new.refusals.items }

    ensures passes { RisesAtMost MOST_PASSES steps.old.passes steps.new.passes }
    ensures drops { steps.new.drops ≡ steps.old.drops + drops_in report.new.refusals.items }
    ensures most_drops { steps.new.drops ≤ steps.old.drops + MOST_DROPS }
    ensures looks { RisesAtMost MOST_LOOKS steps.old.looks steps.new.looks }
{
    right_reports_are_greatest();
    put_refusals(table, &mut report.refusals, steps);
    put_images(table, &report.refusals, &mut report.images);
}

/// Writes to a place all refusals of a table. First come the requests that are refused by
/// themselves. Then one pass marks the requests that have a dependency or a group out of reach. The
/// lowest marked request is refused, and the requests that depend on it or have it as an
/// alternative are marked again. This is repeated until no mark is left.
fn put_refusals(table: &Table, refusals: &mut ArrayVec<Refusal, MOST_REFUSALS>, steps: &mut Steps)
    requires { HasRoom steps.old }
    ensures standard { IsInStandardOrder table.now refusals.new.items }
    ensures once { (j : ℕ)
        → times_refused refusals.new.items j ≤ once_if (has_request table.now j) }
    ensures none_left { (j : ℕ) → is_refused refusals.new.items j ≡ false
        → needs_reason table.now refusals.new.items j ≡ None }

    ensures passes { steps.new.passes ≡ steps.old.passes + 1 }
    ensures drops { steps.new.drops ≡ steps.old.drops + drops_in refusals.new.items }
    ensures looks { RisesAtMost MOST_LOOKS steps.old.looks steps.new.looks }
{
    put_own_refusals(table, refusals);
    let mut marks = marks_after(table, refusals);
    steps.passes += 1;
    while let Some(refusal) = next_need(table, refusals, &marks) {
        // No image is refused twice, so the list isn't full.
        prove!(refusals.len() < table.images.len());
        let dropped = refusal.image;
        refusals.push(refusal);
        steps.drops += 1;
        marks[usize::from(dropped)] = false;
        mark_dependants(table, refusals, dropped, &mut marks, steps);
    }
}
