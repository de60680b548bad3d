//! Laws of the definitions, which hold of every table and every report.

ghost use Rattle.std.specs.Prelude.{◌≡◌, ℕ, Bool};
ghost use Rattle.reports.specs.declared.table.Table.{Table};
ghost use Rattle.reports.specs.declared.report.Report.{Report};
ghost use Rattle.reports.specs.Combination.{IsAtLeastIn, IsGreatest, IsValid};
ghost use Rattle.reports.specs.Rightness.{IsRight, taken_in};
ghost use Rattle.reports.specs.TableText.{FitsTable, IsTableText, table_text};
ghost use Rattle.reports.specs.ReportText.{FitsReport, IsReportText, report_text};

/// States that the combination of a right report is the greatest: it is valid, and contains every
/// valid one.
///
/// The function does nothing: its contract is the theorem.
#[tactic(auto, using(crate::proofs::Greatest::right_is_greatest))]
pub fn right_reports_are_greatest()
    ensures { (table : Table) (report : Report)
        → IsRight table report → IsGreatest table (taken_in report) }
{}

/// States that a table has at most one greatest combination: any two have the same members.
///
/// The function does nothing: its contract is the theorem.
pub fn greatest_sets_are_equal()
    ensures { (table : Table) (first second : ℕ → Bool)
        → IsGreatest table first → IsGreatest table second → (j : ℕ) → first j ≡ second j }
{}

/// States that no valid combination has a newer version of any image than the greatest combination.
///
/// The function does nothing: its contract is the theorem.
#[tactic(auto, using(crate::proofs::Newest::greatest_is_newest))]
pub fn greatest_sets_have_the_newest_versions()
    ensures { (table : Table) (greatest other : ℕ → Bool)
        → IsGreatest table greatest → IsValid table other
        → (j : ℕ) → IsAtLeastIn table greatest other j }
{}

/// States that the printed text of a table is a text of this table, which [`Table::parse`] reads
/// back.
///
/// The function does nothing: its contract is the law.
#[tactic(auto, using(crate::proofs::ReadBack::printed_table_is_text))]
pub fn tables_are_read_back()
    ensures { (table : Table) → FitsTable table → IsTableText (table_text table) table }
{}

/// States that the printed text of a report is a text of this report, which [`Report::parse`] reads
/// back.
///
/// The function does nothing: its contract is the law.
#[tactic(auto, using(crate::proofs::ReadBack::printed_report_is_text))]
pub fn reports_are_read_back()
    ensures { (report : Report) → FitsReport report → IsReportText (report_text report) report }
{}

/// States that the printed text of a report that is right for a table is a text of this report. The
/// table has to fit its fields, as any table does that was read.
///
/// The function does nothing: its contract is the law.
#[tactic(auto, using(crate::proofs::RightFits::right_report_has_text))]
pub fn right_reports_have_a_text()
    ensures { (table : Table) (report : Report)
        → FitsTable table → IsRight table report → IsReportText (report_text report) report }
{}
