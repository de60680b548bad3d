//! What a boot answers, and what C reads of it.

ghost use Rattle.std.specs.Prelude.{◌≡◌, ℕ};
ghost use Rattle.boot_core.specs.Answers.{fault_reply};
ghost use Rattle.c_interface.specs.Answers.{HasTexts};
ghost use Rattle.c_interface.specs.BootAnswer.{boot_reply};
ghost use Rattle.c_interface.specs.CallResult.{HasTextLengths, IsResultOf, number_of};

use crate::answers::{Answer, is_cut};
use crate::call_result::{CallResult, NO_RESULT, fault_result, report_result};
use crate::numbers::{BOOTED, CUT, REFUSED, REVERTED, TRIAL_AGAIN};
use crate::texts::{Lengths, NO_TEXTS, put_report, put_table};
use boot_core::apart::Outcome;
use machine::Fault;
use reports::{Report, Table};

/// What a boot answers: its outcome, and the places of the table and the report of its decision. They
/// have 8 kB, so the boot fills them where they are.
#[derive(Drop)]
pub(crate) struct BootAnswer {
    /// The table of the decision. It may be any if the boot didn't decide.
    pub(crate) table: Table,
    /// The report of the decision. It may be any if the boot didn't decide.
    pub(crate) report: Report,
    /// What the boot did, or why it failed.
    pub(crate) outcome: Result<Outcome, Fault>,
}

impl BootAnswer {
    /// Places for the answer of a boot.
    pub(crate) fn new() -> BootAnswer {
        BootAnswer {
            table: Table::default(),
            report: Report::default(),
            outcome: Err(Fault::NotBooted),
        }
    }
}

/// The result of a boot that failed. A power cut has no fault.
fn failed_result(fault: Fault, writes: u64) -> CallResult
    ensures fields { IsResultOf (fault_reply fault) result }
    ensures writes { result.writes ≡ writes }
    ensures journal { result.journal_length ≡ 0 }
    ensures lengths { (table report : ℕ) → HasTextLengths (fault_reply fault) table report result }
{
    if is_cut(fault) {
        return CallResult {
            writes,
            ..NO_RESULT
        };
    }
    fault_result(fault, writes)
}

/// The result of a boot with this answer and no journal. The lengths of texts count only if it
/// decided.
fn result_of(answer: &BootAnswer, writes: u64, lengths: Lengths) -> CallResult
    ensures fields { IsResultOf (boot_reply answer.now) result }
    ensures writes { result.writes ≡ writes }
    ensures journal { result.journal_length ≡ 0 }
    ensures lengths { HasTextLengths (boot_reply answer.now) lengths.table lengths.report result }
{
    match answer.outcome {
        Ok(Outcome::Booted { permanent }) => {
            report_result(&answer.report, permanent, writes, lengths)
        }
        Ok(Outcome::Reverted(set)) => CallResult {
            writes,
            set: u32::from(set),
            ..NO_RESULT
        },
        Ok(Outcome::TrialAgain { set, left }) => CallResult {
            writes,
            set: u32::from(set),
            left: u32::from(left),
            ..NO_RESULT
        },
        Ok(Outcome::Refused(fault)) => fault_result(fault, writes),
        Err(fault) => failed_result(fault, writes),
    }
}

/// Writes the result of a boot with this answer, of whose journal this number of bytes is used. A
/// temporary result takes stack only here.
#[inline(never)]
pub(crate) fn put_result(
    answer: &BootAnswer,
    writes: u64,
    used: u64,
    lengths: Lengths,
    call_result: &mut CallResult,
)
    ensures fields { IsResultOf (boot_reply answer.now) call_result.new }
    ensures writes { call_result.new.writes ≡ writes }
    ensures journal { call_result.new.journal_length ≡ used }
    ensures lengths { HasTextLengths (boot_reply answer.now) lengths.table lengths.report
        call_result.new }
{
    *call_result = CallResult {
        journal_length: used,
        ..result_of(answer, writes, lengths)
    };
}

/// The number that a boot returns.
pub(crate) fn number_of(answer: &BootAnswer) -> u32
    ensures { result ≡ number_of (boot_reply answer.now) }
{
    match answer.outcome {
        Ok(Outcome::Booted { .. }) => BOOTED,
        Ok(Outcome::Reverted(_)) => REVERTED,
        Ok(Outcome::TrialAgain { .. }) => TRIAL_AGAIN,
        Ok(Outcome::Refused(_)) => REFUSED,
        Err(fault) => { if is_cut(fault) { CUT } else { REFUSED } }
    }
}

/// Writes the texts of a boot that decided to the front of two buffers.
pub(crate) fn put_texts(
    answer: &BootAnswer,
    table_buffer: &mut [u8],
    report_buffer: &mut [u8],
) -> Lengths
    ensures { HasTexts result.table result.report table_buffer.old table_buffer.new
        report_buffer.old report_buffer.new (boot_reply answer.now) }
{
    match answer.outcome {
        Ok(Outcome::Booted { .. }) => Lengths {
            table: put_table(&answer.table, table_buffer).unwrap_or(0),
            report: put_report(&answer.report, report_buffer).unwrap_or(0),
        },
        _ => NO_TEXTS,
    }
}

impl Answer for BootAnswer {
    ghost reply = { boot_reply };

    fn report(&self, writes: u64, used: u64, call_result: &mut CallResult) -> u32 {
        put_result(self, writes, used, NO_TEXTS, call_result);
        number_of(self)
    }
}
