//! The texts of a device's replies.
ghost use Rattle.std.specs.Fmt.{WritesOnOk};
ghost use Rattle.std.specs.Prelude.{◌≡◌, IfOk, Some, decimal, string_bytes};
ghost use Rattle.common.specs.Lines.{◌␣◌};
ghost use Rattle.device_texts.specs.AnswerText.{line_text};
ghost use Rattle.device_texts.specs.ReplyText.{decision_text, fault_text, group_text, is_some_taken};
ghost use Rattle.device_texts.specs.ReplyText.{refused_fault_text, reply_text, set_text, upload_text};

use common::limits::MOST_IMAGES;
use common::mask::is_member;
use machine::{Fault, Reply, UploadError};
use reports::{Report, ReportedImage};
use std::alloc::{AllocError, Global};
use std::fmt;

/// What `run` prints for the reply to the event of this number, counted from 1, in memory of
/// `alloc`. The lines of a report follow the line of its boot.
///
/// # Errors
/// `AllocError` if memory is refused.
pub fn reply_text(alloc: Global, number: usize, reply: &Reply) -> Result<String, AllocError>
    ensures { IfOk result (λ text. string_bytes text ≡ reply_text number reply.now) }
{
    match reply {
        Reply::Done => word_text(alloc, number, "done"),
        Reply::Booted {
            table: _,
            report,
            permanent,
        } => {
            let decision = decision_text(report, *permanent);
            format!(in alloc; "{number} {decision}\n{report}")
        }
        Reply::Reverted(set) => {
            let set = Members(*set);
            format!(in alloc; "{number} reverted{set}\n")
        }
        Reply::TrialAgain { set, left } => {
            let set = Members(*set);
            format!(in alloc; "{number} trial-again{set} left {left}\n")
        }
        Reply::Refused(fault) => {
            let reason = Reason(*fault);
            format!(in alloc; "{number} refused {reason}\n")
        }
        Reply::Cut => word_text(alloc, number, "cut"),
    }
}

/// The text of a reply that is one word.
fn word_text(alloc: Global, number: usize, word: &str) -> Result<String, AllocError>
    ensures { IfOk result (λ text. string_bytes text ≡ line_text (decimal number) word.now) }
{
    format!(in alloc; "{number} {word}\n")
}

/// The decision of a boot with a report: `plain` if it took no request, else `permanent` or
/// `trial`.
pub(crate) fn decision_text(report: &Report, permanent: bool) -> &'static str
    ensures { result.now ≡ decision_text report.now permanent }
{
    if !is_some_taken(report.images.as_slice()) {
        "plain"
    } else if permanent {
        "permanent"
    } else {
        "trial"
    }
}

/// Whether the request of at least one image is taken.
fn is_some_taken(images: &[ReportedImage]) -> bool
    ensures { result ≡ is_some_taken images.now }
{
    images.iter().any(|image| image.is_taken)
}

/// The images of a set, to print each after a space. Bit i is for image i.
#[derive(Drop)]
pub struct Members(pub u8);

impl fmt::Display for Members {
    ghost output = { λ members. Some (set_text members.0) };

    fn fmt<W: fmt::Write>(&self, f: &mut fmt::Formatter<W>) -> fmt::Result {
        write_members(f, self.0)
    }
}

/// Writes the images of a set, each after a space.
fn write_members<W: fmt::Write>(f: &mut fmt::Formatter<W>, set: u8) -> fmt::Result
    ensures { WritesOnOk W.write_str_gives f.old result (set_text set) f.new }
{
    for image in 0..MOST_IMAGES as u8 {
        if is_member(set, image) {
            write!(f, " {image}")?;
        }
    }
    Ok(())
}

/// The line `refused GROUP CODE NAME` of a device that refuses a call, in memory of `alloc`. The
/// number of the image follows `RunningDamaged`, and that of the check follows `NotAnImage`.
///
/// # Errors
/// `AllocError` if memory is refused.
pub fn refused_fault_text(alloc: Global, fault: Fault) -> Result<String, AllocError>
    ensures { IfOk result (λ text. string_bytes text ≡ refused_fault_text fault) }
{
    let reason = Reason(fault);
    format!(in alloc; "refused {reason}\n")
}

/// Why a device refuses a call, to print. The number of the damaged image follows `RunningDamaged`.
#[derive(Drop)]
struct Reason(Fault);

impl fmt::Display for Reason {
    ghost output = { λ reason. Some (fault_text reason.0) };

    fn fmt<W: fmt::Write>(&self, f: &mut fmt::Formatter<W>) -> fmt::Result {
        let fault = self.0;
        match fault {
            Fault::Manifest(error) => write_group(f, "manifest", error.code(), error.name()),
            Fault::Upload(error) => write_upload(f, error),
            Fault::RunningDamaged(image) => {
                write_numbered(f, "boot", fault.code(), fault.name(), image)
            }
            _ => write_group(f, "boot", fault.code(), fault.name()),
        }
    }
}

/// Writes why an upload is refused. The number of the check that the bytes fail follows
/// `NotAnImage`.
fn write_upload<W: fmt::Write>(f: &mut fmt::Formatter<W>, error: UploadError) -> fmt::Result
    ensures { WritesOnOk W.write_str_gives f.old result (upload_text error) f.new }
{
    match error {
        UploadError::NotAnImage(fault) => {
            write_numbered(f, "upload", error.code(), error.name(), fault.code())
        }
        _ => write_group(f, "upload", error.code(), error.name()),
    }
}

/// Writes a refusal: the word of the layer that refused, the number and the name.
fn write_group<W: fmt::Write>(
    f: &mut fmt::Formatter<W>,
    group: &str,
    code: u8,
    name: &str,
) -> fmt::Result
    ensures { WritesOnOk W.write_str_gives f.old result (group_text group.now code name.now) f.new }
{
    write!(f, "{group} {code} {name}")
}

/// Writes a refusal, and a number after it.
fn write_numbered<W: fmt::Write>(
    f: &mut fmt::Formatter<W>,
    group: &str,
    code: u8,
    name: &str,
    number: u8,
) -> fmt::Result
    ensures { WritesOnOk W.write_str_gives f.old result
        (group_text group.now code name.now ␣ decimal number) f.new }
{
    write!(f, "{group} {code} {name} {number}")
}
