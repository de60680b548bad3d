//! What a call of a device answers, and what C reads of it.

ghost use Rattle.std.specs.Prelude.{◌≡◌};
ghost use Rattle.boot_core.specs.Answers.{reply_of_result};
ghost use Rattle.machine.specs.declared.reply.Reply.{Reply};
ghost use Rattle.c_interface.specs.Answers.{HasNoTexts};
ghost use Rattle.c_interface.specs.CallResult.{IsResultOf, fault_result, number_of, only_counts};
ghost use Rattle.c_interface.specs.DeviceCall.{is_cut};

use crate::call_result::{CallResult, put_fault, put_no_result};
use crate::numbers::{CUT, DONE, REFUSED};
use flash_model::FlashError;
use machine::{Fault, UploadError};

/// What a call of a device answers. Contracts see it as a reply of the machine.
pub(crate) trait Answer {
    ghost reply: { Self → Reply };

    /// Writes the result of a call with this answer and without texts, and returns the number of
    /// the reply. The call made this number of writes, and used this number of its journal's bytes.
    fn report(&self, writes: u64, used: u64, call_result: &mut CallResult) -> u32
        ensures fields { IsResultOf (reply self.now) call_result.new }
        ensures writes { call_result.new.writes ≡ writes }
        ensures journal { call_result.new.journal_length ≡ used }
        ensures texts { HasNoTexts call_result.new (reply self.now) }
        ensures number { result ≡ number_of (reply self.now) };
}

/// Whether a fault says that power failed during the call.
pub(crate) fn is_cut(fault: Fault) -> bool
    ensures { result ≡ is_cut fault }
{
    match fault {
        Fault::Flash(FlashError::Cut) => true,
        Fault::Upload(UploadError::Flash(FlashError::Cut)) => true,
        _ => false,
    }
}

impl Answer for Result<(), Fault> {
    ghost reply = { reply_of_result };

    fn report(&self, writes: u64, used: u64, call_result: &mut CallResult) -> u32 {
        put_no_result(call_result);
        call_result.writes = writes;
        call_result.journal_length = used;
        match self {
            Ok(()) => DONE,
            Err(fault) => {
                if is_cut(*fault) {
                    return CUT;
                }
                put_fault(*fault, call_result);
                REFUSED
            }
        }
    }
}
