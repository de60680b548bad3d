//! Reads the order that the arguments give, or the default order if there are none.
ghost use Rattle.std.specs.Prelude.{◌≡◌, IfErr, IfOk, map};
ghost use Rattle.command_line.specs.Given.{is_json};
ghost use Rattle.command_line.specs.OrderFaults.{IsRefusal};
ghost use Rattle.boot_cli.specs.WordsEnd.{AskFor};

use arguments::request;
use command_line::{Order, OrderError, ReadOrder, Request};
use common::texts::STANDARD_INPUT;
use std::alloc::Global;
use std::convert::AsStr;
use std::io::Write;

/// The note at a terminal that the program waits for standard input.
const READING: &[u8] = b"note: reading a table from standard input; `bootswap --help` tells more\n";

/// The order that the arguments give. Without arguments after the program's own name it is `choose`
/// on standard input. Values of arguments are in memory of `alloc`.
///
/// # Errors
/// The errors of [`request`].
#[tactic(auto, using(crate::proofs::WordsLaws::no_json))]
pub fn request_in<'a, S: AsStr>(alloc: Global, words: &'a [S]) -> Result<Request<'a>, OrderError>
    ensures order { IfOk result (λ request. AskFor (map S.text words.entry.now) request.order) }
    ensures json { IfOk result (λ request.
        request.is_json ≡ is_json (map S.text words.entry.now)) }
    ensures refused { IfErr result (IsRefusal (map S.text words.entry.now)) }
{
    if words.len() <= 1 {
        return Ok(Request {
            order: Order::Read(ReadOrder::Choose {
                table: STANDARD_INPUT,
            }),
            is_explained: false,
            is_json: false,
        });
    }
    request(alloc, words)
}

/// Writes to `err` that the program reads a table from standard input.
pub fn note_reading<E: Write>(err: &mut E) {
    // The note is no part of the answer, so a failed write changes nothing.
    let _ = err.write_all(READING);
}
