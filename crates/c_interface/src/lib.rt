//! A static library for C: a device in its caller's memory, for simulators, servers and tests.
//!
//! - Promises: Each call from C is one step of the machine over whole images, from what the
//!   caller's bytes hold to what they hold then; a piece if the saved uploads match the flash.
//! - Main calls: with a journal `bootswap_journal_boot`, `bootswap_journal_boot_with_texts`,
//!   `bootswap_journal_accept`, `bootswap_journal_piece`, `bootswap_journal_finish`,
//!   `bootswap_journal_withdraw`, `bootswap_journal_confirm`, `bootswap_journal_provision`; with
//!   power cuts on bytes in memory `bootswap_simulate_boot`, `bootswap_simulate_accept`, ..; and
//!   `bootswap_slot`, `bootswap_state`, `bootswap_describe`, `bootswap_choose`, `bootswap_check`,
//!   `bootswap_choose_in`, `bootswap_check_in`, `bootswap_make_image`.
//! - Allocates: no.
//! - Callers: programs in C, and of languages that call C. `include/bootswap.h` declares the calls.
//!
//! A call from C keeps the promises of its counterpart in `boot_core`: which bytes it touches, what
//! a refusal changes, and what a power cut leaves. It returns `CUT` exactly if one of the writes
//! that it reports is on the caller's list. The bytes after the call are what exactly these writes
//! make of the bytes before it, torn as the list says. A field of the result that doesn't apply to
//! the returned number is 0. A text is left out only if it is longer than its buffer, or than
//! 2^32 - 1 bytes. An image is made only if it fits in its buffer.
//!
//! The state of a device between two calls is in the caller's memory too. The next call reads what
//! the last one wrote there. Bytes that aren't a valid state, or whose uploads don't match the
//! flash, are a device that isn't booted. A piece doesn't check that its uploads match, so an
//! upload may come in many pieces. A flash at rest holds the same state after a piece, even if they
//! don't match. The next call of another kind finds that. Each call returns, on any contents. The
//! caller guarantees the lengths, and that a buffer that is written overlaps no other.
//!
//! `bootswap_choose_in` and `bootswap_check_in` take a workspace: memory that the caller lends for
//! the table of the call, which would take most of its stack. It may hold anything, also nothing
//! that was ever written. The call makes a table there and leaves room again.
//!
//! The flash is bytes in memory: this library doesn't call a flash driver in C. The calls with a
//! journal record each of their writes there, so that their caller can make the same writes on a
//! part. Such a call returns `CUT` only if its journal is shorter than what its writes ask for.
#![tactic(auto)]

mod answers;
mod boot_answer;
mod borrowed;
mod call_result;
mod calls;
mod choosing;
mod cuts;
mod describing;
mod description;
mod exports;
mod journal_exports;
mod making;
mod numbers;
mod provisioning;
mod recording;
mod saved_state;
mod setup;
mod sinks;
mod slots;
mod state;
mod texts;
mod workspace;
