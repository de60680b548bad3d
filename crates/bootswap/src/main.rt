//! The `bootswap` program: all commands, on the system's files and standard streams.
//!
//! - Allocates: the arguments.
//!
//! It decides from a table which requested images run together, and checks and makes images and
//! manifests. It runs a device on a file that boots, takes uploads and survives power cuts.
#![tactic(auto)]

#[cfg(test)]
mod choices;

use arguments::manual::{answer, asked_in};
use boot_cli::{cli, note_reading};
use device_commands::{refuse_coloring, refuse_words, words_of};
use std::io;
use std::io::{ErrorKind, IsTerminal, Write};
use std::process::ExitCode;
use system_host::{
    Colored, Output, STANDARD_ERROR, STANDARD_OUTPUT, SystemHost, coloring_in, is_colored,
    reserve_stack,
};

fn main(rt: HostRuntime) -> ExitCode {
    let status = match reserve_stack(rt.alloc()) {
        Ok(()) => run(rt),
        Err(_) => refuse(rt, &io::Error::from(ErrorKind::OutOfMemory)),
    };
    ExitCode::from(status)
}

/// Runs the command that the arguments ask for, and returns the exit status. It isn't inlined: its
/// locals may be on the stack only after memory for the stack was reserved.
#[inline(never)]
fn run(rt: HostRuntime) -> u8 {
    let alloc = rt.alloc();
    let words = match words_of(&rt) {
        Ok(words) => words,
        Err(error) => return refuse(rt, &error),
    };
    let mut out = Output::new(rt, rt.stdout(), STANDARD_OUTPUT);
    let mut plain = Output::new(rt, rt.stderr(), STANDARD_ERROR);
    let Some(coloring) = coloring_in(words.as_slice()) else {
        return refuse_coloring(alloc, &mut plain);
    };
    let is_terminal = rt.stderr().is_terminal();
    let mut err = Colored::over(&mut plain, is_colored(&rt, coloring, is_terminal));
    let input = rt.reader();
    if let Some(asked) = asked_in(words.as_slice()) {
        return answer(alloc, asked, &mut out, &mut err);
    }
    if words.len() <= 1 && input.is_terminal() {
        note_reading(&mut err);
        let _ = err.flush();
    }
    let mut host = SystemHost::new(&rt, input, is_terminal);
    cli(alloc, words.as_slice(), &mut host, &mut out, &mut err)
}

/// Reports that the arguments could not be read, and returns the exit status.
#[inline(never)]
fn refuse(rt: HostRuntime, error: &io::Error) -> u8 {
    let mut err = Output::new(rt, rt.stderr(), STANDARD_ERROR);
    refuse_words(rt.alloc(), error, &mut err)
}
