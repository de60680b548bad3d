//! Reads the lines of a script's text one by one.
ghost use Rattle.std.specs.Prelude.{◌≡◌, ◌+◌, ◌^◌, ◌<◌, ◌↔◌, IfErr, IfOk, List, length};
ghost use Rattle.device_texts.specs.InOrder.{AreInOrder, CanFollow};
ghost use Rattle.device_texts.specs.Said.{Said};
ghost use Rattle.host.specs.Status.{status_of_refusal};
ghost use Rattle.inputs.specs.Loading.{IsNextLine, IsWrongNext};
ghost use Rattle.inputs.specs.ScriptFault.{NamesLine};

use common::lines::first_line;
use device_texts::{Line, LineOrder, line_of};
use host::{Refusal, ScriptFault};

/// The lines of a script's text that weren't read yet.
#[derive(Drop)]
pub struct Lines<'a> {
    /// The text of these lines.
    pub rest: &'a [u8],
    /// Says which lines can follow those that were read.
    pub order: LineOrder,
    /// The number of lines that were read.
    pub number: usize,
}

impl<'a> Lines<'a> {
    /// Returns all lines of a text.
    pub fn of(text: &'a [u8]) -> Self
        ensures all { result.rest.now ≡ text.now }
        ensures none { result.number ≡ 0 }
        ensures order { (lines : List Said) → CanFollow result.order lines ↔ AreInOrder 0 lines }
    {
        Lines {
            rest: text,
            order: LineOrder::new(),
            number: 0,
        }
    }

    /// Reads the next line and returns what it says. At least one line must be left.
    ///
    /// # Errors
    /// `ScriptLine` if it isn't a line of a script, or can't follow the lines before it.
    pub fn next_line(&mut self) -> Result<Line<'a>, Refusal>
        requires { 0 < length self.old.rest.now }
        ensures next { IfOk result (λ line. IsNextLine self.old self.new line) }
        ensures shorter { length self.new.rest.now < length self.old.rest.now }
        ensures number { self.old.number + 1 < 2 ^ 64 → self.new.number ≡ self.old.number + 1 }
        ensures wrong { IfErr result (NamesLine self.new.number (IsWrongNext self.old self.new)) }
        ensures refused { IfErr result (λ refusal. status_of_refusal refusal ≡ 1) }
    {
        let (line, rest) = first_line(self.rest);
        self.rest = rest;
        self.number = self.number.saturating_add(1);
        let Some(line) = line_of(line) else {
            return Err(Refusal::of_line(self.number, ScriptFault::Spelling));
        };
        if !self.order.takes(&line) {
            return Err(Refusal::of_line(self.number, ScriptFault::Order));
        }
        Ok(line)
    }
}
