//! Checks the order of a script's lines.

ghost use Rattle.std.specs.Prelude.{◌≡◌, ◌∷◌, ◌↔◌, List, MatchBool};
ghost use Rattle.device_texts.specs.InOrder.{AreInOrder, CanFollow};
ghost use Rattle.device_texts.specs.Said.{Said, said};

use crate::line::Line;

/// The order of a script's lines so far. Cuts come first, with ascending numbers, and then events.
#[derive(Drop)]
pub struct LineOrder {
    // The number of the last cut, 0 before the first.
    last_cut: u32,
    has_event: bool,
}

impl LineOrder {
    /// The order before the first line.
    pub fn new() -> Self
        ensures { (lines : List Said) → CanFollow result lines ↔ AreInOrder 0 lines }
    {
        LineOrder {
            last_cut: 0,
            has_event: false,
        }
    }

    /// Whether a line of [`line_of`](crate::line_of) can follow the lines that were read. If so, it
    /// counts as read.
    pub fn takes(&mut self, line: &Line<'_>) -> bool
        ensures { MatchBool result
            ((lines : List Said)
            → CanFollow self.new lines ↔ CanFollow self.old (said line.now ∷ lines))
            (((lines : List Said) → CanFollow self.old (said line.now ∷ lines) → ⊥)
            × (self.new ≡ self.old)) }
    {
        match line {
            Line::Cut { write, .. } => {
                if self.has_event || *write <= self.last_cut {
                    return false;
                }
                self.last_cut = *write;
            }
            Line::Event(_) => self.has_event = true,
        }
        true
    }
}
