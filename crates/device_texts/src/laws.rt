//! A law about lines that holds for each text.

ghost use Rattle.std.specs.Prelude.{◌≡◌, ℕ, List};
ghost use Rattle.device_texts.specs.LineText.{IsLineText};
ghost use Rattle.device_texts.specs.Said.{Said};

/// A text is that of at most one line.
///
/// The function does nothing: its contract is the theorem.
pub fn a_text_says_one_line()
    ensures { (text : List ℕ) (one other : Said)
        → IsLineText text one → IsLineText text other → one ≡ other }
{}
