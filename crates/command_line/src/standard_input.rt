//! Counts the files that are standard input.

ghost use Rattle.std.specs.Prelude.{◌≡◌, ◌∷◌, codes};
ghost use Rattle.std.specs.Str.{bytes_eq};
ghost use Rattle.command_line.specs.Given.{standard_inputs};

use common::texts::STANDARD_INPUT;

/// Returns the number of files that are standard input, among two files and images.
pub fn inputs_with(one: &str, other: &str, images: &[&str]) -> usize
    ensures { result ≡ standard_inputs (one.entry ∷ other.entry ∷ images.now) }
{
    standard_inputs(&[one, other]).saturating_add(standard_inputs(images))
}

/// Returns the number of these files that are standard input.
pub fn standard_inputs(names: &[&str]) -> usize
    ensures { result ≡ standard_inputs names.now }
{
    names.iter().filter(|name| is_standard_input(name)).count()
}

/// Returns whether this is the name of standard input, `-`.
pub fn is_standard_input(name: &str) -> bool
    ensures { result ≡ bytes_eq name.now (codes "-") }
{
    name == STANDARD_INPUT
}
