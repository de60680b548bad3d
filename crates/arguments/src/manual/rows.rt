//! Finds the row of a table that a word names.

/// Returns what a word names in a table.
pub fn named<T: Copy>(rows: &[(&'static str, T)], word: &str) -> Option<T> {
    for (name, row) in rows {
        if *name == word {
            return Some(*row);
        }
    }
    None
}
