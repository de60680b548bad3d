//! Reads a table line by line.

ghost use Rattle.std.specs.Prelude.{◌≡◌, Ok, IfOk, IfErr, IsOk, OnOk};
ghost use Rattle.common.specs.Lines.{IsFirstBadLine};
ghost use Rattle.reports.specs.TableReading.{with_text_of_table};
ghost use Rattle.reports.specs.TableText.{FitsTable, IsTableText, IsSomeTable};

use crate::error::BadTable;
use crate::table::Table;
use crate::table_line::TableLine;
use crate::table_placing::place_line;
use common::lines::{TakesLines, read_lines};

impl Table {
    /// Reads the text of a table: one to eight images, in the order of their numbers from 0. Each
    /// image has these lines, in this order:
    ///
    /// - `image I VERSION COUNTER FLOOR` for image I.
    /// - At most 16 lines `needs J VERSION` for the running image.
    /// - At most four lines `needs-one J VERSION ..` for the running image, with one to four pairs
    ///   each.
    /// - If something is requested, either `damaged`, or `request VERSION COUNTER` followed by
    ///   `needs` and then `needs-one` lines for the request, with the same limits.
    ///
    /// Words are separated by one space, and numbers are decimal without leading zeros. The last
    /// line's line feed may be missing. A line with a byte that isn't ASCII is bad. The call
    /// doesn't allocate.
    ///
    /// # Errors
    /// [`BadTable`] has the number of the first line, counted from 1, with which no table
    /// continues.
    pub fn parse(text: &[u8]) -> Result<Table, BadTable>
        // A table that is read has this text.
        ensures spelled { IfOk result (λ table. IsTableText text.now table) }
        // A table that is read fits its fields.
        ensures fits { IfOk result FitsTable }
        // Any text of a table is read as that table.
        ensures only { (table : Table) → IsTableText text.now table → result ≡ Ok table }
        // The line that an error names.
        ensures line { IfErr result (λ bad. IsFirstBadLine IsSomeTable text.now bad.0) }
    {
        let mut table = Table::default();
        Table::parse_into(text, &mut table)?;
        Ok(table)
    }

    /// Reads the text of a table as [`Table::parse`] does, and writes it to a place, so that none
    /// is copied.
    ///
    /// # Errors
    /// As those of [`Table::parse`]. Afterwards the place may have any table.
    pub fn parse_into(text: &[u8], table: &mut Table) -> Result<(), BadTable>
        // A table that is read has this text.
        ensures spelled { OnOk result (IsTableText text.now table.new) }
        // A table that is read fits its fields.
        ensures fits { OnOk result (FitsTable table.new) }
        // Any text of a table is read as that table.
        ensures only { (other : Table) → IsTableText text.now other
            → IsOk result × (table.new ≡ other) }
        // The line that an error names.
        ensures line { IfErr result (λ bad. IsFirstBadLine IsSomeTable text.now bad.0) }
    {
        table.images.clear();
        if let Err(line) = read_lines(table, text) {
            return Err(BadTable(line));
        }
        if table.images.is_empty() {
            return Err(BadTable(1));
        }
        Ok(())
    }
}

impl TakesLines for Table {
    ghost with_line = { with_text_of_table };

    fn take_line(&mut self, line: &[u8]) -> bool {
        match TableLine::read(line) {
            Some(said) => place_line(&mut self.images, said),
            None => false,
        }
    }
}
