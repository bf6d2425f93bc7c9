//! Looks up tables, rows and cells.

ghost use Rattle.std.specs.Prelude.{◌≡◌, ℕ, ◌<◌, length, slice_get, IfNone, IfSome};
ghost use Rattle.std.specs.Option.{option_map};
ghost use Rattle.tgff_reader.specs.Looking.{table_at, row_at, IsTableAt, HasNoTable, IsFirstOfKind, HasNoneOfKind};

use crate::file::Tgff;

impl Tgff {
    /// The table of a name and an index. There is one at most.
    pub fn table(&self, name: &str, index: u64) -> Option<usize>
        ensures found { IfSome result (IsTableAt self.now.tables name.now index) }
        ensures one { IfSome result (λ place. (other : ℕ) → IsTableAt self.now.tables name.now index other → other ≡ place) }
        ensures none { IfNone result (HasNoTable self.now.tables name.now index) }
    {
        self.tables.find(name, index)
    }

    /// The first row of a table, from a place on, whose first word reads as a kind.
    pub fn find_row(&self, table: usize, from: usize, kind: u64) -> Option<usize>
        requires { table < length self.now.tables }
        ensures found { IfSome result (IsFirstOfKind (table_at self.now.tables table) from kind) }
        ensures none { IfNone result (HasNoneOfKind (table_at self.now.tables table) from kind) }
    {
        self.tables.list()[table].rows.find(from, kind)
    }

    /// The word in a column of a row of a table, where there is one.
    pub fn cell(&self, table: usize, row: usize, column: usize) -> Option<&str>
        requires table { table < length self.now.tables }
        requires row { row < length (table_at self.now.tables table).rows }
        ensures { option_map (λ cell. cell.now) result ≡ slice_get (row_at (table_at self.now.tables table) row).words column }
    {
        let words = self.tables.list()[table].rows.list()[row].words.list();
        match words.get(column) {
            Some(cell) => Some(cell.list()),
            None => None,
        }
    }
}
