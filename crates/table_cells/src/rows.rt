//! The tables and rows that are meant.

ghost use Rattle.std.specs.Prelude.{◌≡◌, ◌<◌, length, None, IfSome, MatchOption};
ghost use Rattle.std.specs.Option.{option_map};
ghost use Rattle.tgff_reader.specs.Looking.{table_at, IsFirstOfKind};
ghost use Rattle.table_cells.specs.Rows.{table_called, row_of, first_cell_of, IsFoundTable, IsFoundRow};

use tgff_reader::Tgff;

/// The place of the table of a name and an index, where there is one.
pub fn find_table(tgff: &Tgff, name: &str, index: u64) -> Option<usize>
    ensures { MatchOption result (table_called tgff.now.tables name.now index ≡ None) (IsFoundTable tgff.now.tables name.now index) }
{
    tgff.table(name, index)
}

/// The place of the first row of a table, from a place on, whose first word reads as a type, where there is one.
pub fn find_row(tgff: &Tgff, table: usize, from: u64, kind: u64) -> Option<usize>
    requires { table < length tgff.now.tables }
    ensures found { MatchOption result (row_of (table_at tgff.now.tables table) from kind ≡ None) (IsFoundRow (table_at tgff.now.tables table) from kind) }
    ensures first { IfSome result (IsFirstOfKind (table_at tgff.now.tables table) from kind) }
{
    tgff.find_row(table, from as usize, kind)
}

/// The word in a column of the first row of a table, where there is one.
#[tactic(auto, using(crate::proofs::Found::first_there, crate::proofs::Found::first_missing))]
pub fn first_cell(tgff: &Tgff, table: usize, column: usize) -> Option<&str>
    requires { table < length tgff.now.tables }
    ensures { option_map (λ c. c.now) result ≡ first_cell_of (table_at tgff.now.tables table) column }
{
    if tgff.tables.list()[table].rows.list().is_empty() {
        return None;
    }
    tgff.cell(table, 0, column)
}
