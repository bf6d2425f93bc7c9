//! The tables of a TGFF file, as the architecture file uses them.
//!
//! `rows` finds a table by its name and index, and in it the row of a type. `cells` reads a cell in the place of a
//! number, and says what it is refused for. `lowest` keeps the lowest of several refusals, so that a line that uses many
//! cells is refused for the lowest of all. Nothing here takes memory.
#![tactic(auto)]

mod cells;
mod lowest;
mod rows;

pub use cells::{Taking, amount_in, cell_fault, is_marked, mark_fault};
pub use lowest::lower_of;
pub use rows::{find_row, find_table, first_cell};
