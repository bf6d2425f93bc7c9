//! The numbers of cells.

ghost use Rattle.std.specs.Prelude.{◌≡◌};
ghost use Rattle.std.specs.Option.{option_map};
ghost use Rattle.table_cells.specs.Least.{IsLeastOrNone};
ghost use Rattle.table_cells.specs.Cells.{AmountBreaks, CellBreaks, MarkBreaks, amount_in, is_marked, refusal_for};

use arch_reader::{at_scale, has_fraction_at};
use line_words::{NumberFault, Why, decimal};
use spec_model::MOST_NUMBER;

/// How the number of a cell is taken: at a scale, which is a power of ten, and with its fraction there cut off or refused.
#[derive(Clone, Copy)]
pub struct Taking {
    pub scale: u64,
    pub cut: bool,
}

/// What a word is refused for that is no number.
fn refusal_for(fault: NumberFault) -> Why
    ensures { result ≡ refusal_for fault }
{
    match fault {
        NumberFault::BadNumber => Why::BadNumber,
        NumberFault::TooBig => Why::TooBig,
    }
}

/// What a number is refused for, by how it is taken.
fn amount_fault(taking: Taking, amount: i128) -> Option<Why>
    ensures { IsLeastOrNone (AmountBreaks taking amount) result }
{
    if amount < 0 {
        return Some(Why::BadNumber);
    }
    if !taking.cut && has_fraction_at(taking.scale, amount) {
        return Some(Why::NotWhole);
    }
    if at_scale(taking.scale, amount) > u128::from(MOST_NUMBER) {
        return Some(Why::TooBig);
    }
    None
}

/// What a cell in the place of a number is refused for, if for anything: `NoRow` where there is none, `BadNumber` where it
/// is no number or one below zero, `NotWhole` where it has a fraction that isn't cut off, `TooBig` where it is above 2^40
/// at the scale. Of several it is the lowest.
pub fn cell_fault(cell: Option<&str>, taking: Taking) -> Option<Why>
    ensures { IsLeastOrNone (CellBreaks taking (option_map (λ c. c.now) cell.entry)) result }
{
    let Some(word) = cell else {
        return Some(Why::NoRow);
    };
    match decimal(word) {
        Ok(amount) => amount_fault(taking, amount),
        Err(fault) => Some(refusal_for(fault)),
    }
}

/// The number of a cell, in units of 10 ^ -12, or 0 where there is none.
pub fn amount_in(cell: Option<&str>) -> i128
    ensures { result ≡ amount_in (option_map (λ c. c.now) cell.entry) }
{
    match cell {
        Some(word) => decimal(word).unwrap_or(0),
        None => 0,
    }
}

/// What the cell is refused for that marks its row: `NoRow` where there is none, `BadNumber` or `TooBig` where it is no
/// number. Any number may stand there.
pub fn mark_fault(cell: Option<&str>) -> Option<Why>
    ensures { IsLeastOrNone (MarkBreaks (option_map (λ c. c.now) cell.entry)) result }
{
    match cell {
        Some(word) => match decimal(word) {
            Ok(_) => None,
            Err(fault) => Some(refusal_for(fault)),
        },
        None => Some(Why::NoRow),
    }
}

/// Whether a row counts by its mark: unless that is 0. One that is missing or no number isn't 0.
pub fn is_marked(cell: Option<&str>) -> bool
    ensures { result ≡ is_marked (option_map (λ c. c.now) cell.entry) }
{
    match cell {
        Some(word) => match decimal(word) {
            Ok(amount) => amount != 0,
            Err(_) => true,
        },
        None => true,
    }
}
