//! Carries out the `quantity table` lines.

ghost use Rattle.std.specs.Prelude.{◌≡◌, ◌<◌, ◌≤◌, length, None, OnOk, IfErr, MatchOption};
ghost use Rattle.spec_model.specs.Limits.{most_number};
ghost use Rattle.tgff_reader.specs.Looking.{table_at, row_at};
ghost use Rattle.arch_reader.specs.Numbers.{at_scale};
ghost use Rattle.table_cells.specs.Cells.{cell_of, amount_in};
ghost use Rattle.table_cells.specs.Least.{IsLeastOrNone};
ghost use Rattle.spec_join.specs.Effects.{effect, with_plan};
ghost use Rattle.spec_join.specs.Stops.{Refuses, Accepts};
ghost use Rattle.spec_join.specs.Tables.{HasBelow, IsRowAt};
ghost use Rattle.spec_join.specs.Quantities.{message_row, with_quantity, with_quantities, MessageBreaks};
ghost use Rattle.arch_reader.specs.declared.statement.Statement.{Statement};
ghost use Rattle.line_words.specs.declared.refusals.Why.{Why};

use crate::joiner::Joiner;
use arch_reader::at_scale;
use line_words::{Stop, Why};
use spec_graph::{Change, MsgNo};
use table_cells::{Taking, amount_in, cell_fault, find_row, find_table, lower_of};

impl Joiner<'_> {
    /// The row of the type of a message, where the message has a type and the type a row.
    fn message_row(&self, table: usize, rows: Option<u64>, m: usize) -> Option<usize>
        requires table { table < length self.now.tables }
        requires message { m < length self.now.message_kinds }
        ensures { MatchOption result (message_row self.now (table_at self.now.tables table) rows m ≡ None) (IsRowAt (table_at self.now.tables table) (message_row self.now (table_at self.now.tables table) rows m)) }
    {
        match self.message_kinds[m] {
            Some(kind) => find_row(self.tgff, table, rows.unwrap_or(0), kind),
            None => None,
        }
    }

    /// What the row of a message is refused for.
    fn message_fault(&self, table: usize, column: u64, rows: Option<u64>, m: usize) -> Option<Why>
        requires table { table < length self.now.tables }
        requires message { m < length self.now.message_kinds }
        ensures { IsLeastOrNone (λ why. MessageBreaks self.now (table_at self.now.tables table) column rows why m) result }
    {
        let taking = Taking {
            scale: 0,
            cut: true,
        };
        match self.message_row(table, rows, m) {
            Some(row) => cell_fault(self.cell(table, row, column), taking),
            None => None,
        }
    }

    /// What the rows of all messages are refused for.
    fn messages_fault(&self, table: usize, column: u64, rows: Option<u64>) -> Option<Why>
        requires { table < length self.now.tables }
        ensures { IsLeastOrNone (λ why. HasBelow (length self.now.message_kinds) (MessageBreaks self.now (table_at self.now.tables table) column rows why)) result }
    {
        let mut fault = None;
        for m in 0..self.message_kinds.len() {
            fault = lower_of(fault, self.message_fault(table, column, rows, m));
        }
        fault
    }

    /// The quantity that a row states.
    fn quantity_from(&self, table: usize, row: usize, column: u64) -> u64
        requires table { table < length self.now.tables }
        requires row { row < length (table_at self.now.tables table).rows }
        requires small { at_scale 0 (amount_in (cell_of (row_at (table_at self.now.tables table) row) column)) ≤ most_number }
        ensures { result ≡ at_scale 0 (amount_in (cell_of (row_at (table_at self.now.tables table) row) column)) }
    {
        at_scale(0, amount_in(self.cell(table, row, column))) as u64
    }

    /// Sets the quantity of a message, where the message has a type and the type a row.
    fn set_quantity(&mut self, table: usize, column: u64, rows: Option<u64>, m: usize)
        requires table { table < length self.old.tables }
        requires message { m < length self.old.message_kinds }
        requires unbroken { (why : Why) → MessageBreaks self.old (table_at self.old.tables table) column rows why m → ⊥ }
        ensures { self.new ≡ with_plan self.old (record self.old.plan { messages = with_quantity column m (message_row self.old (table_at self.old.tables table) rows m) self.old.plan.messages }) }
    {
        self.plan.facts();
        if let Some(row) = self.message_row(table, rows, m) {
            let quantity = self.quantity_from(table, row, column);
            let message = MsgNo(m as u32);
            self.plan
                .change_message(message, Change::Quantity(quantity));
        }
    }

    /// Sets the quantities of all messages that have a type and the type a row.
    fn set_quantities(&mut self, table: usize, column: u64, rows: Option<u64>)
        requires table { table < length self.old.tables }
        requires unbroken { (why : Why) → HasBelow (length self.old.message_kinds) (MessageBreaks self.old (table_at self.old.tables table) column rows why) → ⊥ }
        ensures { self.new ≡ with_plan self.old (record self.old.plan { messages = with_quantities self.old (table_at self.old.tables table) column rows (length self.old.message_kinds) }) }
    {
        for m in 0..self.message_kinds.len() {
            self.set_quantity(table, column, rows, m);
        }
    }

    /// `quantity table NAME INDEX COLUMN [rows=N]`
    pub(crate) fn quantity_table(
        &mut self,
        name: &str,
        index: u64,
        column: u64,
        rows: Option<u64>,
    ) -> Result<(), Stop>
        ensures done { OnOk result (self.new ≡ effect self.old (Statement.QuantityTable name.now index column rows)) }
        ensures accepted { OnOk result (Accepts self.old (Statement.QuantityTable name.now index column rows)) }
        ensures refused { IfErr result (Refuses self.old (Statement.QuantityTable name.now index column rows)) }
    {
        let Some(table) = find_table(self.tgff, name, index) else {
            return Err(Stop::Broken(Why::UnknownName));
        };
        if let Some(why) = self.messages_fault(table, column, rows) {
            return Err(Stop::Broken(why));
        }
        self.set_quantities(table, column, rows);
        Ok(())
    }
}
