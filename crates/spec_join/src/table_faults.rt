//! What a `table` line is refused for, found before anything is made of the table.

ghost use Rattle.std.specs.Prelude.{◌≡◌, ◌<◌, ◌≤◌, ◌↔◌, IsTrue, length, true, is_some, None, Any, All, Contains, MatchOption};
ghost use Rattle.std.specs.Option.{option_map};
ghost use Rattle.spec_model.specs.Spec.{Name};
ghost use Rattle.spec_graph.specs.Refusals.{IsMapped};
ghost use Rattle.arch_reader.specs.Words.{is_table_key};
ghost use Rattle.tgff_reader.specs.Looking.{table_at, row_at};
ghost use Rattle.table_cells.specs.Least.{IsLeastOrNone};
ghost use Rattle.table_cells.specs.Cells.{cell_of};
ghost use Rattle.spec_join.specs.Tables.{column_of, rows_of, weight_taking, does_count, task_row, chosen_row, choice_from, one_of, made_choices, MarkColumnBreaks, TimeColumnBreaks, KeyBreaks, ValuesBreak, RowBreaks, HasBelow, TaskBreaks, IsTakenTwice, PlaceBreaks, OptionsBreak, LineBreaks, IsRowAt};
ghost use Rattle.spec_join.specs.Fits.{IsKnownKey, IsKnownPlace, IsFitTable};

use crate::joiner::Joiner;
use arch_reader::{KeyColumn, scale_or_0};
use line_words::{What, Why};
use spec_graph::{ResNo, TaskNo};
use spec_model::MOST_OPTIONS;
use table_cells::{Taking, cell_fault, find_row, first_cell, is_marked, lower_of, mark_fault};

/// The column of a key, where the line has the key.
pub(crate) fn column_of(keys: &[KeyColumn], key: &str) -> Option<u64>
    ensures { result ≡ column_of keys.now key.now }
{
    for word in keys {
        if word.key.list() == key {
            return Some(word.column);
        }
    }
    None
}

/// The row from which rows are looked for.
fn rows_of(keys: &[KeyColumn]) -> u64
    ensures { result ≡ rows_of keys.now }
{
    column_of(keys, "rows").unwrap_or(1)
}

/// Whether a key is one of a table's own, which names no objective.
pub(crate) fn is_table_key(key: &str) -> bool
    ensures { result ≡ is_table_key key.now }
{
    key == "time" || key == "valid" || key == "rows"
}

impl Joiner<'_> {
    /// The word in a column of a row of a table, where there is one.
    pub(crate) fn cell(&self, table: usize, row: usize, column: u64) -> Option<&str>
        requires table { table < length self.now.tables }
        requires row { row < length (table_at self.now.tables table).rows }
        ensures { option_map (λ c. c.now) result ≡ cell_of (row_at (table_at self.now.tables table) row) column }
    {
        self.tgff.cell(table, row, column as usize)
    }

    /// What the mark of a row is refused for, where the line has a column of marks.
    fn mark_column_fault(&self, table: usize, row: usize, column: Option<u64>) -> Option<Why>
        requires table { table < length self.now.tables }
        requires row { row < length (table_at self.now.tables table).rows }
        ensures { IsLeastOrNone (MarkColumnBreaks column (row_at (table_at self.now.tables table) row)) result }
    {
        match column {
            Some(column) => mark_fault(self.cell(table, row, column)),
            None => None,
        }
    }

    /// Whether a row counts.
    fn does_count(&self, table: usize, row: usize, keys: &[KeyColumn]) -> bool
        requires table { table < length self.now.tables }
        requires row { row < length (table_at self.now.tables table).rows }
        ensures { result ≡ does_count keys.now (row_at (table_at self.now.tables table) row) }
    {
        match column_of(keys, "valid") {
            Some(column) => is_marked(self.cell(table, row, column)),
            None => true,
        }
    }

    /// What the time of a row is refused for, where the line has a column of times.
    fn time_fault(&self, table: usize, row: usize, column: Option<u64>) -> Option<Why>
        requires table { table < length self.now.tables }
        requires row { row < length (table_at self.now.tables table).rows }
        ensures { IsLeastOrNone (TimeColumnBreaks self.now column (row_at (table_at self.now.tables table) row)) result }
    {
        let taking = Taking {
            scale: scale_or_0(self.clock),
            cut: true,
        };
        match column {
            Some(column) => cell_fault(self.cell(table, row, column), taking),
            None => None,
        }
    }

    /// How a weight for an objective is taken.
    fn weight_taking(&self, name: &str) -> Taking
        requires { Contains self.now.plan.objectives name.now }
        ensures { result ≡ weight_taking self.now name.now }
    {
        match self.plan.find_objective(name) {
            Some(objective) => Taking {
                scale: self.scales[objective],
                cut: self.floors[objective],
            },
            None => unreachable!(),
        }
    }

    /// What the cell of a key is refused for, where the key names an objective.
    fn key_fault(&self, table: usize, row: usize, key: &KeyColumn) -> Option<Why>
        requires table { table < length self.now.tables }
        requires row { row < length (table_at self.now.tables table).rows }
        requires known { IsKnownKey self.now.plan.objectives key.now }
        ensures { IsLeastOrNone (λ why. KeyBreaks self.now (row_at (table_at self.now.tables table) row) why key.now) result }
    {
        if is_table_key(key.key.list()) {
            return None;
        }
        cell_fault(
            self.cell(table, row, key.column),
            self.weight_taking(key.key.list()),
        )
    }

    /// What the weights of a row are refused for.
    fn keys_fault(&self, table: usize, row: usize, keys: &[KeyColumn]) -> Option<Why>
        requires table { table < length self.now.tables }
        requires row { row < length (table_at self.now.tables table).rows }
        requires known { All (IsKnownKey self.now.plan.objectives) keys.now }
        ensures { IsLeastOrNone (λ why. Any (KeyBreaks self.now (row_at (table_at self.now.tables table) row) why) keys.now) result }
    {
        let mut fault = None;
        for key in keys {
            fault = lower_of(fault, self.key_fault(table, row, key));
        }
        fault
    }

    /// What a row is refused for from which a task may get an option.
    fn row_fault(&self, table: usize, row: usize, keys: &[KeyColumn]) -> Option<Why>
        requires table { table < length self.now.tables }
        requires row { row < length (table_at self.now.tables table).rows }
        requires known { All (IsKnownKey self.now.plan.objectives) keys.now }
        ensures { IsLeastOrNone (RowBreaks self.now keys.now (row_at (table_at self.now.tables table) row)) result }
    {
        let mark = self.mark_column_fault(table, row, column_of(keys, "valid"));
        if !self.does_count(table, row, keys) {
            return mark;
        }
        let time = self.time_fault(table, row, column_of(keys, "time"));
        let weights = self.keys_fault(table, row, keys);
        lower_of(mark, lower_of(time, weights))
    }

    /// The row of the type of a task of the graphs, where there is one.
    fn task_row(&self, table: usize, keys: &[KeyColumn], t: usize) -> Option<usize>
        requires table { table < length self.now.tables }
        requires task { t < length self.now.task_kinds }
        ensures { MatchOption result (task_row self.now (table_at self.now.tables table) keys.now t ≡ None) (IsRowAt (table_at self.now.tables table) (task_row self.now (table_at self.now.tables table) keys.now t)) }
    {
        find_row(self.tgff, table, rows_of(keys), self.task_kinds[t])
    }

    /// What the row of a task is refused for.
    fn task_fault(&self, table: usize, keys: &[KeyColumn], t: usize) -> Option<Why>
        requires table { table < length self.now.tables }
        requires task { t < length self.now.task_kinds }
        requires known { All (IsKnownKey self.now.plan.objectives) keys.now }
        ensures { IsLeastOrNone (λ why. TaskBreaks self.now (table_at self.now.tables table) keys.now why t) result }
    {
        match self.task_row(table, keys, t) {
            Some(row) => self.row_fault(table, row, keys),
            None => None,
        }
    }

    /// What the rows of all tasks are refused for.
    fn tasks_fault(&self, table: usize, keys: &[KeyColumn]) -> Option<Why>
        requires table { table < length self.now.tables }
        requires known { All (IsKnownKey self.now.plan.objectives) keys.now }
        ensures { IsLeastOrNone (λ why. HasBelow (length self.now.task_kinds) (TaskBreaks self.now (table_at self.now.tables table) keys.now why)) result }
    {
        let mut fault = None;
        for t in 0..self.task_kinds.len() {
            fault = lower_of(fault, self.task_fault(table, keys, t));
        }
        fault
    }

    /// What the cell of a word `OBJ@N` is refused for.
    fn place_fault(&self, table: usize, place: &KeyColumn) -> Option<Why>
        requires table { table < length self.now.tables }
        requires known { IsKnownPlace self.now.plan.objectives place.now }
        ensures { IsLeastOrNone (λ why. PlaceBreaks self.now (table_at self.now.tables table) why place.now) result }
    {
        let cell = first_cell(self.tgff, table, place.column as usize);
        cell_fault(cell, self.weight_taking(place.key.list()))
    }

    /// What the weights of the resource are refused for.
    fn places_fault(&self, table: usize, places: &[KeyColumn]) -> Option<Why>
        requires table { table < length self.now.tables }
        requires known { All (IsKnownPlace self.now.plan.objectives) places.now }
        ensures { IsLeastOrNone (λ why. Any (PlaceBreaks self.now (table_at self.now.tables table) why) places.now) result }
    {
        let mut fault = None;
        for place in places {
            fault = lower_of(fault, self.place_fault(table, place));
        }
        fault
    }

    /// The row from which a task of the graphs gets an option, where it gets one.
    pub(crate) fn chosen_row(&self, table: usize, keys: &[KeyColumn], t: usize) -> Option<usize>
        requires table { table < length self.now.tables }
        requires task { t < length self.now.task_kinds }
        ensures { MatchOption result (chosen_row self.now (table_at self.now.tables table) keys.now t ≡ None) (IsRowAt (table_at self.now.tables table) (chosen_row self.now (table_at self.now.tables table) keys.now t)) }
    {
        match self.task_row(table, keys, t) {
            Some(row) if self.does_count(table, row, keys) => Some(row),
            _ => None,
        }
    }

    /// Whether a task is to get an option and has one on the resource already.
    fn is_taken_twice(&self, table: usize, resource: ResNo, keys: &[KeyColumn], t: usize) -> bool
        requires table { table < length self.now.tables }
        requires task { t < length self.now.task_kinds }
        ensures { IsTrue result ↔ ((is_some (chosen_row self.now (table_at self.now.tables table) keys.now t) ≡ true) × IsMapped self.now.plan t resource.0) }
    {
        self.plan.facts();
        match self.chosen_row(table, keys, t) {
            Some(_) => self.plan.is_mapped(TaskNo(t as u32), resource),
            None => false,
        }
    }

    /// Whether some task is to get an option and has one on the resource already.
    fn has_taken_twice(&self, table: usize, resource: &str, keys: &[KeyColumn]) -> bool
        requires table { table < length self.now.tables }
        requires there { Contains self.now.plan.resources resource.now }
        ensures { IsTrue result ↔ HasBelow (length self.now.task_kinds) (IsTakenTwice self.now (table_at self.now.tables table) resource.now keys.now) }
    {
        let place = self.resource_there(resource);
        for t in 0..self.task_kinds.len() {
            if self.is_taken_twice(table, place, keys, t) {
                return true;
            }
        }
        false
    }

    /// How many options a task is to get: one or none.
    fn count_of(&self, table: usize, keys: &[KeyColumn], t: usize) -> usize
        requires table { table < length self.now.tables }
        requires task { t < length self.now.task_kinds }
        ensures few { result ≤ 1 }
        ensures count { (resource : Name) → result ≡ length (one_of (choice_from self.now resource keys.now t) (chosen_row self.now (table_at self.now.tables table) keys.now t)) }
    {
        match self.chosen_row(table, keys, t) {
            Some(_) => 1,
            None => 0,
        }
    }

    /// How many tasks are to get an option.
    fn count_chosen(&self, table: usize, keys: &[KeyColumn]) -> usize
        requires table { table < length self.now.tables }
        ensures few { result ≤ length self.now.task_kinds }
        ensures count { (resource : Name) → result ≡ length (made_choices self.now (table_at self.now.tables table) resource keys.now (length self.now.task_kinds)) }
    {
        let mut count = 0;
        for t in 0..self.task_kinds.len() {
            count += self.count_of(table, keys, t);
        }
        count
    }

    /// What the pairs and the number of the options are refused for.
    fn options_fault(&self, table: usize, resource: &str, keys: &[KeyColumn]) -> Option<Why>
        requires table { table < length self.now.tables }
        requires there { Contains self.now.plan.resources resource.now }
        ensures { IsLeastOrNone (OptionsBreak self.now (table_at self.now.tables table) resource.now keys.now) result }
    {
        self.plan.facts();
        if self.has_taken_twice(table, resource, keys) {
            return Some(Why::RepeatedName);
        }
        let before = self.plan.options();
        let made = self.count_chosen(table, keys);
        if before + made > MOST_OPTIONS {
            return Some(Why::Limit(What::Options));
        }
        None
    }

    /// What a line is refused for whose table is there, before anything is made of it.
    pub(crate) fn line_fault(
        &self,
        table: usize,
        resource: &str,
        keys: &[KeyColumn],
        places: &[KeyColumn],
    ) -> Option<Why>
        requires table { table < length self.now.tables }
        requires fits { IsFitTable self.now resource.now keys.now places.now }
        ensures { IsLeastOrNone (LineBreaks self.now (table_at self.now.tables table) resource.now keys.now places.now) result }
    {
        let cells = lower_of(
            self.places_fault(table, places),
            self.tasks_fault(table, keys),
        );
        lower_of(cells, self.options_fault(table, resource, keys))
    }
}
