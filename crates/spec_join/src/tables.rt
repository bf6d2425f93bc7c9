//! Carries out the `table` lines. What a line is refused for is found before anything is made of its table, so that
//! afterwards only memory may run out: then options of the first tasks may stand already.

ghost use Rattle.std.specs.Prelude.{◌≡◌, ◌<◌, ◌≤◌, ◌++◌, length, true, is_some, Any, All, Contains, IfOk, OnOk, IfErr};
ghost use Rattle.spec_model.specs.Limits.{most_options, most_number};
ghost use Rattle.names.specs.Names.{number_by_name};
ghost use Rattle.spec_graph.specs.Refusals.{IsMapped};
ghost use Rattle.tgff_reader.specs.Looking.{table_at, row_at};
ghost use Rattle.spec_join.specs.Effects.{effect, with_plan, with_option};
ghost use Rattle.spec_join.specs.Fits.{IsFit, IsKnownKey, IsKnownPlace};
ghost use Rattle.spec_join.specs.Stops.{Refuses, Accepts};
ghost use Rattle.spec_join.specs.Tables.{time_from, weights_from, choice_from, chosen_row, one_of, with_made, with_places, KeyBreaks, ValuesBreak, HasBelow, TaskBreaks, IsTakenTwice, PlaceBreaks, OptionsBreak};
ghost use Rattle.line_words.specs.declared.refusals.Why.{Why};
ghost use Rattle.arch_reader.specs.declared.statement.Statement.{Statement};

use crate::joiner::Joiner;
use crate::table_faults::{column_of, is_table_key};
use arch_reader::KeyColumn;
use line_words::{Stop, Why};
use spec_graph::{BuildFault, TaskNo};
use std::alloc::AllocError;
use table_cells::{amount_in, find_table, first_cell};

impl Joiner<'_> {
    /// The time that a row states, or 0 where no column of times is named.
    fn time_from(&self, table: usize, row: usize, keys: &[KeyColumn]) -> u64
        requires table { table < length self.now.tables }
        requires row { row < length (table_at self.now.tables table).rows }
        requires small { time_from self.now keys.now (row_at (table_at self.now.tables table) row) ≤ most_number }
        ensures { result ≡ time_from self.now keys.now (row_at (table_at self.now.tables table) row) }
    {
        match column_of(keys, "time") {
            Some(column) => self.time_at(amount_in(self.cell(table, row, column))),
            None => 0,
        }
    }

    /// The weights that a row states, one for each objective.
    fn weights_from(
        &self,
        table: usize,
        row: usize,
        keys: &[KeyColumn],
    ) -> Result<Vec<u64>, AllocError>
        requires table { table < length self.now.tables }
        requires row { row < length (table_at self.now.tables table).rows }
        requires known { All (IsKnownKey self.now.plan.objectives) keys.now }
        requires unbroken { (why : Why) → Any (KeyBreaks self.now (row_at (table_at self.now.tables table) row) why) keys.now → ⊥ }
        ensures value { IfOk result (λ weights. weights.items ≡ weights_from self.now keys.now (row_at (table_at self.now.tables table) row)) }
        ensures one_each { IfOk result (λ weights. length weights.items ≡ length self.now.plan.objectives) }
        ensures small { IfOk result (λ weights. All (λ w. w ≤ most_number) weights.items) }
    {
        let mut weights = self.no_weights()?;
        for key in keys {
            let name = key.key.list();
            if is_table_key(name) {
                continue;
            }
            let amount = amount_in(self.cell(table, row, key.column));
            let weight = self.weight_for(name, amount);
            weights[weight.objective] = weight.value;
        }
        Ok(weights)
    }

    /// Adds the option of a task that a row states.
    fn add_from(
        &mut self,
        table: usize,
        row: usize,
        resource: &str,
        keys: &[KeyColumn],
        t: usize,
    ) -> Result<(), AllocError>
        requires table { table < length self.old.tables }
        requires row { row < length (table_at self.old.tables table).rows }
        requires there { Contains self.old.plan.resources resource.now }
        requires task { t < length self.old.task_kinds }
        requires known { All (IsKnownKey self.old.plan.objectives) keys.now }
        requires unbroken { (why : Why) → ValuesBreak self.old keys.now (row_at (table_at self.old.tables table) row) why → ⊥ }
        requires new { IsMapped self.old.plan t (number_by_name self.old.plan.resources resource.now) → ⊥ }
        requires room { length self.old.plan.options < most_options }
        ensures { OnOk result (self.new ≡ with_plan self.old (with_option self.old.plan (choice_from self.old resource.now keys.now t (row_at (table_at self.old.tables table) row)) (weights_from self.old keys.now (row_at (table_at self.old.tables table) row)))) }
    {
        self.plan.facts();
        let place = self.resource_there(resource);
        let time = self.time_from(table, row, keys);
        let weights = self.weights_from(table, row, keys)?;
        match self.plan.option(TaskNo(t as u32), place, time, &weights) {
            Ok(_) => Ok(()),
            Err(fault) => match fault {
                BuildFault::NoMemory => Err(AllocError),
                _ => unreachable!(),
            },
        }
    }

    /// Adds the option of a task of the graphs, where a row makes one.
    fn add_option(
        &mut self,
        table: usize,
        resource: &str,
        keys: &[KeyColumn],
        t: usize,
    ) -> Result<(), AllocError>
        requires table { table < length self.old.tables }
        requires there { Contains self.old.plan.resources resource.now }
        requires task { t < length self.old.task_kinds }
        requires known { All (IsKnownKey self.old.plan.objectives) keys.now }
        requires unbroken { (why : Why) → TaskBreaks self.old (table_at self.old.tables table) keys.now why t → ⊥ }
        requires new { IsTakenTwice self.old (table_at self.old.tables table) resource.now keys.now t → ⊥ }
        requires room { is_some (chosen_row self.old (table_at self.old.tables table) keys.now t) ≡ true → length self.old.plan.options < most_options }
        ensures { OnOk result (self.new ≡ with_plan self.old (record self.old.plan { options = self.old.plan.options ++ one_of (choice_from self.old resource.now keys.now t) (chosen_row self.old (table_at self.old.tables table) keys.now t); option_weights = self.old.plan.option_weights ++ one_of (weights_from self.old keys.now) (chosen_row self.old (table_at self.old.tables table) keys.now t) })) }
    {
        match self.chosen_row(table, keys, t) {
            Some(row) => self.add_from(table, row, resource, keys, t),
            None => Ok(()),
        }
    }

    /// Adds the options of all tasks of the graphs.
    fn add_options(
        &mut self,
        table: usize,
        resource: &str,
        keys: &[KeyColumn],
    ) -> Result<(), AllocError>
        requires table { table < length self.old.tables }
        requires there { Contains self.old.plan.resources resource.now }
        requires known { All (IsKnownKey self.old.plan.objectives) keys.now }
        requires unbroken { (why : Why) → HasBelow (length self.old.task_kinds) (TaskBreaks self.old (table_at self.old.tables table) keys.now why) → ⊥ }
        requires free { (why : Why) → OptionsBreak self.old (table_at self.old.tables table) resource.now keys.now why → ⊥ }
        ensures { OnOk result (self.new ≡ with_plan self.old (with_made self.old (table_at self.old.tables table) resource.now keys.now (length self.old.task_kinds))) }
    {
        for t in 0..self.task_kinds.len() {
            self.add_option(table, resource, keys, t)?;
        }
        Ok(())
    }

    /// Sets the weights of the resource from the first row.
    fn set_places(&mut self, table: usize, resource: &str, places: &[KeyColumn])
        requires table { table < length self.old.tables }
        requires there { Contains self.old.plan.resources resource.now }
        requires known { All (IsKnownPlace self.old.plan.objectives) places.now }
        requires unbroken { (why : Why) → Any (PlaceBreaks self.old (table_at self.old.tables table) why) places.now → ⊥ }
        ensures { self.new ≡ with_plan self.old (with_places self.old (table_at self.old.tables table) resource.now places.now self.old.plan) }
    {
        let number = self.resource_there(resource);
        for place in places {
            let amount = amount_in(first_cell(self.tgff, table, place.column as usize));
            let weight = self.weight_for(place.key.list(), amount);
            self.plan
                .set_resource_weight(number, weight.objective, weight.value);
        }
    }

    /// `table NAME INDEX RESOURCE [KEY=N].. [OBJ@N]..`
    pub(crate) fn table(
        &mut self,
        name: &str,
        index: u64,
        resource: &str,
        keys: &[KeyColumn],
        places: &[KeyColumn],
    ) -> Result<(), Stop>
        requires { IsFit self.old (Statement.Table name.now index resource.now keys.now places.now) }
        ensures done { OnOk result (self.new ≡ effect self.old (Statement.Table name.now index resource.now keys.now places.now)) }
        ensures accepted { OnOk result (Accepts self.old (Statement.Table name.now index resource.now keys.now places.now)) }
        ensures refused { IfErr result (Refuses self.old (Statement.Table name.now index resource.now keys.now places.now)) }
    {
        let Some(table) = find_table(self.tgff, name, index) else {
            return Err(Stop::Broken(Why::UnknownName));
        };
        if let Some(why) = self.line_fault(table, resource, keys, places) {
            return Err(Stop::Broken(why));
        }
        self.add_options(table, resource, keys)?;
        self.set_places(table, resource, places);
        Ok(())
    }
}
