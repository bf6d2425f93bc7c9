//! The calls of a builder that add objectives, tasks, resources, options and deadlines.

ghost use Rattle.std.specs.Prelude.{◌≡◌, ◌<◌, ◌++◌, ◌∷◌, [], length, IfOk, OnOk, IfErr, OnErr};
ghost use Rattle.names.specs.Names.{IsName};
ghost use Rattle.spec_model.specs.Spec.{choice};
ghost use Rattle.spec_graph.specs.Refusals.{IsBig, IsObjectiveRefused, IsObjectiveAccepted, IsTaskRefused, IsTaskAccepted, IsResourceRefused, IsResourceAccepted, IsOptionRefused, IsOptionAccepted, IsDeadlineRefused};

use crate::builder::SpecBuilder;
use crate::faults::BuildFault;
use crate::numbers::{Choice, OptNo, ResNo, TaskNo};
use crate::rows::{Deadline, Weights, has_big};
use line_words::What;
use spec_model::{MOST_NUMBER, MOST_OBJECTIVES, MOST_OPTIONS, MOST_RESOURCES, MOST_TASKS};

impl SpecBuilder {
    /// Adds a task.
    ///
    /// Refused as `Repeated` where its name is declared, and as `Limit` where there are 1,024 tasks.
    pub fn task(&mut self, name: &str) -> Result<TaskNo, BuildFault>
        requires { IsName name.now }
        ensures number { IfOk result (λ t. t.0 ≡ length self.old.tasks) }
        ensures added { OnOk result (self.new ≡ record self.old { tasks = self.old.tasks ++ name.now ∷ [] }) }
        ensures accepted { OnOk result (IsTaskAccepted self.old name.now) }
        ensures refused { IfErr result (IsTaskRefused self.old name.now) }
        ensures err { OnErr result (self.new ≡ self.old) }
    {
        if self.held.tasks.contains(name) {
            return Err(BuildFault::Repeated);
        }
        let number = self.held.tasks.len();
        if number >= MOST_TASKS {
            return Err(BuildFault::Limit(What::Tasks));
        }
        self.order.make_room(self.alloc, number + 1)?;
        let number = self.held.tasks.add(self.alloc, name)?;
        Ok(TaskNo(number as u32))
    }

    /// Adds a resource with its weights, one for each objective.
    ///
    /// Refused as `Repeated` where its name is declared, as `TooBig` where a weight is above 2^40, and as `Limit` where
    /// there are 256 resources.
    pub fn resource(&mut self, name: &str, weights: &[u64]) -> Result<ResNo, BuildFault>
        requires named { IsName name.now }
        requires one_each { length weights.now ≡ length self.old.objectives }
        ensures number { IfOk result (λ r. r.0 ≡ length self.old.resources) }
        ensures added { OnOk result (self.new ≡ record self.old { resources = self.old.resources ++ name.now ∷ []; resource_weights = self.old.resource_weights ++ weights.now ∷ [] }) }
        ensures accepted { OnOk result (IsResourceAccepted self.old name.now weights.now) }
        ensures refused { IfErr result (IsResourceRefused self.old name.now weights.now) }
        ensures err { OnErr result (self.new ≡ self.old) }
    {
        if self.held.resources.contains(name) {
            return Err(BuildFault::Repeated);
        }
        if has_big(weights) {
            return Err(BuildFault::TooBig);
        }
        if self.held.resources.len() >= MOST_RESOURCES {
            return Err(BuildFault::Limit(What::Resources));
        }
        let weights = Weights::of(self.alloc, weights)?;
        self.held.resource_weights.reserve(1)?;
        let number = self.held.resources.add(self.alloc, name)?;
        self.held.resource_weights.push_reserved(weights);
        Ok(ResNo(number as u32))
    }

    /// Adds an option of a task on a resource, with the time that the task takes there and its weights, one for each
    /// objective.
    ///
    /// Refused as `Repeated` where the task is mapped to the resource already, as `TooBig` where the time or a weight
    /// is above 2^40, and as `Limit` where there are 16,384 options.
    pub fn option(
        &mut self,
        task: TaskNo,
        resource: ResNo,
        time: u64,
        weights: &[u64],
    ) -> Result<OptNo, BuildFault>
        requires task_there { task.0 < length self.old.tasks }
        requires resource_there { resource.0 < length self.old.resources }
        requires one_each { length weights.now ≡ length self.old.objectives }
        ensures number { IfOk result (λ o. o.0 ≡ length self.old.options) }
        ensures added { OnOk result (self.new ≡ record self.old { options = self.old.options ++ choice task.0 resource.0 time ∷ []; option_weights = self.old.option_weights ++ weights.now ∷ [] }) }
        ensures accepted { OnOk result (IsOptionAccepted self.old (choice task.0 resource.0 time) weights.now) }
        ensures refused { IfErr result (IsOptionRefused self.old (choice task.0 resource.0 time) weights.now) }
        ensures err { OnErr result (self.new ≡ self.old) }
    {
        if self.held.options.has(task, resource) {
            return Err(BuildFault::Repeated);
        }
        if time > MOST_NUMBER {
            return Err(BuildFault::TooBig);
        }
        if has_big(weights) {
            return Err(BuildFault::TooBig);
        }
        let number = self.held.options.len();
        if number >= MOST_OPTIONS {
            return Err(BuildFault::Limit(What::Options));
        }
        let weights = Weights::of(self.alloc, weights)?;
        self.held.option_weights.reserve(1)?;
        self.held.options.push(Choice {
            task,
            resource,
            time,
        })?;
        self.held.option_weights.push_reserved(weights);
        Ok(OptNo(number as u32))
    }

    /// Adds an objective. Objectives stand before all that has weights.
    ///
    /// Refused as `Repeated` where its name is declared, and as `Limit` where there are 8 objectives.
    pub fn objective(&mut self, name: &str) -> Result<(), BuildFault>
        requires named { IsName name.now }
        requires no_resource { length self.old.resources ≡ 0 }
        requires no_link { length self.old.links ≡ 0 }
        requires no_option { length self.old.options ≡ 0 }
        ensures added { OnOk result (self.new ≡ record self.old { objectives = self.old.objectives ++ name.now ∷ [] }) }
        ensures accepted { OnOk result (IsObjectiveAccepted self.old name.now) }
        ensures refused { IfErr result (IsObjectiveRefused self.old name.now) }
        ensures err { OnErr result (self.new ≡ self.old) }
    {
        if self.held.objectives.contains(name) {
            return Err(BuildFault::Repeated);
        }
        if self.held.objectives.len() >= MOST_OBJECTIVES {
            return Err(BuildFault::Limit(What::Objectives));
        }
        self.held.objectives.add(self.alloc, name)?;
        Ok(())
    }

    /// Adds a deadline: the task is to be done by this time.
    ///
    /// Refused as `TooBig` where the time is above 2^40.
    pub fn deadline(&mut self, task: TaskNo, at: u64) -> Result<(), BuildFault>
        requires { task.0 < length self.old.tasks }
        ensures added { OnOk result (self.new ≡ record self.old { deadlines = self.old.deadlines ++ record { task = task.0; time = at } ∷ [] }) }
        ensures accepted { OnOk result (¬ IsBig at) }
        ensures refused { IfErr result (IsDeadlineRefused at) }
        ensures err { OnErr result (self.new ≡ self.old) }
    {
        if at > MOST_NUMBER {
            return Err(BuildFault::TooBig);
        }
        self.held.deadlines.push(Deadline { task, time: at })?;
        Ok(())
    }
}
