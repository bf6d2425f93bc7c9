//! Carries out the statements that add resources, links, tasks, options and deadlines.

ghost use Rattle.std.specs.Prelude.{◌≡◌, IfOk, OnOk, IfErr};
ghost use Rattle.spec_join.specs.Effects.{effect};
ghost use Rattle.spec_join.specs.Fits.{IsFit};
ghost use Rattle.spec_join.specs.Stops.{Refuses, IsAccepted};
ghost use Rattle.arch_reader.specs.declared.statement.Statement.{Statement};

use crate::faults::stop_for;
use crate::joiner::Joiner;
use arch_reader::KeyAmount;
use line_words::{Stop, Why};

impl Joiner<'_> {
    /// `task NAME`
    #[tactic(auto, using(crate::proofs::Refusing::task_refused, crate::proofs::Refusing::task_accepted))]
    pub(crate) fn task(&mut self, name: &str) -> Result<(), Stop>
        requires { IsFit self.old (Statement.Task name.now) }
        ensures done { OnOk result (self.new ≡ effect self.old (Statement.Task name.now)) }
        ensures accepted { OnOk result (IsAccepted self.old (Statement.Task name.now)) }
        ensures refused { IfErr result (Refuses self.old (Statement.Task name.now)) }
    {
        match self.plan.task(name) {
            Ok(_) => Ok(()),
            Err(fault) => Err(stop_for(fault)),
        }
    }

    /// `resource NAME [OBJ=D]..`
    #[tactic(auto, using(crate::proofs::Refusing::resource_refused))]
    pub(crate) fn resource(&mut self, name: &str, weights: &[KeyAmount]) -> Result<(), Stop>
        requires { IsFit self.old (Statement.Resource name.now weights.now) }
        ensures done { OnOk result (self.new ≡ effect self.old (Statement.Resource name.now weights.now)) }
        ensures accepted { OnOk result (IsAccepted self.old (Statement.Resource name.now weights.now)) }
        ensures refused { IfErr result (Refuses self.old (Statement.Resource name.now weights.now)) }
    {
        let weights = self.weights_of(weights)?;
        match self.plan.resource(name, &weights) {
            Ok(_) => Ok(()),
            Err(fault) => Err(stop_for(fault)),
        }
    }

    /// `link NAME A -- B [OBJ=D]..`, or `->` for a one-way link
    #[tactic(auto, using(crate::proofs::Refusing::link_refused))]
    pub(crate) fn link(
        &mut self,
        name: &str,
        a: &str,
        b: &str,
        two_way: bool,
        weights: &[KeyAmount],
    ) -> Result<(), Stop>
        requires { IsFit self.old (Statement.Link name.now a.now b.now two_way weights.now) }
        ensures done { OnOk result (self.new ≡ effect self.old (Statement.Link name.now a.now b.now two_way weights.now)) }
        ensures accepted { OnOk result (IsAccepted self.old (Statement.Link name.now a.now b.now two_way weights.now)) }
        ensures refused { IfErr result (Refuses self.old (Statement.Link name.now a.now b.now two_way weights.now)) }
    {
        let from = self.resource_there(a);
        let to = self.resource_there(b);
        let row = self.weights_of(weights)?;
        let traffic = self.no_weights()?;
        match self.plan.link(name, from, to, two_way, &row, &traffic) {
            Ok(_) => Ok(()),
            Err(fault) => Err(stop_for(fault)),
        }
    }

    /// `map TASK RESOURCE [time=D] [OBJ=D]..`
    #[tactic(auto, using(crate::proofs::Refusing::map_refused, crate::proofs::Refusing::map_accepted))]
    pub(crate) fn map(
        &mut self,
        task: &str,
        resource: &str,
        time: Option<i128>,
        weights: &[KeyAmount],
    ) -> Result<(), Stop>
        requires { IsFit self.old (Statement.Map task.now resource.now time weights.now) }
        ensures done { OnOk result (self.new ≡ effect self.old (Statement.Map task.now resource.now time weights.now)) }
        ensures accepted { OnOk result (IsAccepted self.old (Statement.Map task.now resource.now time weights.now)) }
        ensures refused { IfErr result (Refuses self.old (Statement.Map task.now resource.now time weights.now)) }
    {
        let Some(mapped) = self.find_task(task) else {
            return Err(Stop::Broken(Why::UnknownName));
        };
        let place = self.resource_there(resource);
        let needed = self.time_or_0(time);
        let row = self.weights_of(weights)?;
        match self.plan.option(mapped, place, needed, &row) {
            Ok(_) => Ok(()),
            Err(fault) => Err(stop_for(fault)),
        }
    }

    /// `deadline TASK D`
    #[tactic(auto, using(crate::proofs::Refusing::deadline_refused, crate::proofs::Refusing::deadline_accepted))]
    pub(crate) fn deadline(&mut self, task: &str, at: i128) -> Result<(), Stop>
        requires { IsFit self.old (Statement.Deadline task.now at) }
        ensures done { OnOk result (self.new ≡ effect self.old (Statement.Deadline task.now at)) }
        ensures accepted { OnOk result (IsAccepted self.old (Statement.Deadline task.now at)) }
        ensures refused { IfErr result (Refuses self.old (Statement.Deadline task.now at)) }
    {
        let Some(due) = self.find_task(task) else {
            return Err(Stop::Broken(Why::UnknownName));
        };
        let time = self.time_at(at);
        match self.plan.deadline(due, time) {
            Ok(()) => Ok(()),
            Err(fault) => Err(stop_for(fault)),
        }
    }
}
