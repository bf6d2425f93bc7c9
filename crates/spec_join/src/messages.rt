//! Carries out the statements that add messages.

ghost use Rattle.std.specs.Prelude.{◌≡◌, ◌<◌, length, map, All, Contains, IfOk, OnOk, IfErr};
ghost use Rattle.names.specs.Names.{number_by_name};
ghost use Rattle.spec_graph.specs.Lists.{task_number};
ghost use Rattle.spec_join.specs.Effects.{effect};
ghost use Rattle.spec_join.specs.Fits.{IsFit};
ghost use Rattle.spec_join.specs.Refusals.{HasMissing};
ghost use Rattle.spec_join.specs.Stops.{Refuses, IsAccepted, IsUnknownStop};
ghost use Rattle.arch_reader.specs.declared.statement.Statement.{Statement};

use crate::faults::stop_for;
use crate::joiner::Joiner;
use file_bricks::Text;
use line_words::{Stop, Why};
use spec_graph::TaskNo;

impl Joiner<'_> {
    /// The tasks of names, in their order.
    fn tasks_of(&self, names: &[Text]) -> Result<Vec<TaskNo>, Stop>
        ensures numbers { IfOk result (λ tasks. map task_number tasks.items ≡ map (number_by_name self.now.plan.tasks) names.now) }
        ensures many { IfOk result (λ tasks. length tasks.items ≡ length names.now) }
        ensures there { IfOk result (λ tasks. All (λ t. t.0 < length self.now.plan.tasks) tasks.items) }
        ensures known { OnOk result (All (Contains self.now.plan.tasks) names.now) }
        ensures refused { IfErr result (IsUnknownStop (HasMissing self.now.plan.tasks names.now)) }
    {
        let mut tasks = Vec::new(self.alloc);
        for name in names {
            match self.find_task(name.list()) {
                Some(task) => tasks.push(task)?,
                None => return Err(Stop::Broken(Why::UnknownName)),
            }
        }
        Ok(tasks)
    }

    /// `message NAME SENDER -> RECEIVER..`
    pub(crate) fn message(
        &mut self,
        name: &str,
        sender: &str,
        receivers: &[Text],
    ) -> Result<(), Stop>
        requires { IsFit self.old (Statement.Message name.now sender.now receivers.now) }
        ensures done { OnOk result (self.new ≡ effect self.old (Statement.Message name.now sender.now receivers.now)) }
        ensures accepted { OnOk result (IsAccepted self.old (Statement.Message name.now sender.now receivers.now)) }
        ensures refused { IfErr result (Refuses self.old (Statement.Message name.now sender.now receivers.now)) }
    {
        let Some(from) = self.find_task(sender) else {
            return Err(Stop::Broken(Why::UnknownName));
        };
        let to = self.tasks_of(receivers)?;
        self.message_kinds.reserve(1)?;
        match self.plan.message(name, from, &to, self.hops, self.delay, 1) {
            Ok(_) => {
                self.message_kinds.push_reserved(None);
                Ok(())
            }
            Err(fault) => Err(stop_for(fault)),
        }
    }
}
