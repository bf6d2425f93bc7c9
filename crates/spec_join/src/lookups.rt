//! The numbers of the names that a statement uses.

ghost use Rattle.std.specs.Prelude.{◌<◌, length, Contains, MatchOption};
ghost use Rattle.names.specs.Names.{IsNumberOf};
ghost use Rattle.spec_join.specs.Stops.{IsMessageNumber};

use crate::joiner::Joiner;
use spec_graph::{LinkNo, MsgNo, ResNo, TaskNo};

impl Joiner<'_> {
    /// The task of a name, where there is one.
    pub(crate) fn find_task(&self, name: &str) -> Option<TaskNo>
        ensures { MatchOption result (Contains self.now.plan.tasks name.now → ⊥) (λ t. IsNumberOf self.now.plan.tasks name.now t.0) }
    {
        self.plan.find_task(name)
    }

    /// The message of a name, where there is one.
    pub(crate) fn find_message(&self, name: &str) -> Option<MsgNo>
        ensures { MatchOption result (Contains self.now.plan.message_names name.now → ⊥) (λ m. IsMessageNumber self.now.plan name.now m.0) }
    {
        self.plan.facts();
        self.plan.find_message(name)
    }

    /// The number of a resource that is declared.
    pub(crate) fn resource_there(&self, name: &str) -> ResNo
        requires { Contains self.now.plan.resources name.now }
        ensures { IsNumberOf self.now.plan.resources name.now result.0 }
    {
        match self.plan.find_resource(name) {
            Some(resource) => resource,
            None => unreachable!(),
        }
    }

    /// The number of a link that is declared.
    pub(crate) fn link_there(&self, name: &str) -> LinkNo
        requires { Contains self.now.plan.links name.now }
        ensures { IsNumberOf self.now.plan.links name.now result.0 }
    {
        match self.plan.find_link(name) {
            Some(link) => link,
            None => unreachable!(),
        }
    }
}
