//! What can be read of a builder: the number of a name that is declared so far, its messages, and what is mapped.

ghost use Rattle.std.specs.Prelude.{◌≡◌, ◌<◌, ◌↔◌, IsTrue, length, Contains, MatchOption};
ghost use Rattle.spec_model.specs.Spec.{message_at};
ghost use Rattle.names.specs.Names.{IsNumberOf};
ghost use Rattle.spec_graph.specs.Refusals.{IsMapped};

use crate::builder::SpecBuilder;
use crate::numbers::{LinkNo, MsgNo, ResNo, TaskNo};

impl SpecBuilder {
    /// The task of a name, or `None` where it isn't declared. It takes no memory.
    pub fn find_task(&self, name: &str) -> Option<TaskNo>
        ensures { MatchOption result (Contains self.now.tasks name.now → ⊥) (λ t. IsNumberOf self.now.tasks name.now t.0) }
    {
        self.held.find_task(name)
    }

    /// The resource of a name, or `None` where it isn't declared. It takes no memory.
    pub fn find_resource(&self, name: &str) -> Option<ResNo>
        ensures { MatchOption result (Contains self.now.resources name.now → ⊥) (λ r. IsNumberOf self.now.resources name.now r.0) }
    {
        self.held.find_resource(name)
    }

    /// The message of a name, or `None` where it isn't there. It takes no memory.
    pub fn find_message(&self, name: &str) -> Option<MsgNo>
        ensures { MatchOption result (Contains self.now.message_names name.now → ⊥) (λ m. IsNumberOf self.now.message_names name.now m.0) }
    {
        self.held.find_message(name)
    }

    /// The link of a name, or `None` where it isn't declared. It takes no memory.
    pub fn find_link(&self, name: &str) -> Option<LinkNo>
        ensures { MatchOption result (Contains self.now.links name.now → ⊥) (λ l. IsNumberOf self.now.links name.now l.0) }
    {
        self.held.find_link(name)
    }

    /// The number of the objective of a name, or `None` where it isn't declared. It takes no memory.
    pub fn find_objective(&self, name: &str) -> Option<usize>
        ensures { MatchOption result (Contains self.now.objectives name.now → ⊥) (IsNumberOf self.now.objectives name.now) }
    {
        self.held.objectives.find(name)
    }

    /// Whether the task is mapped to the resource. It takes no memory.
    pub fn is_mapped(&self, task: TaskNo, resource: ResNo) -> bool
        ensures { IsTrue result ↔ IsMapped self.now task.0 resource.0 }
    {
        self.held.options.has(task, resource)
    }

    /// The task that sends a message.
    pub fn sender(&self, m: MsgNo) -> TaskNo
        requires { m.0 < length self.now.messages }
        ensures sender { result.0 ≡ (message_at self.now m.0).sender }
        ensures there { result.0 < length self.now.tasks }
    {
        self.held.sender(m)
    }
}
