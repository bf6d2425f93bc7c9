//! The lists that a builder fills and a finished specification keeps.

ghost use Rattle.std.specs.Prelude.{◌≡◌, ◌<◌, ◌≤◌, length, Contains, MatchOption};
ghost use Rattle.spec_model.specs.Spec.{empty_spec, message_at};
ghost use Rattle.spec_model.specs.Limits.{most_tasks, most_messages, most_resources, most_links};
ghost use Rattle.names.specs.Names.{IsNumberOf};
ghost use Rattle.spec_graph.specs.Held.{held_spec};

use crate::choices::Choices;
use crate::messages::Message;
use crate::numbers::{Arc, LinkNo, MsgNo, ResNo, TaskNo};
use crate::rows::{Deadline, Weights};
use names::Names;
use std::alloc::Global;

/// The lists of a specification, and the look-ups that a plan and a whole specification share.
#[derive(Drop)]
pub struct Held {
    /// The names of tasks.
    pub tasks: Names,
    /// The names of messages.
    pub message_names: Names,
    /// The messages, in the order of their names.
    pub messages: Vec<Message>,
    /// The names of resources.
    pub resources: Names,
    /// The names of links.
    pub links: Names,
    /// The arcs of links.
    pub arcs: Vec<Arc>,
    /// The options.
    pub options: Choices,
    /// The deadlines of tasks.
    pub deadlines: Vec<Deadline>,
    /// The names of objectives.
    pub objectives: Names,
    /// For each option its weights, one for each objective.
    pub option_weights: Vec<Weights>,
    /// Those of each resource.
    pub resource_weights: Vec<Weights>,
    /// Those of each link.
    pub link_weights: Vec<Weights>,
    /// What each link weighs for a message of quantity 1 that goes over it.
    pub traffic_weights: Vec<Weights>,
}

impl Held {
    /// Empty lists. They take no memory.
    pub fn none(alloc: Global) -> Held
        ensures { held_spec result ≡ empty_spec }
    {
        Held {
            tasks: Names::new(alloc),
            message_names: Names::new(alloc),
            messages: Vec::new(alloc),
            resources: Names::new(alloc),
            links: Names::new(alloc),
            arcs: Vec::new(alloc),
            options: Choices::none(alloc),
            deadlines: Vec::new(alloc),
            objectives: Names::new(alloc),
            option_weights: Vec::new(alloc),
            resource_weights: Vec::new(alloc),
            link_weights: Vec::new(alloc),
            traffic_weights: Vec::new(alloc),
        }
    }

    /// The task of a name.
    pub fn find_task(&self, name: &str) -> Option<TaskNo>
        requires few { length self.now.tasks ≤ most_tasks }
        ensures { MatchOption result (Contains self.now.tasks name.now → ⊥) (λ t. IsNumberOf self.now.tasks name.now t.0) }
    {
        match self.tasks.find(name) {
            Some(i) => Some(TaskNo(i as u32)),
            None => None,
        }
    }

    /// The resource of a name.
    pub fn find_resource(&self, name: &str) -> Option<ResNo>
        requires few { length self.now.resources ≤ most_resources }
        ensures { MatchOption result (Contains self.now.resources name.now → ⊥) (λ r. IsNumberOf self.now.resources name.now r.0) }
    {
        match self.resources.find(name) {
            Some(i) => Some(ResNo(i as u32)),
            None => None,
        }
    }

    /// The message of a name.
    pub fn find_message(&self, name: &str) -> Option<MsgNo>
        requires few { length self.now.message_names ≤ most_messages }
        ensures { MatchOption result (Contains self.now.message_names name.now → ⊥) (λ m. IsNumberOf self.now.message_names name.now m.0) }
    {
        match self.message_names.find(name) {
            Some(i) => Some(MsgNo(i as u32)),
            None => None,
        }
    }

    /// The link of a name.
    pub fn find_link(&self, name: &str) -> Option<LinkNo>
        requires few { length self.now.links ≤ most_links }
        ensures { MatchOption result (Contains self.now.links name.now → ⊥) (λ l. IsNumberOf self.now.links name.now l.0) }
    {
        match self.links.find(name) {
            Some(i) => Some(LinkNo(i as u32)),
            None => None,
        }
    }

    /// The task that sends a message.
    pub fn sender(&self, m: MsgNo) -> TaskNo
        requires { m.0 < length self.now.messages.items }
        ensures { result.0 ≡ (message_at (held_spec self.now) m.0).sender }
    {
        let message = &self.messages[m.0 as usize];
        message.sender
    }
}
