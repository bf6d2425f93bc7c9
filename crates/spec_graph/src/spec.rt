//! A whole specification, and what can be read of it.

ghost use Rattle.std.specs.Prelude.{◌≡◌, ◌<◌, ◌≤◌, ◌+◌, ◌*◌, length, map, All, Contains, MatchOption};
ghost use Rattle.spec_model.specs.Spec.{name_at, message_at, arc_at, option_at, deadline_at, arc_var, resource_var, link_var, design_variables, all_variables};
ghost use Rattle.spec_model.specs.WellFormed.{IsWellFormed, size};
ghost use Rattle.spec_model.specs.Vectors.{weight, arc_weight};
ghost use Rattle.spec_model.specs.Limits.{most_tasks, most_messages, most_resources, most_links, most_options, most_objectives, most_variables, most_terms, most_number};
ghost use Rattle.names.specs.Names.{IsName, IsNumberOf};
ghost use Rattle.spec_graph.specs.Lists.{task_number};

use crate::held::Held;
use crate::numbers::{Arc, ArcNo, Choice, LinkNo, MsgNo, OptNo, ResNo, TaskNo};
use crate::rows::weight_in;
use std::marker::Model;

/// A specification, in which each number names an item that is there and each count is within its limit. No reader
/// takes memory.
#[derive(Drop)]
pub struct Spec {
    pub(crate) held: Held,
    pub(crate) variables: u64,
    pub(crate) terms: u64,
}

impl Model for Spec {
    ghost use Rattle.spec_model.specs.Spec.{SpecValue};

    ghost Value = { SpecValue };

    ghost use Rattle.spec_graph.specs.Finished.{HoldsSpec};
    ghost use Rattle.spec_graph.specs.Held.{held_spec};

    ghost view = { λ s. held_spec s.held };

    ghost invariant = { HoldsSpec };
}

impl Spec {
    /// What holds of each specification.
    pub fn facts(&self)
        ensures { IsWellFormed self.now }
    {
        let _ = &self.held.tasks;
    }

    /// What holds of each name.
    pub fn facts_of_names(&self)
        ensures tasks { All IsName self.now.tasks }
        ensures messages { All IsName self.now.message_names }
        ensures resources { All IsName self.now.resources }
        ensures links { All IsName self.now.links }
        ensures objectives { All IsName self.now.objectives }
    {
        self.held.tasks.facts();
        self.held.message_names.facts();
        self.held.resources.facts();
        self.held.links.facts();
        self.held.objectives.facts();
    }

    /// How many tasks there are.
    pub fn tasks(&self) -> usize
        ensures count { result ≡ length self.now.tasks }
        ensures few { result ≤ most_tasks }
    {
        self.held.tasks.len()
    }

    /// How many messages there are.
    pub fn messages(&self) -> usize
        ensures count { result ≡ length self.now.messages }
        ensures few { result ≤ most_messages }
    {
        self.held.messages.len()
    }

    /// How many resources there are.
    pub fn resources(&self) -> usize
        ensures count { result ≡ length self.now.resources }
        ensures few { result ≤ most_resources }
    {
        self.held.resources.len()
    }

    /// How many links there are.
    pub fn links(&self) -> usize
        ensures count { result ≡ length self.now.links }
        ensures few { result ≤ most_links }
    {
        self.held.links.len()
    }

    /// How many arcs there are.
    pub fn arcs(&self) -> usize
        ensures count { result ≡ length self.now.arcs }
        ensures few { result ≤ 2 * most_links }
    {
        self.held.arcs.len()
    }

    /// How many options there are.
    pub fn options(&self) -> usize
        ensures count { result ≡ length self.now.options }
        ensures few { result ≤ most_options }
    {
        self.held.options.len()
    }

    /// How many objectives there are.
    pub fn objectives(&self) -> usize
        ensures count { result ≡ length self.now.objectives }
        ensures few { result ≤ most_objectives }
    {
        self.held.objectives.len()
    }

    /// How many deadlines there are.
    pub fn deadlines(&self) -> usize
        ensures { result ≡ length self.now.deadlines }
    {
        self.held.deadlines.len()
    }

    /// How many variables a design has.
    pub fn design_variables(&self) -> u64
        ensures count { result ≡ design_variables self.now }
        ensures few { result ≤ most_variables }
    {
        self.facts();
        let uses = self.messages() as u64 * self.arcs() as u64;
        self.options() as u64 + uses + self.resources() as u64 + self.links() as u64
    }

    /// How many variables the encoding has.
    pub fn all_variables(&self) -> u64
        ensures count { result ≡ all_variables self.now }
        ensures few { result ≤ most_variables }
    {
        self.variables
    }

    /// A bound on the number of terms of the encoding.
    pub fn size(&self) -> u64
        ensures count { result ≡ size self.now }
        ensures few { result ≤ most_terms }
    {
        self.terms
    }

    /// The name of a task.
    pub fn task_name(&self, t: TaskNo) -> &str
        requires { t.0 < length self.now.tasks }
        ensures { result.now ≡ name_at self.now.tasks t.0 }
    {
        self.held.tasks.at(t.0 as usize)
    }

    /// The name of a message.
    pub fn message_name(&self, m: MsgNo) -> &str
        requires { m.0 < length self.now.messages }
        ensures { result.now ≡ name_at self.now.message_names m.0 }
    {
        self.held.message_names.at(m.0 as usize)
    }

    /// The name of a resource.
    pub fn resource_name(&self, r: ResNo) -> &str
        requires { r.0 < length self.now.resources }
        ensures { result.now ≡ name_at self.now.resources r.0 }
    {
        self.held.resources.at(r.0 as usize)
    }

    /// The name of a link.
    pub fn link_name(&self, l: LinkNo) -> &str
        requires { l.0 < length self.now.links }
        ensures { result.now ≡ name_at self.now.links l.0 }
    {
        self.held.links.at(l.0 as usize)
    }

    /// The name of an objective.
    pub fn objective_name(&self, j: usize) -> &str
        requires { j < length self.now.objectives }
        ensures { result.now ≡ name_at self.now.objectives j }
    {
        self.held.objectives.at(j)
    }

    /// The task of a name.
    pub fn find_task(&self, name: &str) -> Option<TaskNo>
        ensures { MatchOption result (Contains self.now.tasks name.now → ⊥) (λ t. IsNumberOf self.now.tasks name.now t.0) }
    {
        self.held.find_task(name)
    }

    /// The message of a name.
    pub fn find_message(&self, name: &str) -> Option<MsgNo>
        ensures { MatchOption result (Contains self.now.message_names name.now → ⊥) (λ m. IsNumberOf self.now.message_names name.now m.0) }
    {
        self.held.find_message(name)
    }

    /// The resource of a name.
    pub fn find_resource(&self, name: &str) -> Option<ResNo>
        ensures { MatchOption result (Contains self.now.resources name.now → ⊥) (λ r. IsNumberOf self.now.resources name.now r.0) }
    {
        self.held.find_resource(name)
    }

    /// The link of a name.
    pub fn find_link(&self, name: &str) -> Option<LinkNo>
        ensures { MatchOption result (Contains self.now.links name.now → ⊥) (λ l. IsNumberOf self.now.links name.now l.0) }
    {
        self.held.find_link(name)
    }

    /// The task that sends a message.
    pub fn sender(&self, m: MsgNo) -> TaskNo
        requires { m.0 < length self.now.messages }
        ensures sender { result.0 ≡ (message_at self.now m.0).sender }
        ensures there { result.0 < length self.now.tasks }
    {
        self.held.sender(m)
    }

    /// The tasks that receive a message, in the order in which they are listed.
    pub fn receivers(&self, m: MsgNo) -> &[TaskNo]
        requires { m.0 < length self.now.messages }
        ensures { map task_number result.now ≡ (message_at self.now m.0).receivers }
    {
        let message = &self.held.messages[m.0 as usize];
        message.receivers.as_slice()
    }

    /// The greatest number of hops of a message's route: the stated limit, or one less than the number of resources
    /// where that is less.
    pub fn hop_limit(&self, m: MsgNo) -> u64
        requires { m.0 < length self.now.messages }
        ensures limit { result ≡ (message_at self.now m.0).limit }
        ensures small { result < most_resources }
    {
        let message = &self.held.messages[m.0 as usize];
        message.hops
    }

    /// The time that a message takes for a hop.
    pub fn delay(&self, m: MsgNo) -> u64
        requires { m.0 < length self.now.messages }
        ensures delay { result ≡ (message_at self.now m.0).delay }
        ensures small { result ≤ most_number }
    {
        let message = &self.held.messages[m.0 as usize];
        message.delay
    }

    /// How much a message carries.
    pub fn quantity(&self, m: MsgNo) -> u64
        requires { m.0 < length self.now.messages }
        ensures quantity { result ≡ (message_at self.now m.0).quantity }
        ensures small { result ≤ most_number }
    {
        let message = &self.held.messages[m.0 as usize];
        message.quantity
    }

    /// An arc, with its link, its tail and its head.
    pub fn arc(&self, a: ArcNo) -> Arc
        requires { a.0 < length self.now.arcs }
        ensures link { result.link.0 ≡ (arc_at self.now a.0).link }
        ensures tail { result.tail.0 ≡ (arc_at self.now a.0).tail }
        ensures head { result.head.0 ≡ (arc_at self.now a.0).head }
        ensures link_there { result.link.0 < length self.now.links }
        ensures tail_there { result.tail.0 < length self.now.resources }
        ensures head_there { result.head.0 < length self.now.resources }
    {
        self.held.arcs[a.0 as usize]
    }

    /// An option, with its task, its resource and its time.
    pub fn option(&self, o: OptNo) -> Choice
        requires { o.0 < length self.now.options }
        ensures task { result.task.0 ≡ (option_at self.now o.0).task }
        ensures resource { result.resource.0 ≡ (option_at self.now o.0).resource }
        ensures time { result.time ≡ (option_at self.now o.0).time }
        ensures task_there { result.task.0 < length self.now.tasks }
        ensures resource_there { result.resource.0 < length self.now.resources }
        ensures small { result.time ≤ most_number }
    {
        self.held.options.at(o.0 as usize)
    }

    /// A deadline: its task and its time.
    pub fn deadline(&self, i: usize) -> (TaskNo, u64)
        requires { i < length self.now.deadlines }
        ensures task { result.0.0 ≡ (deadline_at self.now i).task }
        ensures time { result.1 ≡ (deadline_at self.now i).time }
        ensures there { result.0.0 < length self.now.tasks }
        ensures small { result.1 ≤ most_number }
    {
        let deadline = self.held.deadlines[i];
        (deadline.task, deadline.time)
    }

    /// The variable of an arc for a message.
    pub fn arc_variable(&self, m: MsgNo, a: ArcNo) -> u64
        requires message_there { m.0 < length self.now.messages }
        requires arc_there { a.0 < length self.now.arcs }
        ensures variable { result ≡ arc_var self.now m.0 a.0 }
        ensures there { result < design_variables self.now }
    {
        self.options() as u64 + m.0 as u64 * self.arcs() as u64 + a.0 as u64
    }

    /// The variable of a resource.
    pub fn resource_variable(&self, r: ResNo) -> u64
        requires { r.0 < length self.now.resources }
        ensures variable { result ≡ resource_var self.now r.0 }
        ensures there { result < design_variables self.now }
    {
        let uses = self.messages() as u64 * self.arcs() as u64;
        self.options() as u64 + uses + r.0 as u64
    }

    /// The variable of a link.
    pub fn link_variable(&self, l: LinkNo) -> u64
        requires { l.0 < length self.now.links }
        ensures variable { result ≡ link_var self.now l.0 }
        ensures there { result < design_variables self.now }
    {
        let uses = self.messages() as u64 * self.arcs() as u64;
        self.options() as u64 + uses + self.resources() as u64 + l.0 as u64
    }

    /// The weight that an objective gives an arc for a message: the traffic weight of its link times what the message
    /// carries.
    fn arc_weight(&self, j: usize, m: MsgNo, a: ArcNo) -> u64
        requires message_there { m.0 < length self.now.messages }
        requires arc_there { a.0 < length self.now.arcs }
        ensures weight { result ≡ arc_weight self.now j m.0 a.0 }
        ensures small { result ≤ most_number }
    {
        let link = self.arc(a).link;
        weight_in(&self.held.traffic_weights, j, link.0 as usize) * self.quantity(m)
    }

    /// The weight that an objective gives a design variable.
    pub fn weight(&self, j: usize, variable: u64) -> u64
        requires objective_there { j < length self.now.objectives }
        requires variable_there { variable < design_variables self.now }
        ensures weight { result ≡ weight self.now j variable }
        ensures small { result ≤ most_number }
    {
        let options = self.options() as u64;
        if variable < options {
            return weight_in(&self.held.option_weights, j, variable as usize);
        }
        let after = variable - options;
        let arcs = self.arcs() as u64;
        let uses = self.messages() as u64 * arcs;
        if after < uses {
            return self.arc_weight(
                j,
                MsgNo((after / arcs) as u32),
                ArcNo((after % arcs) as u32),
            );
        }
        let after = after - uses;
        let resources = self.resources() as u64;
        if after < resources {
            return weight_in(&self.held.resource_weights, j, after as usize);
        }
        weight_in(&self.held.link_weights, j, (after - resources) as usize)
    }
}
