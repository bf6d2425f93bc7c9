//! A specification that grows, call by call.

ghost use Rattle.std.specs.Prelude.{◌≡◌, ◌*◌, ◌≤◌, length};
ghost use Rattle.spec_model.specs.Spec.{empty_spec};
ghost use Rattle.spec_model.specs.WellFormed.{IsPlan};
ghost use Rattle.spec_model.specs.Limits.{most_tasks, most_messages, most_resources, most_links, most_options, most_objectives};

use crate::held::Held;
use std::alloc::Global;
use std::marker::Model;
use task_order::TaskOrder;

/// A specification that grows. Contracts see it as the lists of a specification in which each message has its stated
/// hop limit.
///
/// A call that is refused leaves the builder as it was.
#[derive(Drop)]
pub struct SpecBuilder {
    pub(crate) alloc: Global,
    pub(crate) order: TaskOrder,
    pub(crate) held: Held,
}

impl Model for SpecBuilder {
    ghost use Rattle.spec_model.specs.Spec.{SpecValue};

    ghost Value = { SpecValue };

    ghost use Rattle.spec_graph.specs.Builder.{HoldsPlan};
    ghost use Rattle.spec_graph.specs.Held.{held_spec};

    ghost view = { λ b. held_spec b.held };

    ghost invariant = { HoldsPlan };
}

impl SpecBuilder {
    /// What holds of each plan.
    pub fn facts(&self)
        ensures { IsPlan self.now }
    {
        let _ = &self.held.tasks;
    }

    /// Nothing yet. It takes no memory.
    pub fn new(alloc: Global) -> SpecBuilder
        ensures { result ≡ empty_spec }
    {
        SpecBuilder {
            alloc,
            order: TaskOrder::new(alloc),
            held: Held::none(alloc),
        }
    }

    /// How many tasks there are.
    pub fn tasks(&self) -> usize
        ensures count { result ≡ length self.now.tasks }
        ensures few { result ≤ most_tasks }
    {
        self.held.tasks.len()
    }

    /// How many messages there are.
    pub fn messages(&self) -> usize
        ensures count { result ≡ length self.now.messages }
        ensures few { result ≤ most_messages }
    {
        self.held.messages.len()
    }

    /// How many resources there are.
    pub fn resources(&self) -> usize
        ensures count { result ≡ length self.now.resources }
        ensures few { result ≤ most_resources }
    {
        self.held.resources.len()
    }

    /// How many links there are.
    pub fn links(&self) -> usize
        ensures count { result ≡ length self.now.links }
        ensures few { result ≤ most_links }
    {
        self.held.links.len()
    }

    /// How many arcs there are.
    pub fn arcs(&self) -> usize
        ensures count { result ≡ length self.now.arcs }
        ensures few { result ≤ 2 * most_links }
    {
        self.held.arcs.len()
    }

    /// How many options there are.
    pub fn options(&self) -> usize
        ensures count { result ≡ length self.now.options }
        ensures few { result ≤ most_options }
    {
        self.held.options.len()
    }

    /// How many objectives there are.
    pub fn objectives(&self) -> usize
        ensures count { result ≡ length self.now.objectives }
        ensures few { result ≤ most_objectives }
    {
        self.held.objectives.len()
    }
}
