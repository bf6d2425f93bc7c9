//! A task graph whose block is open, and the order of its tasks that its arcs give.

ghost use Rattle.std.specs.Prelude.{◌≡◌, ℕ, ◌<◌, ◌≤◌, ◌∷◌, ◌++◌, [], length, IfOk, OnOk, Some};
ghost use Rattle.spec_model.specs.Limits.{most_tasks};
ghost use Rattle.task_order.specs.Order.{is_in};
ghost use Rattle.tgff_reader.specs.Reaching.{reaches};
ghost use Rattle.tgff_reader.specs.After.{new_graph};

use crate::file::{Graph, TgffArc, TgffDeadline, TgffTask};
use file_bricks::Items;
use std::alloc::{AllocError, Global};
use std::marker::Model;
use task_order::{TaskOrder, TaskSet};

/// A task graph, with the order that tells which tasks are reached from which along its arcs.
#[derive(Drop)]
pub struct OpenGraph {
    graph: Graph,
    order: TaskOrder,
}

impl Model for OpenGraph {
    ghost use Rattle.std.specs.Prelude.{◌≤◌, length};
    ghost use Rattle.spec_model.specs.Limits.{most_tasks};
    ghost use Rattle.tgff_reader.specs.Reaching.{IsOrder};
    ghost use Rattle.tgff_reader.specs.declared.file.Graph.{Graph};

    ghost Value = { Graph };

    ghost view = { λ o. o.graph };

    ghost invariant = { λ o. IsOrder o.order o.graph.arcs × (length o.graph.tasks ≤ length o.order) × (length o.graph.tasks ≤ most_tasks) };
}

impl OpenGraph {
    /// A graph of which nothing is stated.
    pub(crate) fn new(alloc: Global, index: u64) -> OpenGraph
        ensures { result ≡ new_graph index }
    {
        OpenGraph {
            graph: Graph {
                index,
                period: None,
                tasks: Items::of(Vec::new(alloc)),
                arcs: Items::of(Vec::new(alloc)),
                deadlines: Items::of(Vec::new(alloc)),
            },
            order: TaskOrder::new(alloc),
        }
    }

    /// The graph as far as it is stated.
    pub(crate) fn graph(&self) -> &Graph
        ensures graph { result.now ≡ self.now }
        ensures few { length self.now.tasks ≤ most_tasks }
    {
        &self.graph
    }

    /// The graph, once its block is closed.
    pub(crate) fn close(self) -> Graph
        ensures { result ≡ self }
    {
        let OpenGraph { graph, order: _ } = self;
        graph
    }

    /// Changes the period, in units of 10 ^ -12.
    pub(crate) fn set_period(&mut self, period: i128)
        ensures { self.new ≡ record self.old { period = Some period } }
    {
        self.graph.period = Some(period);
    }

    /// Adds a deadline.
    pub(crate) fn add_deadline(&mut self, deadline: TgffDeadline) -> Result<(), AllocError>
        ensures { OnOk result (self.new ≡ record self.old { deadlines = self.old.deadlines ++ deadline ∷ [] }) }
    {
        self.graph.deadlines.push(deadline)
    }

    /// Adds a task.
    pub(crate) fn add_task(&mut self, alloc: Global, task: TgffTask) -> Result<(), AllocError>
        requires { length self.old.tasks < most_tasks }
        ensures { OnOk result (self.new ≡ record self.old { tasks = self.old.tasks ++ task ∷ [] }) }
    {
        let tasks = self.graph.tasks.list().len() + 1;
        self.order.make_room(alloc, tasks)?;
        self.graph.tasks.push(task)?;
        Ok(())
    }

    /// The tasks that are reached from a task.
    pub(crate) fn reached(&self, alloc: Global, task: usize) -> Result<TaskSet, AllocError>
        requires { task < length self.now.tasks }
        ensures { IfOk result (λ set. (b : ℕ) → is_in set b ≡ reaches self.now.arcs task b) }
    {
        let mut set = TaskSet::none(alloc)?;
        self.order.gather(&mut set, task);
        Ok(set)
    }

    /// Adds an arc, given the tasks that are reached from its second one.
    pub(crate) fn add_arc(&mut self, arc: TgffArc, reached: &TaskSet) -> Result<(), AllocError>
        requires from { arc.from < length self.old.tasks }
        requires reached { (b : ℕ) → is_in reached.now b ≡ reaches self.old.arcs arc.to b }
        ensures { OnOk result (self.new ≡ record self.old { arcs = self.old.arcs ++ arc ∷ [] }) }
    {
        let from = arc.from;
        self.graph.arcs.push(arc)?;
        self.order.join(from, reached);
        Ok(())
    }
}
