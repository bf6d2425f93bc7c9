//! The tasks, messages and deadlines of graphs.

ghost use Rattle.std.specs.Prelude.{◌≡◌, ◌+◌, ◌++◌, length, map, IfOk, OnOk};
ghost use Rattle.tgff_reader.specs.Facts.{IsGraph};
ghost use Rattle.graph_plan.specs.Graphs.{task_in, arc_in, planned_message, deadline_of, with_graph, with_graphs};
ghost use Rattle.graph_plan.specs.Room.{HasRoom, IsReady};

use crate::items::{add_arc, add_deadline, add_task};
use spec_graph::SpecBuilder;
use std::alloc::{AllocError, Global};
use tgff_reader::{Graph, Tgff};

/// Adds the tasks of a graph.
fn add_tasks(alloc: Global, plan: &mut SpecBuilder, graph: &Graph) -> Result<(), AllocError>
    requires graph { IsGraph graph.now }
    requires room { HasRoom plan.old graph.now }
    ensures { OnOk result (plan.new ≡ record plan.old { tasks = plan.old.tasks ++ map (task_in graph.now.index) graph.now.tasks }) }
{
    let tasks = graph.tasks.list();
    for task in tasks {
        add_task(alloc, plan, graph.index, task)?;
    }
    Ok(())
}

/// Adds the arcs of a graph, whose tasks begin at this number.
fn add_arcs(
    alloc: Global,
    plan: &mut SpecBuilder,
    first: usize,
    graph: &Graph,
) -> Result<(), AllocError>
    requires graph { IsGraph graph.now }
    requires ready { IsReady first plan.old graph.now }
    ensures { OnOk result (plan.new ≡ record plan.old { message_names = plan.old.message_names ++ map (arc_in graph.now.index) graph.now.arcs; messages = plan.old.messages ++ map (planned_message first) graph.now.arcs }) }
{
    let arcs = graph.arcs.list();
    for arc in arcs {
        add_arc(alloc, plan, graph.index, first, arc)?;
    }
    Ok(())
}

/// Adds the deadlines of a graph, whose tasks begin at this number.
fn add_deadlines(
    plan: &mut SpecBuilder,
    clock: u64,
    first: usize,
    graph: &Graph,
) -> Result<(), AllocError>
    requires graph { IsGraph graph.now }
    requires tasks { length plan.old.tasks ≡ first + length graph.now.tasks }
    ensures { OnOk result (plan.new ≡ record plan.old { deadlines = plan.old.deadlines ++ map (deadline_of clock first) graph.now.deadlines }) }
{
    let deadlines = graph.deadlines.list();
    for deadline in deadlines {
        add_deadline(plan, clock, first, deadline)?;
    }
    Ok(())
}

/// Adds a graph.
fn add_graph(
    alloc: Global,
    plan: &mut SpecBuilder,
    clock: u64,
    graph: &Graph,
) -> Result<(), AllocError>
    requires graph { IsGraph graph.now }
    requires room { HasRoom plan.old graph.now }
    ensures { OnOk result (plan.new ≡ with_graph clock plan.old graph.now) }
{
    plan.facts();
    let first = plan.tasks();
    add_tasks(alloc, plan, graph)?;
    add_arcs(alloc, plan, first, graph)?;
    add_deadlines(plan, clock, first, graph)
}

/// A plan with the tasks, the messages and the deadlines of all graphs of a file, in the order of the file. The plan has
/// no task and no message before. Times are taken at the clock's scale.
pub fn with_graphs(
    alloc: Global,
    plan: SpecBuilder,
    tgff: &Tgff,
    clock: u64,
) -> Result<SpecBuilder, AllocError>
    requires no_task { length plan.tasks ≡ 0 }
    requires no_message { length plan.messages ≡ 0 }
    ensures { IfOk result (λ new. new ≡ with_graphs clock plan tgff.now.graphs) }
{
    tgff.facts();
    plan.facts();
    let mut filled = plan;
    let graphs = tgff.graphs.list();
    for graph in graphs {
        add_graph(alloc, &mut filled, clock, graph)?;
    }
    Ok(filled)
}
