//! The types of tasks and messages.

ghost use Rattle.std.specs.Prelude.{◌≡◌, ◌++◌, map, IfOk, OnOk};
ghost use Rattle.graph_plan.specs.Graphs.{kind_of_task, kind_of_arc, task_kinds, message_kinds};

use std::alloc::{AllocError, Global};
use tgff_reader::{Tgff, TgffArc, TgffTask};

/// Puts the types of tasks behind others.
fn put_task_kinds(kinds: &mut Vec<u64>, tasks: &[TgffTask]) -> Result<(), AllocError>
    ensures { OnOk result (kinds.new.items ≡ kinds.old.items ++ map kind_of_task tasks.now) }
{
    for task in tasks {
        kinds.push(task.kind)?;
    }
    Ok(())
}

/// Puts the types of arcs behind others.
fn put_arc_kinds(kinds: &mut Vec<Option<u64>>, arcs: &[TgffArc]) -> Result<(), AllocError>
    ensures { OnOk result (kinds.new.items ≡ kinds.old.items ++ map kind_of_arc arcs.now) }
{
    for arc in arcs {
        kinds.push(Some(arc.kind))?;
    }
    Ok(())
}

/// The types of all tasks of a file, in their order.
pub fn task_kinds(alloc: Global, tgff: &Tgff) -> Result<Vec<u64>, AllocError>
    ensures { IfOk result (λ kinds. kinds.items ≡ task_kinds tgff.now.graphs) }
{
    let mut kinds = Vec::new(alloc);
    let graphs = tgff.graphs.list();
    for graph in graphs {
        put_task_kinds(&mut kinds, graph.tasks.list())?;
    }
    Ok(kinds)
}

/// The types of the messages that the arcs of a file are, in their order.
pub fn message_kinds(alloc: Global, tgff: &Tgff) -> Result<Vec<Option<u64>>, AllocError>
    ensures { IfOk result (λ kinds. kinds.items ≡ message_kinds tgff.now.graphs) }
{
    let mut kinds = Vec::new(alloc);
    let graphs = tgff.graphs.list();
    for graph in graphs {
        put_arc_kinds(&mut kinds, graph.arcs.list())?;
    }
    Ok(kinds)
}
