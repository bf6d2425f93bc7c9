//! One task, one arc or one deadline of a graph.

ghost use Rattle.std.specs.Prelude.{◌≡◌, ◌+◌, ◌<◌, ◌++◌, ◌∷◌, [], length, Contains, OnOk};
ghost use Rattle.spec_model.specs.Limits.{most_tasks, most_messages};
ghost use Rattle.spec_graph.specs.Plan.{with_message};
ghost use Rattle.spec_graph.specs.Refusals.{ClosesCycle};
ghost use Rattle.spec_graph.specs.declared.faults.BuildFault.TheVariants.{NoMemory};
ghost use Rattle.tgff_reader.specs.Facts.{IsName};
ghost use Rattle.graph_plan.specs.Graphs.{task_in, arc_in, planned_message, deadline_of};

use crate::named::name_in;
use arch_reader::at_scale;
use spec_graph::{BuildFault, SpecBuilder, TaskNo};
use spec_model::MOST_NUMBER;
use std::alloc::{AllocError, Global};
use tgff_reader::{TgffArc, TgffDeadline, TgffTask};

/// The hop limit of a message for which none is stated.
const MAX_HOPS: u64 = (1 << 63) - 1;

/// The fault of a call that is refused for want of memory alone.
fn no_memory(fault: BuildFault) -> AllocError
    requires { fault ≡ NoMemory }
{
    match fault {
        BuildFault::NoMemory => AllocError,
        _ => unreachable!(),
    }
}

/// Adds a task of a graph.
pub(crate) fn add_task(
    alloc: Global,
    plan: &mut SpecBuilder,
    index: u64,
    task: &TgffTask,
) -> Result<(), AllocError>
    requires named { IsName task.now.name }
    requires new { Contains plan.old.tasks (task_in index task.now) → ⊥ }
    requires few { length plan.old.tasks < most_tasks }
    ensures { OnOk result (plan.new ≡ record plan.old { tasks = plan.old.tasks ++ task_in index task.now ∷ [] }) }
{
    let name = name_in(alloc, index, task.name.list())?;
    match plan.task(&name) {
        Ok(_) => Ok(()),
        Err(fault) => Err(no_memory(fault)),
    }
}

/// Adds an arc of a graph before whose tasks so many others stand.
pub(crate) fn add_arc(
    alloc: Global,
    plan: &mut SpecBuilder,
    index: u64,
    first: usize,
    arc: &TgffArc,
) -> Result<(), AllocError>
    requires named { IsName arc.now.name }
    requires new { Contains plan.old.message_names (arc_in index arc.now) → ⊥ }
    requires from { first + arc.now.from < length plan.old.tasks }
    requires to { first + arc.now.to < length plan.old.tasks }
    requires free { ClosesCycle plan.old (planned_message first arc.now) → ⊥ }
    requires few { length plan.old.messages < most_messages }
    ensures { OnOk result (plan.new ≡ with_message plan.old (arc_in index arc.now) (planned_message first arc.now)) }
{
    let name = name_in(alloc, index, arc.name.list())?;
    plan.facts();
    let from = TaskNo((first + arc.from) as u32);
    let to = TaskNo((first + arc.to) as u32);
    match plan.message(&name, from, &[to], MAX_HOPS, 0, 1) {
        Ok(_) => Ok(()),
        Err(fault) => Err(no_memory(fault)),
    }
}

/// Adds a deadline of a graph before whose tasks so many others stand.
pub(crate) fn add_deadline(
    plan: &mut SpecBuilder,
    clock: u64,
    first: usize,
    deadline: &TgffDeadline,
) -> Result<(), AllocError>
    requires task { first + deadline.now.task < length plan.old.tasks }
    ensures { OnOk result (plan.new ≡ record plan.old { deadlines = plan.old.deadlines ++ deadline_of clock first deadline.now ∷ [] }) }
{
    plan.facts();
    let task = TaskNo((first + deadline.task) as u32);
    let time = at_scale(clock, deadline.at).min(u128::from(MOST_NUMBER)) as u64;
    match plan.deadline(task, time) {
        Ok(()) => Ok(()),
        Err(fault) => Err(no_memory(fault)),
    }
}
