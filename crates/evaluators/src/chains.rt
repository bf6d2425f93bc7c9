//! The depths of tasks, and the order in which tasks are placed.

ghost use Rattle.std.specs.Prelude.{◌≡◌, ℕ, ◌<◌, ◌≤◌, ◌++◌, false, length, slice_index_or, All, IfOk, OnOk, ◌^◌, if◌then◌else◌};
ghost use Rattle.spec_model.specs.Spec.{SpecValue};
ghost use Rattle.spec_model.specs.Schedule.{tasks_of_depth, placing as placed_tasks};
ghost use Rattle.evaluators.specs.Marks.{AreDepths, is_marked, is_sent_to, IsBelow};

use crate::receiving::mark_each;
use spec_graph::{MsgNo, Spec};
use std::alloc::{AllocError, Global};

/// Marks the tasks that receive a message from a marked one.
fn marked_receivers(alloc: Global, spec: &Spec, marks: &[bool]) -> Result<Vec<bool>, AllocError>
    requires { length marks.now ≡ length spec.now.tasks }
    ensures each { IfOk result (λ next. length next.items ≡ length spec.now.tasks) }
    ensures marked { IfOk result (λ next. (t : ℕ) → is_marked next.items t ≡ is_sent_to spec.now marks.now (length spec.now.messages) t) }
{
    spec.facts();
    let mut next = vec![in alloc; false; spec.tasks()]?;
    for m in 0..spec.messages() as u32 {
        if marks[spec.sender(MsgNo(m)).0 as usize] {
            mark_each(&mut next, spec.receivers(MsgNo(m)));
        }
    }
    Ok(next)
}

/// Gives each marked task the depth `n`.
fn deepen(depths: &mut [u64], marks: &[bool], n: u64)
    requires { length marks.now ≡ length depths.old }
    ensures marked { (t : ℕ) → t < length depths.old → slice_index_or depths.new t 0 ≡ (if is_marked marks.now t then n else slice_index_or depths.old t 0) }
    ensures len { length depths.new ≡ length depths.old }
{
    for t in 0..depths.len() {
        if marks[t] {
            depths[t] = n;
        }
    }
}

/// The depth of each task: the greatest number of messages on a chain that ends at it.
fn depths_of(alloc: Global, spec: &Spec) -> Result<Vec<u64>, AllocError>
    ensures { IfOk result (λ depths. AreDepths spec.now depths.items) }
{
    spec.facts();
    let mut depths = vec![in alloc; 0; spec.tasks()]?;
    let mut marks = vec![in alloc; true; spec.tasks()]?;
    for n in 0..spec.tasks() as u64 {
        deepen(&mut depths, &marks, n);
        marks = marked_receivers(alloc, spec, &marks)?;
    }
    Ok(depths)
}

/// Adds the tasks of a depth to a list, by their numbers.
fn add_of_depth(order: &mut Vec<u32>, depths: &[u64], d: u64) -> Result<(), AllocError>
    requires { length depths.now < 2 ^ 32 }
    ensures added { OnOk result ((s : SpecValue) → AreDepths s depths.now → order.new.items ≡ order.old.items ++ tasks_of_depth s d) }
    ensures tasks { All (IsBelow (length depths.now)) order.old.items → All (IsBelow (length depths.now)) order.new.items }
{
    for t in 0..depths.len() as u32 {
        if depths[t as usize] == d {
            order.push(t)?;
        }
    }
    Ok(())
}

/// The tasks in the order in which they are placed.
pub(crate) fn placing(alloc: Global, spec: &Spec) -> Result<Vec<u32>, AllocError>
    ensures order { IfOk result (λ order. order.items ≡ placed_tasks spec.now) }
    ensures tasks { IfOk result (λ order. All (IsBelow (length spec.now.tasks)) order.items) }
    ensures few { IfOk result (λ order. length order.items ≤ length spec.now.tasks) }
{
    let depths = depths_of(alloc, spec)?;
    let mut order = Vec::new(alloc);
    for d in 0..spec.tasks() as u64 {
        add_of_depth(&mut order, &depths, d)?;
    }
    Ok(order)
}
