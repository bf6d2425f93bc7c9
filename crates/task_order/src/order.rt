//! The table of which tasks come after which.

ghost use Rattle.std.specs.Prelude.{◌≡◌, ℕ, ◌+◌, ◌<◌, ◌≤◌, ◌||◌, ◌&&◌, ◌==◌, [], length, OnOk, OnErr};
ghost use Rattle.spec_model.specs.Limits.{most_tasks};
ghost use Rattle.task_order.specs.Order.{is_in, comes_after, is_gathered, is_joined};

use crate::task_set::TaskSet;
use std::alloc::{AllocError, Global};
use std::marker::Model;

/// For each of the tasks, the set of the tasks that come after it.
#[derive(Drop)]
pub struct TaskOrder {
    rows: Vec<TaskSet>,
}

impl Model for TaskOrder {
    ghost use Rattle.std.specs.Prelude.{List, Bool};

    ghost Value = { List (List Bool) };

    ghost view = { λ o. o.rows.items };
}

impl TaskOrder {
    /// The order of no tasks. It takes no memory.
    pub fn new(alloc: Global) -> TaskOrder
        ensures { result ≡ [] }
    {
        TaskOrder {
            rows: Vec::new(alloc),
        }
    }

    /// Makes room for a further task, before which and after which no task comes, where there is none. Where memory
    /// runs out, the table is as before.
    pub fn make_room(&mut self, alloc: Global, tasks: usize) -> Result<(), AllocError>
        requires { tasks ≤ length self.old + 1 }
        ensures room { OnOk result (tasks ≤ length self.new) }
        ensures kept { length self.old ≤ length self.new }
        ensures same { (a b : ℕ) → comes_after self.new a b ≡ comes_after self.old a b }
        ensures err { OnErr result (self.new ≡ self.old) }
    {
        if tasks > self.rows.len() {
            let row = TaskSet::none(alloc)?;
            self.rows.push(row)?;
        }
        Ok(())
    }

    /// Puts a task and all that come after it into a set.
    pub fn gather(&self, set: &mut TaskSet, task: usize)
        requires there { task < length self.now }
        requires few { task < most_tasks }
        ensures { (b : ℕ) → is_in set.new b ≡ is_gathered self.now set.old task b }
    {
        set.insert_all(&self.rows[task]);
        set.insert(task);
    }

    /// The tasks of the set come after the sender, and after each task that the sender comes after.
    pub fn join(&mut self, sender: usize, after: &TaskSet)
        requires there { sender < length self.old }
        requires few { sender < most_tasks }
        ensures kept { length self.new ≡ length self.old }
        ensures joined { (a b : ℕ) → comes_after self.new a b ≡ is_joined self.old sender after.now a b }
    {
        for task in 0..self.rows.len() {
            let row = &mut self.rows[task];
            join_row(row, task, sender, after);
        }
    }
}

/// Whether a task, with the set of those after it, is the sender or comes before it.
fn leads_to(row: &TaskSet, task: usize, sender: usize) -> bool
    requires { sender < most_tasks }
    ensures { result ≡ ((task == sender) || is_in row.now sender) }
{
    if task == sender {
        return true;
    }
    row.has(sender)
}

/// The tasks of the set come after the task, where it is the sender or comes before it.
fn join_row(row: &mut TaskSet, task: usize, sender: usize, after: &TaskSet)
    requires { sender < most_tasks }
    ensures { (b : ℕ) → is_in row.new b ≡ (is_in row.old b || (((task == sender) || is_in row.old sender) && is_in after.now b)) }
{
    if leads_to(row, task, sender) {
        row.insert_all(after);
    }
}
