//! Sets of tasks, as a truth value for each task.

ghost use Rattle.std.specs.Prelude.{◌≡◌, ℕ, ◌<◌, ◌||◌, ◌==◌, false, IfOk};
ghost use Rattle.spec_model.specs.Limits.{most_tasks};
ghost use Rattle.task_order.specs.Order.{is_in};

use spec_model::MOST_TASKS;
use std::alloc::{AllocError, Global};
use std::marker::Model;

/// A set of tasks with numbers below 1,024.
#[derive(Drop)]
pub struct TaskSet {
    bits: Vec<bool>,
}

impl Model for TaskSet {
    ghost use Rattle.std.specs.Prelude.{◌≡◌, List, Bool, length};
    ghost use Rattle.spec_model.specs.Limits.{most_tasks};

    ghost Value = { List Bool };

    ghost view = { λ s. s.bits.items };

    ghost invariant = { λ s. length s.bits.items ≡ most_tasks };
}

impl TaskSet {
    /// No tasks.
    pub fn none(alloc: Global) -> Result<TaskSet, AllocError>
        ensures { IfOk result (λ set. (t : ℕ) → is_in set t ≡ false) }
    {
        let mut bits = Vec::new(alloc);
        for _ in 0..MOST_TASKS {
            bits.push(false)?;
        }
        Ok(TaskSet { bits })
    }

    /// Whether a task is in the set.
    pub fn has(&self, task: usize) -> bool
        requires { task < most_tasks }
        ensures { result ≡ is_in self.now task }
    {
        self.bits[task]
    }

    /// Puts a task into the set.
    pub fn insert(&mut self, task: usize)
        requires { task < most_tasks }
        ensures { (t : ℕ) → is_in self.new t ≡ (is_in self.old t || (t == task)) }
    {
        self.bits[task] = true;
    }

    /// Puts all tasks of another set into the set.
    pub fn insert_all(&mut self, other: &TaskSet)
        ensures { (t : ℕ) → is_in self.new t ≡ (is_in self.old t || is_in other.now t) }
    {
        for task in 0..MOST_TASKS {
            if other.bits[task] {
                self.bits[task] = true;
            }
        }
    }
}
