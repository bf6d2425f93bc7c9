//! Tasks that are gathered, each once.

ghost use Rattle.std.specs.Prelude.{◌≡◌, ◌<◌, [], All, map, IfOk, OnOk};
ghost use Rattle.spec_model.specs.Limits.{most_tasks};
ghost use Rattle.spec_graph.specs.Lists.{task_number};
ghost use Rattle.spec_graph.specs.Merged.{with_once, with_all_once};

use crate::numbers::TaskNo;
use std::alloc::{AllocError, Global};
use std::marker::Model;
use task_order::TaskSet;

/// Tasks, each once, seen as their numbers in the order in which they came.
#[derive(Drop)]
pub struct Gathered {
    tasks: Vec<TaskNo>,
    seen: TaskSet,
}

impl Model for Gathered {
    ghost use Rattle.std.specs.Prelude.{List, ℕ, map};
    ghost use Rattle.spec_graph.specs.Lists.{task_number};

    ghost Value = { List ℕ };

    ghost view = { λ g. map task_number g.tasks.items };

    ghost use Rattle.spec_graph.specs.Marks.{IsSetOf};

    ghost invariant = { λ g. IsSetOf (map task_number g.tasks.items) g.seen };
}

impl Gathered {
    /// No tasks.
    pub fn none(alloc: Global) -> Result<Gathered, AllocError>
        ensures { IfOk result (λ g. g ≡ []) }
    {
        let seen = TaskSet::none(alloc)?;
        Ok(Gathered {
            tasks: Vec::new(alloc),
            seen,
        })
    }

    /// Adds a task, where it isn't there yet.
    pub fn add(&mut self, task: TaskNo) -> Result<(), AllocError>
        requires { task.0 < most_tasks }
        ensures { OnOk result (self.new ≡ with_once self.old task.0) }
    {
        if self.seen.has(task.0 as usize) {
            return Ok(());
        }
        self.tasks.push(task)?;
        self.seen.insert(task.0 as usize);
        Ok(())
    }

    /// Adds those of the tasks that aren't there yet.
    pub fn add_all(&mut self, tasks: &[TaskNo]) -> Result<(), AllocError>
        requires { All (λ t. t.0 < most_tasks) tasks.now }
        ensures { OnOk result (self.new ≡ with_all_once self.old (map task_number tasks.now)) }
    {
        for task in tasks {
            self.add(*task)?;
        }
        Ok(())
    }

    /// The tasks in the order in which they came.
    pub fn into_tasks(self) -> Vec<TaskNo>
        ensures { map task_number result.items ≡ self }
    {
        self.tasks
    }
}
