//! The options of a plan, and which pairs of a task and a resource have one.

ghost use Rattle.std.specs.Prelude.{◌≡◌, ◌<◌, ◌++◌, ◌∷◌, [], ◌↔◌, IsTrue, Any, length, map, slice_index_or, OnOk, OnErr};
ghost use Rattle.spec_graph.specs.Lists.{choice_value};
ghost use Rattle.spec_graph.specs.Refusals.{IsOfPair};

use crate::numbers::{Choice, ResNo, TaskNo};
use indexmap::IndexSet;
use std::alloc::{AllocError, Global};
use std::marker::Model;

/// Options, no two of one task and one resource, seen as their list. Their pairs stand beside them, so that a pair is
/// found without a look at all options.
#[derive(Drop)]
pub struct Choices {
    list: Vec<Choice>,
    pairs: IndexSet<(u32, u32)>,
}

impl Model for Choices {
    ghost use Rattle.std.specs.Prelude.{◌≡◌, List, map};
    ghost use Rattle.spec_graph.specs.Lists.{choice_pair};
    ghost use Rattle.spec_graph.specs.declared.numbers.Choice.{Choice};

    ghost Value = { List Choice };

    ghost view = { λ c. c.list.items };

    ghost invariant = { λ c. c.pairs.keys ≡ map choice_pair c.list.items };
}

impl Choices {
    /// No options. It takes no memory.
    pub(crate) fn none(alloc: Global) -> Choices
        ensures { result ≡ [] }
    {
        Choices {
            list: Vec::new(alloc),
            pairs: IndexSet::new(alloc),
        }
    }

    /// How many options there are.
    pub(crate) fn len(&self) -> usize
        ensures { result ≡ length self.now }
    {
        self.list.len()
    }

    /// All options, in their order.
    pub(crate) fn list(&self) -> &[Choice]
        ensures { result.now ≡ self.now }
    {
        &self.list
    }

    /// The option at a place.
    pub(crate) fn at(&self, i: usize) -> Choice
        requires { i < length self.now }
        ensures { result ≡ slice_index_or self.now i result }
    {
        self.list[i]
    }

    /// Whether the task is mapped to the resource.
    pub(crate) fn has(&self, task: TaskNo, resource: ResNo) -> bool
        ensures { IsTrue result ↔ Any (IsOfPair task.0 resource.0) (map choice_value self.now) }
    {
        self.pairs.contains(&(task.0, resource.0))
    }

    /// Adds an option whose task isn't mapped to its resource yet.
    pub(crate) fn push(&mut self, choice: Choice) -> Result<(), AllocError>
        requires { Any (IsOfPair choice.task.0 choice.resource.0) (map choice_value self.old) → ⊥ }
        ensures added { OnOk result (self.new ≡ self.old ++ choice ∷ []) }
        ensures err { OnErr result (self.new ≡ self.old) }
    {
        self.list.reserve(1)?;
        self.pairs.insert((choice.task.0, choice.resource.0))?;
        self.list.push_reserved(choice);
        Ok(())
    }
}
