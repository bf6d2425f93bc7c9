//! What a specification keeps of a deadline and of a list of weights.

ghost use Rattle.std.specs.Prelude.{◌≡◌, ◌<◌, ◌↔◌, IsTrue, IfOk, length, slice_index_or, slice_set};
ghost use Rattle.spec_model.specs.Vectors.{weight_in};
ghost use Rattle.spec_graph.specs.Refusals.{HasBig, HasBigTimes};

use crate::numbers::TaskNo;
use spec_model::MOST_NUMBER;
use std::alloc::{AllocError, Global};
use std::marker::Model;

/// What is kept of a deadline.
#[derive(Clone, Copy)]
pub struct Deadline {
    pub task: TaskNo,
    pub time: u64,
}

impl Model for Deadline {
    ghost use Rattle.spec_model.specs.Spec.{Deadline as DeadlineValue};

    ghost Value = { DeadlineValue };

    ghost view = { λ d. record { task = d.task.0; time = d.time } };

    ghost inverse = { λ d. record { task = record { 0 = d.task }; time = d.time } };
}

/// The weights of an item, one for each objective.
#[derive(Drop)]
pub struct Weights {
    numbers: Vec<u64>,
}

impl Model for Weights {
    ghost use Rattle.std.specs.Prelude.{List, ℕ};

    ghost Value = { List ℕ };

    ghost view = { λ w. w.numbers.items };
}

impl Weights {
    /// A copy of the numbers.
    pub fn of(alloc: Global, numbers: &[u64]) -> Result<Weights, AllocError>
        ensures { IfOk result (λ weights. weights ≡ numbers.now) }
    {
        let numbers = Vec::from_slice(alloc, numbers)?;
        Ok(Weights { numbers })
    }

    /// Whether one of the numbers times the quantity is above the greatest number.
    pub fn has_big_times(&self, quantity: u64) -> bool
        ensures { IsTrue result ↔ HasBigTimes self.now quantity }
    {
        for weight in &self.numbers {
            if *weight as u128 * quantity as u128 > MOST_NUMBER as u128 {
                return true;
            }
        }
        false
    }

    /// The weight of objective `j`, or 0 where there is none.
    pub fn get(&self, j: usize) -> u64
        ensures { result ≡ slice_index_or self.now j 0 }
    {
        match self.numbers.get(j) {
            Some(weight) => *weight,
            None => 0,
        }
    }

    /// Sets the weight of objective `j`.
    pub fn set(&mut self, j: usize, weight: u64)
        requires { j < length self.old }
        ensures { self.new ≡ slice_set self.old j weight }
    {
        self.numbers[j] = weight;
    }
}

/// Weight `j` of row `i`, or 0 where there is none.
pub fn weight_in(rows: &[Weights], j: usize, i: usize) -> u64
    ensures { result ≡ weight_in rows.now j i }
{
    match rows.get(i) {
        Some(row) => row.get(j),
        None => 0,
    }
}

/// Whether one of the numbers is above the greatest.
pub fn has_big(numbers: &[u64]) -> bool
    ensures { IsTrue result ↔ HasBig numbers.now }
{
    numbers.iter().any(|n| *n > MOST_NUMBER)
}
