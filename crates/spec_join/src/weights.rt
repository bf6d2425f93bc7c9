//! The weights that the words `OBJ=D` of a statement set.

ghost use Rattle.std.specs.Prelude.{◌≡◌, ◌<◌, ◌≤◌, length, replicate, IfOk, All};
ghost use Rattle.spec_model.specs.Limits.{most_number};
ghost use Rattle.names.specs.Names.{number_by_name};
ghost use Rattle.spec_join.specs.Joining.{weight_of, no_weights, weights_of};
ghost use Rattle.spec_join.specs.Fits.{IsWeighable, AreWeighable};

use crate::joiner::Joiner;
use arch_reader::{KeyAmount, at_scale};
use std::alloc::AllocError;

/// A weight for an objective.
#[derive(Clone, Copy)]
pub(crate) struct Weight {
    pub objective: usize,
    pub value: u64,
}

impl Joiner<'_> {
    /// An amount as a weight for an objective.
    pub(crate) fn weight_for(&self, objective: &str, amount: i128) -> Weight
        requires { IsWeighable self.now.plan.objectives self.now.scales (record { key = objective.now; amount = amount }) }
        ensures objective { result.objective ≡ number_by_name self.now.plan.objectives objective.now }
        ensures there { result.objective < length self.now.plan.objectives }
        ensures value { result.value ≡ weight_of self.now.scales (number_by_name self.now.plan.objectives objective.now) amount }
        ensures small { result.value ≤ most_number }
    {
        match self.plan.find_objective(objective) {
            Some(number) => Weight {
                objective: number,
                value: at_scale(self.scales[number], amount) as u64,
            },
            None => unreachable!(),
        }
    }

    /// The weight that a word states.
    pub(crate) fn weight(&self, word: &KeyAmount) -> Weight
        requires { IsWeighable self.now.plan.objectives self.now.scales word.now }
        ensures objective { result.objective ≡ number_by_name self.now.plan.objectives word.now.key }
        ensures there { result.objective < length self.now.plan.objectives }
        ensures value { result.value ≡ weight_of self.now.scales (number_by_name self.now.plan.objectives word.now.key) word.now.amount }
        ensures small { result.value ≤ most_number }
    {
        self.weight_for(word.key.list(), word.amount)
    }

    /// A weight of 0 for each objective.
    pub(crate) fn no_weights(&self) -> Result<Vec<u64>, AllocError>
        ensures value { IfOk result (λ row. row.items ≡ no_weights self.now) }
        ensures one_each { IfOk result (λ row. length row.items ≡ length self.now.plan.objectives) }
        ensures small { IfOk result (λ row. All (λ w. w ≤ most_number) row.items) }
    {
        let mut row = Vec::new(self.alloc);
        for _ in 0..self.plan.objectives() {
            row.push(0)?;
        }
        Ok(row)
    }

    /// The weights that words state, one for each objective.
    pub(crate) fn weights_of(&self, words: &[KeyAmount]) -> Result<Vec<u64>, AllocError>
        requires { AreWeighable self.now words.now }
        ensures value { IfOk result (λ row. row.items ≡ weights_of self.now words.now) }
        ensures one_each { IfOk result (λ row. length row.items ≡ length self.now.plan.objectives) }
        ensures small { IfOk result (λ row. All (λ w. w ≤ most_number) row.items) }
    {
        let mut row = self.no_weights()?;
        for word in words {
            let weight = self.weight(word);
            row[weight.objective] = weight.value;
        }
        Ok(row)
    }
}
