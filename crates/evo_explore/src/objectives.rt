//! The linear objectives of a specification.
//!
//! The weights of all design variables are laid out once for a run. So the numbers of a round's design are added up a
//! group of variables at a time, and no weight is looked up again.

ghost use Rattle.std.specs.Prelude.{◌≡◌, ◌<◌, ℕ, IfOk, length};
ghost use Rattle.spec_model.specs.Spec.{SpecValue, bits_of, design_variables};
ghost use Rattle.spec_model.specs.Vectors.{vector_at, vector_of};
ghost use Rattle.evo_explore.specs.Objectives.{laid_out, all_laid_out};

use dominance_lanes::weighted_sum;
use impl_rules::Design;
use spec_graph::Spec;
use std::alloc::{AllocError, Global};
use std::marker::Model;

/// The weights that an objective gives the design variables, by their numbers. Together they are below 2^63.
#[derive(Drop)]
struct Objective {
    weights: Vec<u64>,
}

impl Model for Objective {
    ghost use Rattle.std.specs.Prelude.{◌<◌, ◌^◌, List, ℕ, sum};

    ghost Value = { List ℕ };

    ghost view = { λ o. o.weights.items };

    ghost invariant = { λ o. sum o.weights.items < 2 ^ 63 };
}

impl Objective {
    /// The weights of objective `j`.
    fn of(alloc: Global, spec: &Spec, j: usize) -> Result<Objective, AllocError>
        requires { j < length spec.now.objectives }
        ensures { IfOk result (λ o. o ≡ laid_out spec.now j) }
    {
        let mut weights = Vec::new(alloc);
        for v in 0..spec.design_variables() {
            weights.push(spec.weight(j, v))?;
        }
        Ok(Objective { weights })
    }

    /// The objective's number of a design: the weights of its true variables, added up.
    fn number(&self, design: &Design) -> u64
        requires { length design.now ≡ length self.now }
        ensures { (s : SpecValue) (j : ℕ) → self.now ≡ laid_out s j → result ≡ vector_at s (bits_of design.now) j }
    {
        weighted_sum(design.bytes(), &self.weights)
    }
}

/// The weights of all design variables for each objective of a specification.
#[derive(Drop)]
pub(crate) struct LinearObjectives {
    weights: Vec<Objective>,
}

impl Model for LinearObjectives {
    ghost use Rattle.std.specs.Prelude.{List, ℕ};

    ghost Value = { List (List ℕ) };

    ghost view = { λ o. o.weights.items };
}

impl LinearObjectives {
    /// The weights of a specification's objectives.
    #[tactic(auto, using(spec_model::proofs::Those::map_steps))]
    pub(crate) fn of(alloc: Global, spec: &Spec) -> Result<LinearObjectives, AllocError>
        ensures { IfOk result (λ o. o ≡ all_laid_out spec.now) }
    {
        let mut weights = Vec::new(alloc);
        for j in 0..spec.objectives() {
            let objective = Objective::of(alloc, spec, j)?;
            weights.push(objective)?;
        }
        Ok(LinearObjectives { weights })
    }

    /// The numbers of a design, one for each objective.
    #[tactic(auto, using(spec_model::proofs::Those::map_steps))]
    pub(crate) fn numbers_of(
        &self,
        alloc: Global,
        spec: &Spec,
        design: &Design,
    ) -> Result<Vec<u64>, AllocError>
        requires bits { length design.now ≡ design_variables spec.now }
        requires laid_out { self.now ≡ all_laid_out spec.now }
        ensures { IfOk result (λ numbers. numbers.items ≡ vector_of spec.now (bits_of design.now)) }
    {
        let mut numbers = Vec::new(alloc);
        for j in 0..spec.objectives() {
            numbers.push(self.weights[j].number(design))?;
        }
        Ok(numbers)
    }
}
