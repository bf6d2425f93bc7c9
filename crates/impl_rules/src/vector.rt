//! The vector of a design.

ghost use Rattle.std.specs.Prelude.{◌≡◌, ◌<◌, ◌^◌, IfOk, length};
ghost use Rattle.spec_model.specs.Spec.{bits_of, design_variables};
ghost use Rattle.spec_model.specs.Vectors.{vector_at as number_at, vector_of as numbers_of};

use crate::Design;
use spec_graph::Spec;
use std::alloc::{AllocError, Global};

/// Number `j` of the vector of a design: the weights that objective `j` gives its true variables, added up.
#[tactic(auto, unfolding(spec_model::specs::Vectors::vector_at))]
pub fn vector_at(spec: &Spec, design: &Design, j: usize) -> u64
    requires bits { length design.now ≡ design_variables spec.now }
    requires objective { j < length spec.now.objectives }
    ensures sum { result ≡ number_at spec.now (bits_of design.now) j }
    ensures small { result < 2 ^ 63 }
{
    let mut sum = 0;
    for v in 0..spec.design_variables() {
        if design.get(v) {
            sum += spec.weight(j, v);
        }
    }
    sum
}

/// The vector of a design: a number for each objective.
#[tactic(auto, using(spec_model::proofs::Those::map_steps))]
pub fn vector_of(alloc: Global, spec: &Spec, design: &Design) -> Result<Vec<u64>, AllocError>
    requires { length design.now ≡ design_variables spec.now }
    ensures { IfOk result (λ vector. vector.items ≡ numbers_of spec.now (bits_of design.now)) }
{
    let mut vector = Vec::new(alloc);
    for j in 0..spec.objectives() {
        vector.push(vector_at(spec, design, j))?;
    }
    Ok(vector)
}
