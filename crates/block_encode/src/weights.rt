//! The weights of an objective: their sum, and those of them that a design can leave unused.

ghost use Rattle.std.specs.Prelude.{◌≡◌, ◌<◌, ◌≤◌, ◌^◌, length, IfOk};
ghost use Rattle.encode_model.specs.Block.{total_weight, unused_terms};

use pb_rules::{Lit, Term};
use spec_graph::Spec;
use std::alloc::{AllocError, Global};

/// The weights of an objective, added up: what no design's number is above. It takes no memory.
#[tactic(auto, unfolding(encode_model::specs::Block::total_weight))]
pub fn weight_sum(spec: &Spec, j: usize) -> u64
    requires { j < length spec.now.objectives }
    ensures sum { result ≡ total_weight spec.now j }
    ensures small { result ≤ 2 ^ 60 }
{
    let mut sum = 0;
    for x in 0..spec.design_variables() {
        sum += spec.weight(j, x);
    }
    sum
}

/// The weights of an objective that are not 0, each with the literal that its variable is false.
pub fn unused_terms(alloc: Global, spec: &Spec, j: usize) -> Result<Vec<Term>, AllocError>
    requires { j < length spec.now.objectives }
    ensures { IfOk result (λ terms. terms.items ≡ unused_terms spec.now j) }
{
    let mut terms = Vec::new(alloc);
    for x in 0..spec.design_variables() {
        let weight = spec.weight(j, x);
        if weight > 0 {
            terms.push(Term {
                coef: weight,
                lit: Lit::no(x),
            })?;
        }
    }
    Ok(terms)
}
