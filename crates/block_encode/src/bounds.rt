//! The constraints of a block, each in normal form as it is written.

ghost use Rattle.std.specs.Prelude.{◌≡◌, ◌<◌, ◌≤◌, ◌^◌, length, IfOk};
ghost use Rattle.encode_model.specs.Block.{total_weight, below_var, below_somewhere, below_number};

use crate::weights::{unused_terms, weight_sum};
use pb_constraints::Constraint;
use pb_rules::{Lit, Term};
use spec_graph::Spec;
use std::alloc::{AllocError, Global};

/// The block's variable for an objective. The variables of the blocks follow those of the encoding.
fn below_var(spec: &Spec, cover_no: u64, j: usize) -> u64
    requires objective { j < length spec.now.objectives }
    requires from_one { 1 ≤ cover_no }
    requires few { cover_no < 2 ^ 58 }
    ensures variable { result ≡ below_var spec.now cover_no j }
    ensures small { result < 2 ^ 62 }
{
    spec.all_variables() + (cover_no - 1) * spec.objectives() as u64 + j as u64
}

/// Some variable of the block is true.
pub fn below_somewhere(alloc: Global, spec: &Spec, cover_no: u64) -> Result<Constraint, AllocError>
    requires from_one { 1 ≤ cover_no }
    requires few { cover_no < 2 ^ 58 }
    ensures { IfOk result (λ c. c ≡ below_somewhere spec.now cover_no) }
{
    spec.facts();
    let mut terms = Vec::new(alloc);
    for j in 0..spec.objectives() {
        terms.push(Term {
            coef: 1,
            lit: Lit::yes(below_var(spec, cover_no, j)),
        })?;
    }
    Ok(Constraint::of_normal(terms, 1))
}

/// Where the block's variable for an objective is true, the objective is below a number.
pub fn below_number(
    alloc: Global,
    spec: &Spec,
    cover_no: u64,
    j: usize,
    number: u64,
) -> Result<Constraint, AllocError>
    requires objective { j < length spec.now.objectives }
    requires within { number ≤ total_weight spec.now j }
    requires from_one { 1 ≤ cover_no }
    requires few { cover_no < 2 ^ 58 }
    ensures { IfOk result (λ c. c ≡ below_number spec.now cover_no j number) }
{
    spec.facts();
    let gap = weight_sum(spec, j) - number + 1;
    let mut terms = unused_terms(alloc, spec, j)?;
    terms.push(Term {
        coef: gap,
        lit: Lit::no(below_var(spec, cover_no, j)),
    })?;
    Ok(Constraint::of_normal(terms, gap))
}
