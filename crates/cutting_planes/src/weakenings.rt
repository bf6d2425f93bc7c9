//! Weakening by several variables in one pass, where the variables don't fall: a line that weakens a constraint names
//! most of its variables, in their order, and one by one each would go over the terms again.

ghost use Rattle.std.specs.Prelude.{◌≡◌, IfOk};
ghost use Rattle.std.specs.List.Sorted.{IsNonDecreasing};
ghost use Rattle.pb_rules.specs.Linear.{IsNormal};
ghost use Rattle.cutting_planes.specs.Weakened.{linear, weaken_each};

use pb_constraints::{Constraint, Term};
use std::alloc::{AllocError, Global};

/// The terms and the degree that are left.
#[derive(Drop)]
struct Left {
    terms: Vec<Term>,
    degree: u64,
}

/// Leaves the terms of variables out, and takes their coefficients from a degree.
fn leave_out(alloc: Global, terms: &[Term], degree: u64, vars: &[u64]) -> Result<Left, AllocError>
    requires normal { IsNormal terms.now degree }
    requires rising { IsNonDecreasing vars.now }
    ensures { IfOk result (λ l. linear l.terms.items l.degree ≡ weaken_each vars.now (linear terms.now degree)) }
{
    let mut left = Left {
        terms: Vec::new(alloc),
        degree,
    };
    let mut i = 0usize;
    let mut j = 0usize;
    while i < terms.len() && j < vars.len() {
        let t = terms[i];
        if t.lit.var() < vars[j] {
            left.terms.push(t)?;
            i += 1;
        } else if vars[j] < t.lit.var() {
            j += 1;
        } else {
            left.degree = left.degree.saturating_sub(t.coef);
            i += 1;
            j += 1;
        }
    }
    left.terms.extend_from_slice(&terms[i..])?;
    Ok(left)
}

/// Weakening by each of several variables, of which none is below the one before it, in one pass over the terms. It is
/// refused only for want of memory.
pub fn weaken_each(alloc: Global, a: &Constraint, vars: &[u64]) -> Result<Constraint, AllocError>
    requires { IsNonDecreasing vars.now }
    ensures { IfOk result (λ c. c ≡ weaken_each vars.now a.now) }
{
    let left = leave_out(alloc, a.terms(), a.degree(), vars)?;
    Ok(Constraint::of_normal(left.terms, left.degree))
}
