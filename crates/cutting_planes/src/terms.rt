//! What the rules do to the terms of one constraint.

ghost use Rattle.std.specs.Prelude.{ℕ, All, ◌≡◌, ◌≢◌, ◌<◌, ◌*◌, ◌^◌, IfOk, IfSome, IfNone, map, length, slice_index_or};
ghost use Rattle.pb_rules.specs.Linear.{total};
ghost use Rattle.pb_rules.specs.CuttingPlanes.{cut, divided, multiplied};
ghost use Rattle.pb_rules.specs.declared.Term.{Term};

use pb_constraints::Term;
use std::alloc::{AllocError, Global};

/// The sum of the coefficients.
pub fn coefficient_sum(terms: &[Term]) -> u64
    requires { total terms.now < 2 ^ 64 }
    ensures { result ≡ total terms.now }
{
    let mut sum = 0u64;
    for t in terms {
        sum += t.coef;
    }
    sum
}

/// Multiplies the coefficients.
pub fn multiplied_by(alloc: Global, terms: &[Term], factor: u64) -> Result<Vec<Term>, AllocError>
    requires { factor * total terms.now < 2 ^ 64 }
    ensures { IfOk result (λ v. v.items ≡ map (multiplied factor) terms.now) }
{
    let mut out = Vec::new(alloc);
    for t in terms {
        out.push(Term {
            coef: factor * t.coef,
            lit: t.lit,
        })?;
    }
    Ok(out)
}

/// Divides the coefficients, rounded up.
pub fn divided_by(alloc: Global, terms: &[Term], divisor: u64) -> Result<Vec<Term>, AllocError>
    requires { 0 < divisor }
    ensures { IfOk result (λ v. v.items ≡ map (divided divisor) terms.now) }
{
    let mut out = Vec::new(alloc);
    for t in terms {
        out.push(Term {
            coef: t.coef.div_ceil(divisor),
            lit: t.lit,
        })?;
    }
    Ok(out)
}

/// Cuts coefficients down to the degree.
pub fn cut_down(alloc: Global, terms: &[Term], degree: u64) -> Result<Vec<Term>, AllocError>
    ensures { IfOk result (λ v. v.items ≡ cut degree terms.now) }
{
    let mut out = Vec::new(alloc);
    for t in terms {
        let coef = t.coef.min(degree);
        if coef > 0 {
            out.push(Term { coef, lit: t.lit })?;
        }
    }
    Ok(out)
}

/// The place of the first term of a variable.
pub fn place_of(terms: &[Term], var: u64) -> Option<usize>
    ensures found { IfSome result (λ p. (d : Term) → (slice_index_or terms.now p d).lit.var ≡ var) }
    ensures in_range { IfSome result (λ p. p < length terms.now) }
    ensures first { IfSome result (λ p. (k : ℕ) (d : Term) → k < p → (slice_index_or terms.now k d).lit.var ≢ var) }
    ensures none { IfNone result (All (λ t. t.lit.var ≢ var) terms.now) }
{
    for i in 0..terms.len() {
        if terms[i].lit.var() == var {
            return Some(i);
        }
    }
    None
}
