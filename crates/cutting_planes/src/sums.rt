//! The terms of a sum: two lists in the order of their variables, merged into one.

ghost use Rattle.std.specs.Prelude.{◌≡◌, ◌<◌, ◌≤◌, ◌+◌, ◌^◌, IfOk, OnOk, ◌++◌};
ghost use Rattle.pb_rules.specs.Linear.{total};
ghost use Rattle.pb_rules.specs.CuttingPlanes.{merge, joined, nothing};

use pb_constraints::Term;
use std::alloc::{AllocError, Global};

/// The terms of a sum, and what was cancelled in it.
#[derive(Drop, Debug)]
pub struct Merged {
    pub terms: Vec<Term>,
    pub cancelled: u64,
}

/// Merges two lists of terms in the order of their variables.
pub fn merge_terms(alloc: Global, xs: &[Term], ys: &[Term]) -> Result<Merged, AllocError>
    requires small_xs { total xs.now < 2 ^ 63 }
    requires small_ys { total ys.now < 2 ^ 63 }
    ensures terms { IfOk result (λ m. m.terms.items ≡ (merge xs.now ys.now).terms) }
    ensures cancelled { IfOk result (λ m. m.cancelled ≡ (merge xs.now ys.now).cancelled) }
{
    let mut out = Merged {
        terms: Vec::new(alloc),
        cancelled: 0,
    };
    let mut i = 0usize;
    let mut j = 0usize;
    while i < xs.len() && j < ys.len() {
        let x = xs[i];
        let y = ys[j];
        if x.lit.var() < y.lit.var() {
            out.terms.push(x)?;
            i += 1;
        } else if y.lit.var() < x.lit.var() {
            out.terms.push(y)?;
            j += 1;
        } else {
            add_joined(x, y, &mut out)?;
            i += 1;
            j += 1;
        }
    }
    out.terms.extend_from_slice(&xs[i..])?;
    out.terms.extend_from_slice(&ys[j..])?;
    Ok(out)
}

/// Adds what two terms of one variable give.
fn add_joined(x: Term, y: Term, out: &mut Merged) -> Result<(), AllocError>
    requires sum { x.coef + y.coef < 2 ^ 64 }
    requires room { out.old.cancelled + x.coef < 2 ^ 64 }
    ensures terms { OnOk result (out.new.terms.items ≡ out.old.terms.items ++ (joined x y nothing).terms) }
    ensures cancelled { OnOk result (out.new.cancelled ≡ out.old.cancelled + (joined x y nothing).cancelled) }
{
    if x.lit.is_yes() == y.lit.is_yes() {
        out.terms.push(Term {
            coef: x.coef + y.coef,
            lit: y.lit,
        })?;
    } else if x.coef == y.coef {
        out.cancelled += x.coef;
    } else if x.coef < y.coef {
        out.terms.push(Term {
            coef: y.coef - x.coef,
            lit: y.lit,
        })?;
        out.cancelled += x.coef;
    } else {
        out.terms.push(Term {
            coef: x.coef - y.coef,
            lit: x.lit,
        })?;
        out.cancelled += y.coef;
    }
    Ok(())
}
