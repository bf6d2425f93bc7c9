//! The rules of cutting planes, on constraints in normal form: the axiom of a literal, sum, positive multiple, division
//! rounded up, saturation and weakening (Cook, Coullard and Turán; with saturation as in Chai and Kuehlmann).
//!
//! Each function answers what the rule's definition in `pb_rules` gives. Only a sum and a multiple can have numbers of
//! 2^63 or more, which no proof may have, and then they say which number it is. The operations of a proof line mean
//! these rules, so whoever replays a proof calls them; the solver writes such lines and needs only the definitions.
//! Here are the rules; `sums` merges the terms of two constraints, `terms` goes over those of one, and `in_place` has
//! division, saturation and weakening once more, of a constraint that is given away.
#![tactic(auto)]

ghost use Rattle.std.specs.Prelude.{ℕ, Bool, ◌≡◌, ◌<◌, ◌^◌, IfOk, OnOk, IfErr, None, Ok};
ghost use Rattle.pb_rules.specs.Literal.{Literal};
ghost use Rattle.pb_rules.specs.Linear.{Linear, Holds, IsNormal, total};
ghost use Rattle.pb_rules.specs.CuttingPlanes.{axiom_of, add, times, divide, saturate, weaken};
ghost use Rattle.pb_rules.specs.Operations.{excess, fits};
ghost use Rattle.cutting_planes.specs.Refusals.{IsRefusal};

mod in_place;
mod sums;
mod terms;
mod weakenings;

pub use in_place::{into_quotient, into_saturated, into_weakened};
use pb_constraints::{Constraint, Lit, Term};
use std::alloc::{AllocError, Global};
use sums::merge_terms;
use terms::{coefficient_sum, cut_down, divided_by, multiplied_by, place_of};
use thiserror::Error;
pub use weakenings::weaken_each;

/// The least number that no proof may have.
const LIMIT: u128 = 1 << 63;

/// Why a rule has no result.
#[derive(Clone, Copy, Debug, PartialEq, Eq, Drop, Error)]
pub enum RuleFault {
    /// The coefficient sum of the result would be this number, of 2^63 or more; or the sum would be smaller, and the
    /// degree this number.
    #[error("{0} is 2^63 or more")]
    TooLarge(u128),
    /// There was no memory.
    #[error("no memory")]
    NoMemory,
}

impl From<AllocError> for RuleFault {
    ghost use Rattle.std.specs.Prelude.{◌≡◌};
    ghost use Rattle.cutting_planes.specs.declared.RuleFault.TheVariants.{NoMemory};

    ghost from_gives = { λ _ e. e ≡ NoMemory };

    fn from(_fault: AllocError) -> RuleFault {
        RuleFault::NoMemory
    }
}

/// Each rule is sound: its result holds under each assignment under which its constraints hold.
pub fn law_of_rules()
    ensures axioms { (v : ℕ → Bool) (l : Literal) → Holds v (axiom_of l) }
    ensures sums { (v : ℕ → Bool) (a b : Linear) → Holds v a → Holds v b → Holds v (add a b) }
    ensures multiples { (v : ℕ → Bool) (n : ℕ) (a : Linear) → Holds v a → Holds v (times n a) }
    ensures quotients { (v : ℕ → Bool) (n : ℕ) (a : Linear) → 0 < n → Holds v a → Holds v (divide n a) }
    ensures saturated { (v : ℕ → Bool) (a : Linear) → Holds v a → Holds v (saturate a) }
    ensures weaker { (v : ℕ → Bool) (x : ℕ) (a : Linear) → Holds v a → Holds v (weaken x a) }
{}

/// The constraint of terms and a degree, or the number of them that is too large.
fn accept(terms: Vec<Term>, degree: u64) -> Result<Constraint, RuleFault>
    requires sum { total terms.items < 2 ^ 64 }
    requires normal { excess (record { terms = terms.items; degree = degree }) ≡ None → IsNormal terms.items degree }
    ensures value { IfOk result (λ c. c ≡ record { terms = terms.items; degree = degree }) }
    ensures accepted { OnOk result (fits (record { terms = terms.items; degree = degree }) ≡ Ok (record { terms = terms.items; degree = degree })) }
    ensures refused { IfErr result (IsRefusal (record { terms = terms.items; degree = degree })) }
{
    let sum = u128::from(coefficient_sum(&terms));
    if sum >= LIMIT {
        return Err(RuleFault::TooLarge(sum));
    }
    if u128::from(degree) >= LIMIT {
        return Err(RuleFault::TooLarge(u128::from(degree)));
    }
    Ok(Constraint::of_normal(terms, degree))
}

/// The axiom of a literal, `l >= 0`. It is refused only for want of memory.
pub fn axiom(alloc: Global, lit: Lit) -> Result<Constraint, AllocError>
    ensures { IfOk result (λ c. c ≡ axiom_of lit) }
{
    let mut terms = Vec::new(alloc);
    terms.push(Term { coef: 1, lit })?;
    Ok(Constraint::of_normal(terms, 0))
}

/// The sum: opposite literals of a variable cancel, and what cancels is taken from the degree. It is refused exactly
/// where a number would be 2^63 or more, and for want of memory.
pub fn add(alloc: Global, a: &Constraint, b: &Constraint) -> Result<Constraint, RuleFault>
    ensures value { IfOk result (λ c. c ≡ add a.now b.now) }
    ensures accepted { OnOk result (fits (add a.now b.now) ≡ Ok (add a.now b.now)) }
    ensures refused { IfErr result (IsRefusal (add a.now b.now)) }
{
    let merged = merge_terms(alloc, a.terms(), b.terms())?;
    let degree = (a.degree() + b.degree()).saturating_sub(merged.cancelled);
    accept(merged.terms, degree)
}

/// A multiple by a factor of at least 1. It is refused exactly where a number would be 2^63 or more, and for want of
/// memory.
pub fn times(alloc: Global, a: &Constraint, factor: u64) -> Result<Constraint, RuleFault>
    requires { 0 < factor }
    ensures value { IfOk result (λ c. c ≡ times factor a.now) }
    ensures accepted { OnOk result (fits (times factor a.now) ≡ Ok (times factor a.now)) }
    ensures refused { IfErr result (IsRefusal (times factor a.now)) }
{
    let sum = u128::from(factor) * u128::from(coefficient_sum(a.terms()));
    if sum >= LIMIT {
        return Err(RuleFault::TooLarge(sum));
    }
    let degree = u128::from(factor) * u128::from(a.degree());
    if degree >= LIMIT {
        return Err(RuleFault::TooLarge(degree));
    }
    let terms = multiplied_by(alloc, a.terms(), factor)?;
    Ok(Constraint::of_normal(terms, degree as u64))
}

/// The quotient by a divisor of at least 1, each coefficient and the degree rounded up. It is refused only for want of
/// memory.
pub fn divide(alloc: Global, a: &Constraint, divisor: u64) -> Result<Constraint, AllocError>
    requires { 0 < divisor }
    ensures { IfOk result (λ c. c ≡ divide divisor a.now) }
{
    let terms = divided_by(alloc, a.terms(), divisor)?;
    Ok(Constraint::of_normal(terms, a.degree().div_ceil(divisor)))
}

/// Saturation: each coefficient cut down to the degree; terms that become 0 fall away. It is refused only for want of
/// memory.
pub fn saturate(alloc: Global, a: &Constraint) -> Result<Constraint, AllocError>
    ensures { IfOk result (λ c. c ≡ saturate a.now) }
{
    let terms = cut_down(alloc, a.terms(), a.degree())?;
    Ok(Constraint::of_normal(terms, a.degree()))
}

/// Weakening: the variable's term removed, its coefficient taken from the degree; nothing changes where there is no
/// term of the variable. It is refused only for want of memory.
pub fn weaken(alloc: Global, a: &Constraint, var: u64) -> Result<Constraint, AllocError>
    ensures { IfOk result (λ c. c ≡ weaken var a.now) }
{
    let all = a.terms();
    match place_of(all, var) {
        None => a.copy(alloc),
        Some(place) => {
            let mut terms = Vec::from_slice(alloc, &all[..place])?;
            terms.extend_from_slice(&all[place + 1..])?;
            Ok(Constraint::of_normal(terms, a.degree().saturating_sub(all[place].coef)))
        }
    }
}
