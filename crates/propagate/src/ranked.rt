//! A constraint that can be read by falling coefficient, so that a look at it ends where nothing further is forced.
//!
//! A slack forces a literal whose coefficient is greater. The block of a cover has one coefficient that is its degree,
//! and is looked at whenever another of its many literals becomes false: most of these looks end after one term.
ghost use Rattle.std.specs.Prelude.{◌≡◌, ◌<◌, ◌≤◌, ◌^◌, true, All, take, slice_index_or, None, is_some, IfOk};
ghost use Rattle.pb_rules.specs.Linear.{IsNormal, total};
ghost use Rattle.propagate.specs.Ranked.{IsFalling, IsRanking};

use pb_constraints::{Constraint, Term};
use std::alloc::{AllocError, Global};
use std::marker::Model;

/// A constraint, and its terms by falling coefficient where they don't stand so already, as those of a clause do.
#[derive(Drop, Debug)]
pub struct Ranked {
    constraint: Constraint,
    ranked: Option<Vec<Term>>,
}

impl Model for Ranked {
    ghost use Rattle.std.specs.Prelude.{IfSome, IfNone};
    ghost use Rattle.pb_rules.specs.Linear.{Linear};
    ghost use Rattle.propagate.specs.Ranked.{IsFalling, IsRanking};

    ghost Value = { Linear };

    ghost view = { λ r. r.constraint };

    ghost invariant = { λ r. IfNone r.ranked (IsFalling r.constraint.terms) × IfSome r.ranked (λ v. IsRanking r.constraint.terms v.items) };
}

/// Whether no coefficient is greater than the one before.
fn is_falling(terms: &[Term]) -> bool
    ensures { result ≡ true → IsFalling terms.now }
{
    let mut last = u64::MAX;
    for t in terms {
        if t.coef > last {
            return false;
        }
        last = t.coef;
    }
    true
}

/// The terms by falling coefficient.
fn ranking(alloc: Global, terms: &[Term]) -> Result<Vec<Term>, AllocError>
    requires { total terms.now < 2 ^ 63 }
    ensures { IfOk result (λ v. IsRanking terms.now v.items) }
{
    let mut ranked = Vec::from_slice(alloc, terms)?;
    ranked.sort_by_key(|t| u64::MAX - t.coef)?;
    Ok(ranked)
}

impl Ranked {
    /// A constraint that can be read by falling coefficient.
    pub fn new(alloc: Global, constraint: Constraint) -> Result<Ranked, AllocError>
        ensures { IfOk result (λ r. r ≡ constraint) }
    {
        let mut ranked = None;
        if !is_falling(constraint.terms()) {
            ranked = Some(ranking(alloc, constraint.terms())?);
        }
        Ok(Ranked { constraint, ranked })
    }

    /// The terms, by rising variables.
    pub fn terms(&self) -> &[Term]
        ensures value { result.now ≡ self.now.terms }
        ensures normal { IsNormal self.now.terms self.now.degree }
    {
        self.constraint.terms()
    }

    /// What the coefficients of the true literals have to come to.
    pub fn degree(&self) -> u64
        ensures value { result ≡ self.now.degree }
        ensures normal { IsNormal self.now.terms self.now.degree }
    {
        self.constraint.degree()
    }

    /// The terms, by falling coefficient.
    pub fn by_falling(&self) -> &[Term]
        ensures { IsRanking self.now.terms result.now }
    {
        match &self.ranked {
            None => self.constraint.terms(),
            Some(ranked) => ranked.as_slice(),
        }
    }
}

/// Whether there is a constraint in a slot.
pub fn is_filled(slots: &[Option<Ranked>], slot: usize) -> bool
    ensures { result ≡ is_some (slice_index_or slots.now slot None) }
{
    if slot < slots.len() {
        slots[slot].is_some()
    } else {
        false
    }
}
