//! Pseudo-Boolean constraints in normal form: the value that the encoding writes and that the solver and the
//! checker read.
//!
//! A constraint asks that the coefficients of its true literals come to at least its degree. [`Constraint`] keeps
//! normal form in its type: positive coefficients, one term per variable in rising order, coefficient sum and degree
//! below 2^63. [`normalise`] makes one of any signed sum, and [`Set`] is a list of them over numbered variables.
//! What a constraint means is defined in `pb_rules`, in whole numbers from zero; only `normalise` needs signed ones.
#![tactic(auto)]

ghost use Rattle.std.specs.Prelude.{◌≡◌, ◌↔◌, IsTrue, length, IfOk};
ghost use Rattle.pb_rules.specs.Linear.{Linear, Holds, bits_of, VarsBelow, IsNormal};

mod groups;
pub mod laws;
mod normal;
mod parts;
mod set;

pub use normal::{NormalFault, normalise};
pub use parts::Part;
pub use pb_rules::{Lit, Term};
pub use set::Set;
use std::alloc::{AllocError, Global};
use std::marker::Model;

/// The number of a constraint in a store.
#[derive(Clone, Copy, Debug, PartialEq, Eq)]
pub struct ConId(pub u64);

/// A constraint in normal form.
#[derive(Drop, Debug)]
pub struct Constraint {
    terms: Vec<Term>,
    degree: u64,
}

impl Model for Constraint {
    ghost use Rattle.pb_rules.specs.Linear.{Linear, IsNormal};

    ghost Value = { Linear };

    ghost view = { λ c. record { terms = c.terms.items; degree = c.degree } };

    ghost invariant = { λ c. IsNormal c.terms.items c.degree };
}

impl Constraint {
    /// The terms, by rising variables.
    pub fn terms(&self) -> &[Term]
        ensures value { result.now ≡ self.now.terms }
        ensures normal { IsNormal self.now.terms self.now.degree }
    {
        self.terms.as_slice()
    }

    /// What the coefficients of the true literals have to come to.
    pub fn degree(&self) -> u64
        ensures value { result ≡ self.now.degree }
        ensures normal { IsNormal self.now.terms self.now.degree }
    {
        self.degree
    }

    /// The constraint of terms and a degree that are in normal form already.
    pub fn of_normal(terms: Vec<Term>, degree: u64) -> Constraint
        requires { IsNormal terms.items degree }
        ensures value { result ≡ record { terms = terms.items; degree = degree } }
    {
        Constraint { terms, degree }
    }

    /// The terms, by rising variables, moved out of the constraint. It takes no memory.
    pub fn into_terms(self) -> Vec<Term>
        ensures value { result.items ≡ self.terms }
        ensures normal { IsNormal self.terms self.degree }
    {
        self.terms
    }

    /// A copy. It is refused only for want of memory.
    pub fn copy(&self, alloc: Global) -> Result<Constraint, AllocError>
        ensures { IfOk result (λ c. c ≡ self.now) }
    {
        let terms = Vec::from_slice(alloc, self.terms.as_slice())?;
        Ok(Constraint {
            terms,
            degree: self.degree,
        })
    }
}

/// Whether a constraint holds under an assignment, which has the value of each of its variables.
pub fn holds_under(c: &Constraint, values: &[bool]) -> bool
    requires { VarsBelow (length values.now) c.now.terms }
    ensures { IsTrue result ↔ Holds (bits_of values.now) c.now }
{
    let terms = c.terms();
    let mut sum = 0u64;
    for t in terms {
        if values[t.lit.var() as usize] == t.lit.is_yes() {
            sum += t.coef;
        }
    }
    sum >= c.degree()
}
