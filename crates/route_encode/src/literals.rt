//! Terms and constraints as the families write them.

ghost use Rattle.std.specs.Prelude.{◌≡◌, ◌<◌, ◌≤◌, ◌^◌, [], ◌∷◌, length, All, IfOk, OnOk};
ghost use Rattle.std.specs.List.{take_while};
ghost use Rattle.spec_model.specs.Limits.{most_variables};
ghost use Rattle.encode_model.specs.Encoding.{positive, negative, positives, negatives, put, at_least};
ghost use Rattle.encode_model.specs.Rising.{IsRising};
ghost use Rattle.route_encode.specs.Adding.{Adds, goes_first};

use pb_constraints::{Constraint, Set};
use pb_rules::{Lit, Term};
use std::alloc::{AllocError, Global};
use std::marker::Model;

/// A term before its variable is known to be in range.
#[derive(Clone, Copy, Debug, PartialEq, Eq)]
pub struct Signed {
    coef: u64,
    var: u64,
    yes: bool,
}

impl Model for Signed {
    ghost use Rattle.pb_rules.specs.declared.Term.{Term};

    ghost Value = { Term };

    ghost view = { λ t. record { coef = t.coef; lit = record { var = t.var; yes = t.yes } } };

    ghost inverse = { λ v. record { coef = v.coef; var = v.lit.var; yes = v.lit.yes } };
}

impl Signed {
    /// A coefficient with a variable or its opposite.
    pub fn weighted(coef: u64, var: u64, yes: bool) -> Signed
        ensures { result ≡ record { coef = coef; lit = record { var = var; yes = yes } } }
    {
        Signed { coef, var, yes }
    }

    /// The literal that is true where the variable is, with coefficient 1.
    pub fn positive(var: u64) -> Signed
        ensures { result ≡ positive var }
    {
        Signed::weighted(1, var, true)
    }

    /// The literal that is true where the variable is false, with coefficient 1.
    pub fn negative(var: u64) -> Signed
        ensures { result ≡ negative var }
    {
        Signed::weighted(1, var, false)
    }

    /// The term itself.
    fn term(&self) -> Term
        requires { self.now.lit.var < 2 ^ 62 }
        ensures { result ≡ self.now }
    {
        if self.yes {
            return Term {
                coef: self.coef,
                lit: Lit::yes(self.var),
            };
        }
        Term {
            coef: self.coef,
            lit: Lit::no(self.var),
        }
    }
}

/// The variables themselves.
pub fn positives(alloc: Global, vars: &[u64]) -> Result<Vec<Signed>, AllocError>
    ensures { IfOk result (λ v. v.items ≡ positives vars.now) }
{
    vars.iter().map(|v| Signed::positive(*v)).collect(alloc)
}

/// The opposites of the variables.
pub fn negatives(alloc: Global, vars: &[u64]) -> Result<Vec<Signed>, AllocError>
    ensures { IfOk result (λ v. v.items ≡ negatives vars.now) }
{
    vars.iter().map(|v| Signed::negative(*v)).collect(alloc)
}

/// The terms themselves.
fn terms(alloc: Global, literals: &[Signed]) -> Result<Vec<Term>, AllocError>
    requires { All (λ t. t.lit.var < 2 ^ 62) literals.now }
    ensures { IfOk result (λ v. v.items ≡ literals.now) }
{
    let mut terms = Vec::new(alloc);
    for l in literals {
        terms.push(l.term())?;
    }
    Ok(terms)
}

/// Adds the constraint that the coefficients of the true terms sum to at least `degree`. They stand by rising variable.
#[tactic(auto, using(crate::proofs::Writing::term_steps))]
pub fn add(alloc: Global, out: &mut Set, degree: u64, literals: &[Signed]) -> Result<(), AllocError>
    requires rising { IsRising out.old.variables literals.now }
    requires few { out.old.variables ≤ most_variables }
    requires small { degree < 2 ^ 63 }
    ensures { OnOk result (Adds out.old out.new (at_least degree literals.now ∷ [])) }
{
    let terms = terms(alloc, literals)?;
    out.add(Constraint::of_normal(terms, degree))?;
    Ok(())
}

/// Adds the clause of two literals.
pub fn add_two(alloc: Global, out: &mut Set, a: Signed, b: Signed) -> Result<(), AllocError>
    requires rising { IsRising out.old.variables (a ∷ (b ∷ [])) }
    requires few { out.old.variables ≤ most_variables }
    ensures { OnOk result (Adds out.old out.new (at_least 1 (a ∷ (b ∷ [])) ∷ [])) }
{
    let mut literals = Vec::new(alloc);
    literals.push(a)?;
    literals.push(b)?;
    add(alloc, out, 1, &literals)
}

/// How many terms stand before the first one of a greater variable.
fn place_of(literals: &[Signed], literal: Signed) -> usize
    ensures { result ≡ length (take_while (goes_first literal) literals.now) }
{
    literals.iter().take_while(|k| k.var <= literal.var).count()
}

/// Puts a term in front of the first one of a greater variable.
#[tactic(auto, using(crate::proofs::Writing::put_steps))]
pub fn put(literals: &mut Vec<Signed>, literal: Signed) -> Result<(), AllocError>
    ensures { OnOk result (literals.new.items ≡ put literal literals.old.items) }
{
    let place = place_of(literals, literal);
    literals.insert(place, literal)?;
    Ok(())
}
