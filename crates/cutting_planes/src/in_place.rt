//! Division, saturation and weakening of a constraint that is given away: its terms are changed where they stand, so
//! these take no memory.

ghost use Rattle.std.specs.Prelude.{All, ◌≡◌, ◌<◌, map};
ghost use Rattle.pb_rules.specs.CuttingPlanes.{cut, divided, divide, saturate, weaken};
ghost use Rattle.cutting_planes.specs.Lowered.{lowered};

use crate::terms::place_of;
use pb_constraints::{Constraint, Term};

/// Divides the coefficients, rounded up.
fn divide_terms(terms: &mut [Term], divisor: u64)
    requires { 0 < divisor }
    ensures { terms.new ≡ map (divided divisor) terms.old }
{
    for t in terms.iter_mut() {
        t.coef = t.coef.div_ceil(divisor);
    }
}

/// Lowers the coefficients to a degree.
fn lower_terms(terms: &mut [Term], degree: u64)
    ensures { terms.new ≡ map (lowered degree) terms.old }
{
    for t in terms.iter_mut() {
        t.coef = t.coef.min(degree);
    }
}

/// Cuts positive coefficients down to a degree. All fall away where it is 0, and else none does.
fn cut_terms(terms: &mut Vec<Term>, degree: u64)
    requires { All (λ t. 0 < t.coef) terms.old.items }
    ensures { terms.new.items ≡ cut degree terms.old.items }
{
    if degree == 0 {
        terms.clear();
    } else {
        lower_terms(terms, degree);
    }
}

/// The quotient of a constraint by a divisor of at least 1, as [`divide`](crate::divide) gives it. It takes no memory.
pub fn into_quotient(a: Constraint, divisor: u64) -> Constraint
    requires { 0 < divisor }
    ensures { result ≡ divide divisor a }
{
    let degree = a.degree();
    let mut terms = a.into_terms();
    divide_terms(&mut terms, divisor);
    Constraint::of_normal(terms, degree.div_ceil(divisor))
}

/// A constraint saturated, as [`saturate`](crate::saturate) gives it. It takes no memory.
pub fn into_saturated(a: Constraint) -> Constraint
    ensures { result ≡ saturate a }
{
    let degree = a.degree();
    let mut terms = a.into_terms();
    cut_terms(&mut terms, degree);
    Constraint::of_normal(terms, degree)
}

/// A constraint weakened by a variable, as [`weaken`](crate::weaken) gives it. It takes no memory.
pub fn into_weakened(a: Constraint, var: u64) -> Constraint
    ensures { result ≡ weaken var a }
{
    match place_of(a.terms(), var) {
        None => a,
        Some(place) => {
            let degree = a.degree();
            let mut terms = a.into_terms();
            let gone = terms.remove(place);
            Constraint::of_normal(terms, degree.saturating_sub(gone.coef))
        }
    }
}
