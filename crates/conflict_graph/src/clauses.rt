//! The end of an analysis: the clause as a constraint, and the level that its other literals leave to jump back to.

ghost use Rattle.std.specs.Prelude.{◌≡◌, ◌≢◌, ◌<◌, ◌≤◌, ◌^◌, ◌⊎◌, All, IfOk, length, true};
ghost use Rattle.pb_rules.specs.Partial.{is_false};
ghost use Rattle.conflict_graph.specs.Clauses.{clause_of};
ghost use Rattle.trail_state.specs.Trail.{value_in};
ghost use Rattle.conflict_graph.specs.Learned.{IsLevelBelow};
ghost use Rattle.conflict_graph.specs.Learning.{signs, HasLevels};

use pb_constraints::{Constraint, Lit, Term};
use std::alloc::{AllocError, Global};
use trail_state::Trail;

/// A variable's literal.
fn literal(var: u64, yes: bool) -> Lit
    requires { var < 2 ^ 62 }
    ensures { result ≡ record { var = var; yes = yes } }
{
    if yes { Lit::yes(var) } else { Lit::no(var) }
}

/// The clause of these signs.
pub fn clause_from(alloc: Global, clause: &[Option<bool>]) -> Result<Constraint, AllocError>
    requires { length clause.now < 2 ^ 62 }
    ensures { IfOk result (λ c. c ≡ clause_of (length clause.now) (signs clause.now)) }
{
    let mut terms = Vec::new(alloc);
    for x in 0..clause.len() {
        if let Some(yes) = clause[x] {
            terms.push(Term {
                coef: 1,
                lit: literal(x as u64, yes),
            })?;
        }
    }
    Ok(Constraint::of_normal(terms, 1))
}

/// The greatest level of a clause's literals other than the current one, or 0.
pub fn level_below(trail: &Trail, levels: &[u64], clause: &Constraint) -> u64
    requires levels { HasLevels trail.now.entries trail.now.variables levels.now }
    requires false_all { All (λ t. is_false (value_in trail.now.entries) t.lit ≡ true) clause.now.terms }
    ensures { IsLevelBelow trail.now.entries clause.now.terms result }
{
    let _assigned = trail.assigned();
    let current = trail.level();
    let mut back = 0u64;
    for t in clause.terms() {
        back = greater_below(levels[t.lit.var() as usize], current, back);
    }
    back
}

/// The greater of two levels, where the first one is not the current level.
fn greater_below(level: u64, current: u64, back: u64) -> u64
    ensures kept { back ≤ result }
    ensures above { level ≢ current → level ≤ result }
    ensures either { (result ≡ back) ⊎ ((result ≡ level) × (level ≢ current)) }
{
    if level != current && level > back {
        level
    } else {
        back
    }
}
