//! The clause while it is learned, as the sign of each variable's literal, and how many of its literals are of the
//! current level.

ghost use Rattle.std.specs.Prelude.{ℕ, ◌≡◌, ◌<◌, ◌^◌, ◌==◌, Some, None, true, not, length, take, if◌then◌else◌};
ghost use Rattle.pb_rules.specs.Linear.{VarsBelow};
ghost use Rattle.pb_rules.specs.Partial.{GoesOn};
ghost use Rattle.conflict_graph.specs.Clauses.{false_signs};
ghost use Rattle.constraint_store.specs.Live.{is_live, constraint_of};
ghost use Rattle.trail_state.specs.Trail.{value_in};
ghost use Rattle.conflict_graph.specs.Learning.{signs, either, currents, HasLevels};

use crate::reasons::is_false;
use constraint_store::Store;
use pb_constraints::{ConId, Lit};
use trail_state::Trail;

/// Adds a false literal to the clause, and counts it if it is of the current level.
fn add_literal(
    trail: &Trail,
    levels: &[u64],
    lit: Lit,
    clause: &mut [Option<bool>],
    count: u64,
) -> u64
    requires levels { HasLevels trail.now.entries (length clause.old) levels.now }
    requires in_range { lit.var < length clause.old }
    requires assigned { value_in trail.now.entries lit.var ≡ Some (not lit.yes) }
    requires few { length clause.old < 2 ^ 62 }
    requires counted { count ≡ currents (length clause.old) 0 trail.now.entries (signs clause.old) }
    ensures added { (y : ℕ) → signs clause.new y ≡ either (signs clause.old y) (if lit.var == y then Some lit.yes else None) }
    ensures counted { result ≡ currents (length clause.old) 0 trail.now.entries (signs clause.new) }
{
    let var = lit.var() as usize;
    if clause[var].is_some() {
        return count;
    }
    clause[var] = Some(lit.is_yes());
    if levels[var] == trail.level() {
        count + 1
    } else {
        count
    }
}

/// Adds the literals of a constraint that are false before a place of the trail to the clause.
pub fn mark(
    trail: &Trail,
    store: &Store,
    c: ConId,
    place: usize,
    levels: &[u64],
    clause: &mut [Option<bool>],
    mut count: u64,
) -> u64
    requires levels { HasLevels trail.now.entries (length clause.old) levels.now }
    requires live { is_live store.now c ≡ true }
    requires in_range { VarsBelow (length clause.old) (constraint_of store.now c).terms }
    requires assigned { GoesOn (value_in (take place trail.now.entries)) (value_in trail.now.entries) }
    requires few { length clause.old < 2 ^ 62 }
    requires counted { count ≡ currents (length clause.old) 0 trail.now.entries (signs clause.old) }
    ensures added { (y : ℕ) → signs clause.new y ≡ either (signs clause.old y) (false_signs (value_in (take place trail.now.entries)) (constraint_of store.now c).terms y) }
    ensures counted { result ≡ currents (length clause.old) 0 trail.now.entries (signs clause.new) }
{
    for t in store.terms(c) {
        if is_false(trail, place, t.lit) {
            count = add_literal(trail, levels, t.lit, clause, count);
        }
    }
    count
}

/// Takes a literal's opposite out of the clause.
pub fn drop_literal(
    trail: &Trail,
    levels: &[u64],
    lit: Lit,
    clause: &mut [Option<bool>],
    count: u64,
) -> u64
    requires levels { HasLevels trail.now.entries (length clause.old) levels.now }
    requires in_range { lit.var < length clause.old }
    requires assigned { value_in trail.now.entries lit.var ≡ Some lit.yes }
    requires there { signs clause.old lit.var ≡ Some (not lit.yes) }
    requires counted { count ≡ currents (length clause.old) 0 trail.now.entries (signs clause.old) }
    ensures dropped { (y : ℕ) → signs clause.new y ≡ (if lit.var == y then None else signs clause.old y) }
    ensures counted { result ≡ currents (length clause.old) 0 trail.now.entries (signs clause.new) }
{
    let var = lit.var() as usize;
    clause[var] = None;
    if levels[var] == trail.level() {
        count - 1
    } else {
        count
    }
}
