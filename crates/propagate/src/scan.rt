//! A look at one constraint: its room summed up over its terms, and what it forces pushed onto the trail.
//!
//! A room is summed up only where a constraint is attached. From then on `counters` keeps it, and looks at a
//! constraint only where its room says that it may force something.
ghost use Rattle.std.specs.Prelude.{◌≡◌, ◌<◌, ◌≤◌, ◌^◌, ◌++◌, [], ◌∷◌, length, take, true, false, Some, None};
ghost use Rattle.pb_rules.specs.Linear.{VarsBelow, total};
ghost use Rattle.pb_rules.specs.Partial.{open_weight, is_false};
ghost use Rattle.trail_state.specs.Trail.{Entry, value_in};
ghost use Rattle.propagate.specs.Forced.{Appends};
ghost use Rattle.propagate.specs.Counters.{IsQuiet};

use super::ranked::Ranked;
use pb_constraints::{ConId, Lit, Term};
use trail_state::Trail;

/// Whether a literal is false on the trail.
pub fn is_false(trail: &Trail, lit: Lit) -> bool
    ensures { result ≡ is_false (value_in trail.now.entries) lit }
{
    match trail.value(lit.var()) {
        None => false,
        Some(value) => value != lit.is_yes(),
    }
}

/// Whether a literal is false under so many of the trail's first literals.
pub fn is_false_before(trail: &Trail, lit: Lit, count: usize) -> bool
    ensures { result ≡ is_false (value_in (take count trail.now.entries)) lit }
{
    match trail.value_before(lit.var(), count) {
        None => false,
        Some(value) => value != lit.is_yes(),
    }
}

/// Whether a literal is true on the trail.
pub fn is_true(trail: &Trail, lit: Lit) -> bool
    ensures { result ≡ true → value_in trail.now.entries lit.var ≡ Some lit.yes }
{
    match trail.value(lit.var()) {
        None => false,
        Some(value) => value == lit.is_yes(),
    }
}

/// The sum of the coefficients of the literals that are not false.
pub fn room_of(terms: &[Term], trail: &Trail) -> u64
    requires { total terms.now < 2 ^ 63 }
    ensures value { result ≡ open_weight (value_in trail.now.entries) terms.now }
    ensures small { result < 2 ^ 63 }
{
    let mut room = 0u64;
    for t in terms {
        if !is_false(trail, t.lit) {
            room += t.coef;
        }
    }
    room
}

/// Pushes the literal of a term if its constraint, of this slack, forces it.
fn push_if_forced(t: Term, slack: u64, id: ConId, trail: &mut Trail) -> bool
    requires { t.lit.var < trail.old.variables }
    ensures variables { trail.new.variables ≡ trail.old.variables }
    ensures pushed { result ≡ true → trail.new.entries ≡ trail.old.entries ++ record { lit = t.lit; reason = Some id } ∷ [] }
    ensures free { result ≡ true → value_in trail.old.entries t.lit.var ≡ None }
    ensures beyond { result ≡ true → slack < t.coef }
    ensures same { result ≡ false → trail.new.entries ≡ trail.old.entries }
    ensures within { result ≡ false → value_in trail.old.entries t.lit.var ≡ None → t.coef ≤ slack }
{
    if t.coef > slack && trail.value(t.lit.var()).is_none() {
        trail.push(t.lit, id);
        return true;
    }
    false
}

/// Pushes the literals that a constraint of this room forces. It ends where no coefficient is greater than the slack.
pub fn push_forced(c: &Ranked, id: ConId, room: u64, trail: &mut Trail)
    requires in_range { VarsBelow trail.old.variables c.now.terms }
    requires room { room ≡ open_weight (value_in trail.old.entries) c.now.terms }
    requires no_conflict { c.now.degree ≤ room }
    ensures variables { trail.new.variables ≡ trail.old.variables }
    ensures appends { Appends (record { id = id; constraint = c.now } ∷ []) trail.old.entries trail.new.entries }
    ensures quiet { IsQuiet room (value_in trail.new.entries) c.now }
{
    let slack = room - c.degree();
    for t in c.by_falling() {
        if t.coef <= slack {
            return;
        }
        let _pushed = push_if_forced(*t, slack, id, trail);
    }
}
