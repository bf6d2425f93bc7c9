//! A plain program that propagates by scanning, the propagator's first body: it goes over the constraints until a pass
//! pushes nothing. It keeps nothing between two runs, so that what it finds rests on the trail alone.
use constraint_store::Store;
use pb_constraints::{ConId, Term};
use trail_state::Trail;

/// The sum of the coefficients of the literals that are not false.
fn room_of(terms: &[Term], trail: &Trail) -> u64 {
    let mut room = 0u64;
    for t in terms {
        if trail.value(t.lit.var()) != Some(!t.lit.is_yes()) {
            room = room.saturating_add(t.coef);
        }
    }
    room
}

/// Pushes what terms of this slack force.
fn push_forced(terms: &[Term], slack: u64, id: ConId, trail: &mut Trail) {
    for t in terms {
        let var = t.lit.var();
        if t.coef > slack && var < trail.variables() && trail.value(var).is_none() {
            trail.push(t.lit, id);
        }
    }
}

/// Whether a constraint is in conflict. Where it isn't, pushes what it forces.
fn is_in_conflict(id: ConId, store: &Store, trail: &mut Trail) -> bool {
    if !store.is_live(id) {
        return false;
    }
    let terms = store.terms(id);
    match room_of(terms, trail).checked_sub(store.degree(id)) {
        None => true,
        Some(slack) => {
            push_forced(terms, slack, id, trail);
            false
        }
    }
}

/// Looks at each constraint once. It answers one in conflict, where it stopped at one.
fn pass_over(ids: &[ConId], store: &Store, trail: &mut Trail) -> Option<ConId> {
    for id in ids {
        if is_in_conflict(*id, store, trail) {
            return Some(*id);
        }
    }
    None
}

/// Pushes what the constraints force. It answers one in conflict, where it stopped at one. Each pass but the last assigns
/// a variable, so there are no more passes than variables and one.
pub fn scan(ids: &[ConId], store: &Store, trail: &mut Trail) -> Option<ConId> {
    for _ in 0..trail.variables() {
        let conflict = pass_over(ids, store, trail);
        if conflict.is_some() {
            return conflict;
        }
    }
    pass_over(ids, store, trail)
}
