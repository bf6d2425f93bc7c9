//! Looks at all literals of all clauses, where there is no memory for a watch.
ghost use Rattle.std.specs.Prelude.{◌≡◌, ◌<◌, ◌≤◌, ℕ, true, false, [], ◌∷◌, length, slice_index_or, Some, None, IfSome, IfNone};
ghost use Rattle.pb_rules.specs.Linear.{VarsBelow};
ghost use Rattle.pb_rules.specs.Partial.{InConflict, IsClosed};
ghost use Rattle.trail_state.specs.Trail.{value_in};
ghost use Rattle.propagate.specs.Forced.{Appends, IsConflict, AllClosed};
ghost use Rattle.propagate.specs.Counters.{linear_at};
ghost use Rattle.propagate.specs.Watched.{wholes};
ghost use Rattle.propagate.specs.Watches.{watched_in, AreWatched};

use super::visits::push_last;
use super::watched::Watched;
use super::watches::Watches;
use pb_constraints::ConId;
use trail_state::Trail;

/// Looks at all literals of a clause: whether it is in conflict, and if not, pushes the one that it forces.
fn look_through(c: &Watched, id: ConId, trail: &mut Trail) -> bool
    requires in_range { VarsBelow trail.old.variables c.now.whole.terms }
    ensures variables { trail.new.variables ≡ trail.old.variables }
    ensures appends { Appends (record { id = id; constraint = c.now.whole } ∷ []) trail.old.entries trail.new.entries }
    ensures conflict { result ≡ true → InConflict (value_in trail.new.entries) c.now.whole }
    ensures closed { result ≡ false → IsClosed (value_in trail.new.entries) c.now.whole }
{
    let _terms = c.terms();
    let first = c.first();
    match c.open_but(first, trail) {
        None => push_last(c, first, id, trail),
        Some(last) => match c.open_but(last, trail) {
            None => push_last(c, last, id, trail),
            Some(_open) => false,
        },
    }
}

impl Watches {
    /// The same for what stands in a slot.
    fn look_in(&self, slot: usize, trail: &mut Trail) -> bool
        requires built { AreWatched trail.old.variables self.now }
        requires here { slot < length self.now.slots.items }
        ensures variables { trail.new.variables ≡ trail.old.variables }
        ensures appends { Appends (watched_in self.now) trail.old.entries trail.new.entries }
        ensures conflict { result ≡ true → IsConflict (watched_in self.now) trail.new.entries (record { 0 = slot }) }
        ensures closed { result ≡ false → IsClosed (value_in trail.new.entries) (linear_at (wholes self.now.slots.items) slot) }
    {
        match &self.slots[slot] {
            None => false,
            Some(c) => look_through(c, ConId(slot as u64), trail),
        }
    }

    /// The same for all slots, until one is in conflict.
    fn look_through_all(&self, trail: &mut Trail) -> Option<usize>
        requires built { AreWatched trail.old.variables self.now }
        ensures variables { trail.new.variables ≡ trail.old.variables }
        ensures appends { Appends (watched_in self.now) trail.old.entries trail.new.entries }
        ensures conflict { IfSome result (λ i. IsConflict (watched_in self.now) trail.new.entries (record { 0 = i })) }
        ensures closed { IfNone result (length trail.new.entries ≤ length trail.old.entries → AllClosed (watched_in self.now) trail.new.entries) }
    {
        for slot in 0..self.slots.len() {
            if self.look_in(slot, trail) {
                return Some(slot);
            }
        }
        None
    }

    /// Pushes what is forced without a watch, until a clause is in conflict or nothing is forced any more.
    pub fn close_plainly(&self, trail: &mut Trail) -> Option<usize>
        requires built { AreWatched trail.old.variables self.now }
        ensures variables { trail.new.variables ≡ trail.old.variables }
        ensures appends { Appends (watched_in self.now) trail.old.entries trail.new.entries }
        ensures conflict { IfSome result (λ i. IsConflict (watched_in self.now) trail.new.entries (record { 0 = i })) }
        ensures closed { IfNone result (AllClosed (watched_in self.now) trail.new.entries) }
    {
        'passing: loop {
            let before = trail.literals().len();
            if let Some(slot) = self.look_through_all(trail) {
                return Some(slot);
            }
            let _assigned = trail.assigned();
            if trail.literals().len() == before {
                return None;
            }
        }
    }
}
