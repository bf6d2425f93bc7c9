//! What is kept of what a call has learned: the clauses of the last lines.
//!
//! A call begins with the clauses that earlier calls have learned, so that what one call had to find out another one
//! needn't. At its end, when the trail is empty and no clause is a reason, the oldest are dropped, up to the greatest
//! number of kept clauses; a given constraint never is. What is dropped leaves gaps in the store, and where these are many
//! the store is compacted, which gives new ids. Nothing that a call answers rests on which clauses it began with.

ghost use Rattle.std.specs.Prelude.{◌≡◌, ◌<◌, ◌≤◌, ◌+◌, ℕ, length, map, min, take};
ghost use Rattle.constraint_store.specs.Live.{content};
ghost use Rattle.ordered_solver.specs.Engines.{IsIdle, HasKeptIds, AreLeaving, moved};
ghost use Rattle.ordered_solver.specs.Lessons.{HasDropped};
ghost use Rattle.ordered_solver.specs.Solver.{kept_limit};

use super::engine::Engine;
use constraint_store::Moves;
use pb_constraints::ConId;
use std::collections::VecDeque;

/// How many clauses are kept at most.
const KEPT_LIMIT: usize = 4096;

/// Puts the new id of each constraint in the place of its old one.
fn rename(ids: &mut VecDeque<ConId>, moves: &Moves)
    ensures { ids.new.items ≡ map (moved moves.now) ids.old.items }
{
    for i in 0..ids.len() {
        if let Some(id) = moves.of(ids[i]) {
            ids[i] = id;
        }
    }
}

impl Engine {
    /// Takes the oldest kept clauses, so many, out of the propagator.
    fn detach_oldest(&mut self, many: usize)
        requires idle { IsIdle self.old.store self.old.propagator self.old.trail }
        requires there { many ≤ length self.old.kept.items }
        ensures leaving { AreLeaving self.new.store self.new.propagator self.new.trail (take many self.new.kept.items) }
        ensures kept { self.new.kept.items ≡ self.old.kept.items }
        ensures store { self.new.store ≡ self.old.store }
        ensures log { self.new.log ≡ self.old.log }
        ensures trail { self.new.trail ≡ self.old.trail }
    {
        // The first ids stand in two parts where the list goes round the end of its memory.
        let (front, back) = self.kept.as_slices();
        let first = many.min(front.len());
        self.propagator.detach_each(&front[..first]);
        self.propagator.detach_each(&back[..many - first]);
    }

    /// Removes the oldest kept clause, which isn't attached any more, from the store.
    fn remove_first(&mut self)
        requires listed { HasKeptIds self.old.store self.old.kept.items self.old.log }
        requires some { 0 < length self.old.kept.items }
        ensures dropped { HasDropped self.old.log self.old.store self.new.store }
        ensures leaving { (n : ℕ) → AreLeaving self.old.store self.old.propagator self.old.trail (take (n + 1) self.old.kept.items) → AreLeaving self.new.store self.new.propagator self.new.trail (take n self.new.kept.items) }
        ensures listed { HasKeptIds self.new.store self.new.kept.items self.new.log }
        ensures one { length self.old.kept.items ≡ length self.new.kept.items + 1 }
        ensures log { self.new.log ≡ self.old.log }
        ensures trail { self.new.trail ≡ self.old.trail }
    {
        if let Some(id) = self.kept.pop_front() {
            // That no id is there twice is said where the store is asked for one.
            let _live = self.store.is_live(id);
            self.store.remove(id);
        }
    }

    /// Drops the oldest kept clauses, as many as there are beyond the limit.
    pub fn drop_oldest(&mut self)
        requires idle { IsIdle self.old.store self.old.propagator self.old.trail }
        requires listed { HasKeptIds self.old.store self.old.kept.items self.old.log }
        ensures dropped { HasDropped self.old.log self.old.store self.new.store }
        ensures idle { IsIdle self.new.store self.new.propagator self.new.trail }
        ensures listed { HasKeptIds self.new.store self.new.kept.items self.new.log }
        ensures count { length self.new.kept.items ≡ min kept_limit (length self.old.kept.items) }
        ensures log { self.new.log ≡ self.old.log }
        ensures trail { self.new.trail ≡ self.old.trail }
    {
        let many = self.kept.len().saturating_sub(KEPT_LIMIT);
        self.detach_oldest(many);
        while self.kept.len() > KEPT_LIMIT {
            self.remove_first();
        }
    }

    /// Closes the gaps in the store where they are many and there is memory for it, and else leaves all as it is.
    pub fn close_gaps(&mut self)
        requires idle { IsIdle self.old.store self.old.propagator self.old.trail }
        requires listed { HasKeptIds self.old.store self.old.kept.items self.old.log }
        ensures same { map content self.new.store ≡ map content self.old.store }
        ensures idle { IsIdle self.new.store self.new.propagator self.new.trail }
        ensures listed { HasKeptIds self.new.store self.new.kept.items self.new.log }
        ensures log { self.new.log ≡ self.old.log }
        ensures trail { self.new.trail ≡ self.old.trail }
    {
        if !self.store.is_sparse() {
            return;
        }
        let Ok(moves) = self.store.compact() else {
            return;
        };
        // That no two ids go to one is said where one is looked up.
        let _first = moves.of(ConId(0));
        self.propagator.remap(&moves);
        rename(&mut self.kept, &moves);
    }
}
