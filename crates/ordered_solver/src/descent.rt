//! Down the order: propagation, and decisions between.
//!
//! A descent puts literals onto the trail and changes nothing else. It ends at a constraint in conflict, which
//! `learning` takes apart, or once each variable has a value, which is a model. Decisions follow the order alone: the
//! first literal whose variable has no value is made true (Davis, Putnam, Logemann and Loveland).
//!
//! The order is not gone over from its start each time. Each level has a place in it, before which each literal had a
//! value when the level was begun, and still has as long as the level stands. So a jump back changes no place.

ghost use Rattle.std.specs.Prelude.{ℕ, ◌≡◌, ◌<◌, ◌≤◌, length, slice_index_or, All, IfOk, IfSome, IfNone};
ghost use Rattle.trail_state.specs.Trail.{Entry};
ghost use Rattle.propagate.specs.Forced.{AllClosed, IsConflict};
ghost use Rattle.ordered_solver.specs.Engines.{IsLoaded};
ghost use Rattle.ordered_solver.specs.Trails.{IsVarBelow, IsNextAt, HasPassed, ArePassed, IsFull, IsOrdered, GoesOnFrom};

use super::engine::Engine;
use pb_constraints::{ConId, Lit};
use std::alloc::{AllocError, Global};
use trail_state::Trail;

/// The order's start as the place of each level that there can be.
pub fn first_places(alloc: Global, variables: u64) -> Result<Vec<usize>, AllocError>
    ensures long { IfOk result (λ p. variables < length p.items) }
    ensures start { IfOk result (λ p. (n : ℕ) → slice_index_or p.items n 0 ≡ 0) }
{
    let mut places = Vec::new(alloc);
    while places.len() as u64 <= variables {
        places.push(0)?;
    }
    Ok(places)
}

/// The place of the first literal of the order whose variable has no value, where all before a place have one.
fn next_decision(order: &[Lit], passed: usize, trail: &Trail) -> Option<usize>
    requires { HasPassed order.now passed trail.now.entries }
    ensures next { IfSome result (IsNextAt order.now trail.now.entries) }
    ensures full { IfNone result (IsFull order.now trail.now.entries) }
{
    let mut place = passed;
    while place < order.len() {
        if trail.value(order[place].var()).is_none() {
            return Some(place);
        }
        place += 1;
    }
    None
}

impl Engine {
    /// Propagates and decides until a constraint is in conflict, or each variable has a value.
    pub fn descend(&mut self, order: &[Lit], places: &mut [usize]) -> Option<ConId>
        requires loaded { IsLoaded self.old.store self.old.propagator self.old.trail }
        requires in_range { All (IsVarBelow self.old.trail.variables) order.now }
        requires ordered { IsOrdered self.old.propagator.attached order.now self.old.trail.entries }
        requires passed { ArePassed order.now self.old.trail.entries places.old }
        requires long { self.old.trail.variables < length places.old }
        ensures passed { ArePassed order.now self.new.trail.entries places.new }
        ensures same_length { length places.new ≡ length places.old }
        ensures ordered { IsOrdered self.old.propagator.attached order.now self.new.trail.entries }
        ensures goes_on { GoesOnFrom self.old.trail.entries self.new.trail.entries }
        ensures conflict { IfSome result (IsConflict self.old.propagator.attached self.new.trail.entries) }
        ensures closed { IfNone result (AllClosed self.old.propagator.attached self.new.trail.entries) }
        ensures full { IfNone result (IsFull order.now self.new.trail.entries) }
        ensures loaded { IsLoaded self.new.store self.new.propagator self.new.trail }
        ensures attached { self.new.propagator.attached ≡ self.old.propagator.attached }
        ensures variables { self.new.trail.variables ≡ self.old.trail.variables }
        ensures store { self.new.store ≡ self.old.store }
        ensures log { self.new.log ≡ self.old.log }
        ensures kept { self.new.kept.items ≡ self.old.kept.items }
        ensures few { length self.new.trail.entries ≤ self.new.trail.variables }
    {
        loop {
            let conflict = self.propagator.run(&mut self.trail, &self.store);
            let _assigned = self.trail.assigned();
            if conflict.is_some() {
                return conflict;
            }
            let passed = places[self.trail.level() as usize];
            match next_decision(order, passed, &self.trail) {
                None => return None,
                Some(place) => {
                    let lit = order[place];
                    self.trail.decide(lit);
                    let _assigned = self.trail.assigned();
                    places[self.trail.level() as usize] = place;
                }
            }
        }
    }
}
