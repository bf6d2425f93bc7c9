//! The propagator: the attached constraints, and the runs over a trail.
//!
//! It keeps a copy of each attached constraint, so that it stays the same whatever the store does. Its counted
//! literals are those of the trail that its rooms take into account: all of them after a run, and a first part of
//! them once more were pushed. A clause of some length is watched, and any other constraint counted. The work is done by
//! `counters` and `watches`, which know slots and not ids.
ghost use Rattle.std.specs.Prelude.{◌≡◌, ◌+◌, [], IfOk, OnOk, OnErr, IfSome, IfNone, IsTrue, Some, None};
ghost use Rattle.pb_rules.specs.Linear.{VarsBelow};
ghost use Rattle.constraint_store.specs.Live.{is_live, constraint_of, new_id};
ghost use Rattle.propagate.specs.Attached.{ChangesOnly, Drops, IsMoved};
ghost use Rattle.propagate.specs.Propagator.{IsReady, IsCounted, IsAlong};
ghost use Rattle.propagate.specs.Forced.{Appends, IsConflict, AllClosed};

use super::counters::Counters;
use super::ranked::Ranked;
use super::watched::Watched;
use super::watches::Watches;
use constraint_store::{Moves, Store};
use pb_constraints::{ConId, Constraint};
use std::alloc::{AllocError, Global};
use std::marker::Model;
use trail_state::Trail;

/// There are fewer variables than this.
const VARIABLE_LIMIT: u64 = 1 << 62;

/// A constraint that is taken out by itself costs about as much as a pass costs for so many slots.
const SLOTS_FOR_ONE: usize = 64;

/// The attached constraints under their ids.
#[derive(Drop, Debug)]
pub struct Propagator {
    counters: Counters,
    watches: Watches,
}

impl Model for Propagator {
    ghost use Rattle.propagate.specs.Counters.{counted_of};
    ghost use Rattle.propagate.specs.Propagator.{PropagatorView, IsPropagator, attached_in};

    ghost Value = { PropagatorView };

    ghost view = { λ p. record { variables = p.counters.variables; attached = attached_in p.counters p.watches; counted = counted_of p.counters } };

    ghost invariant = { λ p. IsPropagator p.counters p.watches };
}

impl Propagator {
    /// A propagator over so many variables, with nothing attached and no literal counted.
    pub fn new(alloc: Global, variables: u64) -> Result<Propagator, AllocError>
        ensures { IfOk result (λ p. p ≡ record { variables = variables; attached = []; counted = [] }) }
    {
        if variables >= VARIABLE_LIMIT {
            return Err(AllocError);
        }
        let mut counters = Counters::new(alloc)?;
        counters.grow(variables)?;
        let mut watches = Watches::new(alloc);
        watches.grow(variables)?;
        Ok(Propagator { counters, watches })
    }

    /// Adds so many variables. An `Err` leaves the propagator as it was.
    pub fn grow(&mut self, more: u64) -> Result<(), AllocError>
        ensures ok { OnOk result (self.new ≡ record self.old { variables = self.old.variables + more }) }
        ensures err { OnErr result (self.new ≡ self.old) }
    {
        let variables = self.counters.variables;
        if more >= VARIABLE_LIMIT - variables {
            return Err(AllocError);
        }
        self.watches.grow(variables + more)?;
        self.counters.grow(variables + more)
    }

    /// Attaches the store's constraint under an id. The store has each attached constraint under its id, so a second
    /// call with an id changes nothing. An `Err` leaves the propagator as it was.
    pub fn attach(&mut self, c: ConId, store: &Store, trail: &Trail) -> Result<(), AllocError>
        requires ready { IsReady self.old store.now trail.now }
        requires live { IsTrue (is_live store.now c) }
        requires in_range { VarsBelow self.old.variables (constraint_of store.now c).terms }
        ensures ok { OnOk result (ChangesOnly self.old.attached self.new.attached c (Some (constraint_of store.now c))) }
        ensures err { OnErr result (self.new ≡ self.old) }
        ensures variables { self.new.variables ≡ self.old.variables }
        ensures counted { IsCounted self.new trail.now }
    {
        if self.counters.is_filled(c.0 as usize) || self.watches.is_filled(c.0 as usize) {
            return Ok(());
        }
        if c.0 == u64::MAX {
            return Err(AllocError);
        }
        let alloc = *self.counters.slots.allocator();
        let terms = Vec::from_slice(alloc, store.terms(c))?;
        match Watched::of(Constraint::of_normal(terms, store.degree(c)), trail) {
            Ok(watched) => self.watches.attach(c.0 as usize, watched, trail),
            Err(constraint) => {
                let ranked = Ranked::new(alloc, constraint)?;
                self.counters.attach(c.0 as usize, ranked, trail)
            }
        }
    }

    /// Takes out the constraint that is attached under an id. Where there is none, it changes nothing.
    pub fn detach(&mut self, c: ConId)
        ensures attached { ChangesOnly self.old.attached self.new.attached c None }
        ensures same { self.new ≡ record self.old { attached = self.new.attached } }
    {
        self.counters.empty(c.0 as usize);
        self.watches.empty(c.0 as usize);
    }

    /// Takes out the constraints that are attached under these ids. Where there is none under one, that changes nothing.
    pub fn detach_each(&mut self, dropped: &[ConId])
        ensures attached { Drops dropped.now self.old.attached self.new.attached }
        ensures same { self.new ≡ record self.old { attached = self.new.attached } }
    {
        if dropped.len() < self.counters.slots.len() / SLOTS_FOR_ONE {
            return self.detach_singly(dropped);
        }
        self.counters.empty_each(dropped);
        self.watches.empty_each(dropped);
    }

    /// The same, one after another.
    fn detach_singly(&mut self, dropped: &[ConId])
        ensures attached { Drops dropped.now self.old.attached self.new.attached }
        ensures same { self.new ≡ record self.old { attached = self.new.attached } }
    {
        for c in dropped {
            self.detach(*c);
        }
    }

    /// Gives each attached constraint its new id, and takes out those that have none.
    pub fn remap(&mut self, moves: &Moves)
        ensures attached { IsMoved (new_id moves.now) self.old.attached self.new.attached }
        ensures same { self.new ≡ record self.old { attached = self.new.attached } }
    {
        // No two ids go to one, as is said at each look-up.
        let _first = moves.of(ConId(0));
        self.counters.remap(moves);
        self.watches.remap(moves);
    }

    /// Pushes what the attached constraints force, each literal with the id of one that forces it there. It answers
    /// the id of an attached constraint in conflict, where it stopped at one. Otherwise none is in conflict or forces
    /// an unassigned literal.
    pub fn run(&mut self, trail: &mut Trail, store: &Store) -> Option<ConId>
        requires { IsReady self.old store.now trail.old }
        ensures appends { Appends self.old.attached trail.old.entries trail.new.entries }
        ensures conflict { IfSome result (IsConflict self.old.attached trail.new.entries) }
        ensures closed { IfNone result (AllClosed self.old.attached trail.new.entries) }
        ensures variables { trail.new.variables ≡ trail.old.variables }
        ensures same { self.new ≡ record self.old { counted = self.new.counted } }
        ensures counted { IsCounted self.new trail.new }
    {
        let mut visited = self.watches.last_closed();
        'closing: loop {
            if let Some(slot) = self.counters.close(trail) {
                return Some(ConId(slot as u64));
            }
            let before = trail.literals().len();
            if let Some(slot) = self.watches.close(&mut visited, trail) {
                return Some(ConId(slot as u64));
            }
            let _assigned = trail.assigned();
            if trail.literals().len() == before {
                self.watches.close_at(visited, before);
                return None;
            }
        }
    }

    /// Tells the propagator that literals were taken off the trail, by a jump back or otherwise.
    pub fn back(&mut self, trail: &Trail)
        requires { IsAlong self.old trail.now }
        ensures same { self.new ≡ record self.old { counted = self.new.counted } }
        ensures counted { IsCounted self.new trail.now }
    {
        let kept = self.counters.used.min(trail.literals().len());
        self.counters.uncount_to(kept);
        self.watches.forget_beyond(kept);
    }
}
