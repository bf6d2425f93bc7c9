//! The parts that a search works on: the constraints, what is attached, the trail and the log.
//!
//! Each live constraint is attached, and nothing else is. `descent`, `learning`, `searching` and `keeping` are further
//! functions of an engine; `solver` holds one between its calls, with an empty trail. A clause that was learned is a live
//! constraint as any other. It is told from a given one by its id in the proof, which is a derived line's, and its own id
//! stands in the list of kept clauses, the oldest first.

ghost use Rattle.std.specs.Prelude.{◌≡◌, ◌≤◌, ◌<◌, ◌^◌, ◌+◌, ◌++◌, ◌∷◌, [], false, Some, IfOk, OnOk, All, map, length};
ghost use Rattle.pb_rules.specs.Linear.{VarsBelow};
ghost use Rattle.constraint_store.specs.Live.{is_live, content};
ghost use Rattle.pb_constraints.specs.Sets.{IsBelow};
ghost use Rattle.propagate.specs.Attached.{ChangesOnly};
ghost use Rattle.ordered_solver.specs.Engines.{IsLoaded, IsIdle};
ghost use Rattle.ordered_solver.specs.Solver.{numbered};

use constraint_store::Store;
use pb_constraints::{ConId, Constraint};
use proof_log::Log;
use propagate::Propagator;
use std::alloc::{AllocError, Global};
use std::collections::VecDeque;
use trail_state::Trail;

/// Constraints, the propagator and trail of a search, its log, and the ids of the clauses that were learned and are kept.
#[derive(Drop, Debug)]
pub(crate) struct Engine {
    pub store: Store,
    pub trail: Trail,
    pub propagator: Propagator,
    pub log: Log,
    pub kept: VecDeque<ConId>,
}

impl Engine {
    /// An engine over so many variables, without constraints, whose log begins at an id.
    pub fn new(alloc: Global, variables: u64, first_id: u64) -> Result<Engine, AllocError>
        requires from_one { 1 ≤ first_id }
        requires small { first_id < 2 ^ 62 }
        ensures idle { IfOk result (λ e. IsIdle e.store e.propagator e.trail) }
        ensures empty { IfOk result (λ e. e.store ≡ []) }
        ensures none_kept { IfOk result (λ e. e.kept.items ≡ []) }
        ensures variables { IfOk result (λ e. e.trail.variables ≡ variables) }
        ensures log { IfOk result (λ e. e.log ≡ record { first = first_id; lines = [] }) }
    {
        Ok(Engine {
            store: Store::new(alloc),
            trail: Trail::new(alloc, variables)?,
            propagator: Propagator::new(alloc, variables)?,
            log: Log::new(alloc, first_id),
            kept: VecDeque::new(alloc),
        })
    }

    /// Adds so many variables.
    pub fn grow(&mut self, more: u64) -> Result<(), AllocError>
        requires idle { IsIdle self.old.store self.old.propagator self.old.trail }
        ensures idle { OnOk result (IsIdle self.new.store self.new.propagator self.new.trail) }
        ensures variables { OnOk result (self.new.trail.variables ≡ self.old.trail.variables + more) }
        ensures store { self.new.store ≡ self.old.store }
        ensures log { self.new.log ≡ self.old.log }
        ensures kept { self.new.kept.items ≡ self.old.kept.items }
    {
        self.trail.grow(more)?;
        self.propagator.grow(more)
    }

    /// Adds constraints under the proof's ids 1, 2 and so on.
    pub fn load(&mut self, constraints: Vec<Constraint>) -> Result<(), AllocError>
        requires idle { IsIdle self.old.store self.old.propagator self.old.trail }
        requires empty { self.old.store ≡ [] }
        requires in_range { All (IsBelow self.old.trail.variables) constraints.items }
        requires few { length constraints.items < 2 ^ 62 }
        ensures idle { OnOk result (IsIdle self.new.store self.new.propagator self.new.trail) }
        ensures given { OnOk result (map content self.new.store ≡ numbered 1 constraints.items) }
        ensures variables { self.new.trail.variables ≡ self.old.trail.variables }
        ensures log { self.new.log ≡ self.old.log }
        ensures kept { self.new.kept.items ≡ self.old.kept.items }
    {
        let mut proof_id = 1;
        for c in constraints {
            self.add(c, proof_id)?;
            proof_id += 1;
        }
        Ok(())
    }

    /// Adds a constraint last and attaches it.
    pub fn add(&mut self, c: Constraint, proof_id: u64) -> Result<ConId, AllocError>
        requires loaded { IsLoaded self.old.store self.old.propagator self.old.trail }
        requires in_range { VarsBelow self.old.trail.variables c.terms }
        ensures added { IfOk result (λ id. self.new.store ≡ self.old.store ++ record { id = id; constraint = c; proof_id = proof_id } ∷ []) }
        ensures fresh { IfOk result (λ id. is_live self.old.store id ≡ false) }
        ensures attached { IfOk result (λ id. ChangesOnly self.old.propagator.attached self.new.propagator.attached id (Some c)) }
        ensures loaded { OnOk result (IsLoaded self.new.store self.new.propagator self.new.trail) }
        ensures trail { self.new.trail ≡ self.old.trail }
        ensures log { self.new.log ≡ self.old.log }
        ensures kept { self.new.kept.items ≡ self.old.kept.items }
    {
        let id = self.store.add(c, proof_id)?;
        self.propagator.attach(id, &self.store, &self.trail)?;
        Ok(id)
    }
}
