//! From a conflict to the next trail: the learned clause, the jump back, and the literal that the clause then forces.
//!
//! The analysis of the conflict is that of `conflict_graph`, which also writes the log's line. The clause is added and
//! attached here, so that it stays live until the search ends, and its id is put last among the kept ones. At level 0 the
//! clause is `0 >= 1`, and there is nothing to go on with. Learning by jumps back is that of Marques-Silva and Sakallah.

ghost use Rattle.std.specs.Prelude.{◌≡◌, ◌<◌, ◌++◌, ◌∷◌, [], IfOk, OnOk};
ghost use Rattle.pb_rules.specs.Partial.{InConflict};
ghost use Rattle.constraint_store.specs.Live.{constraint_of};
ghost use Rattle.trail_state.specs.Trail.{value_in, level_of};
ghost use Rattle.conflict_graph.specs.Conditions.{IsUsable, AllForced, HasCurrent};
ghost use Rattle.ordered_solver.specs.Engines.{IsLoaded};
ghost use Rattle.ordered_solver.specs.Lessons.{Learns, Refutes};
ghost use Rattle.ordered_solver.specs.Trails.{HasUnassigned, IsUnassignedAt};

use super::engine::Engine;
use conflict_graph::analyse;
use pb_constraints::{ConId, Constraint, Lit};
use std::alloc::{AllocError, Global};
use trail_state::Trail;

/// The first literal of a clause whose variable has no value.
fn unassigned_literal(clause: &Constraint, trail: &Trail) -> Lit
    requires { HasUnassigned (value_in trail.now.entries) clause.now.terms }
    ensures { IsUnassignedAt (value_in trail.now.entries) clause.now.terms result }
{
    let terms = clause.terms();
    for t in terms {
        if trail.value(t.lit.var()).is_none() {
            return t.lit;
        }
    }
    unreachable!()
}

impl Engine {
    /// Learns a clause above level 0: derives it, jumps back to where it forces its literal, adds it and pushes that.
    pub fn learn(&mut self, alloc: Global, conflict: ConId) -> Result<ConId, AllocError>
        requires loaded { IsLoaded self.old.store self.old.propagator self.old.trail }
        requires usable { IsUsable self.old.store self.old.trail.variables conflict }
        requires conflict { InConflict (value_in self.old.trail.entries) (constraint_of self.old.store conflict) }
        requires level { 0 < level_of self.old.trail.entries }
        requires current { HasCurrent self.old.trail.entries (constraint_of self.old.store conflict).terms }
        requires forced { AllForced self.old.store self.old.trail.variables self.old.trail.entries }
        ensures learns { IfOk result (Learns self.old.store self.new.store self.old.propagator.attached self.new.propagator.attached self.old.trail.entries self.new.trail.entries self.old.log self.new.log) }
        ensures id { IfOk result (λ id. self.new.kept.items ≡ self.old.kept.items ++ id ∷ []) }
        ensures loaded { OnOk result (IsLoaded self.new.store self.new.propagator self.new.trail) }
        ensures variables { self.new.trail.variables ≡ self.old.trail.variables }
    {
        let _assigned = self.trail.assigned();
        let lesson = analyse(alloc, &self.trail, &self.store, conflict, &mut self.log)?;
        self.trail.jump_back(lesson.back_level);
        self.propagator.back(&self.trail);
        let lit = unassigned_literal(&lesson.clause, &self.trail);
        let id = self.add(lesson.clause, lesson.proof_id)?;
        self.trail.push(lit, id);
        self.kept.push_back(id)?;
        Ok(id)
    }

    /// Derives `0 >= 1` from a conflict at level 0, and adds it.
    pub fn refute(&mut self, alloc: Global, conflict: ConId) -> Result<ConId, AllocError>
        requires loaded { IsLoaded self.old.store self.old.propagator self.old.trail }
        requires usable { IsUsable self.old.store self.old.trail.variables conflict }
        requires conflict { InConflict (value_in self.old.trail.entries) (constraint_of self.old.store conflict) }
        requires level { level_of self.old.trail.entries ≡ 0 }
        requires forced { AllForced self.old.store self.old.trail.variables self.old.trail.entries }
        ensures refutes { IfOk result (Refutes self.old.store self.new.store self.old.log self.new.log) }
        ensures id { IfOk result (λ id. self.new.kept.items ≡ self.old.kept.items ++ id ∷ []) }
        ensures loaded { OnOk result (IsLoaded self.new.store self.new.propagator self.new.trail) }
        ensures trail { self.new.trail ≡ self.old.trail }
    {
        let lesson = analyse(alloc, &self.trail, &self.store, conflict, &mut self.log)?;
        let id = self.add(lesson.clause, lesson.proof_id)?;
        self.kept.push_back(id)?;
        Ok(id)
    }
}
