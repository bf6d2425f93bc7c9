//! The solver: given constraints and the log of what was derived from them, over calls that ask for the first model.
//!
//! Between two calls a solver holds its given constraints, each under the id that the proof has for it, and the clauses
//! of the last lines of its log. A call adds lines to the log and leaves the given constraints as they were. After want of memory a solver is spent, and each later
//! call that could fail for want of memory does. What a frame is, and where a line is legal in it, `pb_rules` says; no
//! specification is known here. The parts stand in `engine`, the search in `searching`.

ghost use Rattle.std.specs.Prelude.{◌≡◌, ◌<◌, ◌^◌, ◌+◌, ◌++◌, ◌∷◌, [], true, false, length, min, All, IfOk, OnOk, OnErr};
ghost use Rattle.pb_rules.specs.Linear.{VarsBelow};
ghost use Rattle.pb_rules.specs.Frames.{cover, derived_count};
ghost use Rattle.proof_log.specs.Log.{next_id};
ghost use Rattle.ordered_solver.specs.Answers.{AnswerSays, AnswersInFrames, AreNewOverKept, CountSays, GoesOnDerived, new_lines};
ghost use Rattle.ordered_solver.specs.Solver.{constraints_of, numbered, kept_limit, AreKept, IsGivenId, HasGivenId};

use super::answer::Answer;
use super::engine::Engine;
use constraint_store::Store;
use pb_constraints::{Constraint, Set};
use proof_log::Log;
use propagate::Propagator;
use std::alloc::{AllocError, Global};
use std::marker::Model;
use trail_state::Trail;
use variable_order::Order;

/// Given constraints, each with the id that the proof has for it, the log of what was derived from them, and the clauses
/// of its last lines.
#[derive(Drop, Debug)]
pub struct Solver {
    engine: Engine,
    spent: bool,
}

impl Model for Solver {
    ghost use Rattle.ordered_solver.specs.Engines.{IsSolver, given_of, kept_of};
    ghost use Rattle.ordered_solver.specs.Solver.{SolverValue};

    ghost Value = { SolverValue };

    ghost view = { λ s. record { variables = s.engine.trail.variables; given = given_of s.engine.log s.engine.store; kept = kept_of s.engine.log s.engine.store; log = s.engine.log; spent = s.spent } };

    ghost invariant = { λ s. IsSolver s.engine.store s.engine.propagator s.engine.trail s.engine.kept.items s.engine.log s.spent };
}

impl Solver {
    /// A solver over a set of constraints, which the proof has under the ids 1, 2 and so on. Its log begins after them.
    pub fn new(alloc: Global, set: Set) -> Result<Solver, AllocError>
        ensures ok { IfOk result (λ s. s ≡ record { variables = set.variables; given = numbered 1 set.constraints; kept = []; log = record { first = length set.constraints + 1; lines = [] }; spent = false }) }
        ensures few { OnOk result (length set.constraints + 1 < 2 ^ 62) }
    {
        let variables = set.variables();
        let constraints = set.into_constraints();
        let first_id = constraints.len() as u64 + 1;
        if first_id >= 1 << 62 {
            return Err(AllocError);
        }
        let mut engine = Engine::new(alloc, variables, first_id)?;
        engine.load(constraints)?;
        Ok(Solver {
            engine,
            spent: false,
        })
    }

    /// Adds so many variables.
    pub fn add_variables(&mut self, more: u64) -> Result<(), AllocError>
        ensures ok { OnOk result (self.new ≡ record self.old { variables = self.old.variables + more }) }
        ensures ready { OnOk result (self.old.spent ≡ false) }
        ensures spent { OnErr result (self.new.spent ≡ true) }
        ensures still { self.old.spent ≡ true → self.new ≡ self.old }
    {
        if self.spent {
            return Err(AllocError);
        }
        self.spent = true;
        self.engine.grow(more)?;
        self.spent = false;
        Ok(())
    }

    /// Adds a copy of a constraint, which the proof has under an id.
    pub fn add_constraint(&mut self, c: &Constraint, proof_id: u64) -> Result<(), AllocError>
        requires in_range { VarsBelow self.old.variables c.now.terms }
        requires given { IsGivenId self.old.log proof_id }
        ensures ok { OnOk result (self.new ≡ record self.old { given = self.old.given ++ record { constraint = c.now; proof_id = proof_id } ∷ [] }) }
        ensures ready { OnOk result (self.old.spent ≡ false) }
        ensures spent { OnErr result (self.new.spent ≡ true) }
        ensures still { self.old.spent ≡ true → self.new ≡ self.old }
    {
        if self.spent {
            return Err(AllocError);
        }
        self.spent = true;
        let copied = c.copy(*self.engine.kept.allocator())?;
        self.engine.add(copied, proof_id)?;
        self.spent = false;
        Ok(())
    }

    /// Writes a cover to the log, and answers the first id of its block. All ids of the block are below 2^63.
    pub fn cover(&mut self, v: &[u64]) -> Result<u64, AllocError>
        ensures id { IfOk result (λ id. id ≡ next_id self.old.log) }
        ensures in_range { IfOk result (λ id. id < 2 ^ 63) }
        ensures ok { OnOk result (self.new ≡ record self.old { log = record self.old.log { lines = self.old.log.lines ++ cover v.now ∷ [] } }) }
        ensures room { OnOk result (next_id self.new.log < 2 ^ 63) }
        ensures ready { OnOk result (self.old.spent ≡ false) }
        ensures spent { OnErr result (self.new.spent ≡ true) }
        ensures still { self.old.spent ≡ true → self.new ≡ self.old }
    {
        if self.spent {
            return Err(AllocError);
        }
        self.spent = true;
        let id = self.engine.log.cover(v)?;
        self.spent = false;
        Ok(id)
    }

    /// The log. Each given constraint has an id below the log's next one that is no derived line's.
    pub fn log(&self) -> &Log
        ensures log { result.now ≡ self.now.log }
        ensures given_ids { self.now.spent ≡ false → All (HasGivenId self.now.log) self.now.given }
    {
        &self.engine.log
    }

    /// The log alone. It takes no memory.
    pub fn into_log(self) -> Log
        ensures { result ≡ self.log }
    {
        self.engine.log
    }

    /// How many clauses of earlier calls are kept: one for each derived line of the log, but at most 4,096. They are the
    /// last ones that were learned. Each stands under the id of its line, and each model of the given constraints
    /// satisfies them.
    pub fn kept(&self) -> usize
        ensures count { self.now.spent ≡ false → result ≡ min kept_limit (derived_count self.now.log.lines) }
        ensures kept { self.now.spent ≡ false → result ≡ length self.now.kept }
        ensures are_kept { self.now.spent ≡ false → AreKept self.now.given self.now.kept self.now.log }
    {
        self.engine.kept.len()
    }

    /// The first model of the given constraints in the order, or that there is none; or `Budget` once as many clauses
    /// were learned as the budget has. Each conflict adds one derived line to the log and nothing else does. In each frame
    /// that agrees with the solver the lines are legal, each gives a clause that the given constraints, the kept clauses
    /// and the clauses before it do not absorb, and where there is no model the last one gives `0 >= 1`. After a model
    /// the log shows that it is the first. What was kept when the call begins changes none of this.
    pub fn solve(&mut self, alloc: Global, order: &Order, budget: u64) -> Result<Answer, AllocError>
        requires every { length order.now ≡ self.old.variables }
        requires some { 0 < budget }
        ensures answer { IfOk result (AnswerSays (constraints_of self.old.given) order.now) }
        ensures count { IfOk result (CountSays self.old.variables budget (length (new_lines self.old.log self.new.log))) }
        ensures log { OnOk result (GoesOnDerived self.old.log self.new.log) }
        ensures frames { IfOk result (AnswersInFrames self.old self.new order.now) }
        ensures new { IfOk result (AreNewOverKept self.old self.new) }
        ensures same { OnOk result (self.new ≡ record self.old { kept = self.new.kept; log = self.new.log }) }
        ensures ready { OnOk result (self.old.spent ≡ false) }
        ensures spent { OnErr result (self.new.spent ≡ true) }
        ensures still { self.old.spent ≡ true → self.new ≡ self.old }
    {
        if self.spent {
            return Err(AllocError);
        }
        self.spent = true;
        let answer = self.engine.solve(alloc, order, budget)?;
        self.spent = false;
        Ok(answer)
    }
}
