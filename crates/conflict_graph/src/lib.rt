//! From a conflict to a learned clause: conflict analysis as in Marques-Silva and Sakallah, over pseudo-Boolean
//! constraints as in Chai and Kuehlmann, and Roussel and Manquinho.
//!
//! A constraint in conflict is made a clause of its false literals, and so is the reason of each literal that the
//! clause is resolved on; the trail is walked from its end until one literal of the current level is left. Beside the
//! clause the analysis writes the operations that derive it, and adds them to the log as one line, last of all, so that
//! want of memory leaves the log as it was. Neither the trail nor the store changes.
//!
//! The steps, each in a file: `reasons` writes how a constraint is made a clause, `marks` keeps the literals of the
//! clause and counts those of the current level, `resolution` walks the trail, and `clauses` writes the clause down and
//! finds the level to jump back to. Values and levels are read where the trail has them: what a value was before a place
//! is asked of the trail. What lives as long as one conflict stands in one arena: the signs of the clause and the
//! operations. The clause is made outside it, before the arena is given up. Propagation is no part of this, and neither
//! is what becomes of the clause.
#![tactic(auto)]

ghost use Rattle.std.specs.Prelude.{ℕ, List, ◌≡◌, ◌<◌, ◌^◌, IfOk, OnErr, length, None, Some};
ghost use Rattle.pb_rules.specs.Linear.{Linear};
ghost use Rattle.pb_rules.specs.Partial.{InConflict};
ghost use Rattle.pb_rules.specs.Frames.{Frame, IsFrame, FitsFrom, Given, context_of, given_by, with_derived, StandsUnder};
ghost use Rattle.constraint_store.specs.Live.{Live, constraint_of};
ghost use Rattle.proof_log.specs.Log.{LogValue, next_id};
ghost use Rattle.trail_state.specs.Trail.{value_in, level_of};
ghost use Rattle.conflict_graph.specs.Conditions.{IsUsable, AllForced, HasCurrent};
ghost use Rattle.conflict_graph.specs.Derives.{Derives, DerivesInFrames};
ghost use Rattle.conflict_graph.specs.Learned.{IsLearned, IsLevelBelow};
ghost use Rattle.conflict_graph.specs.Learning.{signs, HasLevels};

mod clauses;
mod marks;
mod reasons;
mod resolution;

use bumpalo::Bump;
use clauses::{clause_from, level_below};
use constraint_store::Store;
use pb_constraints::{ConId, Constraint};
use proof_log::Log;
use resolution::take_apart;
use std::alloc::{AllocError, Global};
use trail_state::Trail;

/// What an analysis gives: the clause, the greatest level of its literals other than the current one (0 where there are
/// none), and the id under which the proof has the clause.
#[derive(Drop, Debug)]
pub struct Learned {
    pub clause: Constraint,
    pub back_level: u64,
    pub proof_id: u64,
}

/// What is derived wherever the live constraints stand under their proof ids is derived in each frame in which
/// the earlier lines are legal and give the live ones under these ids. In a frame that fits the log, the clause stands
/// under the next id after the line.
pub fn law_of_frames()
    ensures legal { (live : List Live) (old new : LogValue) (clause : Linear) → Derives live old new clause → DerivesInFrames live old new clause }
    ensures stands { (live : List Live) (old new : LogValue) (clause : Linear) (f : Frame) (g : Given) → Derives live old new clause → IsFrame f → FitsFrom f old.first → given_by f old.lines ≡ Some g → next_id old < 2 ^ 63 → StandsUnder (context_of (with_derived g clause)) (next_id old) clause }
{}

/// Derives a clause from a conflict over tables of levels and signs. The operations are collected in the arena,
/// and the clause is made outside it.
fn learn(
    alloc: Global,
    bump: &Bump,
    trail: &Trail,
    store: &Store,
    conflict: ConId,
    levels: &[u64],
    clause: &mut [Option<bool>],
    log: &mut Log,
) -> Result<Learned, AllocError>
    requires levels { HasLevels trail.now.entries trail.now.variables levels.now }
    requires clause_length { length clause.old ≡ trail.now.variables }
    requires few { trail.now.variables < 2 ^ 62 }
    requires nothing { (x : ℕ) → signs clause.old x ≡ None }
    requires usable { IsUsable store.now trail.now.variables conflict }
    requires conflict { InConflict (value_in trail.now.entries) (constraint_of store.now conflict) }
    requires current { 0 < level_of trail.now.entries → HasCurrent trail.now.entries (constraint_of store.now conflict).terms }
    requires forced { AllForced store.now trail.now.variables trail.now.entries }
    ensures derives { IfOk result (λ l. Derives store.now log.old log.new l.clause) }
    ensures proof_id { IfOk result (λ l. l.proof_id ≡ next_id log.old) }
    ensures in_range { IfOk result (λ l. l.proof_id < 2 ^ 63) }
    ensures learned { IfOk result (λ l. IsLearned store.now trail.now.entries l.clause) }
    ensures back { IfOk result (λ l. IsLevelBelow trail.now.entries l.clause.terms l.back_level) }
    ensures err { OnErr result (log.new ≡ log.old) }
{
    let mut ops = Vec::new(bump);
    take_apart(trail, store, conflict, levels, clause, &mut ops)?;
    let made = clause_from(alloc, clause)?;
    let back_level = level_below(trail, levels, &made);
    let proof_id = log.derive(ops.as_slice())?;
    Ok(Learned {
        clause: made,
        back_level,
        proof_id,
    })
}

/// Learns a clause from a conflict, and derives it in one more line of the log, which gives it the id `proof_id`. All
/// its literals are false on the trail; above level 0 exactly one of them is of the current level, and at level 0 it is
/// `0 >= 1`. It is refused only where the log refuses the line, and for want of memory; then the log is as before.
pub fn analyse(
    alloc: Global,
    trail: &Trail,
    store: &Store,
    conflict: ConId,
    log: &mut Log,
) -> Result<Learned, AllocError>
    requires usable { IsUsable store.now trail.now.variables conflict }
    requires conflict { InConflict (value_in trail.now.entries) (constraint_of store.now conflict) }
    requires current { 0 < level_of trail.now.entries → HasCurrent trail.now.entries (constraint_of store.now conflict).terms }
    requires forced { AllForced store.now trail.now.variables trail.now.entries }
    ensures derives { IfOk result (λ l. Derives store.now log.old log.new l.clause) }
    ensures proof_id { IfOk result (λ l. l.proof_id ≡ next_id log.old) }
    ensures in_range { IfOk result (λ l. l.proof_id < 2 ^ 63) }
    ensures learned { IfOk result (λ l. IsLearned store.now trail.now.entries l.clause) }
    ensures back { IfOk result (λ l. IsLevelBelow trail.now.entries l.clause.terms l.back_level) }
    ensures err { OnErr result (log.new ≡ log.old) }
{
    let bump = Bump::new(alloc);
    let mut clause = Vec::new(&bump);
    clause.resize(trail.variables() as usize, None)?;
    learn(
        alloc,
        &bump,
        trail,
        store,
        conflict,
        trail.levels(),
        &mut clause,
        log,
    )
}
