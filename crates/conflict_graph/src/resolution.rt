//! The walk over the trail from its end: where the clause has the opposite of the literal at a place, it is resolved
//! with that literal's reason. Above level 0 the walk ends once the clause has one literal of the current level (the
//! implication point of Marques-Silva and Sakallah), which is so at the latest at the level's decision; at level 0 it
//! ends at the trail's beginning, with an empty clause. No literal of a lower level is resolved on.

ghost use Rattle.std.specs.Prelude.{ℕ, ◌≡◌, ◌≢◌, ◌<◌, ◌^◌, ◌+◌, [], IfOk, OnOk, None, true, false, length, take, slice_index_or, is_some};
ghost use Rattle.pb_rules.specs.Partial.{InConflict};
ghost use Rattle.constraint_store.specs.Live.{constraint_of};
ghost use Rattle.trail_state.specs.Trail.{Entry, value_in, level_of};
ghost use Rattle.conflict_graph.specs.Conditions.{IsUsable, AllForced, HasCurrent};
ghost use Rattle.conflict_graph.specs.Learning.{signs, Learning, Learnt, HasLevels};

use crate::marks::{drop_literal, mark};
use crate::reasons::{explain, explain_reason};
use bumpalo::Bump;
use constraint_store::Store;
use pb_constraints::ConId;
use pb_rules::Op;
use std::alloc::AllocError;
use trail_state::Trail;

/// Resolves the clause with the reason of the literal at a place.
fn resolve(
    trail: &Trail,
    store: &Store,
    levels: &[u64],
    place: usize,
    clause: &mut [Option<bool>],
    count: u64,
    ops: &mut Vec<Op, &Bump>,
) -> Result<u64, AllocError>
    requires levels { HasLevels trail.now.entries trail.now.variables levels.now }
    requires clause_length { length clause.old ≡ trail.now.variables }
    requires few { trail.now.variables < 2 ^ 62 }
    requires place { place < length trail.now.entries }
    requires marked { (d : Entry) → is_some (signs clause.old (slice_index_or trail.now.entries place d).lit.var) ≡ true }
    requires two { 0 < level_of trail.now.entries → 1 < count }
    requires forced { AllForced store.now trail.now.variables trail.now.entries }
    requires learning { Learning store.now trail.now.entries trail.now.variables (place + 1) (signs clause.old) count ops.old.items }
    ensures { IfOk result (λ k. Learning store.now trail.now.entries trail.now.variables place (signs clause.new) k ops.new.items) }
{
    let _assigned = trail.assigned();
    let lit = trail.literals()[place];
    match trail.reason(lit.var()) {
        None => unreachable!(),
        Some(reason) => {
            explain_reason(trail, place, store, reason, lit, ops)?;
            let rest = drop_literal(trail, levels, lit, clause, count);
            Ok(mark(trail, store, reason, place, levels, clause, rest))
        }
    }
}

/// Takes back one place of the trail, and resolves on its literal where the clause has the opposite.
fn step_back(
    trail: &Trail,
    store: &Store,
    levels: &[u64],
    place: usize,
    clause: &mut [Option<bool>],
    count: u64,
    ops: &mut Vec<Op, &Bump>,
) -> Result<u64, AllocError>
    requires levels { HasLevels trail.now.entries trail.now.variables levels.now }
    requires clause_length { length clause.old ≡ trail.now.variables }
    requires few { trail.now.variables < 2 ^ 62 }
    requires place { place < length trail.now.entries }
    requires two { 0 < level_of trail.now.entries → 1 < count }
    requires forced { AllForced store.now trail.now.variables trail.now.entries }
    requires learning { Learning store.now trail.now.entries trail.now.variables (place + 1) (signs clause.old) count ops.old.items }
    ensures { IfOk result (λ k. Learning store.now trail.now.entries trail.now.variables place (signs clause.new) k ops.new.items) }
{
    let _assigned = trail.assigned();
    let lit = trail.literals()[place];
    let var = lit.var() as usize;
    if clause[var].is_none() {
        return Ok(count);
    }
    resolve(trail, store, levels, place, clause, count, ops)
}

/// Whether an analysis goes on: at level 0 to the end, else until one literal of the current level is left.
fn goes_on(level: u64, count: u64) -> bool
    ensures on { result ≡ true → 0 < level → count ≢ 1 }
    ensures off { result ≡ false → (0 < level) × (count ≡ 1) }
{
    level == 0 || count != 1
}

/// Resolves a conflict with the reasons of its literals, from the trail's end on.
pub fn take_apart(
    trail: &Trail,
    store: &Store,
    conflict: ConId,
    levels: &[u64],
    clause: &mut [Option<bool>],
    ops: &mut Vec<Op, &Bump>,
) -> Result<(), AllocError>
    requires levels { HasLevels trail.now.entries trail.now.variables levels.now }
    requires clause_length { length clause.old ≡ trail.now.variables }
    requires few { trail.now.variables < 2 ^ 62 }
    requires nothing { (x : ℕ) → signs clause.old x ≡ None }
    requires no_ops { ops.old.items ≡ [] }
    requires usable { IsUsable store.now trail.now.variables conflict }
    requires conflict { InConflict (value_in trail.now.entries) (constraint_of store.now conflict) }
    requires current { 0 < level_of trail.now.entries → HasCurrent trail.now.entries (constraint_of store.now conflict).terms }
    requires forced { AllForced store.now trail.now.variables trail.now.entries }
    ensures { OnOk result (Learnt store.now trail.now.entries trail.now.variables (signs clause.new) ops.new.items) }
{
    let mut place = trail.literals().len();
    explain(trail, place, &None, store, conflict, ops)?;
    let mut count = mark(trail, store, conflict, place, levels, clause, 0);
    let level = trail.level();
    while place > 0 {
        if !goes_on(level, count) {
            return Ok(());
        }
        place -= 1;
        count = step_back(trail, store, levels, place, clause, count, ops)?;
    }
    Ok(())
}
