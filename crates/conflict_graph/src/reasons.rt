//! How a constraint is made a clause of its false literals: weakened on each variable whose literal is not false, then
//! saturated, then divided by its degree, rounded up. The constraint is in conflict, so a degree of at least 1 is left,
//! saturation leaves no coefficient above it, and the division makes each coefficient and the degree 1. A saturation or
//! division that would change nothing isn't written, so that a clause is named by its id alone.
//!
//! A reason is handled as a conflict: the literal that it forced is taken as false where its operations are written. Of
//! the trail only what stands before that literal counts, which the trail answers by places; no value is copied. The
//! clause of a reason is then resolved with the one so far by a sum and a saturation.

ghost use Rattle.std.specs.Prelude.{◌≡◌, ◌<◌, ◌++◌, ◌∷◌, [], OnOk, Option, None, true, take};
ghost use Rattle.pb_rules.specs.Linear.{IsNormal};
ghost use Rattle.pb_rules.specs.Partial.{InConflict, is_false, flipped};
ghost use Rattle.conflict_graph.specs.Clauses.{clause_ops, finishing};
ghost use Rattle.constraint_store.specs.Live.{is_live, constraint_of, proof_id_of};
ghost use Rattle.conflict_graph.specs.Learning.{seen};
ghost use Rattle.trail_state.specs.Trail.{value_in};

use bumpalo::Bump;
use constraint_store::Store;
use pb_constraints::{ConId, Lit};
use pb_rules::Op;
use std::alloc::AllocError;
use trail_state::Trail;

/// Whether a literal is false before a place of the trail.
pub fn is_false(trail: &Trail, place: usize, lit: Lit) -> bool
    ensures { result ≡ is_false (value_in (take place trail.now.entries)) lit }
{
    match trail.value_before(lit.var(), place) {
        None => false,
        Some(value) => value != lit.is_yes(),
    }
}

/// The same where one more literal is taken as false.
fn is_false_with(trail: &Trail, place: usize, made: &Option<Lit>, lit: Lit) -> bool
    ensures { result ≡ is_false (seen trail.now.entries place made.now) lit }
{
    match made {
        Some(other) if other.var() == lit.var() => other.is_yes() == lit.is_yes(),
        _ => is_false(trail, place, lit),
    }
}

/// Writes the saturation and the division of a constraint with this greatest coefficient, each where it changes something.
fn finish(degree: u64, greatest: u64, ops: &mut Vec<Op, &Bump>) -> Result<(), AllocError>
    ensures { OnOk result (ops.new.items ≡ ops.old.items ++ finishing degree greatest) }
{
    if degree < greatest {
        ops.push(Op::Saturate)?;
    }
    if degree > 1 {
        ops.push(Op::Divide(degree))?;
    }
    Ok(())
}

/// Writes the operations that make the clause of a constraint's false literals, before a place of the trail and with one
/// more literal taken as false where there is one.
pub fn explain(
    trail: &Trail,
    place: usize,
    made: &Option<Lit>,
    store: &Store,
    c: ConId,
    ops: &mut Vec<Op, &Bump>,
) -> Result<(), AllocError>
    requires live { is_live store.now c ≡ true }
    requires conflict { InConflict (seen trail.now.entries place made.now) (constraint_of store.now c) }
    ensures written { OnOk result (ops.new.items ≡ ops.old.items ++ clause_ops (proof_id_of store.now c) (seen trail.now.entries place made.now) (constraint_of store.now c)) }
    ensures normal { IsNormal (constraint_of store.now c).terms (constraint_of store.now c).degree }
{
    let terms = store.terms(c);
    ops.push(Op::Id(store.proof_id(c)))?;
    let mut room = 0u64;
    let mut greatest = 0u64;
    for t in terms {
        if is_false_with(trail, place, made, t.lit) {
            greatest = greatest.max(t.coef);
        } else {
            ops.push(Op::Weaken(t.lit.var()))?;
            room += t.coef;
        }
    }
    finish(store.degree(c) - room, greatest, ops)
}

/// Writes the operations that resolve a clause with the reason of the literal at a place of the trail.
pub fn explain_reason(
    trail: &Trail,
    place: usize,
    store: &Store,
    c: ConId,
    lit: Lit,
    ops: &mut Vec<Op, &Bump>,
) -> Result<(), AllocError>
    requires live { is_live store.now c ≡ true }
    requires conflict { InConflict (flipped (value_in (take place trail.now.entries)) lit) (constraint_of store.now c) }
    ensures ops { OnOk result (ops.new.items ≡ ops.old.items ++ (clause_ops (proof_id_of store.now c) (flipped (value_in (take place trail.now.entries)) lit) (constraint_of store.now c) ++ Op.Add ∷ Op.Saturate ∷ [])) }
    ensures normal { IsNormal (constraint_of store.now c).terms (constraint_of store.now c).degree }
{
    explain(trail, place, &Some(lit), store, c, ops)?;
    ops.push(Op::Add)?;
    ops.push(Op::Saturate)?;
    Ok(())
}
