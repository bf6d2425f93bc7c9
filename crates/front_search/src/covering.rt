//! What follows a found design: its cover in the log, and its block in the solver.

ghost use Rattle.std.specs.Prelude.{◌≡◌, ◌<◌, ◌≤◌, ◌+◌, ◌^◌, ◌++◌, ◌∷◌, ℕ, [], All, length, OnOk};
ghost use Rattle.pb_constraints.specs.Sets.{IsBelow};
ghost use Rattle.pb_rules.specs.Frames.{derived_count};
ghost use Rattle.proof_log.specs.HonestLog.{EndsASolve};
ghost use Rattle.ordered_solver.specs.Solver.{numbered, IsGivenId};
ghost use Rattle.result_text.specs.Answers.{as_seen};
ghost use Rattle.front_lists.specs.Lists.{IsNext, vectors_in};
ghost use Rattle.front_search.specs.Searches.{most_lines, seen};
ghost use Rattle.front_search.specs.Turns.{IsSearching, IsUnfinished};

use block_encode::block;
use ordered_solver::Solver;
use pb_constraints::Constraint;
use result_text::Entry;
use spec_graph::Spec;
use std::alloc::{AllocError, Global};

/// Adds constraints under the ids from one on.
fn add_all(solver: &mut Solver, constraints: &[Constraint], first: u64) -> Result<(), AllocError>
    requires in_range { All (IsBelow solver.old.variables) constraints.now }
    requires given { (i : ℕ) → i < length constraints.now → IsGivenId solver.old.log (first + i) }
    requires small { first + length constraints.now ≤ 2 ^ 63 }
    ensures { OnOk result (solver.new ≡ record solver.old { given = solver.old.given ++ numbered first constraints.now }) }
{
    let mut id = first;
    for c in constraints {
        solver.add_constraint(c, id)?;
        id += 1;
    }
    Ok(())
}

/// Writes the cover of the entry that was found next, and adds its block. It is also refused where covers would be too
/// many to be numbered below 2^58, which no memory holds.
pub(crate) fn cover(
    alloc: Global,
    spec: &Spec,
    solver: &mut Solver,
    found: &[Entry],
    entry: &Entry,
) -> Result<(), AllocError>
    requires searching { IsSearching spec.now (seen found.now) solver.old }
    requires next { IsNext spec.now (vectors_in (seen found.now)) (as_seen entry.now) }
    ensures searching { OnOk result (IsSearching spec.now (seen found.now ++ as_seen entry.now ∷ []) solver.new) }
    ensures bounded { derived_count solver.old.log.lines ≤ most_lines spec.now (length (seen found.now) + 1) (length (seen found.now)) → OnOk result (derived_count solver.new.log.lines ≤ most_lines spec.now (length (seen found.now) + 1) (length (seen found.now) + 1)) }
    ensures starts { OnOk result (EndsASolve solver.new.log.lines) }
    ensures few { OnOk result (length found.now + 1 < 2 ^ 58) }
    ensures unfinished { (budget : ℕ) → IsUnfinished spec.now budget solver.old.log.lines → OnOk result (IsUnfinished spec.now budget solver.new.log.lines) }
{
    spec.facts();
    let cover_no = found.len() as u64 + 1;
    if cover_no >= 1 << 58 {
        return Err(AllocError);
    }
    let v = entry.vector.numbers();
    let block = block(alloc, spec, cover_no, v)?;
    let first = solver.cover(v)?;
    solver.add_variables(spec.objectives() as u64)?;
    add_all(solver, &block, first)?;
    Ok(())
}
