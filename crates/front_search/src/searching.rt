//! The loop over solves: each gives the next found design, or the end.

ghost use Rattle.std.specs.Prelude.{◌≡◌, ◌<◌, ◌≤◌, ◌+◌, ◌^◌, All, length, take, IfOk, OnOk};
ghost use Rattle.pb_rules.specs.Linear.{IsModel};
ghost use Rattle.pb_rules.specs.Frames.{derived_count};
ghost use Rattle.proof_log.specs.HonestLog.{EndsASolve};
ghost use Rattle.proof_log.specs.Text.{proof_text};
ghost use Rattle.spec_model.specs.Spec.{bits_of, design_variables, all_variables};
ghost use Rattle.spec_model.specs.Vectors.{vector_of};
ghost use Rattle.encode_model.specs.Encoding.{encoding};
ghost use Rattle.result_text.specs.Fronts.{front_of, front_text, IsShaped};
ghost use Rattle.front_model.specs.Fronts.{IsFrontOf};
ghost use Rattle.front_model.specs.Proofs.{AcceptsTexts};
ghost use Rattle.front_lists.specs.Lists.{FoundPrefix, vectors_in, covers_of, AreUndominated};
ghost use Rattle.front_search.specs.Searches.{EndSays, most_lines, seen, is_complete};
ghost use Rattle.front_search.specs.Turns.{IsSearching, IsUnfinished, TurnSays};
ghost use Rattle.front_search.specs.declared.ending.SearchEnd.TheVariants.{Complete};

use crate::covering::cover;
use crate::ending::{Search, SearchEnd, Turn};
use crate::fronts::undominated;
use encode_views::design_of;
use genotype::Genotype;
use impl_rules::vector_of;
use ordered_solver::{Answer, Solver};
use result_text::{Entries, Entry, Front, Vector};
use route_encode::encode;
use spec_graph::Spec;
use std::alloc::{AllocError, Global};

/// The design part of a model, with its vector.
fn entry_of(alloc: Global, spec: &Spec, model: &[bool]) -> Result<Entry, AllocError>
    requires variables { all_variables spec.now ≤ length model.now }
    requires model { IsModel (encoding spec.now) (bits_of model.now) }
    ensures one_each { IfOk result (λ e. length e.design ≡ design_variables spec.now) }
    ensures part { IfOk result (λ e. e.design ≡ take (design_variables spec.now) model.now) }
    ensures vector { IfOk result (λ e. e.vector ≡ vector_of spec.now (bits_of e.design)) }
{
    let design = design_of(alloc, spec, model)?;
    let numbers = vector_of(alloc, spec, &design)?;
    let vector = Vector::of(alloc, &numbers)?;
    Ok(Entry { design, vector })
}

/// One solve.
fn next_turn(
    alloc: Global,
    spec: &Spec,
    solver: &mut Solver,
    found: &[Entry],
    budget: u64,
) -> Result<Turn, AllocError>
    requires searching { IsSearching spec.now (seen found.now) solver.old }
    requires unfinished { IsUnfinished spec.now budget solver.old.log.lines }
    requires starts { EndsASolve solver.old.log.lines }
    requires bounded { derived_count solver.old.log.lines ≤ most_lines spec.now (length (seen found.now)) (length (seen found.now)) }
    requires few { length found.now < 2 ^ 58 }
    ensures searching { OnOk result (IsSearching spec.now (seen found.now) solver.new) }
    ensures says { IfOk result (TurnSays spec.now budget (seen found.now) solver.new.log.lines) }
{
    spec.facts();
    let left = budget - solver.log().learned();
    let genotype = Genotype::natural(alloc, spec.design_variables())?;
    let variables = spec.all_variables() + found.len() as u64 * spec.objectives() as u64;
    let order = genotype.order_of(alloc, variables)?;
    match solver.solve(alloc, &order, left)? {
        Answer::Model(values) => Ok(Turn::Found(entry_of(alloc, spec, &values)?)),
        Answer::Nothing => Ok(Turn::Ended(SearchEnd::Complete)),
        Answer::Budget => Ok(Turn::Ended(SearchEnd::Budget)),
    }
}

/// What a search comes to, by its found list and its end.
fn ended(
    alloc: Global,
    spec: &Spec,
    solver: Solver,
    found: Vec<Entry>,
    end: SearchEnd,
) -> Result<Search, AllocError>
    requires prefix { FoundPrefix spec.now (seen found.items) }
    ensures found { IfOk result (λ r. r.found ≡ seen found.items) }
    ensures log { IfOk result (λ r. r.log ≡ solver.log) }
    ensures end { IfOk result (λ r. r.end ≡ end) }
    ensures front { IfOk result (λ r. AreUndominated r.found r.front.entries) }
    ensures complete { IfOk result (λ r. r.front.complete ≡ is_complete r.end) }
{
    let front = undominated(alloc, &found)?;
    Ok(Search {
        found: Entries::of(found),
        front: Front {
            entries: Entries::of(front),
            complete: end.is_complete(),
        },
        log: solver.into_log(),
        end,
    })
}

/// The found list of a specification as far as the budget of derived lines goes, and its front.
///
/// Each found entry is the first valid design, in the order of the natural genotype, whose vector no earlier found vector
/// covers; the log has the found vectors as covers, in order. The front has the found entries that no found vector
/// dominates, and is complete exactly at `Complete`: then it is the front of the specification, and its text is accepted
/// with the log's. `Budget` comes exactly where the log has as many derived lines as the budget has and the last one
/// doesn't give `0 >= 1`; the log is honest then. With P vectors of valid designs, N variables of the encoding and k
/// objectives it doesn't come where the budget is at least (P + 1) * 2^(N + k P).
pub fn search(alloc: Global, spec: &Spec, budget: u64) -> Result<Search, AllocError>
    requires some { 0 < budget }
    ensures prefix { IfOk result (λ r. FoundPrefix spec.now r.found) }
    ensures covers { IfOk result (λ r. covers_of r.log.lines ≡ vectors_in r.found) }
    ensures first { IfOk result (λ r. r.log.first ≡ length (encoding spec.now) + 1) }
    ensures end { IfOk result (λ r. EndSays spec.now budget r.found r.log.lines r.end) }
    ensures front { IfOk result (λ r. AreUndominated r.found r.front.entries) }
    ensures complete { IfOk result (λ r. r.front.complete ≡ is_complete r.end) }
    ensures exact { IfOk result (λ r. r.end ≡ Complete → IsFrontOf spec.now (front_of r.front)) }
    ensures accepted { IfOk result (λ r. r.end ≡ Complete → AcceptsTexts spec.now (front_text spec.now (front_of r.front)) (proof_text r.log.lines)) }
    ensures shaped { IfOk result (λ r. All (IsShaped spec.now) r.front.entries) }
{
    spec.facts();
    let set = encode(alloc, spec)?;
    let mut solver = Solver::new(alloc, set)?;
    let mut found = Vec::new(alloc);
    loop {
        match next_turn(alloc, spec, &mut solver, &found, budget)? {
            Turn::Found(entry) => {
                cover(alloc, spec, &mut solver, &found, &entry)?;
                found.push(entry)?;
            }
            Turn::Ended(end) => {
                let searched = ended(alloc, spec, solver, found, end)?;
                return Ok(searched);
            }
        }
    }
}
