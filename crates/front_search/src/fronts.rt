//! The undominated entries of a found list, in rising order of their vectors.

ghost use Rattle.std.specs.Prelude.{◌≡◌, ◌↔◌, ℕ, List, ◌++◌, ◌∷◌, [], length, true, false, Contains, IsTrue, IfOk, OnOk};
ghost use Rattle.spec_model.specs.Vectors.{Dominates};
ghost use Rattle.spec_model.specs.WellFormed.{AreDistinct};
ghost use Rattle.result_text.specs.Answers.{EntryValue, as_seen};
ghost use Rattle.front_lists.specs.Lists.{vectors_in, AreLong, IsUndominated, AreUndominated};
ghost use Rattle.front_search.specs.Searches.{seen};
ghost use Rattle.front_search.specs.Turns.{IsPlaceFor, AreKeptOf};

use front_model::{is_at_most, stands_before};
use result_text::Entry;
use std::alloc::{AllocError, Global};

/// Whether a vector dominates another.
fn dominates(u: &[u64], v: &[u64]) -> bool
    requires { length u.now ≡ length v.now }
    ensures { IsTrue result ↔ Dominates u.now v.now }
{
    is_at_most(u, v) && !is_at_most(v, u)
}

/// Whether the vector of some found entry dominates a vector.
fn is_dominated(found: &[Entry], v: &[u64]) -> bool
    requires { AreLong (length v.now) (vectors_in (seen found.now)) }
    ensures yes { result ≡ true → ¬ IsUndominated (vectors_in (seen found.now)) v.now }
    ensures no { result ≡ false → IsUndominated (vectors_in (seen found.now)) v.now }
{
    for k in 0..found.len() {
        let entry = &found[k];
        if dominates(entry.vector.numbers(), v) {
            return true;
        }
    }
    false
}

/// How many entries stand before a vector, in a front.
fn place_for(front: &[Entry], v: &[u64]) -> usize
    requires { AreLong (length v.now) (vectors_in (seen front.now)) }
    ensures { IsPlaceFor (vectors_in (seen front.now)) v.now result }
{
    for k in 0..front.len() {
        let entry = &front[k];
        if !stands_before(entry.vector.numbers(), v) {
            return k;
        }
    }
    front.len()
}

/// Puts a copy of a found entry that no other dominates at its place in the front of those before it.
fn keep(
    alloc: Global,
    found: &[Entry],
    entry: &Entry,
    front: &mut Vec<Entry>,
) -> Result<(), AllocError>
    requires long { AreLong (length entry.now.vector) (vectors_in (seen found.now)) }
    requires front_long { AreLong (length entry.now.vector) (vectors_in (seen front.old.items)) }
    requires there { Contains (seen found.now) (as_seen entry.now) }
    ensures { (early : List EntryValue) → AreKeptOf (seen found.now) early (seen front.old.items) → ¬ Contains (vectors_in early) entry.now.vector → OnOk result (AreKeptOf (seen found.now) (early ++ as_seen entry.now ∷ []) (seen front.new.items)) }
{
    if is_dominated(found, entry.vector.numbers()) {
        return Ok(());
    }
    let place = place_for(front, entry.vector.numbers());
    let copied = entry.copy(alloc)?;
    front.insert(place, copied)?;
    Ok(())
}

/// The entries of a found list that no entry of it dominates, in rising order of their vectors.
pub(crate) fn undominated(alloc: Global, found: &[Entry]) -> Result<Vec<Entry>, AllocError>
    requires long { (n : ℕ) × AreLong n (vectors_in (seen found.now)) }
    requires distinct { AreDistinct (vectors_in (seen found.now)) }
    ensures { IfOk result (λ front. AreUndominated (seen found.now) (seen front.items)) }
{
    let mut front = Vec::new(alloc);
    for entry in found {
        keep(alloc, found, entry, &mut front)?;
    }
    Ok(front)
}
