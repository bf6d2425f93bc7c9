//! The occurrences of a whole constraint: put in, taken out and renamed. And lists that get longer.
ghost use Rattle.std.specs.Prelude.{◌≡◌, ◌<◌, ◌≤◌, ◌⊎◌, ℕ, [], All, take, length, slice_index_or, None, OnOk, OnErr};
ghost use Rattle.propagate.specs.Counters.{literal_number, weight_at, weight_of, occurrences_of, Added, Removed, Renamed, attached_from};

use super::occurrences::{Occurrence, Occurrences};
use super::ranked::Ranked;
use pb_constraints::{Lit, Term};
use std::alloc::AllocError;

/// Takes out the occurrences of a slot, which are among those of terms.
pub fn remove_all(lists: &mut Occurrences, terms: &[Term], slot: usize)
    requires in_range { All (λ t. literal_number t.lit < length lists.old) terms.now }
    requires few { (k : ℕ) → weight_at slot (occurrences_of lists.old k) ≤ weight_of k terms.now }
    ensures { Removed slot [] lists.old lists.new }
{
    for t in terms {
        lists.remove(t.lit, slot);
    }
}

/// Puts in the occurrences of terms for a slot, which has none. An `Err` leaves it none.
pub fn add_all(lists: &mut Occurrences, terms: &[Term], slot: usize) -> Result<(), AllocError>
    requires in_range { All (λ t. literal_number t.lit < length lists.old) terms.now }
    requires none { (k : ℕ) → weight_at slot (occurrences_of lists.old k) ≡ 0 }
    ensures ok { OnOk result (Added slot terms.now lists.old lists.new) }
    ensures err { OnErr result (Added slot [] lists.old lists.new) }
{
    for t in terms {
        let one = Occurrence { slot, coef: t.coef };
        if lists.push(t.lit, one).is_err() {
            remove_all(lists, terms, slot);
            return Err(AllocError);
        }
    }
    Ok(())
}

/// Makes a list of numbers at least so long, by zeros.
pub fn grow_zeros(numbers: &mut Vec<u64>, count: usize) -> Result<(), AllocError>
    ensures same { (i : ℕ) → slice_index_or numbers.new.items i 0 ≡ slice_index_or numbers.old.items i 0 }
    ensures longer { length numbers.old.items ≤ length numbers.new.items }
    ensures room { OnOk result (count ≤ length numbers.new.items) }
{
    while numbers.len() < count {
        numbers.push(0)?;
    }
    Ok(())
}

/// Makes a list of slots at least so long, by empty ones.
pub fn grow_empty(slots: &mut Vec<Option<Ranked>>, count: usize) -> Result<(), AllocError>
    ensures same { (i : ℕ) → slice_index_or slots.new.items i None ≡ slice_index_or slots.old.items i None }
    ensures attached { attached_from 0 slots.new.items ≡ attached_from 0 slots.old.items }
    ensures longer { length slots.old.items ≤ length slots.new.items }
    ensures bounded { (length slots.new.items ≤ length slots.old.items) ⊎ (length slots.new.items ≤ count) }
    ensures room { OnOk result (count ≤ length slots.new.items) }
{
    while slots.len() < count {
        slots.push(None)?;
    }
    Ok(())
}

/// Makes a list of literals at least so long.
pub fn grow_literals(lits: &mut Vec<Lit>, count: usize) -> Result<(), AllocError>
    ensures first { take (length lits.old.items) lits.new.items ≡ lits.old.items }
    ensures longer { length lits.old.items ≤ length lits.new.items }
    ensures room { OnOk result (count ≤ length lits.new.items) }
{
    while lits.len() < count {
        lits.push(Lit::yes(0))?;
    }
    Ok(())
}

/// Makes the occurrences of one slot, which are among those of terms, those of another, which has none.
pub fn rename_all(lists: &mut Occurrences, terms: &[Term], from: usize, to: usize)
    requires in_range { All (λ t. literal_number t.lit < length lists.old) terms.now }
    requires apart { to < from }
    requires few { (k : ℕ) → weight_at from (occurrences_of lists.old k) ≤ weight_of k terms.now }
    requires none { (k : ℕ) → weight_at to (occurrences_of lists.old k) ≡ 0 }
    ensures { Renamed from to [] lists.old lists.new }
{
    for t in terms {
        lists.rename(t.lit, from, to);
    }
}
