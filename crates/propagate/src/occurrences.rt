//! Where each literal occurs: the slots of the constraints that have it, each with its coefficient there.
//!
//! The lists stand by the literals' numbers, two for each variable.
ghost use Rattle.std.specs.Prelude.{◌≡◌, ◌<◌, ◌≤◌, ℕ, ◌++◌, [], ◌∷◌, not, ◌==◌, filter, map, length, slice_set, vec_items, OnOk, OnErr};
ghost use Rattle.propagate.specs.Counters.{literal_number, occurrences_of, moved_to, is_filled};

use super::ranked::{Ranked, is_filled};
use pb_constraints::Lit;
use std::alloc::{AllocError, Global};
use std::marker::Model;

/// A constraint's slot, and the coefficient that a literal has there.
#[derive(Clone, Copy, Debug, PartialEq, Eq)]
pub struct Occurrence {
    pub slot: usize,
    pub coef: u64,
}

/// The occurrences of each literal.
#[derive(Drop, Debug)]
pub struct Occurrences {
    lists: Vec<Vec<Occurrence>>,
}

impl Model for Occurrences {
    ghost use Rattle.std.specs.Prelude.{List, map};
    ghost use Rattle.propagate.specs.declared.occurrences.Occurrence.{Occurrence};

    ghost Value = { List (List Occurrence) };

    ghost view = { λ o. map (λ v. v.items) o.lists.items };
}

/// The number of a literal.
pub fn number_of(lit: Lit) -> usize
    ensures { result ≡ literal_number lit }
{
    let twice = 2 * lit.var() as usize;
    if lit.is_yes() { twice + 1 } else { twice }
}

impl Occurrences {
    /// None, for no literal.
    pub fn new(alloc: Global) -> Occurrences
        ensures { result ≡ [] }
    {
        Occurrences {
            lists: Vec::new(alloc),
        }
    }

    /// Makes room for the literals of so many numbers.
    pub fn grow(&mut self, count: usize) -> Result<(), AllocError>
        ensures same { (k : ℕ) → occurrences_of self.new k ≡ occurrences_of self.old k }
        ensures longer { length self.old ≤ length self.new }
        ensures room { OnOk result (count ≤ length self.new) }
    {
        while self.lists.len() < count {
            let none = Vec::new(*self.lists.allocator());
            self.lists.push(none)?;
        }
        Ok(())
    }

    /// The occurrences of a literal.
    pub fn of(&self, lit: Lit) -> &[Occurrence]
        requires { literal_number lit < length self.now }
        ensures { result.now ≡ occurrences_of self.now (literal_number lit) }
    {
        self.lists[number_of(lit)].as_slice()
    }

    /// One more occurrence of a literal.
    pub fn push(&mut self, lit: Lit, one: Occurrence) -> Result<(), AllocError>
        requires { literal_number lit < length self.old }
        ensures ok { OnOk result (self.new ≡ slice_set self.old (literal_number lit) (occurrences_of self.old (literal_number lit) ++ one ∷ [])) }
        ensures err { OnErr result (self.new ≡ self.old) }
    {
        self.lists[number_of(lit)].push(one)?;
        Ok(())
    }

    /// Takes out those of a slot.
    pub fn remove(&mut self, lit: Lit, slot: usize)
        requires { literal_number lit < length self.old }
        ensures { self.new ≡ slice_set self.old (literal_number lit) (filter (λ o. not (o.slot == slot)) (occurrences_of self.old (literal_number lit))) }
    {
        self.lists[number_of(lit)].retain(|one| one.slot != slot);
    }

    /// Makes those of one slot those of another.
    pub fn rename(&mut self, lit: Lit, from: usize, to: usize)
        requires { literal_number lit < length self.old }
        ensures { self.new ≡ slice_set self.old (literal_number lit) (map (moved_to from to) (occurrences_of self.old (literal_number lit))) }
    {
        rename_in(&mut self.lists[number_of(lit)], from, to);
    }

    /// Takes out those of empty slots, by one pass over all lists.
    pub fn keep_filled(&mut self, slots: &[Option<Ranked>])
        ensures { self.new ≡ map (filter (is_filled slots.now)) self.old }
    {
        keep_each(&mut self.lists, slots);
    }
}

/// Makes the occurrences of one slot those of another.
fn rename_in(list: &mut [Occurrence], from: usize, to: usize)
    ensures { list.new ≡ map (moved_to from to) list.old }
{
    for one in list.iter_mut() {
        if one.slot == from {
            one.slot = to;
        }
    }
}

/// Takes out the occurrences of empty slots.
fn keep_in(list: &mut Vec<Occurrence>, slots: &[Option<Ranked>])
    ensures { list.new.items ≡ filter (is_filled slots.now) list.old.items }
{
    list.retain(|one| is_filled(slots, one.slot));
}

/// Takes them out of each list.
fn keep_each(lists: &mut [Vec<Occurrence>], slots: &[Option<Ranked>])
    ensures { map vec_items lists.new ≡ map (filter (is_filled slots.now)) (map vec_items lists.old) }
{
    for list in lists.iter_mut() {
        keep_in(list, slots);
    }
}
