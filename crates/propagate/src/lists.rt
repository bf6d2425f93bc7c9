//! The watches of each literal: the slots of the clauses that watch it.
//!
//! Each names another literal of its clause too. Where that is true, the clause needs no look. A list may have watches
//! of clauses that were taken out, or that no longer watch its literal: they go where they are met.
ghost use Rattle.std.specs.Prelude.{◌≡◌, ◌≢◌, ◌<◌, ◌≤◌, ℕ, ◌++◌, [], ◌∷◌, filter, map, length, slice_index_or, slice_set, vec_items, Contains, drop, OnOk, OnErr};
ghost use Rattle.propagate.specs.declared.lists.Watch.{Watch};
ghost use Rattle.propagate.specs.Counters.{literal_number};
ghost use Rattle.propagate.specs.Watches.{watches_of, is_named_held, renamed_watch};

use super::occurrences::number_of;
use super::watched::{Watched, is_held};
use constraint_store::Moves;
use pb_constraints::{ConId, Lit};
use std::alloc::{AllocError, Global};
use std::marker::Model;

/// The slot of a clause that watches a literal, and another literal of the clause.
#[derive(Clone, Copy, Debug, PartialEq, Eq)]
pub struct Watch {
    pub slot: usize,
    pub other: Lit,
}

/// The watches of each literal.
#[derive(Drop, Debug)]
pub struct WatchLists {
    lists: Vec<Vec<Watch>>,
}

impl Model for WatchLists {
    ghost use Rattle.std.specs.Prelude.{List, map};
    ghost use Rattle.propagate.specs.declared.lists.Watch.{Watch};

    ghost Value = { List (List Watch) };

    ghost view = { λ w. map (λ v. v.items) w.lists.items };
}

impl WatchLists {
    /// None, for no literal.
    pub fn new(alloc: Global) -> WatchLists
        ensures { result ≡ [] }
    {
        WatchLists {
            lists: Vec::new(alloc),
        }
    }

    /// Makes room for the literals of so many numbers.
    pub fn grow(&mut self, count: usize) -> Result<(), AllocError>
        ensures same { (k : ℕ) → watches_of self.new k ≡ watches_of self.old k }
        ensures longer { length self.old ≤ length self.new }
        ensures room { OnOk result (count ≤ length self.new) }
    {
        while self.lists.len() < count {
            let none = Vec::new(*self.lists.allocator());
            self.lists.push(none)?;
        }
        Ok(())
    }

    /// The watches of a literal.
    pub fn of(&self, lit: Lit) -> &[Watch]
        requires { literal_number lit < length self.now }
        ensures { result.now ≡ watches_of self.now (literal_number lit) }
    {
        self.lists[number_of(lit)].as_slice()
    }

    /// One more watch of a literal.
    pub fn push(&mut self, lit: Lit, one: Watch) -> Result<(), AllocError>
        requires { literal_number lit < length self.old }
        ensures ok { OnOk result (self.new ≡ slice_set self.old (literal_number lit) (watches_of self.old (literal_number lit) ++ one ∷ [])) }
        ensures err { OnErr result (self.new ≡ self.old) }
    {
        self.lists[number_of(lit)].push(one)?;
        Ok(())
    }

    /// Puts another watch at a place of a list.
    pub fn set(&mut self, lit: Lit, place: usize, one: Watch)
        requires room { literal_number lit < length self.old }
        requires there { place < length (watches_of self.old (literal_number lit)) }
        ensures { self.new ≡ slice_set self.old (literal_number lit) (slice_set (watches_of self.old (literal_number lit)) place one) }
    {
        self.lists[number_of(lit)][place] = one;
    }

    /// Takes a watch out. The last of its list takes its place.
    pub fn take_out(&mut self, lit: Lit, place: usize) -> Watch
        requires room { literal_number lit < length self.old }
        requires there { place < length (watches_of self.old (literal_number lit)) }
        ensures value { result ≡ slice_index_or (watches_of self.old (literal_number lit)) place result }
        ensures same_length { length self.new ≡ length self.old }
        ensures fewer { length (watches_of self.new (literal_number lit)) < length (watches_of self.old (literal_number lit)) }
        ensures others { (k : ℕ) → k ≢ literal_number lit → watches_of self.new k ≡ watches_of self.old k }
        ensures rest { (w : Watch) → w ≢ result → Contains (watches_of self.old (literal_number lit)) w → Contains (watches_of self.new (literal_number lit)) w }
        ensures ahead { (w : Watch) → w ≢ result → Contains (drop place (watches_of self.old (literal_number lit))) w → Contains (drop place (watches_of self.new (literal_number lit))) w }
    {
        self.lists[number_of(lit)].swap_remove(place)
    }

    /// Takes out those of empty slots, by one pass over all lists.
    pub fn keep_held(&mut self, slots: &[Option<Watched>])
        ensures { self.new ≡ map (filter (is_named_held slots.now)) self.old }
    {
        keep_each(&mut self.lists, slots);
    }

    /// Gives each watch the new id of its slot, by one pass over all lists.
    pub fn rename(&mut self, moves: &Moves)
        ensures { self.new ≡ map (map (renamed_watch moves.now)) self.old }
    {
        rename_each(&mut self.lists, moves);
    }
}

/// Takes out the watches of empty slots.
fn keep_in(list: &mut Vec<Watch>, slots: &[Option<Watched>])
    ensures { list.new.items ≡ filter (is_named_held slots.now) list.old.items }
{
    list.retain(|one| is_held(slots, one.slot));
}

/// Takes them out of each list.
fn keep_each(lists: &mut [Vec<Watch>], slots: &[Option<Watched>])
    ensures { map vec_items lists.new ≡ map (filter (is_named_held slots.now)) (map vec_items lists.old) }
{
    for list in lists.iter_mut() {
        keep_in(list, slots);
    }
}

/// Gives the watches of a list the new ids of their slots. One whose slot has none stays.
fn rename_in(list: &mut [Watch], moves: &Moves)
    ensures { list.new ≡ map (renamed_watch moves.now) list.old }
{
    for one in list.iter_mut() {
        if let Some(id) = moves.of(ConId(one.slot as u64)) {
            one.slot = id.0 as usize;
        }
    }
}

/// Gives them those in each list.
fn rename_each(lists: &mut [Vec<Watch>], moves: &Moves)
    ensures { map vec_items lists.new ≡ map (map (renamed_watch moves.now)) (map vec_items lists.old) }
{
    for list in lists.iter_mut() {
        rename_in(list, moves);
    }
}
