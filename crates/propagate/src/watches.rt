//! The clauses of which two literals are watched: what is attached, and how far the trail is known to be closed.
//!
//! The clauses stand in slots, by the numbers of their ids. Nothing is counted for them, so nothing is given back where
//! literals are taken off the trail. Instead the lengths are kept that the trail had when each clause was closed: a watched
//! literal that is false under so many literals stands in a clause that has a true one among them. So after a jump back a
//! run begins at the last of these lengths that is left, and each level begins at one. A clause that is attached later
//! takes those away under which a watched literal of it is false.
ghost use Rattle.std.specs.Prelude.{◌≡◌, ◌≢◌, ◌<◌, ◌≤◌, ◌*◌, ◌+◌, ◌^◌, ℕ, [], List, map, take, length, slice_index_or, Some, None, is_some, IfOk, OnOk, OnErr};
ghost use Rattle.pb_rules.specs.Literal.{Literal};
ghost use Rattle.pb_rules.specs.Linear.{VarsBelow};
ghost use Rattle.pb_constraints.specs.declared.ConId.{ConId};
ghost use Rattle.constraint_store.specs.Live.{new_id};
ghost use Rattle.propagate.specs.Attached.{Drops, ChangesOnly};
ghost use Rattle.propagate.specs.Counters.{value_given, IsPut, IsOneMoved, AreMoved};
ghost use Rattle.propagate.specs.Watched.{wholes, AreGuarded};
ghost use Rattle.propagate.specs.Watches.{watched_in, AreWatched, AreClosedAt};

use super::lists::{Watch, WatchLists};
use super::watched::{Watched, is_held};
use constraint_store::Moves;
use pb_constraints::ConId;
use std::alloc::{AllocError, Global};
use trail_state::Trail;

/// What is attached, and the lengths of the trail at which it was closed.
#[derive(Drop, Debug)]
pub struct Watches {
    /// What is attached under the id of each number.
    pub slots: Vec<Option<Watched>>,
    /// The watches of each literal.
    pub lists: WatchLists,
    /// The lengths of the trail under which no clause needs a look.
    pub closed: Vec<usize>,
}

impl Watches {
    /// None, for no variable.
    pub fn new(alloc: Global) -> Watches
        ensures built { AreWatched 0 result }
        ensures empty { watched_in result ≡ [] }
        ensures slots { result.slots.items ≡ [] }
        ensures closed { result.closed.items ≡ [] }
    {
        Watches {
            slots: Vec::new(alloc),
            lists: WatchLists::new(alloc),
            closed: Vec::new(alloc),
        }
    }

    /// Makes room for so many variables.
    pub fn grow(&mut self, variables: u64) -> Result<(), AllocError>
        requires few { variables < 2 ^ 62 }
        ensures same { (n : ℕ) → AreWatched n self.old → AreWatched n self.new }
        ensures room { OnOk result ((n : ℕ) → n ≤ variables → AreWatched n self.old → AreWatched variables self.new) }
        ensures slots { self.new.slots ≡ self.old.slots }
        ensures closed { self.new.closed ≡ self.old.closed }
    {
        self.lists.grow(2 * variables as usize)
    }

    /// Whether there is a clause in a slot.
    pub fn is_filled(&self, slot: usize) -> bool
        ensures { result ≡ is_some (slice_index_or (wholes self.now.slots.items) slot None) }
    {
        is_held(&self.slots, slot)
    }

    /// The last length of the trail at which all clauses were closed.
    pub fn last_closed(&self) -> usize
        ensures below { (ls : List Literal) → AreClosedAt ls self.now → result ≤ length ls }
        ensures guarded { (ls : List Literal) → AreClosedAt ls self.now → AreGuarded (value_given (take result ls)) (value_given (take result ls)) self.now.slots.items }
    {
        match self.closed.last() {
            None => 0,
            Some(length) => *length,
        }
    }

    /// Says that the trail is closed at this length, after so many of its literals were visited. Where that aren't all, or
    /// where there is no memory, it isn't kept.
    pub fn close_at(&mut self, visited: usize, reached: usize)
        ensures closed { (ls : List Literal) → reached ≤ length ls → (visited ≡ reached → AreGuarded (value_given (take reached ls)) (value_given (take reached ls)) self.old.slots.items) → AreClosedAt ls self.old → AreClosedAt ls self.new }
        ensures slots { self.new.slots ≡ self.old.slots }
        ensures lists { self.new.lists ≡ self.old.lists }
    {
        if visited == reached && self.last_closed() < reached {
            let _kept = self.closed.push(reached);
        }
    }

    /// Forgets the lengths above this one: so many literals of the trail are left.
    pub fn forget_beyond(&mut self, left: usize)
        ensures closed { (ls : List Literal) → AreClosedAt ls self.old → AreClosedAt (take left ls) self.new }
        ensures slots { self.new.slots ≡ self.old.slots }
        ensures lists { self.new.lists ≡ self.old.lists }
    {
        self.closed.retain(|length| *length <= left);
    }

    /// Makes room for the slots below this number.
    fn make_slots(&mut self, count: usize) -> Result<(), AllocError>
        ensures same { (i : ℕ) → slice_index_or self.new.slots.items i None ≡ slice_index_or self.old.slots.items i None }
        ensures attached { watched_in self.new ≡ watched_in self.old }
        ensures rest { self.new ≡ record self.old { slots = self.new.slots } }
        ensures room { OnOk result (count ≤ length self.new.slots.items) }
    {
        while self.slots.len() < count {
            self.slots.push(None)?;
        }
        Ok(())
    }

    /// Puts a clause into an empty slot. An `Err` leaves what is attached.
    pub fn attach(&mut self, slot: usize, c: Watched, trail: &Trail) -> Result<(), AllocError>
        requires small { slot + 1 < 2 ^ 64 }
        requires free { slice_index_or self.old.slots.items slot None ≡ None }
        requires wide { 2 * trail.now.variables ≤ length self.old.lists }
        requires in_range { VarsBelow trail.now.variables c.whole.terms }
        ensures built { AreWatched trail.now.variables self.old → AreWatched trail.now.variables self.new }
        ensures closed { (ls : List Literal) → take (length ls) (map (λ e. e.lit) trail.now.entries) ≡ ls → AreClosedAt ls self.old → AreClosedAt ls self.new }
        ensures ok { OnOk result (IsPut slot (Some c.whole) (wholes self.old.slots.items) (wholes self.new.slots.items)) }
        ensures err { OnErr result (watched_in self.new ≡ watched_in self.old) }
    {
        self.make_slots(slot + 1)?;
        let (first, second) = (c.first(), c.second());
        self.lists.push(
            first,
            Watch {
                slot,
                other: second,
            },
        )?;
        self.lists.push(second, Watch { slot, other: first })?;
        self.closed
            .retain(|length| c.is_open_before(trail, *length));
        self.slots[slot] = Some(c);
        Ok(())
    }

    /// Takes out what stands in a slot. Its watches stay in the lists until they are met.
    pub fn empty(&mut self, slot: usize)
        ensures built { (n : ℕ) → AreWatched n self.old → AreWatched n self.new }
        ensures closed { (ls : List Literal) → AreClosedAt ls self.old → AreClosedAt ls self.new }
        ensures slots { IsPut slot None (wholes self.old.slots.items) (wholes self.new.slots.items) }
    {
        if slot < self.slots.len() {
            self.slots[slot] = None;
        }
    }

    /// Takes out what stands in the slots of ids.
    fn clear_each(&mut self, dropped: &[ConId])
        ensures built { (n : ℕ) → AreWatched n self.old → AreWatched n self.new }
        ensures closed { (ls : List Literal) → AreClosedAt ls self.old → AreClosedAt ls self.new }
        ensures attached { Drops dropped.now (watched_in self.old) (watched_in self.new) }
    {
        for c in dropped {
            self.empty(c.0 as usize);
        }
    }

    /// Takes out what stands in the slots of ids, and the watches of all empty slots by one pass over the lists.
    pub fn empty_each(&mut self, dropped: &[ConId])
        ensures built { (n : ℕ) → AreWatched n self.old → AreWatched n self.new }
        ensures closed { (ls : List Literal) → AreClosedAt ls self.old → AreClosedAt ls self.new }
        ensures attached { Drops dropped.now (watched_in self.old) (watched_in self.new) }
    {
        self.clear_each(dropped);
        self.lists.keep_held(&self.slots);
    }

    /// Moves what stands in a slot where its id goes, or takes it out where that goes to none.
    fn move_one(&mut self, slot: usize, moves: &Moves)
        requires here { slot < length self.old.slots.items }
        ensures same_length { length self.new.slots.items ≡ length self.old.slots.items }
        ensures moved { IsOneMoved (new_id moves.now) (record { 0 = slot }) self.old.slots.items self.new.slots.items }
        ensures same { self.new ≡ record self.old { slots = self.new.slots } }
    {
        let out = self.slots[slot].take();
        if let Some(id) = moves.of(ConId(slot as u64)) {
            self.slots[id.0 as usize] = out;
        }
    }

    /// Moves what stands in each slot where its id goes.
    fn move_each(&mut self, moves: &Moves)
        ensures moved { AreMoved (new_id moves.now) (length self.old.slots.items) self.old.slots.items self.new.slots.items }
        ensures same { self.new ≡ record self.old { slots = self.new.slots } }
    {
        // No two ids go to one, and none goes up, as is said at each look-up.
        let _first = moves.of(ConId(0));
        for slot in 0..self.slots.len() {
            self.move_one(slot, moves);
        }
    }

    /// Moves what stands in each slot where its id goes, and the watches with it.
    pub fn remap(&mut self, moves: &Moves)
        ensures built { (n : ℕ) → AreWatched n self.old → AreWatched n self.new }
        ensures closed { (ls : List Literal) → AreClosedAt ls self.old → AreClosedAt ls self.new }
        ensures moved { AreMoved (new_id moves.now) (length self.old.slots.items) (wholes self.old.slots.items) (wholes self.new.slots.items) }
    {
        self.move_each(moves);
        self.lists.rename(moves);
    }
}
