//! The rooms of the attached constraints, kept up to date with the counted literals.
//!
//! What is attached stands in slots, by the number of its id. A slot waits where its constraint may be in conflict or
//! force something; each other one is quiet. Counting a literal takes its coefficients off the rooms of the
//! constraints that have its opposite, which wait where their rooms fall below their limits. Taking a literal off
//! gives them back, and only a constraint that has the literal itself may then force it anew. So no call but `remap`
//! goes over all slots. `close` counts the whole trail before each look, since a look rests on the room being that
//! under the trail. A constraint in conflict goes on waiting.
//!
//! The counters are those of Chai and Kuehlmann; the list of those that wait takes no memory during a run.
ghost use Rattle.std.specs.Prelude.{◌≡◌, ◌≢◌, ◌<◌, ◌≤◌, ◌^◌, ◌+◌, ◌*◌, ℕ, Bool, [], ◌++◌, ◌∷◌, List, All, map, take, length, slice_index_or, slice_set, true, false, Some, None, IsTrue, is_some, IfOk, OnOk, OnErr, IfSome, IfNone};
ghost use Rattle.pb_rules.specs.Linear.{VarsBelow, total};
ghost use Rattle.pb_rules.specs.Partial.{open_weight};
ghost use Rattle.pb_rules.specs.Literal.{Literal};
ghost use Rattle.pb_constraints.specs.declared.ConId.{ConId};
ghost use Rattle.constraint_store.specs.Live.{new_id};
ghost use Rattle.trail_state.specs.Trail.{value_in};
ghost use Rattle.propagate.specs.Attached.{Drops};
ghost use Rattle.propagate.specs.Forced.{Appends, IsConflict};
ghost use Rattle.propagate.specs.Counters.{IsQuiet, IsLimited, SlotsBelow, weight_at, TookRooms, GaveRooms, Woke, AreBuilt, AreInStep, AreGivenBack, AreSummed, AreDistinct, taken_off, counted_of, value_given, linear_at, attached_from, occurrences_of, weight_of, IsPut, IsMovedSlot, IsOneMoved, AreMoved, AreCleared};
ghost use Rattle.propagate.specs.Flags.{is_waiting};

use super::filling::{add_all, grow_empty, grow_literals, grow_zeros, remove_all, rename_all};
use super::occurrences::{Occurrence, Occurrences};
use super::ranked::{Ranked, is_filled};
use super::scan::{push_forced, room_of};
use super::waiting::Waiting;
use constraint_store::Moves;
use pb_constraints::{ConId, Lit, Term};
use std::alloc::{AllocError, Global};
use trail_state::Trail;

/// What is attached, and how far the trail is counted.
#[derive(Drop, Debug)]
pub struct Counters {
    /// How many variables there are.
    pub variables: u64,
    /// What is attached under the id of each number.
    pub slots: Vec<Option<Ranked>>,
    /// The room of each slot under the counted literals.
    pub rooms: Vec<u64>,
    /// The degree of each slot with its greatest coefficient. At a room that isn't below it nothing is forced.
    pub limits: Vec<u64>,
    /// The slots that each literal occurs in.
    pub occurrences: Occurrences,
    /// The counted literals, and places for as many as there are variables.
    pub lits: Vec<Lit>,
    /// How many are counted.
    pub used: usize,
    /// The slots that are to be looked at.
    pub waiting: Waiting,
}

/// Takes the coefficients of a literal that became false off the rooms. Those that may be in conflict or force
/// something are to be looked at.
fn take_rooms(rooms: &mut [u64], limits: &[u64], waiting: &mut Waiting, occurrences: &[Occurrence])
    requires rooms { SlotsBelow (length rooms.old) occurrences.now }
    requires limits { SlotsBelow (length limits.now) occurrences.now }
    requires waiting { SlotsBelow (length waiting.old) occurrences.now }
    requires enough { (i : ℕ) → weight_at i occurrences.now ≤ slice_index_or rooms.old i 0 }
    ensures took { TookRooms occurrences.now limits.now rooms.old rooms.new waiting.old waiting.new }
    ensures can_wait { length waiting.new ≡ length waiting.old }
{
    for one in occurrences {
        let room = rooms[one.slot] - one.coef;
        rooms[one.slot] = room;
        if room < limits[one.slot] {
            waiting.add(one.slot);
        }
    }
}

/// Gives the coefficients of a literal that is no longer false back to the rooms.
fn give_rooms(rooms: &mut [u64], occurrences: &[Occurrence])
    requires rooms { SlotsBelow (length rooms.old) occurrences.now }
    requires fits { (i : ℕ) → slice_index_or rooms.old i 0 + weight_at i occurrences.now < 2 ^ 63 }
    ensures { GaveRooms occurrences.now rooms.old rooms.new }
{
    for one in occurrences {
        rooms[one.slot] += one.coef;
    }
}

/// Those that may force a literal that is no longer true are to be looked at.
fn wake(rooms: &[u64], limits: &[u64], waiting: &mut Waiting, occurrences: &[Occurrence])
    requires rooms { SlotsBelow (length rooms.now) occurrences.now }
    requires limits { SlotsBelow (length limits.now) occurrences.now }
    requires waiting { SlotsBelow (length waiting.old) occurrences.now }
    ensures woke { Woke occurrences.now limits.now rooms.now waiting.old waiting.new }
    ensures can_wait { length waiting.new ≡ length waiting.old }
{
    for one in occurrences {
        if rooms[one.slot] < limits[one.slot] {
            waiting.add(one.slot);
        }
    }
}

/// The degree and the greatest coefficient.
fn limit_of(c: &Ranked) -> u64
    ensures { IsLimited result c.now }
{
    let degree = c.degree();
    let mut limit = degree;
    for t in c.terms() {
        limit = limit.max(degree + t.coef);
    }
    limit
}

impl Counters {
    /// Counts the next literal of the trail.
    fn count(&mut self, trail: &Trail)
        requires built { AreBuilt self.old }
        requires step { AreInStep self.old (value_in trail.now.entries) }
        requires variables { self.old.variables ≡ trail.now.variables }
        requires counted { counted_of self.old ≡ take self.old.used (map (λ e. e.lit) trail.now.entries) }
        requires more { self.old.used < length trail.now.entries }
        ensures built { AreBuilt self.new }
        ensures step { AreInStep self.new (value_in trail.now.entries) }
        ensures counted { counted_of self.new ≡ take self.new.used (map (λ e. e.lit) trail.now.entries) }
        ensures used { self.new.used ≡ self.old.used + 1 }
        ensures can_wait { length self.new.waiting ≡ length self.old.waiting }
        ensures slots { self.new.slots ≡ self.old.slots }
        ensures variables { self.new.variables ≡ self.old.variables }
    {
        let _assigned = trail.assigned();
        let lit = trail.literals()[self.used];
        take_rooms(
            &mut self.rooms,
            &self.limits,
            &mut self.waiting,
            self.occurrences.of(lit.opposite()),
        );
        self.lits[self.used] = lit;
        self.used += 1;
    }

    /// Counts all literals of the trail.
    pub fn count_all(&mut self, trail: &Trail)
        requires built { AreBuilt self.old }
        requires step { AreInStep self.old (value_in trail.now.entries) }
        requires variables { self.old.variables ≡ trail.now.variables }
        requires counted { counted_of self.old ≡ take self.old.used (map (λ e. e.lit) trail.now.entries) }
        requires used { self.old.used ≤ length trail.now.entries }
        ensures built { AreBuilt self.new }
        ensures step { AreInStep self.new (value_in trail.now.entries) }
        ensures counted { counted_of self.new ≡ map (λ e. e.lit) trail.now.entries }
        ensures used { self.new.used ≡ length trail.now.entries }
        ensures can_wait { length self.new.waiting ≡ length self.old.waiting }
        ensures slots { self.new.slots ≡ self.old.slots }
        ensures variables { self.new.variables ≡ self.old.variables }
        ensures idle { self.old.used ≡ length trail.now.entries → self.new ≡ self.old }
    {
        while self.used < trail.literals().len() {
            self.count(trail);
        }
    }

    /// Takes the last counted literal off, and gives what it took back to the rooms.
    fn give_last(&mut self)
        requires built { AreBuilt self.old }
        requires sums { AreSummed self.old }
        requires distinct { AreDistinct (counted_of self.old) }
        requires below { All (λ l. l.var < self.old.variables) (counted_of self.old) }
        requires some { 0 < self.old.used }
        ensures built { AreBuilt self.new }
        ensures given { (top : ℕ) → self.old.used ≤ top → top ≤ length self.old.lits.items → AreGivenBack (taken_off top self.old) self.old → AreGivenBack (taken_off top self.new) self.new }
        ensures lits { self.new.lits ≡ self.old.lits }
        ensures used { self.new.used + 1 ≡ self.old.used }
        ensures slots { self.new.slots ≡ self.old.slots }
        ensures variables { self.new.variables ≡ self.old.variables }
    {
        self.used -= 1;
        let lit = self.lits[self.used];
        give_rooms(&mut self.rooms, self.occurrences.of(lit.opposite()));
    }

    /// Takes counted literals off until so many are left, and gives what they took back to the rooms.
    fn give_back_to(&mut self, kept: usize)
        requires built { AreBuilt self.old }
        requires step { AreInStep self.old (value_given (counted_of self.old)) }
        requires fewer { kept ≤ self.old.used }
        ensures built { AreBuilt self.new }
        ensures given { AreGivenBack (taken_off self.old.used self.new) self.new }
        ensures lits { self.new.lits ≡ self.old.lits }
        ensures used { self.new.used ≡ kept }
        ensures slots { self.new.slots ≡ self.old.slots }
        ensures variables { self.new.variables ≡ self.old.variables }
    {
        while self.used > kept {
            self.give_last();
        }
    }

    /// Those that may force a literal that was taken off are to be looked at.
    fn wake_for(&mut self, lit: Lit)
        requires built { AreBuilt self.old }
        requires below { lit.var < self.old.variables }
        ensures built { AreBuilt self.new }
        ensures woke { (off : List Literal) → AreGivenBack (lit ∷ off) self.old → AreGivenBack off self.new }
        ensures lits { self.new.lits ≡ self.old.lits }
        ensures used { self.new.used ≡ self.old.used }
        ensures slots { self.new.slots ≡ self.old.slots }
        ensures variables { self.new.variables ≡ self.old.variables }
    {
        wake(
            &self.rooms,
            &self.limits,
            &mut self.waiting,
            self.occurrences.of(lit),
        );
    }

    /// The same for all literals that were taken off, where so many were counted before.
    fn wake_upto(&mut self, top: usize)
        requires built { AreBuilt self.old }
        requires given { AreGivenBack (taken_off top self.old) self.old }
        requires more { self.old.used ≤ top }
        requires there { top ≤ length self.old.lits.items }
        ensures built { AreBuilt self.new }
        ensures step { AreInStep self.new (value_given (counted_of self.new)) }
        ensures lits { self.new.lits ≡ self.old.lits }
        ensures used { self.new.used ≡ self.old.used }
        ensures slots { self.new.slots ≡ self.old.slots }
        ensures variables { self.new.variables ≡ self.old.variables }
    {
        for place in self.used..top {
            let lit = self.lits[place];
            self.wake_for(lit);
        }
    }

    /// Takes counted literals off until so many are left. All rooms are given back before anybody is woken: most
    /// constraints that a literal was forced by then have room enough to stay quiet.
    pub fn uncount_to(&mut self, kept: usize)
        requires built { AreBuilt self.old }
        requires step { AreInStep self.old (value_given (counted_of self.old)) }
        requires fewer { kept ≤ self.old.used }
        ensures built { AreBuilt self.new }
        ensures step { AreInStep self.new (value_given (counted_of self.new)) }
        ensures lits { self.new.lits ≡ self.old.lits }
        ensures used { self.new.used ≡ kept }
        ensures slots { self.new.slots ≡ self.old.slots }
        ensures variables { self.new.variables ≡ self.old.variables }
    {
        let top = self.used;
        self.give_back_to(kept);
        self.wake_upto(top);
    }

    /// Looks at what stands in a slot, once all literals are counted: whether it is in conflict, and if not, pushes
    /// what it forces.
    fn look_at(&self, slot: usize, trail: &mut Trail) -> bool
        requires built { AreBuilt self.now }
        requires sums { AreSummed self.now }
        requires variables { self.now.variables ≡ trail.old.variables }
        requires counted { counted_of self.now ≡ map (λ e. e.lit) trail.old.entries }
        ensures variables { trail.new.variables ≡ trail.old.variables }
        ensures appends { Appends (attached_from 0 self.now.slots.items) trail.old.entries trail.new.entries }
        ensures conflict { result ≡ true → IsConflict (attached_from 0 self.now.slots.items) trail.new.entries (record { 0 = slot }) }
        ensures same { result ≡ true → trail.new.entries ≡ trail.old.entries }
        ensures quiet { result ≡ false → IsQuiet (slice_index_or self.now.rooms.items slot 0) (value_in trail.new.entries) (linear_at self.now.slots.items slot) }
    {
        if slot >= self.slots.len() {
            return false;
        }
        match &self.slots[slot] {
            None => false,
            Some(c) => {
                let room = self.rooms[slot];
                if room < c.degree() {
                    return true;
                }
                if room < self.limits[slot] {
                    push_forced(c, ConId(slot as u64), room, trail);
                }
                false
            }
        }
    }

    /// Counts the trail's literals and pushes what is forced, until one is in conflict or nothing is forced any more.
    pub fn close(&mut self, trail: &mut Trail) -> Option<usize>
        requires built { AreBuilt self.old }
        requires step { AreInStep self.old (value_in trail.old.entries) }
        requires variables { self.old.variables ≡ trail.old.variables }
        requires counted { counted_of self.old ≡ take self.old.used (map (λ e. e.lit) trail.old.entries) }
        requires used { self.old.used ≤ length trail.old.entries }
        ensures built { AreBuilt self.new }
        ensures step { AreInStep self.new (value_in trail.new.entries) }
        ensures counted { counted_of self.new ≡ map (λ e. e.lit) trail.new.entries }
        ensures slots { self.new.slots ≡ self.old.slots }
        ensures variables { self.new.variables ≡ self.old.variables }
        ensures trail_variables { trail.new.variables ≡ trail.old.variables }
        ensures appends { Appends (attached_from 0 self.old.slots.items) trail.old.entries trail.new.entries }
        ensures conflict { IfSome result (λ i. IsConflict (attached_from 0 self.old.slots.items) trail.new.entries (record { 0 = i })) }
        ensures none_waits { IfNone result ((i : ℕ) → is_waiting self.new.waiting i ≡ false) }
    {
        self.count_all(trail);
        'looking: loop {
            match self.waiting.take() {
                None => return None,
                Some(slot) => {
                    if self.look_at(slot, trail) {
                        self.waiting.add(slot);
                        return Some(slot);
                    }
                    let _assigned = trail.assigned();
                    self.count_all(trail);
                }
            }
        }
    }

    /// Makes room for the slots below this number.
    fn make_slots(&mut self, count: usize) -> Result<(), AllocError>
        requires built { AreBuilt self.old }
        requires step { AreInStep self.old (value_given (counted_of self.old)) }
        ensures built { AreBuilt self.new }
        ensures step { AreInStep self.new (value_given (counted_of self.new)) }
        ensures lits { self.new.lits ≡ self.old.lits }
        ensures used { self.new.used ≡ self.old.used }
        ensures variables { self.new.variables ≡ self.old.variables }
        ensures attached { attached_from 0 self.new.slots.items ≡ attached_from 0 self.old.slots.items }
        ensures same { (i : ℕ) → slice_index_or self.new.slots.items i None ≡ slice_index_or self.old.slots.items i None }
        ensures room { OnOk result (count ≤ length self.new.slots.items) }
    {
        self.waiting.grow(count)?;
        grow_zeros(&mut self.rooms, count)?;
        grow_zeros(&mut self.limits, count)?;
        grow_empty(&mut self.slots, count)
    }

    /// Puts a constraint into a slot that is there and empty.
    fn fill(&mut self, slot: usize, c: Ranked, trail: &Trail) -> Result<(), AllocError>
        requires built { AreBuilt self.old }
        requires step { AreInStep self.old (value_given (counted_of self.old)) }
        requires here { slot < length self.old.slots.items }
        requires free { slice_index_or self.old.slots.items slot None ≡ None }
        requires in_range { VarsBelow self.old.variables c.terms }
        requires counted { counted_of self.old ≡ map (λ e. e.lit) trail.now.entries }
        ensures built { AreBuilt self.new }
        ensures step { AreInStep self.new (value_given (counted_of self.new)) }
        ensures lits { self.new.lits ≡ self.old.lits }
        ensures used { self.new.used ≡ self.old.used }
        ensures variables { self.new.variables ≡ self.old.variables }
        ensures ok { OnOk result (self.new.slots.items ≡ slice_set self.old.slots.items slot (Some c)) }
        ensures err { OnErr result (self.new.slots ≡ self.old.slots) }
    {
        add_all(&mut self.occurrences, c.terms(), slot)?;
        self.rooms[slot] = room_of(c.terms(), trail);
        self.limits[slot] = limit_of(&c);
        self.waiting.add(slot);
        self.slots[slot] = Some(c);
        Ok(())
    }

    /// None for no variable.
    pub fn new(alloc: Global) -> Result<Counters, AllocError>
        ensures built { IfOk result AreBuilt }
        ensures step { IfOk result (λ c. AreInStep c (value_given (counted_of c))) }
        ensures empty { IfOk result (λ c. c.slots.items ≡ []) }
        ensures counted { IfOk result (λ c. counted_of c ≡ []) }
        ensures variables { IfOk result (λ c. c.variables ≡ 0) }
    {
        Ok(Counters {
            variables: 0,
            slots: Vec::new(alloc),
            rooms: Vec::new(alloc),
            limits: Vec::new(alloc),
            occurrences: Occurrences::new(alloc),
            lits: Vec::new(alloc),
            used: 0,
            waiting: Waiting::new(alloc),
        })
    }

    /// Makes room for so many variables.
    pub fn grow(&mut self, variables: u64) -> Result<(), AllocError>
        requires built { AreBuilt self.old }
        requires step { AreInStep self.old (value_given (counted_of self.old)) }
        requires more { self.old.variables ≤ variables }
        requires few { variables < 2 ^ 62 }
        ensures built { AreBuilt self.new }
        ensures step { AreInStep self.new (value_given (counted_of self.new)) }
        ensures slots { self.new.slots ≡ self.old.slots }
        ensures counted { counted_of self.new ≡ counted_of self.old }
        ensures ok { OnOk result (self.new.variables ≡ variables) }
        ensures err { OnErr result (self.new.variables ≡ self.old.variables) }
    {
        grow_literals(&mut self.lits, variables as usize)?;
        self.occurrences.grow(2 * variables as usize)?;
        self.variables = variables;
        Ok(())
    }

    /// Whether there is a constraint in a slot.
    pub fn is_filled(&self, slot: usize) -> bool
        ensures { result ≡ is_some (slice_index_or self.now.slots.items slot None) }
    {
        is_filled(&self.slots, slot)
    }

    /// Puts a constraint into an empty slot. An `Err` leaves what is attached and what is counted.
    pub fn attach(&mut self, slot: usize, c: Ranked, trail: &Trail) -> Result<(), AllocError>
        requires built { AreBuilt self.old }
        requires step { AreInStep self.old (value_given (counted_of self.old)) }
        requires variables { self.old.variables ≡ trail.now.variables }
        requires counted { counted_of self.old ≡ take self.old.used (map (λ e. e.lit) trail.now.entries) }
        requires used { self.old.used ≤ length trail.now.entries }
        requires small { slot + 1 < 2 ^ 64 }
        requires free { slice_index_or self.old.slots.items slot None ≡ None }
        requires in_range { VarsBelow self.old.variables c.terms }
        ensures built { AreBuilt self.new }
        ensures step { AreInStep self.new (value_given (counted_of self.new)) }
        ensures variables { self.new.variables ≡ self.old.variables }
        ensures counted { counted_of self.new ≡ take self.new.used (map (λ e. e.lit) trail.now.entries) }
        ensures no_fewer { self.old.used ≤ self.new.used }
        ensures ok { OnOk result (IsPut slot (Some c) self.old.slots.items self.new.slots.items) }
        ensures err { OnErr result (attached_from 0 self.new.slots.items ≡ attached_from 0 self.old.slots.items) }
        ensures err_counted { OnErr result (counted_of self.new ≡ counted_of self.old) }
    {
        self.make_slots(slot + 1)?;
        let before = self.used;
        self.count_all(trail);
        match self.fill(slot, c, trail) {
            Ok(()) => Ok(()),
            Err(e) => {
                self.uncount_to(before);
                Err(e)
            }
        }
    }

    /// Takes out what stands in a slot.
    pub fn empty(&mut self, slot: usize)
        requires built { AreBuilt self.old }
        requires step { AreInStep self.old (value_given (counted_of self.old)) }
        ensures built { AreBuilt self.new }
        ensures step { AreInStep self.new (value_given (counted_of self.new)) }
        ensures lits { self.new.lits ≡ self.old.lits }
        ensures used { self.new.used ≡ self.old.used }
        ensures variables { self.new.variables ≡ self.old.variables }
        ensures slots { IsPut slot None self.old.slots.items self.new.slots.items }
        ensures same_length { length self.new.slots.items ≡ length self.old.slots.items }
    {
        if slot >= self.slots.len() {
            return;
        }
        match &self.slots[slot] {
            None => {}
            Some(c) => {
                remove_all(&mut self.occurrences, c.terms(), slot);
                self.rooms[slot] = 0;
                self.slots[slot] = None;
            }
        }
    }

    /// Empties a slot, and leaves its occurrences.
    fn clear(&mut self, slot: usize)
        requires rooms { length self.old.slots.items ≤ length self.old.rooms.items }
        ensures slots { IsPut slot None self.old.slots.items self.new.slots.items }
        ensures cleared { AreCleared self.old.slots.items self.new.slots.items self.old.rooms.items self.new.rooms.items }
        ensures same { self.new ≡ record self.old { slots = self.new.slots; rooms = self.new.rooms } }
    {
        if slot < self.slots.len() {
            self.slots[slot] = None;
            self.rooms[slot] = 0;
        }
    }

    /// Empties the slots of ids, and leaves their occurrences.
    fn clear_each(&mut self, dropped: &[ConId])
        requires rooms { length self.old.slots.items ≤ length self.old.rooms.items }
        ensures attached { Drops dropped.now (attached_from 0 self.old.slots.items) (attached_from 0 self.new.slots.items) }
        ensures cleared { AreCleared self.old.slots.items self.new.slots.items self.old.rooms.items self.new.rooms.items }
        ensures same { self.new ≡ record self.old { slots = self.new.slots; rooms = self.new.rooms } }
    {
        for c in dropped {
            self.clear(c.0 as usize);
        }
    }

    /// Takes out what stands in the slots of ids, by one pass over all lists of occurrences.
    pub fn empty_each(&mut self, dropped: &[ConId])
        requires built { AreBuilt self.old }
        requires step { AreInStep self.old (value_given (counted_of self.old)) }
        ensures built { AreBuilt self.new }
        ensures step { AreInStep self.new (value_given (counted_of self.new)) }
        ensures lits { self.new.lits ≡ self.old.lits }
        ensures used { self.new.used ≡ self.old.used }
        ensures variables { self.new.variables ≡ self.old.variables }
        ensures attached { Drops dropped.now (attached_from 0 self.old.slots.items) (attached_from 0 self.new.slots.items) }
    {
        self.clear_each(dropped);
        self.occurrences.keep_filled(&self.slots);
    }

    /// Moves what stands in a slot to a lower one, which is empty.
    fn move_to(&mut self, from: usize, to: usize)
        requires built { AreBuilt self.old }
        requires step { AreInStep self.old (value_given (counted_of self.old)) }
        requires apart { to < from }
        requires here { from < length self.old.slots.items }
        requires free { slice_index_or self.old.slots.items to None ≡ None }
        ensures built { AreBuilt self.new }
        ensures step { AreInStep self.new (value_given (counted_of self.new)) }
        ensures lits { self.new.lits ≡ self.old.lits }
        ensures used { self.new.used ≡ self.old.used }
        ensures variables { self.new.variables ≡ self.old.variables }
        ensures same_length { length self.new.slots.items ≡ length self.old.slots.items }
        ensures moved { IsMovedSlot from to self.old.slots.items self.new.slots.items }
    {
        if let Some(c) = self.slots[from].take() {
            rename_all(&mut self.occurrences, c.terms(), from, to);
            self.rooms[to] = self.rooms[from];
            self.rooms[from] = 0;
            self.limits[to] = self.limits[from];
            self.waiting.add(to);
            self.slots[to] = Some(c);
        }
    }

    /// Moves what stands in a slot where its id goes, or takes it out where that goes to none.
    fn remap_one(&mut self, slot: usize, moves: &Moves)
        requires built { AreBuilt self.old }
        requires step { AreInStep self.old (value_given (counted_of self.old)) }
        requires here { slot < length self.old.slots.items }
        requires free { (d : ConId) → new_id moves.now (record { 0 = slot }) ≡ Some d → d ≢ record { 0 = slot } → slice_index_or self.old.slots.items d.0 None ≡ None }
        ensures built { AreBuilt self.new }
        ensures step { AreInStep self.new (value_given (counted_of self.new)) }
        ensures lits { self.new.lits ≡ self.old.lits }
        ensures used { self.new.used ≡ self.old.used }
        ensures variables { self.new.variables ≡ self.old.variables }
        ensures same_length { length self.new.slots.items ≡ length self.old.slots.items }
        ensures moved { IsOneMoved (new_id moves.now) (record { 0 = slot }) self.old.slots.items self.new.slots.items }
    {
        match moves.of(ConId(slot as u64)) {
            None => self.empty(slot),
            Some(id) => {
                if id.0 as usize != slot {
                    self.move_to(slot, id.0 as usize);
                }
            }
        }
    }

    /// Moves what stands in each slot where its id goes.
    pub fn remap(&mut self, moves: &Moves)
        requires built { AreBuilt self.old }
        requires step { AreInStep self.old (value_given (counted_of self.old)) }
        ensures built { AreBuilt self.new }
        ensures step { AreInStep self.new (value_given (counted_of self.new)) }
        ensures lits { self.new.lits ≡ self.old.lits }
        ensures used { self.new.used ≡ self.old.used }
        ensures variables { self.new.variables ≡ self.old.variables }
        ensures moved { AreMoved (new_id moves.now) (length self.old.slots.items) self.old.slots.items self.new.slots.items }
    {
        // No two ids go to one, and none goes up, as is said at each look-up.
        let _first = moves.of(ConId(0));
        for slot in 0..self.slots.len() {
            self.remap_one(slot, moves);
        }
    }
}
