//! Visits to the clauses that watch a literal which became false.
//!
//! A clause with a true literal stays as it is. Another one watches a literal that isn't false, if it has one, in the place
//! of the false one; if only its other watched literal isn't false, that one is forced; and if that one is false too, the
//! clause is in conflict. A watch of another literal may take memory: where there is none, the run goes on over all clauses.
ghost use Rattle.std.specs.Prelude.{◌≡◌, ◌≢◌, ◌<◌, ◌≤◌, ◌*◌, ℕ, Bool, Option, true, false, [], ◌∷◌, map, take, length, slice_index_or, Some, None, IfSome, IfNone};
ghost use Rattle.pb_rules.specs.Literal.{Literal};
ghost use Rattle.pb_rules.specs.Linear.{VarsBelow};
ghost use Rattle.pb_rules.specs.Partial.{is_false, InConflict};
ghost use Rattle.trail_state.specs.Trail.{value_in};
ghost use Rattle.propagate.specs.declared.visits.Turn.TheVariants.{Stays, Leaves, Conflict};
ghost use Rattle.propagate.specs.declared.visits.Visit.TheVariants.{Done, Conflict as Ends};
ghost use Rattle.propagate.specs.Forced.{Appends, IsConflict, AllClosed};
ghost use Rattle.propagate.specs.Counters.{literal_number};
ghost use Rattle.propagate.specs.Watched.{WatchedView, HasLiteral, HasTrue, Watches as WatchesLiteral, AreFalseBut, AreGuarded, wholes};
ghost use Rattle.propagate.specs.Watches.{watches_of, watched_in, AreWatched, KeepsGuards, AreSettled, IsSettledAt, IsTurned};

use super::lists::{Watch, WatchLists};
use super::scan::is_true;
use super::watched::Watched;
use super::watches::Watches;
use pb_constraints::{ConId, Lit};
use trail_state::Trail;

/// What becomes of a watch.
#[derive(Clone, Copy, Debug, PartialEq, Eq)]
pub enum Turn {
    /// It stays, and names this literal of its clause.
    Stays(Lit),
    /// It goes: its slot is empty, or watches other literals.
    Leaves,
    /// Its clause is in conflict.
    Conflict,
    /// There is no memory to watch another literal.
    Starves,
}

/// How a visit ended.
#[derive(Clone, Copy, Debug, PartialEq, Eq)]
pub enum Visit {
    /// Each clause that watches the false literal has a true one.
    Done,
    /// The clause of this slot is in conflict.
    Conflict(usize),
    /// There is no memory to watch another literal.
    Starves,
}

/// Pushes the one literal of a clause that may not be false, if it has no value, and answers whether it is false.
pub fn push_last(c: &Watched, last: Lit, id: ConId, trail: &mut Trail) -> bool
    requires there { HasLiteral c.now.whole.terms last }
    requires in_range { VarsBelow trail.old.variables c.now.whole.terms }
    requires rest { AreFalseBut (value_in trail.old.entries) last c.now.whole.terms }
    ensures variables { trail.new.variables ≡ trail.old.variables }
    ensures appends { Appends (record { id = id; constraint = c.now.whole } ∷ []) trail.old.entries trail.new.entries }
    ensures conflict { result ≡ true → InConflict (value_in trail.new.entries) c.now.whole }
    ensures pushed { result ≡ false → value_in trail.new.entries last.var ≡ Some last.yes }
{
    let _terms = c.terms();
    match trail.value(last.var()) {
        None => {
            trail.push(last, id);
            false
        }
        Some(value) => value != last.is_yes(),
    }
}

/// Has a clause watch a literal that isn't false in the place of one that became false, unless a literal of it is true.
/// Where it has none, its other watched literal is pushed, or it is in conflict.
fn watch_another(
    c: &mut Watched,
    gone: Lit,
    slot: usize,
    lists: &mut WatchLists,
    trail: &mut Trail,
) -> Turn
    requires falsified { is_false (value_in trail.old.entries) gone ≡ true }
    requires wide { 2 * trail.old.variables ≤ length lists.old }
    requires in_range { VarsBelow trail.old.variables c.old.whole.terms }
    ensures variables { trail.new.variables ≡ trail.old.variables }
    ensures appends { Appends (record { id = record { 0 = slot }; constraint = c.old.whole } ∷ []) trail.old.entries trail.new.entries }
    ensures turned { IsTurned (value_in trail.old.entries) gone slot c.old c.new lists.old lists.new }
    ensures stays { (l : Literal) → result ≡ Stays l → IsSettledAt (value_in trail.new.entries) l c.new }
    ensures leaves { result ≡ Leaves → WatchesLiteral c.new gone → ⊥ }
    ensures conflict { result ≡ Conflict → InConflict (value_in trail.new.entries) c.new.whole }
{
    match c.other(gone) {
        None => Turn::Leaves,
        Some(other) => {
            let _terms = c.terms();
            if is_true(trail, other) {
                return Turn::Stays(other);
            }
            match c.open_but(other, trail) {
                None => {
                    if push_last(c, other, ConId(slot as u64), trail) {
                        return Turn::Conflict;
                    }
                    Turn::Stays(other)
                }
                Some(open) => {
                    if is_true(trail, open) {
                        return Turn::Stays(open);
                    }
                    if lists.push(open, Watch { slot, other }).is_err() {
                        return Turn::Starves;
                    }
                    c.watch(other, open);
                    Turn::Leaves
                }
            }
        }
    }
}

impl Watches {
    /// Visits the clause of a watch of a literal that became false.
    fn visit_at(&mut self, gone: Lit, one: Watch, trail: &mut Trail) -> Turn
        requires built { AreWatched trail.old.variables self.old }
        requires falsified { is_false (value_in trail.old.entries) gone ≡ true }
        ensures built { AreWatched trail.old.variables self.new }
        ensures wholes { wholes self.new.slots.items ≡ wholes self.old.slots.items }
        ensures closed { self.new.closed ≡ self.old.closed }
        ensures guards { KeepsGuards (value_in trail.old.entries) self.old.slots.items self.new.slots.items }
        ensures list { watches_of self.new.lists (literal_number gone) ≡ watches_of self.old.lists (literal_number gone) }
        ensures others { (i : ℕ) → i ≢ one.slot → slice_index_or self.new.slots.items i None ≡ slice_index_or self.old.slots.items i None }
        ensures variables { trail.new.variables ≡ trail.old.variables }
        ensures appends { Appends (watched_in self.old) trail.old.entries trail.new.entries }
        ensures before { (w v : WatchedView) → slice_index_or self.new.slots.items one.slot None ≡ Some w → slice_index_or self.old.slots.items one.slot None ≡ Some v → WatchesLiteral w gone → WatchesLiteral v gone }
        ensures stays { (l : Literal) (w : WatchedView) → result ≡ Stays l → slice_index_or self.new.slots.items one.slot None ≡ Some w → WatchesLiteral w gone → HasLiteral w.whole.terms one.other → IsSettledAt (value_in trail.new.entries) l w }
        ensures leaves { (w : WatchedView) → result ≡ Leaves → slice_index_or self.new.slots.items one.slot None ≡ Some w → WatchesLiteral w gone → ⊥ }
        ensures conflict { result ≡ Conflict → IsConflict (watched_in self.old) trail.new.entries (record { 0 = one.slot }) }
    {
        if is_true(trail, one.other) {
            return Turn::Stays(one.other);
        }
        if one.slot >= self.slots.len() {
            return Turn::Leaves;
        }
        match &mut self.slots[one.slot] {
            None => Turn::Leaves,
            Some(c) => {
                let turn = watch_another(c, gone, one.slot, &mut self.lists, trail);
                // That two literals of it are watched is said where its terms are read.
                let _terms = c.terms();
                turn
            }
        }
    }

    /// Visits each clause that watches a literal which became false, until one is in conflict.
    fn visit(&mut self, gone: Lit, trail: &mut Trail) -> Visit
        requires built { AreWatched trail.old.variables self.old }
        requires below { gone.var < trail.old.variables }
        requires falsified { is_false (value_in trail.old.entries) gone ≡ true }
        ensures built { AreWatched trail.old.variables self.new }
        ensures wholes { wholes self.new.slots.items ≡ wholes self.old.slots.items }
        ensures closed { self.new.closed ≡ self.old.closed }
        ensures guards { KeepsGuards (value_in trail.old.entries) self.old.slots.items self.new.slots.items }
        ensures variables { trail.new.variables ≡ trail.old.variables }
        ensures appends { Appends (watched_in self.old) trail.old.entries trail.new.entries }
        ensures done { result ≡ Done → AreSettled (value_in trail.new.entries) gone self.new.slots.items }
        ensures conflict { (i : ℕ) → result ≡ Ends i → IsConflict (watched_in self.old) trail.new.entries (record { 0 = i }) }
    {
        let mut place = 0;
        while place < self.lists.of(gone).len() {
            let one = self.lists.of(gone)[place];
            let slot = one.slot;
            match self.visit_at(gone, one, trail) {
                Turn::Stays(other) => {
                    self.lists.set(gone, place, Watch { slot, other });
                    place += 1;
                }
                Turn::Leaves => {
                    let _out = self.lists.take_out(gone, place);
                }
                Turn::Conflict => return Visit::Conflict(slot),
                Turn::Starves => return Visit::Starves,
            }
        }
        Visit::Done
    }

    /// Visits the clauses that watch a literal which the trail makes false, literal by literal from so many on, until one is
    /// in conflict. It keeps how many literals of the trail were visited.
    pub fn close(&mut self, visited: &mut usize, trail: &mut Trail) -> Option<usize>
        requires built { AreWatched trail.old.variables self.old }
        requires few { visited.old ≤ length trail.old.entries }
        requires guarded { AreGuarded (value_in (take visited.old trail.old.entries)) (value_in trail.old.entries) self.old.slots.items }
        ensures built { AreWatched trail.old.variables self.new }
        ensures wholes { wholes self.new.slots.items ≡ wholes self.old.slots.items }
        ensures closed { self.new.closed ≡ self.old.closed }
        ensures guards { KeepsGuards (value_in trail.old.entries) self.old.slots.items self.new.slots.items }
        ensures variables { trail.new.variables ≡ trail.old.variables }
        ensures appends { Appends (watched_in self.old) trail.old.entries trail.new.entries }
        ensures few { visited.new ≤ length trail.new.entries }
        ensures guarded { AreGuarded (value_in (take visited.new trail.new.entries)) (value_in trail.new.entries) self.new.slots.items }
        ensures conflict { IfSome result (λ i. IsConflict (watched_in self.old) trail.new.entries (record { 0 = i })) }
        ensures all_closed { IfNone result (AllClosed (watched_in self.old) trail.new.entries) }
    {
        while *visited < trail.literals().len() {
            let _assigned = trail.assigned();
            let gone = trail.literals()[*visited].opposite();
            match self.visit(gone, trail) {
                Visit::Done => *visited += 1,
                Visit::Conflict(slot) => return Some(slot),
                Visit::Starves => return self.close_plainly(trail),
            }
        }
        None
    }
}
