//! The entries of a trail: literals and reasons in order, and the place of each variable.
//!
//! All lists are at least as long as there are variables, with a count of how much is used, so that only `grow` takes
//! memory. Values and levels by variable are kept beside it, by `Trail`.
ghost use Rattle.std.specs.Prelude.{ℕ, ◌≡◌, ◌<◌, ◌≤◌, ◌^◌, ◌++◌, [], ◌∷◌, length, OnOk, OnErr, IsSome, Option, Some, None, map, All, take, is_some};
ghost use Rattle.pb_constraints.specs.declared.ConId.{ConId};
ghost use Rattle.trail_state.specs.Trail.{Entry, level_of, level_in, value_in, reason_in, with_reason, IsDistinct};

use pb_constraints::{ConId, Lit};
use std::alloc::{AllocError, Global};
use std::marker::Model;

/// The assigned literals in order, with their reasons.
#[derive(Drop, Debug)]
pub struct Stack {
    lits: Vec<Lit>,
    reasons: Vec<Option<ConId>>,
    places: Vec<Option<usize>>,
    used: usize,
    depth: u64,
}

impl Model for Stack {
    ghost use Rattle.trail_state.specs.Trail.{TrailView};
    ghost use Rattle.trail_state.specs.Fields.{IsTrail, entries_of};
    ghost use Rattle.std.specs.Prelude.{length};

    ghost Value = { TrailView };

    ghost view = { λ t. record { variables = length t.places.items; entries = entries_of t.lits.items t.reasons.items t.used } };

    ghost invariant = { λ t. IsTrail t.lits.items t.reasons.items t.places.items t.used t.depth };
}

impl Stack {
    /// No entry, for no variable. It takes no memory.
    pub fn new(alloc: Global) -> Stack
        ensures { result ≡ record { variables = 0; entries = [] } }
    {
        Stack {
            lits: Vec::new(alloc),
            reasons: Vec::new(alloc),
            places: Vec::new(alloc),
            used: 0,
            depth: 0,
        }
    }

    /// Makes room for so many variables. An `Err` leaves all as it was.
    pub fn grow(&mut self, count: usize) -> Result<(), AllocError>
        requires more { self.old.variables ≤ count }
        requires small { count < 2 ^ 62 }
        ensures ok { OnOk result (self.new ≡ record self.old { variables = count }) }
        ensures err { OnErr result (self.new ≡ self.old) }
    {
        self.lits.resize(count, Lit::yes(0))?;
        self.reasons.resize(count, None)?;
        self.places.resize(count, None)
    }

    /// How many variables there are.
    pub fn variables(&self) -> u64
        ensures value { result ≡ self.now.variables }
        ensures small { self.now.variables < 2 ^ 62 }
    {
        self.places.len() as u64
    }

    /// How many variables are assigned. What holds of every trail's entries is said here.
    pub fn assigned(&self) -> u64
        ensures value { result ≡ length self.now.entries }
        ensures few { length self.now.entries ≤ self.now.variables }
        ensures in_range { All (λ e. e.lit.var < self.now.variables) self.now.entries }
        ensures distinct { IsDistinct self.now.entries }
    {
        self.used as u64
    }

    /// How many decisions there are.
    pub fn level(&self) -> u64
        ensures { result ≡ level_of self.now.entries }
    {
        self.depth
    }

    /// The constraint that forced a variable, and `None` where it is unassigned or was decided, or there is no such
    /// variable.
    pub fn reason(&self, var: u64) -> Option<ConId>
        ensures { result ≡ reason_in self.now.entries var }
    {
        if var < self.places.len() as u64 {
            match self.places[var as usize] {
                None => None,
                Some(place) => self.reasons[place],
            }
        } else {
            None
        }
    }

    /// Whether a variable is assigned among the first entries.
    pub fn is_among_first(&self, var: u64, count: usize) -> bool
        ensures { result ≡ is_some (value_in (take count self.now.entries) var) }
    {
        if var < self.places.len() as u64 {
            match self.places[var as usize] {
                None => false,
                Some(place) => place < count,
            }
        } else {
            false
        }
    }

    /// The assigned literals in order.
    pub fn literals(&self) -> &[Lit]
        ensures { result.now ≡ map (λ e. e.lit) self.now.entries }
    {
        &self.lits[..self.used]
    }

    /// Puts a literal at the end.
    pub fn put(&mut self, lit: Lit, reason: Option<ConId>)
        requires in_range { lit.var < self.old.variables }
        requires unassigned { value_in self.old.entries lit.var ≡ None }
        ensures entries { self.new.entries ≡ self.old.entries ++ record { lit = lit; reason = reason } ∷ [] }
        ensures variables { self.new.variables ≡ self.old.variables }
    {
        self.lits[self.used] = lit;
        self.reasons[self.used] = reason;
        self.places[lit.var() as usize] = Some(self.used);
        self.used += 1;
        if reason.is_none() {
            self.depth += 1;
        }
    }

    /// Gives a literal that was pushed another reason.
    pub fn set_reason(&mut self, var: u64, reason: ConId)
        requires { IsSome (reason_in self.old.entries var) }
        ensures entries { self.new.entries ≡ with_reason var reason self.old.entries }
        ensures variables { self.new.variables ≡ self.old.variables }
        ensures levels { (x : ℕ) → level_in self.new.entries x ≡ level_in self.old.entries x }
    {
        if let Some(place) = self.places[var as usize] {
            self.reasons[place] = Some(reason);
        }
    }

    /// Takes the last literal off.
    pub fn pop(&mut self) -> Lit
        requires { 0 < length self.old.entries }
        ensures entries { (reason : Option ConId) × (self.old.entries ≡ self.new.entries ++ record { lit = result; reason = reason } ∷ []) }
        ensures variables { self.new.variables ≡ self.old.variables }
        ensures in_range { result.var < self.old.variables }
        ensures gone { value_in self.new.entries result.var ≡ None }
    {
        self.used -= 1;
        let last = self.lits[self.used];
        self.places[last.var() as usize] = None;
        if self.reasons[self.used].is_none() {
            self.depth -= 1;
        }
        last
    }
}
