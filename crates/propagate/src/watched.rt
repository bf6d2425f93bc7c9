//! A clause with the two of its literals that are watched (Moskewicz and others, "Chaff").
//!
//! As long as neither of the two is false, the clause is not in conflict and forces nothing. So only where one of them
//! becomes false it is looked at, and then gets another to watch, if there is one that isn't false.
ghost use Rattle.std.specs.Prelude.{◌≡◌, ◌≢◌, ◌<◌, ◌^◌, true, false, Some, None, take, is_some, slice_index_or, IfSome, IfNone, IfOk, IfErr};
ghost use Rattle.pb_rules.specs.Literal.{Literal};
ghost use Rattle.pb_rules.specs.Linear.{IsNormal};
ghost use Rattle.pb_rules.specs.Partial.{is_false};
ghost use Rattle.trail_state.specs.Trail.{value_in};
ghost use Rattle.propagate.specs.Watched.{HasLiteral, Watches, IsPair, IsClause, IsWatched, AreFalseBut};

use super::scan::{is_false, is_false_before};
use pb_constraints::{Constraint, Lit, Term};
use std::marker::Model;
use trail_state::Trail;

/// A clause of so many literals is watched, and a shorter one counted.
const WATCHED_LENGTH: usize = 3;

/// A clause, and which two of its literals are watched.
#[derive(Drop, Debug)]
pub struct Watched {
    constraint: Constraint,
    first: Lit,
    second: Lit,
}

impl Model for Watched {
    ghost use Rattle.propagate.specs.Watched.{WatchedView, IsWatched};

    ghost Value = { WatchedView };

    ghost view = { λ w. record { whole = w.constraint; first = w.first; second = w.second } };

    ghost invariant = { λ w. IsWatched (record { whole = w.constraint; first = w.first; second = w.second }) };
}

/// Whether a constraint is a clause of some length.
fn is_long_clause(c: &Constraint) -> bool
    ensures { result ≡ true → IsClause c.now }
{
    let terms = c.terms();
    if terms.len() < WATCHED_LENGTH {
        return false;
    }
    for t in terms {
        if t.coef != c.degree() {
            return false;
        }
    }
    true
}

/// How late a literal became false: its level, and above all levels where it isn't false.
fn lateness(lit: Lit, trail: &Trail) -> u64 {
    if !is_false(trail, lit) {
        return u64::MAX;
    }
    let levels = trail.levels();
    if lit.var() < levels.len() as u64 {
        levels[lit.var() as usize]
    } else {
        0
    }
}

/// A literal that isn't false, or that became false last: not this one, if there is one.
fn latest(terms: &[Term], but: Option<Lit>, trail: &Trail) -> Option<Lit>
    ensures there { IfSome result (λ l. HasLiteral terms.now l) }
    ensures other { IfSome result (λ l. but ≢ Some l) }
{
    let mut best = None;
    let mut last = 0;
    for t in terms {
        let late = lateness(t.lit, trail);
        if but != Some(t.lit) && (best.is_none() || late > last) {
            best = Some(t.lit);
            last = late;
        }
    }
    best
}

impl Watched {
    /// A clause of some length, with two literals watched that aren't false or became so last. Any other constraint is
    /// given back.
    pub fn of(constraint: Constraint, trail: &Trail) -> Result<Watched, Constraint>
        ensures ok { IfOk result (λ w. w.whole ≡ constraint) }
        ensures err { IfErr result (λ c. c ≡ constraint) }
    {
        if !is_long_clause(&constraint) {
            return Err(constraint);
        }
        match latest(constraint.terms(), None, trail) {
            None => Err(constraint),
            Some(first) => match latest(constraint.terms(), Some(first), trail) {
                None => Err(constraint),
                Some(second) => Ok(Watched {
                    constraint,
                    first,
                    second,
                }),
            },
        }
    }

    /// The terms, by rising variables.
    pub fn terms(&self) -> &[Term]
        ensures value { result.now ≡ self.now.whole.terms }
        ensures normal { IsNormal self.now.whole.terms self.now.whole.degree }
        ensures watched { IsWatched self.now }
    {
        self.constraint.terms()
    }

    /// The other watched literal, and `None` where this one isn't watched.
    pub fn other(&self, lit: Lit) -> Option<Lit>
        ensures some { IfSome result (λ l. IsPair self.now lit l) }
        ensures none { IfNone result (Watches self.now lit → ⊥) }
    {
        if self.first == lit {
            return Some(self.second);
        }
        if self.second == lit {
            return Some(self.first);
        }
        None
    }

    /// The first literal that isn't false, but for this one.
    pub fn open_but(&self, other: Lit, trail: &Trail) -> Option<Lit>
        ensures there { IfSome result (λ l. HasLiteral self.now.whole.terms l) }
        ensures open { IfSome result (λ l. is_false (value_in trail.now.entries) l ≡ false) }
        ensures apart { IfSome result (λ l. l ≢ other) }
        ensures none { IfNone result (AreFalseBut (value_in trail.now.entries) other self.now.whole.terms) }
    {
        for t in self.constraint.terms() {
            if t.lit != other && !is_false(trail, t.lit) {
                return Some(t.lit);
            }
        }
        None
    }

    /// Watches these two literals.
    pub fn watch(&mut self, first: Lit, second: Lit)
        requires first_there { HasLiteral self.old.whole.terms first }
        requires second_there { HasLiteral self.old.whole.terms second }
        requires apart { first ≢ second }
        ensures { self.new ≡ record { whole = self.old.whole; first = first; second = second } }
    {
        self.first = first;
        self.second = second;
    }

    /// The first watched literal.
    pub fn first(&self) -> Lit
        ensures { result ≡ self.now.first }
    {
        self.first
    }

    /// The second watched literal.
    pub fn second(&self) -> Lit
        ensures { result ≡ self.now.second }
    {
        self.second
    }

    /// Whether neither watched literal is false under so many of the trail's first literals.
    pub fn is_open_before(&self, trail: &Trail, count: usize) -> bool
        ensures { result ≡ true → (l : Literal) → Watches self.now l → is_false (value_in (take count trail.now.entries)) l ≡ false }
    {
        !is_false_before(trail, self.first, count) && !is_false_before(trail, self.second, count)
    }
}

/// Whether there is a clause in a slot.
pub fn is_held(slots: &[Option<Watched>], slot: usize) -> bool
    ensures { result ≡ is_some (slice_index_or slots.now slot None) }
{
    if slot < slots.len() {
        slots[slot].is_some()
    } else {
        false
    }
}
