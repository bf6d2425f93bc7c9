//! Lives of a propagator, each a list of calls. A plain program goes through the same calls on a trail of its own, and
//! after each run both have found a conflict, or the same values.
ghost use Rattle.std.specs.Prelude.{◌≡◌, ◌↔◌, None, IsTrue, OnOk, IfOk};
ghost use Rattle.pb_rules.specs.Linear.{VarsBelow};
ghost use Rattle.constraint_store.specs.Live.{is_live};
ghost use Rattle.propagate.specs.Attached.{attached_at};
ghost use Rattle.propagate.specs.Propagator.{IsReady};

use crate::scanning::scan;
use constraint_store::{Moves, Store};
use pb_constraints::{ConId, Lit, Part, Term, normalise};
use propagate::Propagator;
use std::alloc::{AllocError, Global};
use std::test::Fail;
use trail_state::Trail;

/// A call. A constraint is named by its place in the table.
#[derive(Clone, Copy)]
enum Call {
    Decide(Lit),
    Run,
    Jump(u64),
    Attach(usize),
    Remove(usize),
    RemoveBoth(usize, usize),
    Remap,
}

/// A propagator and its trail, and the plain program's.
#[derive(Drop)]
struct Pair {
    store: Store,
    propagator: Propagator,
    trail: Trail,
    plain: Trail,
    /// The constraints of the table that were not removed.
    known: Vec<Option<ConId>>,
    /// What the plain program goes over.
    attached: Vec<ConId>,
}

/// Whether each variable is below a number.
fn are_below(terms: &[Term], variables: u64) -> bool
    ensures { IsTrue result ↔ VarsBelow variables terms.now }
{
    terms.iter().all(|t| t.lit.var() < variables)
}

/// Decides a literal on a trail, where its variable is one and has no value.
fn decide_on(trail: &mut Trail, lit: Lit) {
    if lit.var() < trail.variables() && trail.value(lit.var()).is_none() {
        trail.decide(lit);
    }
}

/// Takes a trail back to a level, where it is above it.
fn jump_on(trail: &mut Trail, level: u64) {
    if level <= trail.level() {
        trail.jump_back(level);
    }
}

/// Gives ids that have a new one the new one.
fn rename(ids: &mut [ConId], moves: &Moves) {
    for one in ids.iter_mut() {
        if let Some(id) = moves.of(*one) {
            *one = id;
        }
    }
}

/// The same where there are ids.
fn rename_known(ids: &mut [Option<ConId>], moves: &Moves) {
    for one in ids.iter_mut() {
        if let Some(id) = *one {
            *one = moves.of(id);
        }
    }
}

impl Pair {
    /// The constraint of a place in the table, where it was not removed.
    fn at(&self, place: usize) -> Option<ConId> {
        if place < self.known.len() {
            self.known[place]
        } else {
            None
        }
    }

    fn decide(&mut self, lit: Lit)
        requires { IsReady self.old.propagator self.old.store self.old.trail }
        ensures { IsReady self.new.propagator self.new.store self.new.trail }
    {
        if lit.var() < self.trail.variables() && self.trail.value(lit.var()).is_none() {
            self.trail.decide(lit);
        }
        decide_on(&mut self.plain, lit);
    }

    fn jump(&mut self, level: u64)
        requires { IsReady self.old.propagator self.old.store self.old.trail }
        ensures { IsReady self.new.propagator self.new.store self.new.trail }
    {
        if level <= self.trail.level() {
            self.trail.jump_back(level);
            self.propagator.back(&self.trail);
        }
        jump_on(&mut self.plain, level);
    }

    fn attach(&mut self, id: ConId) -> Result<(), AllocError>
        requires { IsReady self.old.propagator self.old.store self.old.trail }
        ensures { OnOk result (IsReady self.new.propagator self.new.store self.new.trail) }
    {
        if self.store.is_live(id) && are_below(self.store.terms(id), self.trail.variables()) {
            self.propagator.attach(id, &self.store, &self.trail)?;
            self.attached.push(id)?;
        }
        Ok(())
    }

    /// Takes a live constraint out of the propagator and of the store.
    fn take_out(&mut self, id: ConId)
        requires ready { IsReady self.old.propagator self.old.store self.old.trail }
        requires live { IsTrue (is_live self.old.store id) }
        ensures { IsReady self.new.propagator self.new.store self.new.trail }
    {
        self.propagator.detach(id);
        self.store.remove(id);
    }

    /// Removes a live constraint that isn't attached from the store.
    fn free(&mut self, id: ConId)
        requires ready { IsReady self.old.propagator self.old.store self.old.trail }
        requires live { IsTrue (is_live self.old.store id) }
        requires free { attached_at self.old.propagator.attached id ≡ None }
        ensures ready { IsReady self.new.propagator self.new.store self.new.trail }
        ensures same { self.new.propagator ≡ self.old.propagator }
    {
        self.store.remove(id);
    }

    /// The same where it is live.
    fn forget(&mut self, id: ConId)
        requires ready { IsReady self.old.propagator self.old.store self.old.trail }
        requires free { attached_at self.old.propagator.attached id ≡ None }
        ensures ready { IsReady self.new.propagator self.new.store self.new.trail }
        ensures same { self.new.propagator ≡ self.old.propagator }
    {
        if self.store.is_live(id) {
            self.free(id);
        }
        self.attached.retain(|one| *one != id);
    }

    /// Takes two constraints out of the propagator by one call, and then of the store.
    fn remove_both(&mut self, one: ConId, other: ConId)
        requires { IsReady self.old.propagator self.old.store self.old.trail }
        ensures { IsReady self.new.propagator self.new.store self.new.trail }
    {
        self.propagator.detach_each(&[one, other]);
        self.forget(one);
        self.forget(other);
    }

    fn remove(&mut self, id: ConId, place: usize)
        requires { IsReady self.old.propagator self.old.store self.old.trail }
        ensures { IsReady self.new.propagator self.new.store self.new.trail }
    {
        if self.store.is_live(id) {
            self.take_out(id);
        }
        self.attached.retain(|one| *one != id);
        if place < self.known.len() {
            self.known[place] = None;
        }
    }

    /// Gives the store's constraints new ids, in the propagator too.
    fn renumber(&mut self) -> Result<Moves, AllocError>
        requires { IsReady self.old.propagator self.old.store self.old.trail }
        ensures { OnOk result (IsReady self.new.propagator self.new.store self.new.trail) }
    {
        let moves = self.store.compact()?;
        // No two ids go to one, as is said at each look-up.
        let _first = moves.of(ConId(0));
        self.propagator.remap(&moves);
        Ok(moves)
    }

    fn remap(&mut self) -> Result<(), AllocError>
        requires { IsReady self.old.propagator self.old.store self.old.trail }
        ensures { OnOk result (IsReady self.new.propagator self.new.store self.new.trail) }
    {
        let moves = self.renumber()?;
        rename(&mut self.attached, &moves);
        rename_known(&mut self.known, &moves);
        Ok(())
    }

    /// Runs both, and says whether they agree.
    fn run(&mut self) -> bool
        requires { IsReady self.old.propagator self.old.store self.old.trail }
        ensures { IsReady self.new.propagator self.new.store self.new.trail }
    {
        let found = self.propagator.run(&mut self.trail, &self.store);
        let other = scan(&self.attached, &self.store, &mut self.plain);
        match (found, other) {
            (None, None) => self.trail.values() == self.plain.values(),
            (Some(_), Some(_)) => true,
            _ => false,
        }
    }

    /// Makes a call, and says whether the two agree after it.
    fn call(&mut self, call: Call) -> Result<bool, AllocError>
        requires { IsReady self.old.propagator self.old.store self.old.trail }
        ensures { OnOk result (IsReady self.new.propagator self.new.store self.new.trail) }
    {
        match call {
            Call::Decide(lit) => self.decide(lit),
            Call::Run => return Ok(self.run()),
            Call::Jump(level) => self.jump(level),
            Call::Attach(place) => {
                if let Some(id) = self.at(place) {
                    self.attach(id)?;
                }
            }
            Call::Remove(place) => {
                if let Some(id) = self.at(place) {
                    self.remove(id, place);
                }
            }
            Call::RemoveBoth(one, other) => {
                if let (Some(a), Some(b)) = (self.at(one), self.at(other)) {
                    self.remove_both(a, b);
                }
            }
            Call::Remap => self.remap()?,
        }
        Ok(true)
    }
}

/// Adds `parts >= degree` to a store. A part is a coefficient, a variable, and whether its literal is the variable itself.
fn add(
    alloc: Global,
    store: &mut Store,
    parts: &[(i64, u8, bool)],
    degree: i64,
) -> Result<ConId, Fail> {
    let mut made = Vec::new(alloc);
    for (coef, var, yes) in parts {
        let var = u64::from(*var);
        let lit = if *yes { Lit::yes(var) } else { Lit::no(var) };
        made.push(Part { coef: *coef, lit })?;
    }
    let id = store.add(normalise(alloc, &made, degree)?, 0)?;
    Ok(id)
}

/// The table's constraints: one with unlike coefficients, clauses, one of which is made false by two decisions, one whose
/// greatest coefficient is its degree, and one whose coefficients neither rise nor fall with the variables.
fn table(alloc: Global, store: &mut Store) -> Result<Vec<Option<ConId>>, Fail> {
    let mut known = Vec::new(alloc);
    let heavy = [(2, 0, true), (1, 1, true), (1, 2, true)];
    known.push(Some(add(alloc, store, &heavy, 2)?))?;
    let not_both = [(1, 1, false), (1, 2, false)];
    known.push(Some(add(alloc, store, &not_both, 1)?))?;
    let either = [(1, 0, true), (1, 3, true)];
    known.push(Some(add(alloc, store, &either, 1)?))?;
    let cover = [(4, 5, true), (2, 3, false), (1, 4, true), (1, 2, true)];
    known.push(Some(add(alloc, store, &cover, 4)?))?;
    let two_of_three = [(1, 3, false), (1, 4, false), (1, 5, false)];
    known.push(Some(add(alloc, store, &two_of_three, 2)?))?;
    let last = [(1, 2, true), (1, 4, true)];
    known.push(Some(add(alloc, store, &last, 1)?))?;
    let steep = [(1, 0, true), (3, 1, false), (2, 2, true), (5, 3, true)];
    known.push(Some(add(alloc, store, &steep, 6)?))?;
    Ok(known)
}

/// A propagator with nothing attached, over the table's six variables.
fn fresh(alloc: Global) -> Result<Pair, Fail>
    ensures { IfOk result (λ p. IsReady p.propagator p.store p.trail) }
{
    let mut store = Store::new(alloc);
    let known = table(alloc, &mut store)?;
    let trail = Trail::new(alloc, 6)?;
    Ok(Pair {
        store,
        propagator: Propagator::new(alloc, trail.variables())?,
        trail,
        plain: Trail::new(alloc, 6)?,
        known,
        attached: Vec::new(alloc),
    })
}

/// Makes the calls one after another, and says how many were made until the two did not agree.
fn agree_for(alloc: Global, calls: &[Call]) -> Result<usize, Fail> {
    let mut pair = fresh(alloc)?;
    for made in 0..calls.len() {
        if !pair.call(calls[made])? {
            return Ok(made);
        }
    }
    Ok(calls.len())
}

#[test]
fn decides_twice_and_jumps_between(rt: HostRuntime) -> Result<(), Fail> {
    let (x0, x1, x2, x4) = (Lit::yes(0), Lit::yes(1), Lit::yes(2), Lit::yes(4));
    let calls = [
        Call::Attach(0),
        Call::Attach(2),
        Call::Attach(5),
        Call::Decide(x0.opposite()),
        Call::Decide(x4.opposite()),
        Call::Jump(1),
        Call::Run,
        Call::Jump(0),
        Call::Run,
        Call::Decide(x1.opposite()),
        Call::Decide(x0.opposite()),
        Call::Run,
        Call::Jump(0),
        Call::Decide(x4.opposite()),
        Call::Decide(x2),
        Call::Run,
        Call::Jump(1),
        Call::Run,
    ];
    assert_eq!(rt; agree_for(rt.alloc(), &calls)?, calls.len());
    Ok(())
}

#[test]
fn runs_again_after_a_conflict(rt: HostRuntime) -> Result<(), Fail> {
    let (x0, x4) = (Lit::yes(0), Lit::yes(4));
    let calls = [
        Call::Attach(0),
        Call::Attach(1),
        Call::Attach(4),
        Call::Attach(0),
        Call::Run,
        Call::Decide(x4),
        Call::Run,
        Call::Decide(x0.opposite()),
        Call::Run,
        Call::Run,
        Call::Jump(1),
        Call::Run,
        Call::Decide(x0),
        Call::Run,
    ];
    assert_eq!(rt; agree_for(rt.alloc(), &calls)?, calls.len());
    Ok(())
}

#[test]
fn attaches_at_depth_and_jumps_below(rt: HostRuntime) -> Result<(), Fail> {
    let (x2, x3, x4) = (Lit::yes(2), Lit::yes(3), Lit::yes(4));
    let calls = [
        Call::Decide(x3),
        Call::Run,
        Call::Decide(x4.opposite()),
        Call::Attach(3),
        Call::Attach(5),
        Call::Run,
        Call::Jump(0),
        Call::Run,
        Call::Decide(x2.opposite()),
        Call::Attach(4),
        Call::Run,
        Call::Jump(0),
        Call::Run,
    ];
    assert_eq!(rt; agree_for(rt.alloc(), &calls)?, calls.len());
    Ok(())
}

#[test]
fn detaches_and_remaps(rt: HostRuntime) -> Result<(), Fail> {
    let (x0, x4) = (Lit::yes(0), Lit::yes(4));
    let calls = [
        Call::Attach(0),
        Call::Attach(1),
        Call::Attach(2),
        Call::Attach(5),
        Call::Decide(x0.opposite()),
        Call::Remove(0),
        Call::Remap,
        Call::Run,
        Call::Attach(3),
        Call::Jump(0),
        Call::Remap,
        Call::Decide(x4.opposite()),
        Call::Run,
        Call::Remove(5),
        Call::Jump(0),
        Call::Run,
    ];
    assert_eq!(rt; agree_for(rt.alloc(), &calls)?, calls.len());
    Ok(())
}

#[test]
fn detaches_two_by_one_call(rt: HostRuntime) -> Result<(), Fail> {
    let (x0, x4) = (Lit::yes(0), Lit::yes(4));
    let calls = [
        Call::Attach(0),
        Call::Attach(2),
        Call::Attach(3),
        Call::Attach(5),
        Call::Decide(x0.opposite()),
        Call::Run,
        Call::RemoveBoth(0, 3),
        Call::Run,
        Call::Jump(0),
        Call::Decide(x4.opposite()),
        Call::Run,
        Call::Attach(1),
        Call::RemoveBoth(5, 5),
        Call::Jump(0),
        Call::Decide(x0.opposite()),
        Call::Run,
    ];
    assert_eq!(rt; agree_for(rt.alloc(), &calls)?, calls.len());
    Ok(())
}

#[test]
fn forces_by_unlike_coefficients(rt: HostRuntime) -> Result<(), Fail> {
    let (x0, x1, x2, x3) = (Lit::yes(0), Lit::yes(1), Lit::yes(2), Lit::yes(3));
    let calls = [
        Call::Attach(6),
        Call::Decide(x1),
        Call::Run,
        Call::Jump(0),
        Call::Decide(x0),
        Call::Run,
        Call::Decide(x2.opposite()),
        Call::Run,
        Call::Jump(1),
        Call::Decide(x3.opposite()),
        Call::Run,
        Call::Attach(3),
        Call::Run,
        Call::Jump(0),
        Call::Run,
    ];
    assert_eq!(rt; agree_for(rt.alloc(), &calls)?, calls.len());
    Ok(())
}
