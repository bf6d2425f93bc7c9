//! The two conflicts of the four clauses over two variables: the first at level 1, and then, with what it teaches, one at
//! level 0.

ghost use Rattle.std.specs.Prelude.{◌≡◌, ◌<◌, ◌∷◌, [], IfOk, true, false};
ghost use Rattle.pb_rules.specs.Literal.{Literal};
ghost use Rattle.pb_rules.specs.Linear.{Linear};
ghost use Rattle.pb_rules.specs.declared.Term.{Term};
ghost use Rattle.constraint_store.specs.Live.{is_live, constraint_of};

use conflict_graph::{Learned, analyse};
use constraint_store::Store;
use pb_constraints::{ConId, Constraint, Lit, Term};
use proof_log::Log;
use std::alloc::{AllocError, Global};
use std::test::Fail;
use trail_state::Trail;

/// The clause of one literal.
fn unit(alloc: Global, lit: Lit) -> Result<Constraint, AllocError>
    ensures { IfOk result (λ c. c ≡ record { terms = record { coef = 1; lit = lit } ∷ []; degree = 1 }) }
{
    let mut terms = Vec::new(alloc);
    terms.push(Term { coef: 1, lit })?;
    Ok(Constraint::of_normal(terms, 1))
}

/// The clause of two literals.
fn clause(alloc: Global, first: Lit, second: Lit) -> Result<Constraint, AllocError>
    requires { first.var < second.var }
    ensures { IfOk result (λ c. c ≡ record { terms = record { coef = 1; lit = first } ∷ record { coef = 1; lit = second } ∷ []; degree = 1 }) }
{
    let mut terms = Vec::new(alloc);
    terms.push(Term {
        coef: 1,
        lit: first,
    })?;
    terms.push(Term {
        coef: 1,
        lit: second,
    })?;
    Ok(Constraint::of_normal(terms, 1))
}

/// What is learned where x0 was decided false, the first clause forced x1, and the second is in conflict.
fn learn_at_level_one(
    alloc: Global,
    store: &Store,
    forcing: ConId,
    conflict: ConId,
    log: &mut Log,
) -> Result<Learned, AllocError>
    requires forcing_live { is_live store.now forcing ≡ true }
    requires conflict_live { is_live store.now conflict ≡ true }
    requires forcing { constraint_of store.now forcing ≡ record { terms = record { coef = 1; lit = record { var = 0; yes = true } } ∷ record { coef = 1; lit = record { var = 1; yes = true } } ∷ []; degree = 1 } }
    requires conflict { constraint_of store.now conflict ≡ record { terms = record { coef = 1; lit = record { var = 0; yes = true } } ∷ record { coef = 1; lit = record { var = 1; yes = false } } ∷ []; degree = 1 } }
{
    let mut trail = Trail::new(alloc, 2)?;
    trail.decide(Lit::no(0));
    trail.push(Lit::yes(1), forcing);
    analyse(alloc, &trail, store, conflict, log)
}

/// What is learned at level 0, where the first clause forces x0, the second x1, and the third is in conflict.
fn learn_at_level_zero(
    alloc: Global,
    store: &Store,
    first: ConId,
    second: ConId,
    conflict: ConId,
    log: &mut Log,
) -> Result<Learned, AllocError>
    requires first_live { is_live store.now first ≡ true }
    requires second_live { is_live store.now second ≡ true }
    requires conflict_live { is_live store.now conflict ≡ true }
    requires first { constraint_of store.now first ≡ record { terms = record { coef = 1; lit = record { var = 0; yes = true } } ∷ []; degree = 1 } }
    requires second { constraint_of store.now second ≡ record { terms = record { coef = 1; lit = record { var = 0; yes = false } } ∷ record { coef = 1; lit = record { var = 1; yes = true } } ∷ []; degree = 1 } }
    requires conflict { constraint_of store.now conflict ≡ record { terms = record { coef = 1; lit = record { var = 0; yes = false } } ∷ record { coef = 1; lit = record { var = 1; yes = false } } ∷ []; degree = 1 } }
{
    let mut trail = Trail::new(alloc, 2)?;
    trail.push(Lit::yes(0), first);
    trail.push(Lit::yes(1), second);
    analyse(alloc, &trail, store, conflict, log)
}

/// What is learned from the last two clauses, once the proof has `x0 >= 1` under an id.
fn learn_after_x0(alloc: Global, x0_id: u64, log: &mut Log) -> Result<Learned, AllocError> {
    let mut store = Store::new(alloc);
    let first = store.add(unit(alloc, Lit::yes(0))?, x0_id)?;
    let second = store.add(clause(alloc, Lit::no(0), Lit::yes(1))?, 3)?;
    let conflict = store.add(clause(alloc, Lit::no(0), Lit::no(1))?, 4)?;
    learn_at_level_zero(alloc, &store, first, second, conflict, log)
}

#[test]
fn learns_x0_and_then_the_contradiction(rt: HostRuntime) -> Result<(), Fail> {
    let alloc = rt.alloc();
    let mut store = Store::new(alloc);
    let forcing = store.add(clause(alloc, Lit::yes(0), Lit::yes(1))?, 1)?;
    let conflict = store.add(clause(alloc, Lit::yes(0), Lit::no(1))?, 2)?;
    let mut log = Log::new(alloc, 5);
    let learned = learn_at_level_one(alloc, &store, forcing, conflict, &mut log)?;
    let x0 = Term {
        coef: 1,
        lit: Lit::yes(0),
    };
    assert_eq!(rt; learned.clause.terms(), [x0].as_slice());
    assert_eq!(rt; learned.clause.degree(), 1);
    assert_eq!(rt; (learned.back_level, learned.proof_id), (0, 5));
    assert_eq!(rt; log.learned(), 1);

    let learned = learn_after_x0(alloc, learned.proof_id, &mut log)?;
    assert!(rt; learned.clause.terms().is_empty());
    assert_eq!(rt; learned.clause.degree(), 1);
    assert_eq!(rt; (learned.back_level, learned.proof_id), (0, 6));
    assert_eq!(rt; log.learned(), 2);
    Ok(())
}
