//! The four clauses over two variables and their first two, with what is kept of them.

ghost use Rattle.std.specs.Prelude.{◌≡◌, ◌<◌, IfOk, length};

use genotype::Genotype;
use ordered_solver::{Answer, Solver};
use pb_constraints::{Constraint, Lit, NormalFault, Part, Set, normalise};
use std::alloc::{AllocError, Global};
use std::test::Fail;
use variable_order::Order;

/// The natural order: by number, false first.
fn natural(alloc: Global, variables: u64) -> Result<Order, AllocError>
    ensures { IfOk result (λ o. length o ≡ variables) }
{
    let genotype = Genotype::natural(alloc, 0)?;
    genotype.order_of(alloc, variables)
}

/// A clause of two literals.
fn clause(alloc: Global, first: Lit, second: Lit) -> Result<Constraint, NormalFault> {
    let parts = [
        Part {
            coef: 1,
            lit: first,
        },
        Part {
            coef: 1,
            lit: second,
        },
    ];
    normalise(alloc, &parts, 1)
}

/// Adds a clause of two literals to a set over two variables.
fn add_clause(set: &mut Set, alloc: Global, first: Lit, second: Lit) -> Result<(), Fail>
    requires { set.old.variables ≡ 2 }
    ensures { set.new.variables ≡ 2 }
{
    let c = clause(alloc, first, second)?;
    if c.terms().iter().all(|t| t.lit.var() < 2) {
        set.add(c)?;
    }
    Ok(())
}

/// The four clauses over two variables, or the first two of them.
fn clauses(alloc: Global, all: bool) -> Result<Set, Fail>
    ensures { IfOk result (λ s. s.variables ≡ 2) }
{
    let (x0, x1) = (Lit::yes(0), Lit::yes(1));
    let mut set = Set::new(alloc, 2);
    add_clause(&mut set, alloc, x0, x1)?;
    add_clause(&mut set, alloc, x0, x1.opposite())?;
    if all {
        add_clause(&mut set, alloc, x0.opposite(), x1)?;
        add_clause(&mut set, alloc, x0.opposite(), x1.opposite())?;
    }
    Ok(set)
}

/// What a new solver answers, and how many lines it learned.
fn solve_new(alloc: Global, set: Set, budget: u64) -> Result<(Answer, u64), Fail>
    requires { 0 < budget }
{
    let order = natural(alloc, set.variables())?;
    let mut solver = Solver::new(alloc, set)?;
    let answer = solver.solve(alloc, &order, budget)?;
    Ok((answer, solver.log().learned()))
}

#[test]
fn three_solvers(rt: HostRuntime) -> Result<(), Fail> {
    let alloc = rt.alloc();
    assert_eq!(rt;
        solve_new(alloc, clauses(alloc, true)?, 1)?,
        (Answer::Budget, 1)
    );
    assert_eq!(rt;
        solve_new(alloc, clauses(alloc, true)?, 2)?,
        (Answer::Nothing, 2)
    );
    let (answer, learned) = solve_new(alloc, clauses(alloc, false)?, 2)?;
    assert!(rt;
        matches!(answer, Answer::Model(ref values) if values.as_slice() == [true, false].as_slice())
    );
    assert_eq!(rt; learned, 1);
    Ok(())
}

#[test]
fn keeps_between_calls(rt: HostRuntime) -> Result<(), Fail> {
    let alloc = rt.alloc();
    let order = natural(alloc, 2)?;
    let mut solver = Solver::new(alloc, clauses(alloc, true)?)?;
    assert_eq!(rt; solver.solve(alloc, &order, 1)?, Answer::Budget);
    assert_eq!(rt; solver.kept(), 1);
    assert_eq!(rt; solver.solve(alloc, &order, 2)?, Answer::Nothing);
    assert_eq!(rt; solver.log().learned(), 2);
    assert_eq!(rt; solver.kept(), 2);
    Ok(())
}
