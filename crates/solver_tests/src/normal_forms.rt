//! Normal forms at their borders, and a set.
use pb_constraints::{Lit, NormalFault, Part, Set, Term, holds_under, normalise};
use std::alloc::Global;
use std::process::Abort;
use std::test::Fail;

fn part(coef: i64, lit: Lit) -> Part {
    Part { coef, lit }
}

fn term(coef: u64, lit: Lit) -> Term {
    Term { coef, lit }
}

/// The normal form is that of these terms and degree, or there is none for its size.
fn gives(
    rt: &impl Abort,
    alloc: Global,
    parts: &[Part],
    degree: i64,
    want: Option<(&[Term], u64)>,
) {
    match (normalise(alloc, parts, degree), want) {
        (Ok(c), Some((terms, degree))) => {
            assert_eq!(rt; c.terms(), terms);
            assert_eq!(rt; c.degree(), degree);
        }
        (Err(fault), None) => assert_eq!(rt; fault, NormalFault::TooLarge),
        _ => panic!(rt; "the other answer"),
    }
}

#[test]
fn normal_forms(rt: HostRuntime) {
    let alloc = rt.alloc();
    let (x0, x1) = (Lit::yes(0), Lit::yes(1));
    let most = i64::MAX;
    let most_kept = 9_223_372_036_854_775_807u64;
    let rows = [part(-2, x0), part(3, x1)];
    gives(
        &rt,
        alloc,
        &rows,
        1,
        Some((&[term(2, x0.opposite()), term(3, x1)], 3)),
    );
    let partly = [part(1, x1), part(2, x0), part(3, x0.opposite())];
    gives(
        &rt,
        alloc,
        &partly,
        2,
        Some((&[term(1, x0.opposite()), term(1, x1)], 0)),
    );
    let wholly = [part(2, x0.opposite()), part(2, x0)];
    gives(&rt, alloc, &wholly, 5, Some((&[], 3)));
    gives(&rt, alloc, &wholly, 1, Some((&[], 0)));
    gives(
        &rt,
        alloc,
        &[part(most, x0)],
        0,
        Some((&[term(most_kept, x0)], 0)),
    );
    gives(&rt, alloc, &[part(most, x0), part(1, x1)], 0, None);
    let one = [part(-1, x0)];
    gives(
        &rt,
        alloc,
        &one,
        most - 1,
        Some((&[term(1, x0.opposite())], most_kept)),
    );
    gives(&rt, alloc, &one, most, None);
}

#[test]
fn sets(rt: HostRuntime) -> Result<(), Fail> {
    let alloc = rt.alloc();
    let mut set = Set::new(alloc, 2);
    let c = normalise(alloc, &[part(-2, Lit::yes(0)), part(3, Lit::yes(1))], 1)?;
    assert!(rt; c.terms().iter().all(|t| t.lit.var() < 2));
    set.add(c.copy(alloc)?)?;
    assert_eq!(rt; set.constraints().len(), 1);
    for (values, want) in [
        ([false, false], false),
        ([true, true], true),
        ([false, true], true),
    ] {
        assert_eq!(rt; holds_under(&set.constraints()[0], &values), want);
    }
    Ok(())
}
