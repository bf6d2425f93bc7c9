//! Each rule once, on three literals of one coefficient.
use cutting_planes::{RuleFault, add, axiom, divide, saturate, times, weaken};
use pb_constraints::{Constraint, Lit};
use std::process::Abort;
use std::test::Fail;

/// The constraint has these coefficients of x0, x1, .. in order, and this degree.
fn reads(rt: &impl Abort, c: &Constraint, coefs: &[u64], degree: u64) {
    let mut place = 0;
    for t in c.terms() {
        assert_eq!(rt; coefs.get(place).copied(), Some(t.coef));
        place += 1;
    }
    assert_eq!(rt; place, coefs.len());
    assert_eq!(rt; c.degree(), degree);
}

#[test]
fn rules_of_three_literals(rt: HostRuntime) -> Result<(), Fail> {
    let alloc = rt.alloc();
    let x0 = axiom(alloc, Lit::yes(0))?;
    let x1 = axiom(alloc, Lit::yes(1))?;
    let x2 = axiom(alloc, Lit::yes(2))?;
    let three = add(alloc, &add(alloc, &x0, &x1)?, &x2)?;
    reads(&rt, &three, &[1, 1, 1], 0);
    let most = 9_223_372_036_854_775_807;
    assert_eq!(rt;
        times(alloc, &three, most).err(),
        Some(RuleFault::TooLarge(27_670_116_110_564_327_421))
    );
    reads(&rt, &times(alloc, &three, 3)?, &[3, 3, 3], 0);
    reads(
        &rt,
        &divide(alloc, &times(alloc, &three, 3)?, 2)?,
        &[2, 2, 2],
        0,
    );
    reads(&rt, &saturate(alloc, &three)?, &[], 0);
    reads(&rt, &weaken(alloc, &three, 1)?, &[1, 1], 0);
    Ok(())
}
