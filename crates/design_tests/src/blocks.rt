//! The block of a cover over two resources of cost 3.
use super::reading::spec_of;
use block_encode::{block, weight_sum};
use pb_constraints::Constraint;
use pb_rules::{Lit, Term};
use spec_graph::Spec;
use std::alloc::{AllocError, Global};
use std::process::Abort;
use std::test::Fail;

/// The block of a vector of one number.
fn block_of_one(
    rt: &impl Abort,
    alloc: Global,
    spec: &Spec,
    cover_no: u64,
    number: u64,
) -> Result<Vec<Constraint>, AllocError> {
    assert_eq!(rt; spec.objectives(), 1);
    assert!(rt; number <= weight_sum(spec, 0));
    assert!(rt; 1 <= cover_no);
    assert!(rt; cover_no < 1000);
    block(alloc, spec, cover_no, &[number])
}

/// A term.
fn term(coef: u64, lit: Lit) -> Term {
    Term { coef, lit }
}

/// The block of the first cover with number 3.
fn is_first_block(rt: &impl Abort, alloc: Global, spec: &Spec) -> Result<(), AllocError> {
    let block = block_of_one(rt, alloc, spec, 1, 3)?;
    let somewhere = [term(1, Lit::yes(4))];
    let number = [
        term(3, Lit::no(2)),
        term(3, Lit::no(3)),
        term(4, Lit::no(4)),
    ];
    assert_eq!(rt; block.len(), 2);
    assert_eq!(rt; block[0].terms(), somewhere.as_slice());
    assert_eq!(rt; block[0].degree(), 1);
    assert_eq!(rt; block[1].terms(), number.as_slice());
    assert_eq!(rt; block[1].degree(), 4);
    Ok(())
}

#[test]
fn one_block(rt: HostRuntime) -> Result<(), Fail> {
    let alloc = rt.alloc();
    let spec = spec_of(
        alloc,
        b"arch 1\nobjective cost\nresource a cost=3\nresource b cost=3\ntask t\nmap t a\nmap t b\n",
    )?;
    is_first_block(&rt, alloc, &spec)?;
    Ok(())
}
