//! A store from which some of three constraints are removed, and which is then compacted.
use constraint_store::Store;
use pb_constraints::{Constraint, Lit, NormalFault, Part, normalise};
use std::alloc::Global;
use std::test::Fail;

/// `x0 >= degree`.
fn asks(alloc: Global, degree: i64) -> Result<Constraint, NormalFault> {
    let part = Part {
        coef: 1,
        lit: Lit::yes(0),
    };
    normalise(alloc, &[part], degree)
}

#[test]
fn removes_and_compacts(rt: HostRuntime) -> Result<(), Fail> {
    let alloc = rt.alloc();
    let mut store = Store::new(alloc);
    let first = store.add(asks(alloc, 1)?, 7)?;
    let second = store.add(asks(alloc, 2)?, 8)?;
    let third = store.add(asks(alloc, 3)?, 9)?;
    assert!(rt; store.is_live(second));
    store.remove(second);
    assert!(rt; !store.is_live(second));
    let moves = store.compact()?;
    assert_eq!(rt; moves.of(second), None);
    for (old, degree, proof_id) in [(first, 1, 7), (third, 3, 9)] {
        let id = moves.of(old).ok_or("a live constraint has no new id")?;
        assert!(rt; store.is_live(id));
        assert_eq!(rt; store.degree(id), degree);
        assert_eq!(rt; store.proof_id(id), proof_id);
        assert_eq!(rt; store.terms(id).len(), 1);
    }
    Ok(())
}

#[test]
fn is_sparse_once_more_than_half_is_removed(rt: HostRuntime) -> Result<(), Fail> {
    let alloc = rt.alloc();
    let mut store = Store::new(alloc);
    let first = store.add(asks(alloc, 1)?, 7)?;
    let second = store.add(asks(alloc, 2)?, 8)?;
    let third = store.add(asks(alloc, 3)?, 9)?;
    store.remove(first);
    assert!(rt; !store.is_sparse());
    store.remove(second);
    assert!(rt; store.is_sparse());
    let moves = store.compact()?;
    assert!(rt; !store.is_sparse());
    let id = moves.of(third).ok_or("a live constraint has no new id")?;
    assert_eq!(rt; id, first);
    assert_eq!(rt; store.proof_id(id), 9);
    Ok(())
}
