//! The calls that take memory, and one walk over two levels.
use pb_constraints::{ConId, Lit};
use std::test::Fail;
use trail_state::Trail;

#[test]
fn keeps_what_stands_below_a_jump(rt: HostRuntime) -> Result<(), Fail> {
    let mut trail = Trail::new(rt.alloc(), 2)?;
    trail.decide(Lit::no(0));
    trail.push(Lit::yes(1), ConId(3));
    trail.grow(1)?;
    trail.decide(Lit::yes(2));
    trail.set_reason(1, ConId(5));
    assert_eq!(rt; trail.level(), 2);
    trail.jump_back(1);
    assert_eq!(rt; trail.literals(), [Lit::no(0), Lit::yes(1)].as_slice());
    let values = [trail.value(0), trail.value(1), trail.value(2)];
    assert_eq!(rt;
        values.as_slice(),
        [Some(false), Some(true), None].as_slice()
    );
    let reasons = [trail.reason(0), trail.reason(1), trail.reason(2)];
    assert_eq!(rt; reasons.as_slice(), [None, Some(ConId(5)), None].as_slice());
    assert_eq!(rt; (trail.value(3), trail.reason(3)), (None, None));
    trail.clear();
    assert_eq!(rt; trail.level(), 0);
    Ok(())
}
