//! The ids that the lines of a log take.
use pb_rules::{Lit, Op};
use proof_log::Log;
use std::test::Fail;

#[test]
fn ids_count_on(rt: HostRuntime) {
    let mut log = Log::new(rt.alloc(), 4);
    assert_eq!(rt; log.learned(), 0);
    let sum = [Op::Id(1), Op::Id(2), Op::Add, Op::Saturate];
    assert_eq!(rt; log.derive(&sum), Ok(4));
    assert_eq!(rt; log.cover(&[3, 5]), Ok(5));
    let weaker = [
        Op::Axiom(Lit::no(0)),
        Op::Id(7),
        Op::Add,
        Op::Times(2),
        Op::Divide(3),
        Op::Weaken(1),
    ];
    assert_eq!(rt; log.derive(&weaker), Ok(8));
    assert_eq!(rt; log.learned(), 2);
    assert_eq!(rt; log.steps(), 3);
}
