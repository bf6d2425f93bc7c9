//! The rule that a design breaks first.
use super::models::design_with;
use super::reading::spec_of;
use impl_rules::{Rule, first_broken};
use spec_graph::{ArcNo, MsgNo, ResNo};
use std::test::Fail;

#[test]
fn parallel_links(rt: HostRuntime) -> Result<(), Fail> {
    let alloc = rt.alloc();
    let spec = spec_of(
        alloc,
        b"arch 1\ntask s\ntask w\nresource a\nresource b\nresource c\nresource d\nlink p a -> b\nlink q a -> b\n\
        link r c -- d\nmessage m s -> w\nmap s a\nmap w b\n",
    )?;
    let crowded = design_with(&rt, alloc, &spec, &[0, 1, 2, 3])?;
    let two = Some(Rule::TwoArcsInto(MsgNo(0), ResNo(1)));
    assert_eq!(rt; first_broken(&spec, &crowded), two);
    let stray = design_with(&rt, alloc, &spec, &[0, 1, 2, 4, 5])?;
    let none = Some(Rule::NoWalk(MsgNo(0), ArcNo(2)));
    assert_eq!(rt; first_broken(&spec, &stray), none);
    Ok(())
}
