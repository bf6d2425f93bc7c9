//! An archive of pairs that is offered five.
ghost use Rattle.std.specs.Prelude.{◌≡◌, length, IfOk};

use super::reading::spec_of;
use front_archive::{Archive, Member, Offer};
use genotype::Genotype;
use impl_rules::Design;
use result_text::Vector;
use spec_graph::Spec;
use std::alloc::{AllocError, Global};
use std::process::Abort;
use std::test::Fail;

/// A member with these numbers, whatever its design is.
fn member(alloc: Global, spec: &Spec, numbers: &[u64]) -> Result<Member, AllocError>
    ensures { IfOk result (λ m. length m.vector ≡ length numbers.now) }
{
    let genotype = Genotype::natural(alloc, spec.design_variables())?;
    let design = Design::empty(alloc, spec)?;
    let vector = Vector::of(alloc, numbers)?;
    Ok(Member {
        genotype,
        design,
        vector,
    })
}

/// What an archive of pairs answers to a pair.
pub fn offer(
    alloc: Global,
    spec: &Spec,
    archive: &mut Archive,
    numbers: [u64; 2],
) -> Result<Offer, AllocError>
    requires { archive.old.width ≡ 2 }
    ensures { archive.new.width ≡ 2 }
{
    let offered = member(alloc, spec, &numbers)?;
    archive.offer(offered)
}

/// What an archive of pairs without members answers to five offers, one after another.
fn answers_five(
    rt: &impl Abort,
    alloc: Global,
    spec: &Spec,
    archive: &mut Archive,
) -> Result<(), AllocError>
    requires { archive.old.width ≡ 2 }
{
    assert_eq!(rt; offer(alloc, spec, archive, [3, 3])?, Offer::Entered);
    assert_eq!(rt; offer(alloc, spec, archive, [1, 5])?, Offer::Entered);
    assert_eq!(rt; offer(alloc, spec, archive, [3, 3])?, Offer::Covered(0));
    assert_eq!(rt; offer(alloc, spec, archive, [2, 2])?, Offer::Entered);
    assert_eq!(rt; offer(alloc, spec, archive, [9, 9])?, Offer::Covered(0));
    Ok(())
}

/// The members are those with these two vectors.
fn are_two(rt: &impl Abort, members: &[Member], first: &[u64], second: &[u64]) {
    assert_eq!(rt; members.len(), 2);
    assert_eq!(rt; members[0].vector.numbers(), first);
    assert_eq!(rt; members[1].vector.numbers(), second);
}

#[test]
fn five_offers(rt: HostRuntime) -> Result<(), Fail> {
    let alloc = rt.alloc();
    let spec = spec_of(alloc, b"arch 1\n")?;
    let mut archive = Archive::new(alloc, 2);
    answers_five(&rt, alloc, &spec, &mut archive)?;
    are_two(&rt, archive.members(), &[1, 5], &[2, 2]);
    Ok(())
}
