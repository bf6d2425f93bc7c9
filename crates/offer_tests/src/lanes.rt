//! An archive whose members fill no group of lanes, just one, or two and a rest: what is found, dropped and kept is as
//! in a plain list.

ghost use Rattle.std.specs.Prelude.{◌≡◌, IfOk};

use super::reading::spec_of;
use front_archive::{Archive, Member, Offer};
use genotype::Genotype;
use impl_rules::Design;
use result_text::Vector;
use spec_graph::Spec;
use std::alloc::{AllocError, Global};
use std::test::Fail;

/// The vector of the member at a place. Where the first number rises the second falls, so none is at most another.
fn kept(place: u32) -> [u64; 2] {
    [
        2 * u64::from(place) + 1,
        2 * u64::from(u32::MAX - place) + 1,
    ]
}

/// A vector that is at most the one at a place, and at most no other.
fn below(place: u32) -> [u64; 2] {
    [2 * u64::from(place), 2 * u64::from(u32::MAX - place)]
}

/// A vector that those at a place and the next are at most, and no earlier one.
fn above(place: u32) -> [u64; 2] {
    [
        2 * u64::from(place) + 3,
        2 * u64::from(u32::MAX - place) + 1,
    ]
}

/// What is answered to an offer.
fn offer(
    alloc: Global,
    spec: &Spec,
    archive: &mut Archive,
    numbers: [u64; 2],
) -> Result<Offer, AllocError>
    requires { archive.old.width ≡ 2 }
    ensures { archive.new.width ≡ 2 }
{
    let m = Member {
        genotype: Genotype::natural(alloc, 0)?,
        design: Design::empty(alloc, spec)?,
        vector: Vector::of(alloc, &numbers)?,
    };
    archive.offer(m)
}

/// An archive of so many members.
fn archive_of(alloc: Global, spec: &Spec, count: u32) -> Result<Archive, AllocError>
    ensures { IfOk result (λ a. a.width ≡ 2) }
{
    let mut archive = Archive::new(alloc, 2);
    for place in 0..count {
        offer(alloc, spec, &mut archive, kept(place))?;
    }
    Ok(archive)
}

/// Whether these are the members from one place to before another.
fn are_kept(members: &[Member], start: u32, end: u32) -> bool {
    let mut place = start;
    for member in members {
        if place >= end || member.vector.numbers() != kept(place).as_slice() {
            return false;
        }
        place = place.wrapping_add(1);
    }
    place == end
}

/// Whether the member at a place is gone, the others of so many are there in their order, and the last is another.
fn is_replaced(members: &[Member], count: u32, place: u32) -> bool {
    let Some((last, others)) = members.split_last() else {
        return false;
    };
    if others.len() < place as usize {
        return false;
    }
    let (before, after) = others.split_at(place as usize);
    are_kept(before, 0, place)
        && are_kept(after, place.wrapping_add(1), count)
        && last.vector.numbers() == below(place).as_slice()
}

/// Whether the lowest place covers what is offered: the vector at a place, and one that the next member covers too.
fn is_covered(alloc: Global, spec: &Spec, count: u32, place: u32) -> Result<bool, AllocError> {
    let mut archive = archive_of(alloc, spec, count)?;
    let covered = Offer::Covered(place as usize);
    let same = offer(alloc, spec, &mut archive, kept(place))?;
    let higher = offer(alloc, spec, &mut archive, above(place))?;
    Ok(same == covered && higher == covered && are_kept(archive.members(), 0, count))
}

/// Whether an offer that covers the member at a place alone enters in its stead.
fn is_entered(alloc: Global, spec: &Spec, count: u32, place: u32) -> Result<bool, AllocError> {
    let mut archive = archive_of(alloc, spec, count)?;
    let answer = offer(alloc, spec, &mut archive, below(place))?;
    Ok(answer == Offer::Entered && is_replaced(archive.members(), count, place))
}

/// Whether an offer that covers all members enters, and is alone then.
fn is_alone(alloc: Global, spec: &Spec, count: u32) -> Result<bool, AllocError> {
    let mut archive = archive_of(alloc, spec, count)?;
    let first = offer(alloc, spec, &mut archive, [0, 0])?;
    let second = offer(alloc, spec, &mut archive, kept(0))?;
    Ok(first == Offer::Entered && second == Offer::Covered(0) && archive.members().len() == 1)
}

/// Whether an archive of so many members is filled, and answers offers, as a plain list would.
fn is_as_a_list(alloc: Global, spec: &Spec, count: u32) -> Result<bool, AllocError> {
    let archive = archive_of(alloc, spec, count)?;
    for place in 0..count {
        if !is_covered(alloc, spec, count, place)? || !is_entered(alloc, spec, count, place)? {
            return Ok(false);
        }
    }
    Ok(are_kept(archive.members(), 0, count) && is_alone(alloc, spec, count)?)
}

#[test]
fn whole_groups_and_rests(rt: HostRuntime) -> Result<(), Fail> {
    let alloc = rt.alloc();
    let spec = spec_of(alloc, b"arch 1\nobjective cost\nobjective energy\n")?;
    for count in [0, 1, 7, 8, 9, 17] {
        assert!(rt; is_as_a_list(alloc, &spec, count)?, "{count} members");
    }
    Ok(())
}
