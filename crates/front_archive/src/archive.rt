//! The archive, and what becomes of an offer.
//!
//! The vector of each member stands a second time, in columns, at the member's place. Whatever is asked of all vectors
//! is asked of the columns; the members only follow.

ghost use Rattle.std.specs.Prelude.{◌≡◌, ◌<◌, ◌++◌, List, [], ◌∷◌, All, length, filter, position, not, vec_len, IfOk, OnOk, OnErr};
ghost use Rattle.dominance_lanes.specs.Columns.{unmarked};
ghost use Rattle.front_archive.specs.Best.{best, offered};
ghost use Rattle.front_archive.specs.Members.{covers, HasWidth, AreColumnsOf};
ghost use Rattle.front_archive.specs.Offers.{Answers};
ghost use Rattle.front_archive.specs.declared.member.Member.{Member};
ghost use Rattle.front_archive.specs.declared.archive.Offer.{Offer};

use crate::member::Member;
use dominance_lanes::Columns;
use std::alloc::{AllocError, Global};
use std::marker::Model;

/// What becomes of an offer.
#[derive(Clone, Copy, Debug, PartialEq, Eq)]
pub enum Offer {
    /// The member is the last one now, and those that it dominates are gone.
    Entered,
    /// The member at this place, the lowest such, has a vector that is at most the offered one in each place.
    Covered(usize),
}

/// The best of the members that were offered, with vectors of so many numbers.
#[derive(Drop)]
pub struct Archive {
    alloc: Global,
    columns: Columns,
    members: Vec<Member>,
}

impl Model for Archive {
    ghost use Rattle.front_archive.specs.Members.{ArchiveValue, AreColumnsOf};

    ghost Value = { ArchiveValue };

    ghost view = { λ a. record { width = a.columns.width; members = a.members.items } };

    ghost invariant = { λ a. AreColumnsOf a.members.items a.columns };
}

/// Drops the marked members. The others keep their order.
fn drop_marked(members: &mut Vec<Member>, marks: &[bool])
    requires { length marks.now ≡ vec_len members.old }
    ensures { members.new.items ≡ unmarked marks.now members.old.items }
{
    let mut kept = 0;
    for (k, mark) in marks.iter().enumerate() {
        if !*mark {
            members.swap(kept, k);
            kept += 1;
        }
    }
    members.truncate(kept);
}

/// Drops the members that the last one covers, and their vectors, but keeps the last one. Each member has a mark, and
/// what the marks were before doesn't count.
fn drop_covered(columns: &mut Columns, members: &mut Vec<Member>, marks: &mut [bool])
    requires some { 0 < vec_len members.old }
    requires places { length marks.old ≡ vec_len members.old }
    requires same { AreColumnsOf members.old.items columns.old }
    ensures items { (before : List Member) (m : Member) → members.old.items ≡ before ++ m ∷ [] → members.new.items ≡ filter (λ x. not (covers m x)) before ++ m ∷ [] }
    ensures same { AreColumnsOf members.new.items columns.new }
    ensures width { columns.new.width ≡ columns.old.width }
{
    let last = members.len() - 1;
    columns.mark_above(members[last].vector.numbers(), marks);
    marks[last] = false;
    columns.keep(marks);
    drop_marked(members, marks);
}

impl Archive {
    /// An archive without members, for vectors of `width` numbers. It takes no memory.
    pub fn new(alloc: Global, width: usize) -> Archive
        ensures width { result.width ≡ width }
        ensures empty { result.members ≡ [] }
    {
        Archive {
            alloc,
            columns: Columns::new(alloc, width),
            members: Vec::new(alloc),
        }
    }

    /// The members, in the order in which they entered.
    pub fn members(&self) -> &[Member]
        ensures members { result.now ≡ self.now.members }
        ensures widths { All (HasWidth self.now.width) self.now.members }
    {
        &self.members
    }

    /// The place of the first member that covers `m`.
    fn first_covering(&self, m: &Member) -> Option<usize>
        requires { length m.now.vector ≡ self.now.width }
        ensures { result ≡ position (λ x. covers x m.now) self.now.members }
    {
        self.columns.first_below(m.vector.numbers())
    }

    /// Takes in a member that none covers. It is put behind the others before any goes, since its place in the columns
    /// is the last thing that may want memory.
    fn enter(&mut self, m: Member) -> Result<Offer, AllocError>
        requires { length m.vector ≡ self.old.width }
        ensures entered { IfOk result (λ o. o ≡ Offer.Entered) }
        ensures members { OnOk result (self.new.members ≡ filter (λ x. not (covers m x)) self.old.members ++ m ∷ []) }
        ensures width { self.new.width ≡ self.old.width }
        ensures err { OnErr result (self.new ≡ self.old) }
    {
        let Some(places) = self.members.len().checked_add(1) else {
            return Err(AllocError);
        };
        let mut marks = vec![in self.alloc; false; places]?;
        self.members.try_reserve(1)?;
        self.columns.push(m.vector.numbers())?;
        self.members.push(m)?;
        drop_covered(&mut self.columns, &mut self.members, &mut marks);
        Ok(Offer::Entered)
    }

    /// Offers a member. Where a kept vector is at most its vector in each place, nothing changes; else it enters, and the
    /// members that it dominates go. So the members are always the best of all that were offered. Where memory is wanted
    /// the archive is as before, and the offered member is gone.
    pub fn offer(&mut self, m: Member) -> Result<Offer, AllocError>
        requires { length m.vector ≡ self.old.width }
        ensures answer { IfOk result (Answers self.old.members m) }
        ensures members { OnOk result (self.new.members ≡ offered covers self.old.members m) }
        ensures best { OnOk result ((history : List Member) → self.old.members ≡ best covers history → self.new.members ≡ best covers (history ++ m ∷ [])) }
        ensures width { self.new.width ≡ self.old.width }
        ensures err { OnErr result (self.new ≡ self.old) }
    {
        match self.first_covering(&m) {
            Some(p) => Ok(Offer::Covered(p)),
            None => self.enter(m),
        }
    }
}
