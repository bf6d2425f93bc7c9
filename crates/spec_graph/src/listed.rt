//! The messages that a merge lists.

ghost use Rattle.std.specs.Prelude.{◌≡◌, ℕ, ◌<◌, ◌||◌, ◌==◌, All, length, map, IfOk, MatchOption, slice_index_or, false};
ghost use Rattle.spec_graph.specs.Lists.{message_number};
ghost use Rattle.spec_graph.specs.Marks.{AreMarks};
ghost use Rattle.spec_graph.specs.Merged.{is_unlisted};
ghost use Rattle.spec_graph.specs.Refusals.{HasTwice};

use crate::numbers::MsgNo;
use std::alloc::{AllocError, Global};
use std::marker::Model;

/// Messages that are listed, none of them twice, seen as their numbers in the order listed.
#[derive(Drop)]
pub struct Listed {
    numbers: Vec<MsgNo>,
    marks: Vec<bool>,
}

impl Model for Listed {
    ghost use Rattle.std.specs.Prelude.{List, ℕ, map};
    ghost use Rattle.spec_graph.specs.Lists.{message_number};

    ghost Value = { List ℕ };

    ghost view = { λ l. map message_number l.numbers.items };

    ghost use Rattle.spec_graph.specs.Marks.{AreMarks};

    ghost invariant = { λ l. AreMarks (map message_number l.numbers.items) l.marks.items };
}

/// No marks, of so many messages.
fn no_marks(alloc: Global, count: usize) -> Result<Vec<bool>, AllocError>
    ensures long { IfOk result (λ marks. length marks.items ≡ count) }
    ensures none { IfOk result (λ marks. (m : ℕ) → slice_index_or marks.items m false ≡ false) }
{
    let mut marks = Vec::new(alloc);
    for _ in 0..count {
        marks.push(false)?;
    }
    Ok(marks)
}

/// Marks a message.
fn mark(marks: &mut Vec<bool>, m: usize)
    requires { m < length marks.old.items }
    ensures long { length marks.new.items ≡ length marks.old.items }
    ensures marked { (k : ℕ) → slice_index_or marks.new.items k false ≡ (slice_index_or marks.old.items k false || (k == m)) }
{
    marks[m] = true;
}

/// A mark at each message that is listed, or `None` where one is listed twice.
fn marks_of(alloc: Global, count: usize, listed: &[MsgNo]) -> Result<Option<Vec<bool>>, AllocError>
    requires { All (λ m. m.0 < count) listed.now }
    ensures { IfOk result (λ marks. MatchOption marks (HasTwice (map message_number listed.now)) (λ v. AreMarks (map message_number listed.now) v.items)) }
{
    let mut marks = no_marks(alloc, count)?;
    for m in listed {
        if marks[m.0 as usize] {
            return Ok(None);
        }
        mark(&mut marks, m.0 as usize);
    }
    Ok(Some(marks))
}

impl Listed {
    /// The list of some of `count` messages, or `None` where one is listed twice.
    pub fn of(alloc: Global, count: usize, listed: &[MsgNo]) -> Result<Option<Listed>, AllocError>
        requires { All (λ m. m.0 < count) listed.now }
        ensures value { IfOk result (λ list. MatchOption list (HasTwice (map message_number listed.now)) (λ l. l ≡ map message_number listed.now)) }
        ensures once { IfOk result (λ list. MatchOption list (HasTwice (map message_number listed.now)) (λ l. ¬ HasTwice l)) }
    {
        let numbers = Vec::from_slice(alloc, listed)?;
        match marks_of(alloc, count, listed)? {
            Some(marks) => Ok(Some(Listed { numbers, marks })),
            None => Ok(None),
        }
    }

    /// Whether the message isn't listed.
    pub fn leaves_out(&self, m: usize) -> bool
        ensures { result ≡ is_unlisted self.now m }
    {
        match self.marks.get(m) {
            Some(mark) => !*mark,
            None => true,
        }
    }
}
