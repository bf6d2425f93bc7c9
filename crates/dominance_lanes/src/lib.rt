//! Vectors of numbers kept in columns, and compared with one vector a group of eight at a time.
//!
//! A list of vectors is kept by columns: column `j` has at place `k` what the vector at `k` has at `j`. So eight
//! neighbouring vectors have their numbers of one column side by side, and each of a few comparisons of `std::simd`
//! tries all eight. [`Columns`] is seen as the list of its vectors, and no caller learns of groups. What doesn't fill a
//! group, at the end, is compared one by one.
//!
//! `lanes` compares a group, `places` one vector, and `scans` goes over all groups and then over the rest. `edits` writes
//! columns: only a vector that comes in takes memory. `weights` adds up the weights of set bits, likewise by groups.
//! Nothing here knows what a vector stands for.
#![tactic(auto)]

ghost use Rattle.std.specs.Prelude.{◌≡◌, ◌<◌, ◌++◌, [], ◌∷◌, length, All, MatchOption, OnOk, OnErr};
ghost use Rattle.dominance_lanes.specs.Columns.{NoneBelow, IsFirstBelow, MarksAbove, unmarked, HasLength};

mod edits;
mod lanes;
mod places;
mod scans;
mod weights;

use std::alloc::{AllocError, Global};
use std::marker::Model;
pub use weights::weighted_sum;

/// Vectors in the order in which they came, each with the same count of numbers, the width.
#[derive(Drop, Debug)]
pub struct Columns {
    alloc: Global,
    columns: Vec<Vec<u64>>,
    width: usize,
    len: usize,
}

impl Model for Columns {
    ghost use Rattle.std.specs.Prelude.{map, vec_items};
    ghost use Rattle.dominance_lanes.specs.Columns.{Vectors, rows, AreColumns};

    ghost Value = { Vectors };

    ghost view = { λ c. record { width = c.width; vectors = rows (map vec_items c.columns.items) c.len } };

    ghost invariant = { λ c. AreColumns (map vec_items c.columns.items) c.width c.len };
}

impl Columns {
    /// No vectors, of a width that may be 0. It takes no memory.
    pub fn new(alloc: Global, width: usize) -> Columns
        ensures { result ≡ record { width = width; vectors = [] } }
    {
        Columns {
            alloc,
            columns: Vec::new(alloc),
            width,
            len: 0,
        }
    }

    /// How many vectors there are. What holds of each of them is said here.
    pub fn len(&self) -> usize
        ensures value { result ≡ length self.now.vectors }
        ensures widths { All (HasLength self.now.width) self.now.vectors }
    {
        self.len
    }

    /// Puts a vector behind the others. It is refused only for want of memory, and then all is as it was.
    pub fn push(&mut self, v: &[u64]) -> Result<(), AllocError>
        requires { length v.now ≡ self.old.width }
        ensures ok { OnOk result (self.new ≡ record self.old { vectors = self.old.vectors ++ v.now ∷ [] }) }
        ensures err { OnErr result (self.new ≡ self.old) }
    {
        let Some(len) = self.len.checked_add(1) else {
            return Err(AllocError);
        };
        edits::complete(self.alloc, &mut self.columns, self.width)?;
        edits::push_row(&mut self.columns, v, self.len)?;
        self.len = len;
        Ok(())
    }

    /// The lowest place of a vector that is at most `v` in each number.
    pub fn first_below(&self, v: &[u64]) -> Option<usize>
        requires { length v.now ≡ self.now.width }
        ensures { MatchOption result (NoneBelow self.now.vectors v.now (length self.now.vectors)) (IsFirstBelow self.now.vectors v.now) }
    {
        if self.len == 0 {
            return None;
        }
        scans::first_below(&self.columns, v, self.len)
    }

    /// Marks exactly the places of the vectors that `v` is at most in each number.
    pub fn mark_above(&self, v: &[u64], marks: &mut [bool])
        requires width { length v.now ≡ self.now.width }
        requires places { length marks.old ≡ length self.now.vectors }
        ensures { MarksAbove self.now.vectors v.now marks.new }
    {
        if self.len > 0 {
            scans::mark_above(&self.columns, v, marks);
        }
    }

    /// Drops the marked vectors. The others keep their order.
    pub fn keep(&mut self, marks: &[bool])
        requires { length marks.now ≡ length self.old.vectors }
        ensures { self.new ≡ record self.old { vectors = unmarked marks.now self.old.vectors } }
    {
        edits::keep_each(&mut self.columns, marks);
        self.len = edits::count_kept(marks);
    }
}
