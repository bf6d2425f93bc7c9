//! All vectors compared with one: first the whole groups, then the places that are left.

ghost use Rattle.std.specs.Prelude.{◌≡◌, ◌*◌, ◌^◌, ◌≤◌, ◌<◌, ℕ, length, map, All, vec_len, vec_items, false, MatchOption, slice_index_or};
ghost use Rattle.dominance_lanes.specs.Columns.{rows, NoneBelow, IsFirstBelow, MarksAbove, AreColumns};
ghost use Rattle.dominance_lanes.specs.Groups.{is_below_at, is_above_at, FirstBetween};

use crate::lanes::{LANES, first_below_in, mark_above_in};
use crate::places::{is_above, is_below};

/// The first place in so many groups whose vector is at most `v`.
fn first_in_groups(columns: &[Vec<u64>], v: &[u64], groups: usize) -> Option<usize>
    requires width { length columns.now ≡ length v.now }
    requires room { All (λ c. groups * 8 ≤ vec_len c) columns.now }
    requires bound { groups * 8 < 2 ^ 64 }
    ensures { FirstBetween (is_below_at (map vec_items columns.now) v.now) 0 (groups * 8) result }
{
    for group in 0..groups {
        let first = first_below_in(columns, v, group * LANES);
        if first.is_some() {
            return first;
        }
    }
    None
}

/// The first place from one to before another whose vector is at most `v`.
fn first_in_rest(columns: &[Vec<u64>], v: &[u64], start: usize, end: usize) -> Option<usize>
    requires width { length columns.now ≡ length v.now }
    requires room { All (λ c. end ≤ vec_len c) columns.now }
    ensures { FirstBetween (is_below_at (map vec_items columns.now) v.now) start end result }
{
    for k in start..end {
        if is_below(columns, v, k) {
            return Some(k);
        }
    }
    None
}

/// The lowest place of a vector that is at most `v`.
pub fn first_below(columns: &[Vec<u64>], v: &[u64], len: usize) -> Option<usize>
    requires width { length columns.now ≡ length v.now }
    requires room { AreColumns (map vec_items columns.now) (length v.now) len }
    ensures { MatchOption result (NoneBelow (rows (map vec_items columns.now) len) v.now len) (IsFirstBelow (rows (map vec_items columns.now) len) v.now) }
{
    let groups = len / LANES;
    match first_in_groups(columns, v, groups) {
        Some(k) => Some(k),
        None => first_in_rest(columns, v, groups * LANES, len),
    }
}

/// Marks the places of so many groups whose vectors `v` is at most.
fn mark_groups(columns: &[Vec<u64>], v: &[u64], groups: usize, marks: &mut [bool])
    requires width { length columns.now ≡ length v.now }
    requires room { All (λ c. groups * 8 ≤ vec_len c) columns.now }
    requires places { groups * 8 ≤ length marks.old }
    ensures { (k : ℕ) → k < groups * 8 → slice_index_or marks.new k false ≡ is_above_at (map vec_items columns.now) v.now k }
{
    for group in 0..groups {
        mark_above_in(columns, v, group * LANES, marks);
    }
}

/// Marks the places from one on whose vectors `v` is at most.
fn mark_rest(columns: &[Vec<u64>], v: &[u64], start: usize, marks: &mut [bool])
    requires width { length columns.now ≡ length v.now }
    requires room { All (λ c. length marks.old ≤ vec_len c) columns.now }
    ensures here { (k : ℕ) → start ≤ k → k < length marks.old → slice_index_or marks.new k false ≡ is_above_at (map vec_items columns.now) v.now k }
    ensures before { (k : ℕ) → k < start → slice_index_or marks.new k false ≡ slice_index_or marks.old k false }
{
    for k in start..marks.len() {
        marks[k] = is_above(columns, v, k);
    }
}

/// Marks exactly the places of the vectors that `v` is at most.
pub fn mark_above(columns: &[Vec<u64>], v: &[u64], marks: &mut [bool])
    requires width { length columns.now ≡ length v.now }
    requires room { AreColumns (map vec_items columns.now) (length v.now) (length marks.old) }
    ensures { MarksAbove (rows (map vec_items columns.now) (length marks.old)) v.now marks.new }
{
    let groups = marks.len() / LANES;
    mark_groups(columns, v, groups, marks);
    mark_rest(columns, v, groups * LANES, marks);
}
