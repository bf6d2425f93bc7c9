//! One group of eight places: each is a lane, which is 0 as long as its vector passes and 1 from then on.
//!
//! Lanes are compared and chosen by, and no more: that costs an instruction or two each, and is what is proved simply.

ghost use Rattle.std.specs.Prelude.{◌≡◌, ℕ, ◌+◌, ◌^◌, ◌<◌, ◌≤◌, ◌==◌, ◌⊎◌, length, map, All, vec_len, vec_items, slice_index, slice_index_or, nat_lt, false, if◌then◌else◌};
ghost use Rattle.dominance_lanes.specs.Groups.{first_set, is_below_at, is_above_at, IsFirstZero, FirstBetween};

use std::simd::prelude::*;

/// How many places a group has.
pub const LANES: usize = 8;

/// All lanes 0.
fn no_lanes() -> u64x8
    ensures lanes { length result ≡ 8 }
    ensures each { (i : ℕ) → i < 8 → slice_index result i ≡ 0 }
{
    u64x8::splat(0)
}

/// A number in each lane.
fn spread(number: u64) -> u64x8
    ensures lanes { length result ≡ 8 }
    ensures each { (i : ℕ) → i < 8 → slice_index result i ≡ number }
{
    u64x8::splat(number)
}

/// The numbers of a column from a place on.
fn load(column: &[u64], at: usize) -> u64x8
    requires { at + 8 ≤ length column.now }
    ensures lanes { length result ≡ 8 }
    ensures each { (i : ℕ) → i < 8 → slice_index result i ≡ slice_index column.now (at + i) }
{
    u64x8::from_slice(&column[at..])
}

/// A lane is 1 where the first number is below the second, and else as before.
fn with_below(so_far: u64x8, first: u64x8, second: u64x8) -> u64x8
    requires so_far_lanes { length so_far ≡ 8 }
    requires first_lanes { length first ≡ 8 }
    requires second_lanes { length second ≡ 8 }
    ensures lanes { length result ≡ 8 }
    ensures each { (i : ℕ) → i < 8 → slice_index result i ≡ (if nat_lt (slice_index first i) (slice_index second i) then 1 else slice_index so_far i) }
{
    first.simd_lt(second).select(u64x8::splat(1), so_far)
}

/// A lane is 0 exactly where the vector of its place is at most `v`.
fn not_below(columns: &[Vec<u64>], v: &[u64], at: usize) -> u64x8
    requires width { length columns.now ≡ length v.now }
    requires room { All (λ c. at + 8 ≤ vec_len c) columns.now }
    ensures lanes { length result ≡ 8 }
    ensures each { (i : ℕ) → i < 8 → (slice_index result i == 0) ≡ is_below_at (map vec_items columns.now) v.now (at + i) }
{
    let mut lanes = no_lanes();
    for (j, column) in columns.iter().enumerate() {
        lanes = with_below(lanes, spread(v[j]), load(column, at));
    }
    lanes
}

/// A lane is 0 exactly where `v` is at most the vector of its place.
fn not_above(columns: &[Vec<u64>], v: &[u64], at: usize) -> u64x8
    requires width { length columns.now ≡ length v.now }
    requires room { All (λ c. at + 8 ≤ vec_len c) columns.now }
    ensures lanes { length result ≡ 8 }
    ensures each { (i : ℕ) → i < 8 → (slice_index result i == 0) ≡ is_above_at (map vec_items columns.now) v.now (at + i) }
{
    let mut lanes = no_lanes();
    for (j, column) in columns.iter().enumerate() {
        lanes = with_below(lanes, load(column, at), spread(v[j]));
    }
    lanes
}

/// The place of the lowest bit that is set, or `n` where none is.
fn first_set(mask: u64, n: usize) -> usize
    ensures { result ≡ first_set mask n }
{
    if mask == 0 {
        n
    } else {
        mask.trailing_zeros() as usize
    }
}

/// The first lane that is 0, or 8 where none is.
fn first_zero(lanes: u64x8) -> usize
    requires { length lanes ≡ 8 }
    ensures { IsFirstZero lanes 8 result }
{
    first_set(lanes.simd_eq(u64x8::splat(0)).to_bitmask(), LANES)
}

/// Of a group, the first place whose vector is at most `v`.
pub fn first_below_in(columns: &[Vec<u64>], v: &[u64], at: usize) -> Option<usize>
    requires width { length columns.now ≡ length v.now }
    requires room { All (λ c. at + 8 ≤ vec_len c) columns.now }
    requires bound { at + 8 < 2 ^ 64 }
    ensures { FirstBetween (is_below_at (map vec_items columns.now) v.now) at (at + 8) result }
{
    let first = first_zero(not_below(columns, v, at));
    if first < LANES {
        Some(at + first)
    } else {
        None
    }
}

/// Marks the places of a group whose vectors `v` is at most, and no others.
pub fn mark_above_in(columns: &[Vec<u64>], v: &[u64], at: usize, marks: &mut [bool])
    requires width { length columns.now ≡ length v.now }
    requires room { All (λ c. at + 8 ≤ vec_len c) columns.now }
    requires marks { at + 8 ≤ length marks.old }
    ensures here { (i : ℕ) → i < 8 → slice_index_or marks.new (at + i) false ≡ is_above_at (map vec_items columns.now) v.now (at + i) }
    ensures others { (k : ℕ) → (k < at) ⊎ (at + 8 ≤ k) → slice_index_or marks.new k false ≡ slice_index_or marks.old k false }
{
    let lanes = not_above(columns, v, at).to_array();
    for i in 0..LANES {
        marks[at + i] = lanes[i] == 0;
    }
}
