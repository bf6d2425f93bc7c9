//! Weights added up where a bit is set.

ghost use Rattle.std.specs.Prelude.{◌≡◌, ◌+◌, ◌*◌, ◌≤◌, ◌<◌, ◌^◌, length, All, sum, take, drop};
ghost use Rattle.std.specs.Simd.Lanes.{chunk};
ghost use Rattle.dominance_lanes.specs.Weighted.{weighted};

use crate::lanes::LANES;
use std::simd::prelude::*;

/// The weights of a group, added up where the bit is 1.
fn group_sum(bits: &[u8], weights: &[u64], at: usize) -> u64
    requires bits_room { at + 8 ≤ length bits.now }
    requires weights_room { at + 8 ≤ length weights.now }
    requires bits { All (λ b. b ≤ 1) bits.now }
    requires small { sum weights.now < 2 ^ 63 }
    ensures { result ≡ weighted (chunk at 8 bits.now) (chunk at 8 weights.now) }
{
    let bits = u8x8::from_slice(&bits[at..]).cast::<u64>();
    let weights = u64x8::from_slice(&weights[at..]);
    bits.strict_mul(weights).strict_reduce_sum()
}

/// The weights of so many groups, added up where the bit is 1.
fn groups_sum(bits: &[u8], weights: &[u64], groups: usize) -> u64
    requires same { length bits.now ≡ length weights.now }
    requires room { groups * 8 ≤ length bits.now }
    requires bits { All (λ b. b ≤ 1) bits.now }
    requires small { sum weights.now < 2 ^ 63 }
    ensures { result + weighted (drop (groups * 8) bits.now) (drop (groups * 8) weights.now) ≡ weighted bits.now weights.now }
{
    let mut total: u64 = 0;
    for group in 0..groups {
        total += group_sum(bits, weights, group * LANES);
    }
    total
}

/// The sum of the weights whose bit is 1: a linear objective at an assignment of its variables, a byte for each.
/// Conditions are one weight for each bit, bits that are 0 or 1, and that all weights together are below 2^63.
pub fn weighted_sum(bits: &[u8], weights: &[u64]) -> u64
    requires same { length bits.now ≡ length weights.now }
    requires bits { All (λ b. b ≤ 1) bits.now }
    requires small { sum weights.now < 2 ^ 63 }
    ensures { result ≡ weighted bits.now weights.now }
{
    let groups = bits.len() / LANES;
    let mut total = groups_sum(bits, weights, groups);
    for k in groups * LANES..bits.len() {
        if bits[k] == 1 {
            total += weights[k];
        }
    }
    total
}
