//! The sums of the variables, on the way from parts to a normal form.
//!
//! The parts are sorted by their variables and added up in one pass, which never ends early: the sum of a variable
//! may leave 64 bits on the way and come back. A sum of 0 is no group.

ghost use Rattle.std.specs.Prelude.{◌≡◌, ◌<◌, ◌≤◌, ◌^◌, IfOk, OnOk, sum_by, map, All};
ghost use Rattle.std.specs.Int.RustNames.{unsigned_abs};
ghost use Rattle.std.specs.List.Sorted.{IsPermutation, IsNonDecreasingBy};
ghost use Rattle.pb_constraints.specs.Groups.{AreGroupsOf, closed, magnitude, flipped, term_of, var_of};

use crate::parts::{Part, signed_of};
use pb_rules::{Lit, Term};
use std::alloc::{AllocError, Global};

/// A variable and the sum of its parts, which is not 0.
#[derive(Clone, Copy, Debug)]
pub(crate) struct Group {
    pub var: u64,
    pub sum: i128,
}

/// The parts by rising variables.
fn sorted(alloc: Global, parts: &[Part]) -> Result<Vec<Part>, AllocError>
    ensures permutation { IfOk result (λ v. IsPermutation parts.now v.items) }
    ensures sorted { IfOk result (λ v. IsNonDecreasingBy var_of v.items) }
{
    let mut sorted = Vec::from_slice(alloc, parts)?;
    sorted.sort_by_key(|p| p.lit.var())?;
    Ok(sorted)
}

/// Adds the group of a variable, unless its sum is 0.
fn close(groups: &mut Vec<Group>, var: u64, sum: i128) -> Result<(), AllocError>
    ensures { OnOk result (groups.new.items ≡ closed groups.old.items var sum) }
{
    if sum != 0 {
        groups.push(Group { var, sum })?;
    }
    Ok(())
}

/// The groups of parts that stand in the order of their variables.
fn grouped(alloc: Global, parts: &[Part]) -> Result<Vec<Group>, AllocError>
    requires { IsNonDecreasingBy var_of parts.now }
    ensures { IfOk result (λ gs. AreGroupsOf parts.now gs.items) }
{
    let mut groups = Vec::new(alloc);
    let mut var: u64 = 0;
    let mut sum: i128 = 0;
    for p in parts {
        if p.lit.var() != var {
            close(&mut groups, var, sum)?;
            var = p.lit.var();
            sum = 0;
        }
        sum += signed_of(*p);
    }
    close(&mut groups, var, sum)?;
    Ok(groups)
}

/// The groups of parts in any order.
pub(crate) fn groups_of(alloc: Global, parts: &[Part]) -> Result<Vec<Group>, AllocError>
    ensures { IfOk result (λ gs. AreGroupsOf parts.now gs.items) }
{
    let sorted = sorted(alloc, parts)?;
    grouped(alloc, sorted.as_slice())
}

/// The sum of all coefficients.
pub(crate) fn coefficients(groups: &[Group]) -> u128
    requires { sum_by magnitude groups.now < 2 ^ 127 }
    ensures { result ≡ sum_by magnitude groups.now }
{
    let mut sum: u128 = 0;
    for g in groups {
        sum += g.sum.unsigned_abs();
    }
    sum
}

/// What a group adds to the degree.
fn flipped_of(g: Group) -> u128
    ensures { result ≡ flipped g }
{
    if g.sum < 0 {
        return g.sum.unsigned_abs();
    }
    0
}

/// What the negative sums add to the degree.
pub(crate) fn flips(groups: &[Group]) -> u128
    requires { sum_by magnitude groups.now < 2 ^ 127 }
    ensures value { result ≡ sum_by flipped groups.now }
    ensures low { result ≤ sum_by magnitude groups.now }
{
    let mut sum: u128 = 0;
    for g in groups {
        sum += flipped_of(*g);
    }
    sum
}

/// The term of a group.
fn term(g: Group) -> Term
    requires small { unsigned_abs g.sum < 2 ^ 63 }
    requires variable { g.var < 2 ^ 62 }
    ensures { result ≡ term_of g }
{
    let coef = g.sum.unsigned_abs() as u64;
    if g.sum < 0 {
        return Term {
            coef,
            lit: Lit::no(g.var),
        };
    }
    Term {
        coef,
        lit: Lit::yes(g.var),
    }
}

/// The terms of groups.
pub(crate) fn terms(alloc: Global, groups: &[Group]) -> Result<Vec<Term>, AllocError>
    requires small { All (λ g. unsigned_abs g.sum < 2 ^ 63) groups.now }
    requires variable { All (λ g. g.var < 2 ^ 62) groups.now }
    ensures { IfOk result (λ ts. ts.items ≡ map term_of groups.now) }
{
    let mut terms = Vec::new(alloc);
    for g in groups {
        terms.push(term(*g))?;
    }
    Ok(terms)
}
