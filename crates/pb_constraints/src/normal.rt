//! The normal form of a signed sum.
//!
//! A negated literal `~x` counts as `1 - x`: its coefficient counts against the variable and is taken from the
//! degree. A variable whose sum is negative gets a negated term again, and the degree its coefficient back. Sums
//! are made in 128 bits, so that only the finished form is tested against 2^63.

ghost use Rattle.std.specs.Prelude.{◌≡◌, ◌<◌, ◌^◌, pos, ◌+ℤ◌, ◌-ℤ◌, ◌≤ℤ◌, IfOk, OnOk, IfErr, sum_by, map};
ghost use Rattle.std.proofs.Common.{neg_ℤ};
ghost use Rattle.pb_constraints.specs.NormalForm.{IsNormalOf, KeepsMeaning, IsTooLarge, MayRefuse, IsSmall, normal_degree, or_zero};
ghost use Rattle.pb_constraints.specs.Groups.{AreGroupsOf, magnitude, flipped, term_of};

use crate::Constraint;
use crate::groups::{Group, coefficients, flips, groups_of, terms};
use crate::parts::{Part, negated};
use std::alloc::{AllocError, Global};
use thiserror::Error;

/// Why there is no normal form.
#[derive(Clone, Copy, Debug, PartialEq, Eq, Drop, Error)]
pub enum NormalFault {
    /// The coefficient sum or the degree would reach 2^63.
    #[error("the coefficient sum or the degree would reach 2^63")]
    TooLarge,
    /// There was no memory.
    #[error("no memory")]
    NoMemory,
}

impl From<AllocError> for NormalFault {
    ghost use Rattle.std.specs.Prelude.{◌≡◌};
    ghost use Rattle.pb_constraints.specs.declared.normal.NormalFault.TheVariants.{NoMemory};

    ghost from_gives = { λ _ e. e ≡ NoMemory };

    fn from(_fault: AllocError) -> NormalFault {
        NormalFault::NoMemory
    }
}

/// A number, or 0 for one below 0.
fn at_least_zero(z: i128) -> u128
    ensures { result ≡ or_zero z }
{
    if z < 0 {
        return 0;
    }
    z as u128
}

/// The degree once the negated coefficients of the parts are taken from it, and those of the terms are added.
fn shifted(degree: i64, negated: i128, flips: u128) -> i128
    requires low { neg_ℤ (pos (2 ^ 126)) ≤ℤ negated }
    requires high { negated ≤ℤ pos (2 ^ 126) }
    requires few { flips < 2 ^ 63 }
    ensures { result ≡ (degree -ℤ negated) +ℤ pos flips }
{
    i128::from(degree) - negated + flips as i128
}

/// The degree of the normal form.
fn degree_of(groups: &[Group], parts: &[Part], degree: i64) -> u128
    requires { sum_by magnitude groups.now < 2 ^ 63 }
    ensures { result ≡ normal_degree parts.now degree (map term_of groups.now) }
{
    at_least_zero(shifted(degree, negated(parts), flips(groups)))
}

/// The normal form, once the groups of the parts stand.
fn form(
    alloc: Global,
    groups: &[Group],
    parts: &[Part],
    degree: i64,
) -> Result<Constraint, NormalFault>
    requires { AreGroupsOf parts.now groups.now }
    ensures normal { IfOk result (IsNormalOf parts.now degree) }
    ensures small { IfOk result IsSmall }
    ensures accepted { OnOk result (¬ IsTooLarge parts.now degree) }
    ensures refused { IfErr result (MayRefuse parts.now degree) }
    ensures meaning { IfOk result (KeepsMeaning parts.now degree) }
{
    if coefficients(groups) >= 1 << 63 {
        return Err(NormalFault::TooLarge);
    }
    let degree = degree_of(groups, parts, degree);
    if degree >= 1 << 63 {
        return Err(NormalFault::TooLarge);
    }
    let terms = terms(alloc, groups)?;
    Ok(Constraint::of_normal(terms, degree as u64))
}

/// The normal form of `parts >= degree`: the one constraint in normal form that has the same sum for each variable
/// and the degree that goes with them, a degree below 0 becoming 0. It holds under the same assignments. It is
/// `TooLarge` exactly where the coefficient sum or the degree would reach 2^63.
pub fn normalise(alloc: Global, parts: &[Part], degree: i64) -> Result<Constraint, NormalFault>
    ensures normal { IfOk result (IsNormalOf parts.now degree) }
    ensures small { IfOk result IsSmall }
    ensures accepted { OnOk result (¬ IsTooLarge parts.now degree) }
    ensures refused { IfErr result (MayRefuse parts.now degree) }
    ensures meaning { IfOk result (KeepsMeaning parts.now degree) }
{
    let groups = groups_of(alloc, parts)?;
    form(alloc, groups.as_slice(), parts, degree)
}
