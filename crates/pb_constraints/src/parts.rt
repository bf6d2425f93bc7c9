//! Signed sums of literals, as they are before they have a normal form.

ghost use Rattle.std.specs.Prelude.{◌≡◌, ◌^◌, ◌*◌, length, pos, ◌≤ℤ◌};
ghost use Rattle.std.proofs.Common.{neg_ℤ};
ghost use Rattle.pb_constraints.specs.SignedSums.{signed, on_negated, negated_sum};

use pb_rules::Lit;

/// A signed coefficient and its literal.
#[derive(Clone, Copy, Debug, PartialEq, Eq)]
pub struct Part {
    pub coef: i64,
    pub lit: Lit,
}

/// What a part adds to the sum of its variable: its coefficient, or for a negated literal the opposite.
pub(crate) fn signed_of(p: Part) -> i128
    ensures value { result ≡ signed p }
    ensures low { neg_ℤ (pos (2 ^ 63)) ≤ℤ result }
    ensures high { result ≤ℤ pos (2 ^ 63) }
{
    let coef = i128::from(p.coef);
    if p.lit.is_yes() {
        return coef;
    }
    -coef
}

/// The coefficient of a negated literal, or 0.
fn on_negated_of(p: Part) -> i128
    ensures value { result ≡ on_negated p }
    ensures low { neg_ℤ (pos (2 ^ 63)) ≤ℤ result }
    ensures high { result ≤ℤ pos (2 ^ 63) }
{
    if p.lit.is_yes() {
        return 0;
    }
    i128::from(p.coef)
}

/// What the coefficients of the negated literals come to.
pub(crate) fn negated(parts: &[Part]) -> i128
    ensures value { result ≡ negated_sum parts.now }
    ensures low { neg_ℤ (pos (2 ^ 63 * length parts.now)) ≤ℤ result }
    ensures high { result ≤ℤ pos (2 ^ 63 * length parts.now) }
{
    let mut sum: i128 = 0;
    for p in parts {
        sum += on_negated_of(*p);
    }
    sum
}
