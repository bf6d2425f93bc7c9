//! Decimals as whole counts of 10 ^ -12, for numerals and exponents of any length.
//!
//! Of the digits of a numeral only the first ones count, up to the place of 10 ^ -12, and zeros
//! may have to follow them. Each number on the way stops at `MOST`, from which on a decimal is too
//! big, so 128 bits are enough.

ghost use Rattle.std.specs.Prelude.{◌≡◌, ◌≤◌, ◌<◌, ◌+◌, ◌*◌, ◌^◌, ◌-◌, min, length, if◌then◌else◌, pos, negsuc, ◌<ℤ◌, IfOk};
ghost use Rattle.std.specs.Str.Parse.{digits_value_after, AllDigits};
ghost use Rattle.std.specs.Char.{digit_value};
ghost use Rattle.line_words.specs.Decimal.{most, units, decimal_of};
ghost use Rattle.line_words.specs.Numeral.{parts_of};
ghost use Rattle.std.specs.Float.Numeral.{has_digits};

use crate::numbers::NumberFault;
use crate::numerals::{Numeral, byte_at, scan};

/// The units at which a decimal is too big: 10 ^ 15, in units of 10 ^ -12.
const MOST: u128 = 1_000_000_000_000_000_000_000_000_000;

/// A number with digits after it, at most `MOST`.
fn with_digits(number: u128, digits: &[u8]) -> u128
    requires digits { AllDigits 10 digits.now }
    requires most { number ≤ most }
    ensures { result ≡ min (digits_value_after 10 number digits.now) most }
{
    let mut value = number;
    for digit in digits {
        value = (value * 10 + u128::from(*digit - b'0')).min(MOST);
    }
    value
}

/// A number with zeros after it, at most `MOST`.
fn with_zeros(number: u128, zeros: u128) -> u128
    requires { number ≤ most }
    ensures { result ≡ min (number * 10 ^ zeros) most }
{
    let mut value = number;
    let mut left = zeros;
    while left > 0 && value > 0 && value < MOST {
        value = (value * 10).min(MOST);
        left -= 1;
    }
    value
}

/// How many digits of a numeral count, with zeros after them.
fn kept(parts: &Numeral, exponent: u128) -> u128
    requires short { length parts.now.whole.now + length parts.now.fraction.now < 2 ^ 64 }
    requires most { exponent ≤ most }
    ensures { result ≡ (if parts.now.negative then 0 else exponent) + 12 + (length parts.now.whole.now + length parts.now.fraction.now)
        - (length parts.now.fraction.now + (if parts.now.negative then exponent else 0)) }
{
    let digits = parts.whole.len() as u128 + parts.fraction.len() as u128;
    if parts.negative {
        (12 + digits).saturating_sub(parts.fraction.len() as u128 + exponent)
    } else {
        (exponent + 12 + digits) - parts.fraction.len() as u128
    }
}

/// The units of a numeral, at most `MOST`.
fn units_of(parts: &Numeral) -> u128
    requires whole { AllDigits 10 parts.now.whole.now }
    requires fraction { AllDigits 10 parts.now.fraction.now }
    requires exponent { AllDigits 10 parts.now.exponent.now }
    requires short { length parts.now.whole.now + length parts.now.fraction.now < 2 ^ 64 }
    ensures { result ≡ min (units (parts_of parts.now)) most }
{
    let exponent = with_digits(0, parts.exponent);
    let digits = parts.whole.len() as u128 + parts.fraction.len() as u128;
    let keep = kept(parts, exponent);
    let from_whole = keep.min(parts.whole.len() as u128);
    let from_fraction = (keep - from_whole).min(parts.fraction.len() as u128);
    let value = with_digits(0, &parts.whole[..from_whole as usize]);
    let value = with_digits(value, &parts.fraction[..from_fraction as usize]);
    with_zeros(value, keep.saturating_sub(digits))
}

/// The value of a decimal in units of 10 ^ -12, rounded toward zero; `TooBig` from 10 ^ 15 on.
///
/// A decimal is an optional sign, digits with at most one point, and an optional exponent, as
/// `-12.5e-3`. Numeral and exponent may have any length.
#[tactic(auto, unfolding(crate::specs::Decimal::decimal_of))]
pub fn decimal(word: &str) -> Result<i128, NumberFault>
    ensures value { result ≡ decimal_of word.now }
    ensures small { IfOk result (λ v. (negsuc (most - 1) <ℤ v) × (v <ℤ pos most)) }
{
    let bytes = word.as_bytes();
    let first = byte_at(bytes, 0);
    let negative = first == b'-';
    let numeral = if negative || first == b'+' {
        bytes.split_at(1).1
    } else {
        bytes
    };
    let parts = scan(numeral);
    if !has_digits(&parts) || parts.len != numeral.len() {
        return Err(NumberFault::BadNumber);
    }
    let units = units_of(&parts);
    if units >= MOST {
        return Err(NumberFault::TooBig);
    }
    Ok(if negative {
        -(units as i128)
    } else {
        units as i128
    })
}

fn has_digits(parts: &Numeral) -> bool
    ensures { result ≡ has_digits (parts_of parts.now) }
{
    !parts.whole.is_empty() || !parts.fraction.is_empty()
}
