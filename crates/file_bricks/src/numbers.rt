//! Words as numbers, for files whose rules ask of each word by itself whether it is one.

ghost use Rattle.std.specs.Prelude.{◌≡◌, ◌<◌, ◌^◌, Result};
ghost use Rattle.line_words.specs.Numbers.{whole_of};
ghost use Rattle.line_words.specs.Decimal.{decimal_of};
ghost use Rattle.file_bricks.specs.Numbers.{is_bad, is_big, whole_in, decimal_in};

use line_words::{NumberFault, decimal, whole};

/// Whether a word that was read is no whole number.
pub fn is_bad(number: Result<u64, NumberFault>) -> bool
    ensures { result ≡ is_bad number }
{
    match number {
        Err(NumberFault::BadNumber) => true,
        _ => false,
    }
}

/// Whether a word that was read is a whole number, and is too big.
pub fn is_big(number: Result<u64, NumberFault>) -> bool
    ensures { result ≡ is_big number }
{
    match number {
        Err(NumberFault::TooBig) => true,
        _ => false,
    }
}

/// Whether a word is no whole number.
pub fn is_bad_whole(word: &str) -> bool
    ensures { result ≡ is_bad (whole_of word.now) }
{
    is_bad(whole(word))
}

/// Whether a word is a whole number, and is too big: 2^63 or more.
pub fn is_big_whole(word: &str) -> bool
    ensures { result ≡ is_big (whole_of word.now) }
{
    is_big(whole(word))
}

/// A word as a whole number, 0 where it is none.
pub fn whole_in(word: &str) -> u64
    ensures value { result ≡ whole_in word.now }
    ensures small { result < 2 ^ 63 }
{
    match whole(word) {
        Ok(value) => value,
        Err(_) => 0,
    }
}

/// Whether a word is no decimal.
pub fn is_bad_decimal(word: &str) -> bool
    ensures { result ≡ is_bad (decimal_of word.now) }
{
    match decimal(word) {
        Err(NumberFault::BadNumber) => true,
        _ => false,
    }
}

/// Whether a word is a decimal, and is too big: 10^15 or more, below or above zero.
pub fn is_big_decimal(word: &str) -> bool
    ensures { result ≡ is_big (decimal_of word.now) }
{
    match decimal(word) {
        Err(NumberFault::TooBig) => true,
        _ => false,
    }
}

/// A word as a decimal in units of 10^-12, 0 where it is none.
pub fn decimal_in(word: &str) -> i128
    ensures { result ≡ decimal_in word.now }
{
    match decimal(word) {
        Ok(value) => value,
        Err(_) => 0,
    }
}
