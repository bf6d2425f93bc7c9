//! Whole numbers as words.

ghost use Rattle.std.specs.Prelude.{◌≡◌, ◌<◌, ◌^◌, ◌++◌, decimal, IfOk, OnOk, OnErr};
ghost use Rattle.std.specs.List.{list_all};
ghost use Rattle.std.specs.Char.{is_ascii_digit};
ghost use Rattle.line_words.specs.Numbers.{is_digits, whole_of, plain_whole_of};

use itoa::Buffer;
use std::alloc::{AllocError, Global};
use thiserror::Error;

/// Why a word is no number here.
#[derive(Clone, Copy, Debug, PartialEq, Eq, Error)]
pub enum NumberFault {
    #[error("not a number")]
    BadNumber,
    #[error("too big a number")]
    TooBig,
}

/// The greatest number that `whole` reads: 2 ^ 63 - 1.
const GREATEST: u64 = 0x7fff_ffff_ffff_ffff;

pub(crate) fn is_digit(byte: u8) -> bool
    ensures { result ≡ is_ascii_digit byte }
{
    b'0' <= byte && byte <= b'9'
}

fn are_digits(bytes: &[u8]) -> bool
    ensures { result ≡ list_all is_ascii_digit bytes.now }
{
    bytes.iter().all(|byte| is_digit(*byte))
}

fn is_digits(word: &str) -> bool
    ensures { result ≡ is_digits word.now }
{
    !word.is_empty() && are_digits(word.as_bytes())
}

/// The number that one digit or more write, at most 2 ^ 63 - 1. Leading zeros are allowed.
#[tactic(auto, unfolding(crate::specs::Numbers::whole_of))]
pub fn whole(word: &str) -> Result<u64, NumberFault>
    ensures value { result ≡ whole_of word.now }
    ensures small { IfOk result (λ n. n < 2 ^ 63) }
{
    if !is_digits(word) {
        return Err(NumberFault::BadNumber);
    }
    match word.parse::<u64>() {
        Ok(n) if n <= GREATEST => Ok(n),
        _ => Err(NumberFault::TooBig),
    }
}

/// As `whole`, but a leading zero before a further digit is refused as `BadNumber`.
#[tactic(auto, unfolding(crate::specs::Numbers::plain_whole_of))]
pub fn plain_whole(word: &str) -> Result<u64, NumberFault>
    ensures value { result ≡ plain_whole_of word.now }
    ensures small { IfOk result (λ n. n < 2 ^ 63) }
{
    if word.len() > 1 && word.as_bytes()[0] == b'0' {
        return Err(NumberFault::BadNumber);
    }
    whole(word)
}

/// Appends the decimal text of a number.
pub fn put_whole(_alloc: Global, out: &mut Vec<u8>, n: u64) -> Result<(), AllocError>
    ensures ok { OnOk result (out.new.items ≡ out.old.items ++ decimal n) }
    ensures err { OnErr result (out.new.items ≡ out.old.items) }
{
    let mut buffer = Buffer::new();
    out.extend_from_slice(buffer.format(n).as_bytes())
}
