//! The parts of a decimal numeral: `12.5e-3` has the digits `12` and `5` and the exponent `3`.

ghost use Rattle.std.specs.Prelude.{◌≡◌, ◌==◌, ◌≤◌, ◌+◌, ◌<◌, ◌^◌, [], length, take, drop, ◌-◌, slice_index, slice_range, if◌then◌else◌};
ghost use Rattle.std.specs.List.{prefix_len};
ghost use Rattle.std.specs.Char.{is_ascii_digit};
ghost use Rattle.std.specs.Str.Parse.{AllDigits};
ghost use Rattle.line_words.specs.Numeral.{parts_of};
ghost use Rattle.std.specs.Float.Numeral.{digits_len, digits_end, exponent_start, has_exponent, scan_numeral, dot};

use crate::numbers::is_digit;

/// The parts of a numeral: the digits before and after its point, its exponent, and its length.
#[derive(Clone, Copy)]
pub(crate) struct Numeral<'a> {
    pub(crate) whole: &'a [u8],
    pub(crate) point: bool,
    pub(crate) fraction: &'a [u8],
    pub(crate) negative: bool,
    pub(crate) exponent: &'a [u8],
    pub(crate) len: usize,
}

/// The byte at a place, or 0 past the end.
pub(crate) fn byte_at(bytes: &[u8], at: usize) -> u8
    ensures { result ≡ slice_index bytes.now at }
{
    if at < bytes.len() { bytes[at] } else { 0 }
}

fn digits_len(bytes: &[u8]) -> usize
    ensures value { result ≡ prefix_len is_ascii_digit bytes.now }
    ensures within { result ≤ length bytes.now }
{
    bytes.iter().take_while(|byte| is_digit(**byte)).count()
}

/// Where the digits that begin at a place end.
fn digits_end(bytes: &[u8], at: usize) -> usize
    requires { at ≤ length bytes.now }
    ensures value { result ≡ digits_end bytes.now at }
    ensures within { result ≤ length bytes.now }
    ensures after { at ≤ result }
    ensures digits { AllDigits 10 (take (result - at) (drop at bytes.now)) }
{
    at + digits_len(bytes.split_at(at).1)
}

fn exponent_start(bytes: &[u8], at: usize) -> usize
    requires { at ≤ length bytes.now }
    ensures { result ≡ exponent_start bytes.now at }
{
    let sign = byte_at(bytes, at + 1);
    if sign == b'-' || sign == b'+' {
        at + 2
    } else {
        at + 1
    }
}

fn has_exponent(bytes: &[u8], at: usize) -> bool
    requires { at ≤ length bytes.now }
    ensures { result ≡ has_exponent bytes.now at }
{
    let byte = byte_at(bytes, at);
    (byte == b'e' || byte == b'E') && is_digit(byte_at(bytes, exponent_start(bytes, at)))
}

/// The longest numeral at the front.
pub(crate) fn scan(bytes: &[u8]) -> Numeral<'_>
    ensures parts { parts_of result ≡ scan_numeral bytes.now }
    ensures whole { AllDigits 10 result.whole.now }
    ensures fraction { AllDigits 10 result.fraction.now }
    ensures exponent { AllDigits 10 result.exponent.now }
    ensures short { length result.whole.now + length result.fraction.now < 2 ^ 64 }
{
    let whole_end = digits_end(bytes, 0);
    let point = byte_at(bytes, whole_end) == b'.';
    let (fraction, end) = fraction_at(bytes, whole_end, point);
    let (exponent, len) = exponent_at(bytes, end);
    Numeral {
        whole: &bytes[..whole_end],
        point,
        fraction,
        negative: has_exponent(bytes, end) && byte_at(bytes, end + 1) == b'-',
        exponent,
        len,
    }
}

fn fraction_at(bytes: &[u8], at: usize, point: bool) -> (&[u8], usize)
    requires at { at ≤ length bytes.now }
    requires point { point ≡ (slice_index bytes.now at == dot) }
    ensures end { result.1 ≡ (if point then digits_end bytes.now (at + 1) else at) }
    ensures fraction { result.0.now ≡ (if point then slice_range bytes.now (at + 1) result.1 else []) }
    ensures within { result.1 ≤ length bytes.now }
    ensures digits { AllDigits 10 result.0.now }
    ensures short { at + length result.0.now ≤ length bytes.now }
{
    if !point || at >= bytes.len() {
        return (&[], at);
    }
    let end = digits_end(bytes, at + 1);
    (&bytes[at + 1..end], end)
}

fn exponent_at(bytes: &[u8], at: usize) -> (&[u8], usize)
    requires { at ≤ length bytes.now }
    ensures len { result.1 ≡ (if has_exponent bytes.now at then digits_end bytes.now (exponent_start bytes.now at) else at) }
    ensures exponent { result.0.now ≡ (if has_exponent bytes.now at then slice_range bytes.now (exponent_start bytes.now at) (digits_end bytes.now (exponent_start bytes.now at)) else []) }
    ensures digits { AllDigits 10 result.0.now }
{
    let start = exponent_start(bytes, at);
    if !has_exponent(bytes, at) || start > bytes.len() {
        return (&[], at);
    }
    let end = digits_end(bytes, start);
    (&bytes[start..end], end)
}
