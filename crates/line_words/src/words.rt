//! The words of a line: the longest runs of bytes that aren't blank, from the left.

ghost use Rattle.std.specs.Prelude.{◌≡◌, ℕ, ◌+◌, ◌-◌, [], ◌∷◌, ◌<◌, ◌≤◌, length, take, drop, IsTrue, ◌↔◌, ◌==◌};
ghost use Rattle.std.specs.List.{prefix_len, position_or_len};
ghost use Rattle.std.specs.Iterator.{item_count, YieldsFirstBy};
ghost use Rattle.line_words.specs.Text.{is_blank, words_from, words_in};
ghost use Rattle.line_words.specs.Word.{piece};
ghost use Rattle.std.specs.Str.{IsAscii};

use std::marker::Model;

/// A word, and where it stands in its line: the bytes from `start` up to `end`, without `end`.
#[derive(Clone, Copy, Debug)]
pub struct Word<'a> {
    pub text: &'a str,
    pub start: usize,
    pub end: usize,
}

/// The words of a line that are left.
#[derive(Drop)]
pub struct LineWords<'a> {
    bytes: &'a [u8],
    at: usize,
}

impl<'a> Model for LineWords<'a> {
    ghost use Rattle.std.specs.Prelude.{ℕ, List, drop, ◌≤◌, length};
    ghost use Rattle.std.specs.Str.{IsAscii};
    ghost use Rattle.line_words.specs.Text.{Piece, words_from};

    ghost Value = { List Piece };

    ghost view = { λ s. words_from s.at (drop s.at s.bytes.now) };

    ghost invariant = { λ s. (s.at ≤ length s.bytes.now) × IsAscii s.bytes.now };
}

impl<'a> LineWords<'a> {
    pub(crate) fn of(bytes: &'a [u8]) -> Self
        requires { IsAscii bytes.now }
        ensures { result ≡ words_in bytes.now }
    {
        LineWords { bytes, at: 0 }
    }
}

pub(crate) fn is_blank(byte: u8) -> bool
    ensures { result ≡ is_blank byte }
{
    byte == b'\t' || byte == b'\r' || byte == b' '
}

/// How many blanks stand in front.
fn blank_len(bytes: &[u8]) -> usize
    ensures value { result ≡ prefix_len is_blank bytes.now }
    ensures within { result ≤ length bytes.now }
{
    bytes.iter().take_while(|byte| is_blank(**byte)).count()
}

/// How many bytes stand in front of the first blank.
fn word_len(bytes: &[u8]) -> usize
    ensures value { result ≡ position_or_len is_blank bytes.now }
    ensures within { result ≤ length bytes.now }
{
    bytes.iter().take_while(|byte| !is_blank(**byte)).count()
}

/// Where the next word starts and ends, at or after a place. The ends are one where there is no further word.
fn word_at(bytes: &[u8], at: usize) -> (usize, usize)
    requires { at ≤ length bytes.now }
    ensures order { (at ≤ result.0) × (result.0 ≤ result.1) × (result.1 ≤ length bytes.now) }
    ensures end { result.0 ≡ result.1 → (words_from at (drop at bytes.now) ≡ []) × (words_from result.1 (drop result.1 bytes.now) ≡ []) }
    ensures word { result.0 < result.1 → words_from at (drop at bytes.now)
        ≡ record { start = result.0; end = result.1; text = take (result.1 - result.0) (drop result.0 bytes.now) } ∷ words_from result.1 (drop result.1 bytes.now) }
{
    let start = at + blank_len(&bytes[at..]);
    let end = start + word_len(&bytes[start..]);
    (start, end)
}

impl<'a> Iterator for LineWords<'a> {
    type Item = Word<'a>;

    ghost next_gives = { YieldsFirstBy piece (λ s. s) };

    ghost remaining = { item_count (λ s. s) };

    fn next(&mut self) -> Option<Word<'a>> {
        let bytes = self.bytes;
        let (start, end) = word_at(bytes, self.at);
        if start == end {
            self.at = end;
            return None;
        }
        self.at = end;
        let text = unsafe { std::str::from_utf8_unchecked(&bytes[start..end]) };
        Some(Word { text, start, end })
    }
}
