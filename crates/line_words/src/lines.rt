//! The lines of a file, taken from its front.
//!
//! Each byte of a line is read once: up to its comment for what stands there, and from there on
//! for the LF alone. A line that is refused stays, so each later call refuses it again.

ghost use Rattle.std.specs.Prelude.{◌≡◌, ◌+◌, ◌<◌, ◌≤◌, ◌∷◌, [], length, take, nat_lt, IfNone, IfSome, MatchResult};
ghost use Rattle.std.specs.List.{position_or_len, list_any};
ghost use Rattle.line_words.specs.Text.{lines, content, words_in, AreSpans, ArePlain, is_bad};
ghost use Rattle.line_words.specs.Rules.{first_broken, line_fault};
ghost use Rattle.line_words.specs.Limits.{most_line_bytes};
ghost use Rattle.line_words.specs.Front.{is_lf, ends_content, has_word, line_of};
ghost use Rattle.line_words.specs.Left.{Passes, Gives, StopsAt, Refuses};
ghost use Rattle.line_words.specs.declared.refusals.Refusal1.{Refusal1};

use crate::limits::MOST_LINE_BYTES;
use crate::refusals::{Refusal1, Why};
use crate::words::{LineWords, is_blank};
use std::marker::Model;

/// The lines of a file that are left.
#[derive(Drop)]
pub struct Lines<'a> {
    rest: &'a [u8],
    number: u64,
}

impl<'a> Model for Lines<'a> {
    ghost use Rattle.std.specs.Prelude.{ℕ, List, ◌+◌, ◌≤◌, ◌<◌, ◌^◌, length};
    ghost use Rattle.line_words.specs.Text.{lines};
    ghost use Rattle.line_words.specs.Left.{Left};

    ghost Value = { Left };

    ghost view = { λ s. record { number = s.number; lines = lines s.rest.now } };

    ghost invariant = { λ s. s.number + length s.rest.now < 2 ^ 64 };
}

/// A line with a word.
#[derive(Drop)]
pub struct Line<'a> {
    content: &'a [u8],
    number: u64,
}

impl<'a> Model for Line<'a> {
    ghost use Rattle.std.specs.Prelude.{◌≡◌, ℕ, List, true};
    ghost use Rattle.std.specs.List.{list_all};
    ghost use Rattle.std.specs.Str.{IsAscii};
    ghost use Rattle.line_words.specs.Text.{is_content_byte};
    ghost use Rattle.line_words.specs.Left.{Numbered};

    ghost Value = { Numbered };

    ghost view = { λ s. record { number = s.number; content = s.content.now } };

    ghost invariant = { λ s. IsAscii s.content.now × (list_all is_content_byte s.content.now ≡ true) };
}

impl<'a> Line<'a> {
    /// The line's number, from 1.
    pub fn number(&self) -> u64
        ensures { result ≡ self.now.number }
    {
        self.number
    }

    /// The words before the line's comment.
    pub fn words(&self) -> LineWords<'a>
        ensures words { result ≡ words_in self.now.content }
        ensures spans { AreSpans self.now.content 0 (words_in self.now.content) }
        ensures plain { ArePlain (words_in self.now.content) }
    {
        LineWords::of(self.content)
    }
}

/// What stands at the front of a text, up to its first LF or `#`.
#[derive(Clone, Copy)]
struct Front {
    len: usize,
    has_bad_byte: bool,
    has_word: bool,
}

/// The first line of a text, and what follows its LF.
#[derive(Clone, Copy)]
struct FirstLine<'a> {
    content: &'a [u8],
    fault: Option<Why>,
    has_word: bool,
    rest: &'a [u8],
}

fn ends_content(byte: u8) -> bool
    ensures { result ≡ ends_content byte }
{
    byte == b'\n' || byte == b'#'
}

fn is_bad(byte: u8) -> bool
    ensures { result ≡ is_bad byte }
{
    !(byte == b'\t' || byte == b'\r' || (32 <= byte && byte <= 126))
}

fn front_of(bytes: &[u8]) -> Front
    ensures len { result.len ≡ position_or_len ends_content bytes.now }
    ensures within { result.len ≤ length bytes.now }
    ensures bad { result.has_bad_byte ≡ list_any is_bad (take result.len bytes.now) }
    ensures word { result.has_word ≡ has_word (take result.len bytes.now) }
{
    let mut has_bad_byte = false;
    let mut has_word = false;
    for (len, byte) in bytes.iter().enumerate() {
        if ends_content(*byte) {
            return Front {
                len,
                has_bad_byte,
                has_word,
            };
        }
        has_bad_byte |= is_bad(*byte);
        has_word |= !is_blank(*byte);
    }
    Front {
        len: bytes.len(),
        has_bad_byte,
        has_word,
    }
}

/// How many bytes stand in front of the first LF.
fn len_before_lf(bytes: &[u8]) -> usize
    ensures value { result ≡ position_or_len is_lf bytes.now }
    ensures within { result ≤ length bytes.now }
{
    bytes.iter().take_while(|byte| **byte != b'\n').count()
}

/// What a line of this length is refused for.
fn fault_of(has_bad_byte: bool, len: usize) -> Option<Why>
    ensures { result ≡ first_broken ((Why.BadByte, has_bad_byte) ∷ (Why.LongLine, nat_lt most_line_bytes len) ∷ []) }
{
    if has_bad_byte {
        Some(Why::BadByte)
    } else if len > MOST_LINE_BYTES {
        Some(Why::LongLine)
    } else {
        None
    }
}

/// What follows the first line, given its length.
fn after_line(bytes: &[u8], len: usize) -> &[u8]
    requires some { 0 < length bytes.now }
    requires len { len ≡ position_or_len is_lf bytes.now }
    ensures lines { lines bytes.now ≡ line_of bytes.now ∷ lines result.now }
    ensures shorter { length result.now < length bytes.now }
{
    if len < bytes.len() {
        &bytes[len + 1..]
    } else {
        &bytes[bytes.len()..]
    }
}

fn first_line(bytes: &[u8]) -> FirstLine<'_>
    requires { 0 < length bytes.now }
    ensures lines { lines bytes.now ≡ line_of bytes.now ∷ lines result.rest.now }
    ensures shorter { length result.rest.now < length bytes.now }
    ensures content { result.content.now ≡ content (line_of bytes.now) }
    ensures fault { result.fault ≡ line_fault (line_of bytes.now) }
    ensures word { result.has_word ≡ has_word (content (line_of bytes.now)) }
{
    let front = front_of(bytes);
    let (content, after) = bytes.split_at(front.len);
    let len = front.len + len_before_lf(after);
    FirstLine {
        content,
        fault: fault_of(front.has_bad_byte, len),
        has_word: front.has_word,
        rest: after_line(bytes, len),
    }
}

impl<'a> Lines<'a> {
    /// The lines of a file.
    pub fn new(bytes: &'a [u8]) -> Self
        ensures { result ≡ record { number = 1; lines = lines bytes.now } }
    {
        Lines {
            rest: bytes,
            number: 1,
        }
    }

    /// The number past the last line of the file.
    ///
    /// It goes over the lines that are left, so ask at the end, where none is.
    pub fn end_line(&self) -> u64
        ensures { result ≡ self.now.number + length self.now.lines }
    {
        let mut rest = self.rest;
        let mut number = self.number;
        while !rest.is_empty() {
            rest = after_line(rest, len_before_lf(rest));
            number += 1;
        }
        number
    }

    /// The next line that has a word, or the first line that is refused before one is found.
    ///
    /// A refused line isn't passed: each later call refuses it again.
    pub fn next(&mut self) -> Option<Result<Line<'a>, Refusal1>>
        ensures end { IfNone result (Passes self.old self.new × (self.new.lines ≡ [])) }
        ensures line { IfSome result (λ found. MatchResult found
            (Gives self.old self.new)
            (Refuses self.old self.new)) }
        ensures again { (refusal : Refusal1) → StopsAt self.old refusal
            → (result ≡ Some (Err refusal)) × (self.new ≡ self.old) }
    {
        while !self.rest.is_empty() {
            let first = first_line(self.rest);
            if let Some(why) = first.fault {
                return Some(Err(Refusal1 {
                    line: self.number,
                    why,
                }));
            }
            let number = self.number;
            self.rest = first.rest;
            self.number += 1;
            if first.has_word {
                return Some(Ok(Line {
                    content: first.content,
                    number,
                }));
            }
        }
        None
    }
}
