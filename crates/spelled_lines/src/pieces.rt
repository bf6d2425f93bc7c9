//! The lines of a text, each with its LF, and their words.

ghost use Rattle.std.specs.Prelude.{◌≡◌, ◌<◌, ◌≤◌, ◌∷◌, false, length, map, IfOk};
ghost use Rattle.std.specs.List.{position_or_len, list_any, slice_split};
ghost use Rattle.line_words.specs.Front.{is_lf};
ghost use Rattle.line_words.specs.Rules.{said};
ghost use Rattle.spelled_lines.specs.Lines.{pieces, is_bad, is_space, is_empty, lacks_lf, body_of, words_of};

use std::alloc::{AllocError, Global};

fn is_lf(byte: u8) -> bool
    ensures { result ≡ is_lf byte }
{
    byte == b'\n'
}

fn is_bad(byte: u8) -> bool
    ensures { result ≡ is_bad byte }
{
    !(byte == b'\n' || (32 <= byte && byte <= 126))
}

/// Whether a line has a byte that may not stand there.
pub fn has_bad_byte(piece: &[u8]) -> bool
    ensures { result ≡ list_any is_bad piece.now }
{
    piece.iter().any(|byte| is_bad(*byte))
}

fn has_lf(piece: &[u8]) -> bool
    ensures { result ≡ list_any is_lf piece.now }
{
    piece.iter().any(|byte| is_lf(*byte))
}

/// Whether a line has no LF.
pub fn lacks_lf(piece: &[u8]) -> bool
    ensures { result ≡ lacks_lf piece.now }
{
    !has_lf(piece)
}

/// How many bytes stand in front of the first LF.
fn len_before_lf(bytes: &[u8]) -> usize
    ensures value { result ≡ position_or_len is_lf bytes.now }
    ensures within { result ≤ length bytes.now }
{
    bytes.iter().take_while(|byte| **byte != b'\n').count()
}

/// The first line of a text, with its LF, and what follows it.
pub fn first_piece(bytes: &[u8]) -> (&[u8], &[u8])
    requires { 0 < length bytes.now }
    ensures pieces { pieces bytes.now ≡ result.0.now ∷ pieces result.1.now }
    ensures shorter { length result.1.now < length bytes.now }
{
    let len = len_before_lf(bytes);
    if len < bytes.len() {
        bytes.split_at(len + 1)
    } else {
        bytes.split_at(len)
    }
}

/// A line without its LF.
pub fn body_of(piece: &[u8]) -> &[u8]
    ensures { result.now ≡ body_of piece.now }
{
    &piece[..len_before_lf(piece)]
}

/// What stands between the spaces of a text.
fn split_words(alloc: Global, text: &str) -> Result<Vec<&str>, AllocError>
    ensures { IfOk result (λ v. said v.items ≡ slice_split is_space text.now) }
{
    text.split(' ').collect(alloc)
}

/// The words of a line.
pub fn words_of(alloc: Global, piece: &[u8]) -> Result<Vec<&str>, AllocError>
    requires { list_any is_bad piece.now ≡ false }
    ensures { IfOk result (λ v. said v.items ≡ words_of piece.now) }
{
    let Ok(text) = std::str::from_utf8(body_of(piece)) else {
        unreachable!();
    };
    split_words(alloc, text)
}

fn any_empty(words: &[&str]) -> bool
    ensures { result ≡ list_any (λ w. is_empty w.now) words.now }
{
    words.iter().any(|word| word.is_empty())
}

/// Whether a word of a line is empty: a space stands at an end, or beside another one.
pub fn has_empty(words: &[&str]) -> bool
    ensures { result ≡ list_any is_empty (map (λ w. w.now) words.now) }
{
    any_empty(words)
}
