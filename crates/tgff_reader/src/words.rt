//! The words of a line, by their places.

ghost use Rattle.std.specs.Prelude.{◌≡◌, drop, true};
ghost use Rattle.line_words.specs.Rules.{said};
ghost use Rattle.tgff_reader.specs.Words.{first, last, is_at};

use file_bricks::word_at;

/// The first word.
pub(crate) fn first<'a>(words: &[&'a str]) -> &'a str
    ensures { result.now ≡ first (said words.now) }
{
    word_at(words, 0)
}

/// The last word.
pub(crate) fn last<'a>(words: &[&'a str]) -> &'a str
    ensures { result.now ≡ last (said words.now) }
{
    word_at(words, words.len().saturating_sub(1))
}

/// Whether a word begins with `@`.
pub(crate) fn is_at(word: &str) -> bool
    ensures { result ≡ is_at word.now }
{
    match word.as_bytes().first() {
        Some(first) => *first == b'@',
        None => false,
    }
}

/// What follows the `@` of a word.
pub(crate) fn after_at(word: &str) -> &str
    requires { is_at word.now ≡ true }
    ensures { result.now ≡ drop 1 word.now }
{
    match word.strip_prefix('@') {
        Some(rest) => rest,
        None => word,
    }
}
