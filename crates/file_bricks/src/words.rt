//! The words of a line.

ghost use Rattle.std.specs.Prelude.{◌≡◌, All, IfOk, map};
ghost use Rattle.line_words.specs.Text.{words_in};
ghost use Rattle.line_words.specs.Rules.{texts, said};
ghost use Rattle.file_bricks.specs.Words.{word_at, IsWord, is_headed, keyword_in, entry_said};

use line_words::Line;
use std::alloc::{AllocError, Global};

/// The words of a line, in their order.
pub fn words_of<'a>(alloc: Global, line: &Line<'a>) -> Result<Vec<&'a str>, AllocError>
    ensures words { IfOk result (λ found. said found.items ≡ texts (words_in line.now.content)) }
    ensures plain { All IsWord (texts (words_in line.now.content)) }
{
    let mut found = Vec::new(alloc);
    let mut words = line.words();
    'each: while let Some(word) = words.next() {
        found.push(word.text)?;
    }
    Ok(found)
}

/// The word at a place, from 0; an empty one past the last.
pub fn word_at<'a>(words: &[&'a str], place: usize) -> &'a str
    ensures { result.now ≡ word_at (said words.now) place }
{
    match words.get(place) {
        Some(word) => word,
        None => "",
    }
}

/// Whether words are a file's first statement: the kind of the file, and the version of its form.
pub fn is_headed(words: &[&str], kind: &str, version: &str) -> bool
    ensures { result ≡ is_headed kind.now version.now (said words.now) }
{
    match words {
        [first, second] => *first == kind && *second == version,
        _ => false,
    }
}

/// What a table of keywords has for a word, at the first entry with the word.
pub fn keyword_in<K: Copy>(table: &[(&str, K)], word: &str) -> Option<K>
    ensures { result ≡ keyword_in (map entry_said table.now) word.now }
{
    let mut left = table;
    'entries: while let [(first, keyword), more @ ..] = left {
        if *first == word {
            return Some(*keyword);
        }
        left = more;
    }
    None
}
