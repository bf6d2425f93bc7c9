//! The names of files on a command line.

ghost use Rattle.std.specs.Prelude.{◌≡◌, map, option_map, IfOk, string_bytes};
ghost use Rattle.run_words.specs.Names.{is_apart, is_dash, is_file, is_file_if_named, is_name};

use std::alloc::{AllocError, Global};

/// Whether a word stands for no file.
fn is_dash(text: &str) -> bool
    ensures { result ≡ is_dash text.now }
{
    text == "-"
}

/// Whether a word is a name, which may be `-`.
pub(crate) fn is_name(text: &str) -> bool
    ensures { result ≡ is_name text.now }
{
    text.len() > 0
}

/// Whether a word is the name of a file.
pub(crate) fn is_file(text: &str) -> bool
    ensures { result ≡ is_file text.now }
{
    if !is_name(text) {
        return false;
    }
    !is_dash(text)
}

/// Whether a word is the name of a file, where one is given.
pub(crate) fn is_file_if_named(text: Option<&str>) -> bool
    ensures { result ≡ is_file_if_named (option_map (λ s. s.now) text.entry) }
{
    match text {
        None => true,
        Some(name) => is_file(name),
    }
}

/// Whether a file that is written is none of the others of the line.
pub(crate) fn is_apart(text: Option<&str>, others: &[&str]) -> bool
    ensures { result ≡ is_apart (option_map (λ s. s.now) text.entry) (map (λ s. s.now) others.now) }
{
    match text {
        None => true,
        Some(name) => !others.contains(&name),
    }
}

/// A text of its own, where one is given.
pub(crate) fn owned(alloc: Global, text: Option<&str>) -> Result<Option<String>, AllocError>
    ensures { IfOk result (λ s. option_map string_bytes s ≡ option_map (λ s. s.now) text.entry) }
{
    match text {
        None => Ok(None),
        Some(text) => Ok(Some(String::from_str(alloc, text)?)),
    }
}
