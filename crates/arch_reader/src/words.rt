//! Words that are cut in two, and names that may not be declared.

ghost use Rattle.std.specs.Prelude.{◌≡◌, ◌<◌, ◌≤◌, length};
ghost use Rattle.std.specs.List.{list_all, prefix_len};
ghost use Rattle.line_words.specs.Rules.{said};
ghost use Rattle.arch_reader.specs.Words.{is_cut, key_of, after_mark, is_keyed, is_placed, are_keyed, are_placed, is_time, is_arrow, is_table_key, is_reserved};

/// Whether a word has a mark, at which it is cut.
pub(crate) fn is_cut(word: &str, mark: u8) -> bool
    ensures { result ≡ is_cut mark word.now }
{
    word.as_bytes().iter().any(|byte| *byte == mark)
}

/// What stands before and after the first mark of a word; all of it, and nothing, where it has none.
pub(crate) fn cut(word: &str, mark: char) -> (&str, &str)
    requires { mark < 128 }
    ensures key { result.0.now ≡ key_of mark word.now }
    ensures value { result.1.now ≡ after_mark mark word.now }
{
    match word.split_once(mark) {
        Some((key, value)) => (key, value),
        None => (word, ""),
    }
}

/// Whether a word is cut at `=`.
pub(crate) fn is_keyed(word: &str) -> bool
    ensures { result ≡ is_keyed word.now }
{
    is_cut(word, b'=')
}

/// Whether a word is cut at `@`.
fn is_placed(word: &str) -> bool
    ensures { result ≡ is_placed word.now }
{
    !is_cut(word, b'=') && is_cut(word, b'@')
}

fn all_keyed(words: &[&str]) -> bool
    ensures { result ≡ list_all (λ w. is_keyed w.now) words.now }
{
    words.iter().all(|word| is_keyed(word))
}

/// Whether all words are cut at `=`.
pub(crate) fn are_keyed(words: &[&str]) -> bool
    ensures { result ≡ are_keyed (said words.now) }
{
    all_keyed(words)
}

fn all_placed(words: &[&str]) -> bool
    ensures { result ≡ list_all (λ w. is_placed w.now) words.now }
{
    words.iter().all(|word| is_placed(word))
}

/// Whether all words are cut at `@`.
pub(crate) fn are_placed(words: &[&str]) -> bool
    ensures { result ≡ are_placed (said words.now) }
{
    all_placed(words)
}

fn count_keyed(words: &[&str]) -> usize
    ensures value { result ≡ prefix_len (λ w. is_keyed w.now) words.now }
    ensures within { result ≤ length words.now }
{
    words.iter().take_while(|word| is_keyed(word)).count()
}

/// How many words from the front on are cut at `=`.
pub(crate) fn keyed_len(words: &[&str]) -> usize
    ensures value { result ≡ prefix_len is_keyed (said words.now) }
    ensures within { result ≤ length words.now }
{
    count_keyed(words)
}

/// Whether a word is `time=D`, given that it is cut at `=`.
pub(crate) fn is_time(word: &str) -> bool
    ensures { result ≡ is_time word.now }
{
    let (key, _) = cut(word, '=');
    key == "time"
}

/// Whether a name is a mark of the grammar, which names nothing.
pub(crate) fn is_arrow(name: &str) -> bool
    ensures { result ≡ is_arrow name.now }
{
    name == "--" || name == "->" || name == "-"
}

/// Whether a name is a key of a table that names no objective.
pub(crate) fn is_table_key(name: &str) -> bool
    ensures { result ≡ is_table_key name.now }
{
    name == "time" || name == "valid" || name == "rows"
}

/// Whether an objective may not have this name.
pub(crate) fn is_reserved(name: &str) -> bool
    ensures { result ≡ is_reserved name.now }
{
    is_table_key(name) || is_cut(name, b'=') || is_cut(name, b'@')
}
