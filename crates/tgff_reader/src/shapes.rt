//! What a line's words are in and outside a block.

ghost use Rattle.std.specs.Prelude.{◌≡◌, true, IfOk, ◌<◌, ◌^◌};
ghost use Rattle.line_words.specs.Rules.{said};
ghost use Rattle.tgff_reader.specs.Lines.{is_opening, block_name, block_index, is_graph_name, is_closing, is_period_shape, is_task_shape, is_arc_shape, is_deadline_shape};

use crate::words::{after_at, first, is_at, last};
use file_bricks::word_at;
use line_words::{NumberFault, whole};

/// Whether a line opens a block, where none is open.
pub(crate) fn is_opening(words: &[&str]) -> bool
    ensures { result ≡ is_opening (said words.now) }
{
    if !is_at(first(words)) {
        return false;
    }
    last(words) == "{"
}

/// The name of the block that a line opens.
pub(crate) fn block_name<'a>(words: &[&'a str]) -> &'a str
    requires { is_opening (said words.now) ≡ true }
    ensures { result.now ≡ block_name (said words.now) }
{
    after_at(first(words))
}

/// The index of the block that a line opens.
pub(crate) fn block_index(words: &[&str]) -> Result<u64, NumberFault>
    ensures { result ≡ block_index (said words.now) }
{
    if words.len() > 2 {
        whole(word_at(words, 1))
    } else {
        Ok(0)
    }
}

/// Whether a block of this name is a task graph.
pub(crate) fn is_graph_name(name: &str) -> bool
    ensures { result ≡ is_graph_name name.now }
{
    name == "TASK_GRAPH"
}

/// Whether a line closes a block.
pub(crate) fn is_closing(words: &[&str]) -> bool
    ensures { result ≡ is_closing (said words.now) }
{
    first(words) == "}"
}

/// `PERIOD p`
pub(crate) fn is_period_shape(words: &[&str]) -> bool
    ensures { result ≡ is_period_shape (said words.now) }
{
    words.len() >= 2
}

/// `TASK name TYPE k`
pub(crate) fn is_task_shape(words: &[&str]) -> bool
    ensures { result ≡ is_task_shape (said words.now) }
{
    if words.len() < 4 {
        return false;
    }
    word_at(words, 2) == "TYPE"
}

/// `ARC name FROM a TO b TYPE k`
pub(crate) fn is_arc_shape(words: &[&str]) -> bool
    ensures { result ≡ is_arc_shape (said words.now) }
{
    if words.len() < 8 {
        return false;
    }
    if word_at(words, 2) != "FROM" {
        return false;
    }
    if word_at(words, 4) != "TO" {
        return false;
    }
    word_at(words, 6) == "TYPE"
}

/// `HARD_DEADLINE name ON task AT time`, or `SOFT_DEADLINE`
pub(crate) fn is_deadline_shape(words: &[&str]) -> bool
    ensures { result ≡ is_deadline_shape (said words.now) }
{
    if words.len() < 6 {
        return false;
    }
    if word_at(words, 2) != "ON" {
        return false;
    }
    word_at(words, 4) == "AT"
}
