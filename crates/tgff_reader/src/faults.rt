//! What a line is refused for, after the lines before it.
//!
//! There is a function for each kind of line. Each tries the rules in the order of their numbers.

ghost use Rattle.std.specs.Prelude.{◌≡◌, ◌<◌, ◌≤◌, length, Result};
ghost use Rattle.std.specs.List.{list_any};
ghost use Rattle.line_words.specs.Rules.{first_broken, said};
ghost use Rattle.tgff_reader.specs.Faults as tests;

use crate::file::{Graph, TgffArc, TgffTask};
use crate::shapes::{
    is_arc_shape, is_deadline_shape, is_graph_name, is_period_shape, is_task_shape,
};
use crate::state::Blocks;
use file_bricks::{is_bad_decimal, is_bad_whole, is_big_decimal, is_big_whole, word_at};
use line_words::{MOST_NAME_BYTES, NumberFault, What, Why};
use spec_model::{MOST_MESSAGES, MOST_TASKS};

/// Where the task with a name stands; past the last one where there is none.
pub(crate) fn place_of(tasks: &[TgffTask], name: &str) -> usize
    ensures value { result ≡ tests.place_of tasks.now name.now }
    ensures within { result ≤ length tasks.now }
{
    tasks
        .iter()
        .take_while(|task| task.name.list() != name)
        .count()
}

/// Whether no task has a name.
fn is_unknown(tasks: &[TgffTask], name: &str) -> bool
    ensures { result ≡ tests.is_unknown tasks.now name.now }
{
    place_of(tasks, name) >= tasks.len()
}

/// Whether no task has the name of an arc's first task, or of its second one.
fn has_unknown_end(tasks: &[TgffTask], words: &[&str]) -> bool
    ensures { result ≡ tests.has_unknown_end tasks.now (said words.now) }
{
    is_unknown(tasks, word_at(words, 3)) || is_unknown(tasks, word_at(words, 5))
}

/// Whether a task has a name.
fn has_task(tasks: &[TgffTask], name: &str) -> bool
    ensures { result ≡ list_any (tests.is_task name.now) tasks.now }
{
    tasks.iter().any(|task| task.name.list() == name)
}

/// Whether an arc has a name.
fn has_arc(arcs: &[TgffArc], name: &str) -> bool
    ensures { result ≡ list_any (tests.is_arc name.now) arcs.now }
{
    arcs.iter().any(|arc| arc.name.list() == name)
}

/// Whether a block of a name and an index is there.
fn has_block(blocks: &Blocks, name: &str, index: u64) -> bool
    ensures { result ≡ tests.has_block blocks.now name.now index }
{
    if is_graph_name(name) {
        blocks.graphs.has(index)
    } else {
        blocks.tables.has(name, index)
    }
}

/// What the index of a block that is opened is refused for.
fn index_fault(blocks: &Blocks, name: &str, index: Result<u64, NumberFault>) -> Option<Why>
    requires { 0 < length name.now }
    ensures { result ≡ first_broken (tests.opening_tests blocks.now name.now index) }
{
    match index {
        Ok(index) => {
            if has_block(blocks, name, index) {
                Some(Why::RepeatedName)
            } else {
                None
            }
        }
        Err(NumberFault::BadNumber) => Some(Why::BadNumber),
        Err(NumberFault::TooBig) => Some(Why::TooBig),
    }
}

/// What a line that opens a block is refused for.
pub(crate) fn opening_fault(
    blocks: &Blocks,
    name: &str,
    index: Result<u64, NumberFault>,
) -> Option<Why>
    ensures { result ≡ first_broken (tests.opening_tests blocks.now name.now index) }
{
    if name.is_empty() {
        return Some(Why::BadStatement);
    }
    index_fault(blocks, name, index)
}

/// What a period is refused for.
pub(crate) fn period_fault(words: &[&str]) -> Option<Why>
    ensures { result ≡ first_broken (tests.period_tests (said words.now)) }
{
    if !is_period_shape(words) {
        return Some(Why::BadStatement);
    }
    if is_bad_decimal(word_at(words, 1)) {
        return Some(Why::BadNumber);
    }
    if is_big_decimal(word_at(words, 1)) {
        return Some(Why::TooBig);
    }
    None
}

/// Whether a name is too long.
fn is_long(name: &str) -> bool
    ensures { result ≡ tests.is_long name.now }
{
    name.len() > MOST_NAME_BYTES
}

/// What a task is refused for.
pub(crate) fn task_fault(blocks: &Blocks, graph: &Graph, words: &[&str]) -> Option<Why>
    ensures { result ≡ first_broken (tests.task_tests blocks.now graph.now (said words.now)) }
{
    let name = word_at(words, 1);
    let kind = word_at(words, 3);
    if !is_task_shape(words) {
        return Some(Why::BadStatement);
    }
    if is_bad_whole(kind) {
        return Some(Why::BadNumber);
    }
    if has_task(graph.tasks.list(), name) {
        return Some(Why::RepeatedName);
    }
    if is_big_whole(kind) {
        return Some(Why::TooBig);
    }
    if is_long(name) {
        return Some(Why::Limit(What::NameBytes));
    }
    if blocks.tasks >= MOST_TASKS {
        return Some(Why::Limit(What::Tasks));
    }
    None
}

/// What the words of an arc are refused for, without a look at the cycles of the graph.
pub(crate) fn arc_words_fault(graph: &Graph, words: &[&str]) -> Option<Why>
    ensures { result ≡ first_broken (tests.arc_word_tests graph.now (said words.now)) }
{
    let kind = word_at(words, 7);
    if !is_arc_shape(words) {
        return Some(Why::BadStatement);
    }
    if is_bad_whole(kind) {
        return Some(Why::BadNumber);
    }
    if has_unknown_end(graph.tasks.list(), words) {
        return Some(Why::UnknownName);
    }
    if has_arc(graph.arcs.list(), word_at(words, 1)) {
        return Some(Why::RepeatedName);
    }
    if is_big_whole(kind) {
        return Some(Why::TooBig);
    }
    None
}

/// What an arc is refused for past that, where it is known whether it closes a cycle.
pub(crate) fn arc_fault(blocks: &Blocks, closes: bool, words: &[&str]) -> Option<Why>
    ensures { result ≡ first_broken (tests.arc_graph_tests blocks.now closes (said words.now)) }
{
    if closes {
        return Some(Why::Cyclic);
    }
    if is_long(word_at(words, 1)) {
        return Some(Why::Limit(What::NameBytes));
    }
    if blocks.arcs >= MOST_MESSAGES {
        return Some(Why::Limit(What::Messages));
    }
    None
}

/// What a deadline is refused for.
pub(crate) fn deadline_fault(graph: &Graph, words: &[&str]) -> Option<Why>
    ensures { result ≡ first_broken (tests.deadline_tests graph.now (said words.now)) }
{
    if !is_deadline_shape(words) {
        return Some(Why::BadStatement);
    }
    if is_bad_decimal(word_at(words, 5)) {
        return Some(Why::BadNumber);
    }
    if is_unknown(graph.tasks.list(), word_at(words, 3)) {
        return Some(Why::UnknownName);
    }
    if is_big_decimal(word_at(words, 5)) {
        return Some(Why::TooBig);
    }
    None
}
