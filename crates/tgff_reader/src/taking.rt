//! Takes a line: what it states is added to what the lines before it state, unless it breaks a rule.

ghost use Rattle.std.specs.Prelude.{◌≡◌, ◌≤◌, ◌+◌, length, true, false, None, IfOk, OnOk, IfErr};
ghost use Rattle.line_words.specs.Rules.{first_broken, said};
ghost use Rattle.line_words.specs.Reads.{Stops};
ghost use Rattle.tgff_reader.specs.Words.{first, is_at};
ghost use Rattle.tgff_reader.specs.Lines.{is_opening, is_closing, block_name, block_index};
ghost use Rattle.tgff_reader.specs.Faults as tests;
ghost use Rattle.tgff_reader.specs.After as states;
ghost use Rattle.tgff_reader.specs.Taking as takes;
ghost use Rattle.tgff_reader.specs.declared.state.Open.TheVariants as blocks_in;

use crate::faults::{
    arc_fault, arc_words_fault, deadline_fault, opening_fault, period_fault, place_of, task_fault,
};
use crate::file::{Row, Table, TgffArc, TgffDeadline, TgffTask};
use crate::keyword::{Keyword, keyword_of};
use crate::open_graph::OpenGraph;
use crate::rows::Rows;
use crate::shapes::{block_index, block_name, is_closing, is_graph_name, is_opening};
use crate::state::{Blocks, Open, State};
use crate::words::{first, is_at};
use file_bricks::{decimal_in, text_of, texts_of, whole_in, word_at};
use line_words::{Stop, Why};
use std::alloc::{AllocError, Global};
use std::mem::replace;

/// A block that is opened, and has nothing yet.
fn opened(alloc: Global, name: &str, index: u64) -> Result<Open, AllocError>
    ensures { IfOk result (λ current. current ≡ states.opened name.now index) }
{
    if is_graph_name(name) {
        return Ok(Open::InGraph(OpenGraph::new(alloc, index)));
    }
    Ok(Open::InTable(Table {
        name: text_of(alloc, name)?,
        index,
        rows: Rows::none(alloc),
    }))
}

/// The block that a line opens.
fn opening(alloc: Global, blocks: &Blocks, words: &[&str]) -> Result<Open, Stop>
    requires { is_opening (said words.now) ≡ true }
    ensures opens { IfOk result (takes.Opens blocks.now (said words.now)) }
    ensures stops { IfErr result (λ stop. Stops stop (first_broken (tests.outside_tests blocks.now (said words.now)))) }
{
    let name = block_name(words);
    let index = block_index(words);
    if let Some(why) = opening_fault(blocks, name, index) {
        return Err(Stop::Broken(why));
    }
    let index = match index {
        Ok(index) => index,
        Err(_) => 0,
    };
    Ok(opened(alloc, name, index)?)
}

/// What is open after a line outside a block.
fn outside(alloc: Global, blocks: &Blocks, words: &[&str]) -> Result<Open, Stop>
    ensures opens { IfOk result (takes.Opens blocks.now (said words.now)) }
    ensures stops { IfErr result (λ stop. Stops stop (first_broken (tests.outside_tests blocks.now (said words.now)))) }
{
    if is_opening(words) {
        return opening(alloc, blocks, words);
    }
    if is_closing(words) {
        return Err(Stop::Broken(Why::StrayClose));
    }
    Ok(Open::Outside)
}

/// Takes the words of a period.
fn take_period(graph: &mut OpenGraph, words: &[&str]) -> Result<(), Stop>
    ensures fine { OnOk result (first_broken (tests.period_tests (said words.now)) ≡ None) }
    ensures taken { OnOk result (graph.new ≡ states.with_period graph.old (said words.now)) }
    ensures stops { IfErr result (λ stop. Stops stop (first_broken (tests.period_tests (said words.now)))) }
{
    if let Some(why) = period_fault(words) {
        return Err(Stop::Broken(why));
    }
    graph.set_period(decimal_in(word_at(words, 1)));
    Ok(())
}

/// Takes the words of a task.
fn take_task(
    alloc: Global,
    blocks: &mut Blocks,
    graph: &mut OpenGraph,
    words: &[&str],
) -> Result<(), Stop>
    requires { length graph.old.tasks ≤ blocks.old.tasks }
    ensures fine { OnOk result (first_broken (tests.task_tests blocks.old graph.old (said words.now)) ≡ None) }
    ensures taken { OnOk result (graph.new ≡ states.with_task graph.old (said words.now)) }
    ensures counted { OnOk result (blocks.new ≡ record blocks.old { tasks = blocks.old.tasks + 1 }) }
    ensures stops { IfErr result (λ stop. Stops stop (first_broken (tests.task_tests blocks.old graph.old (said words.now)))) }
{
    if let Some(why) = task_fault(blocks, graph.graph(), words) {
        return Err(Stop::Broken(why));
    }
    let task = TgffTask {
        name: text_of(alloc, word_at(words, 1))?,
        kind: whole_in(word_at(words, 3)),
    };
    graph.add_task(alloc, task)?;
    blocks.tasks += 1;
    Ok(())
}

/// Takes the words of an arc.
fn take_arc(
    alloc: Global,
    blocks: &mut Blocks,
    graph: &mut OpenGraph,
    words: &[&str],
) -> Result<(), Stop>
    ensures fine { OnOk result (first_broken (tests.arc_tests blocks.old graph.old (said words.now)) ≡ None) }
    ensures taken { OnOk result (graph.new ≡ states.with_arc graph.old (said words.now)) }
    ensures counted { OnOk result (blocks.new ≡ record blocks.old { arcs = blocks.old.arcs + 1 }) }
    ensures stops { IfErr result (λ stop. Stops stop (first_broken (tests.arc_tests blocks.old graph.old (said words.now)))) }
{
    if let Some(why) = arc_words_fault(graph.graph(), words) {
        return Err(Stop::Broken(why));
    }
    let from = place_of(graph.graph().tasks.list(), word_at(words, 3));
    let to = place_of(graph.graph().tasks.list(), word_at(words, 5));
    let reached = graph.reached(alloc, to)?;
    if let Some(why) = arc_fault(blocks, reached.has(from), words) {
        return Err(Stop::Broken(why));
    }
    let arc = TgffArc {
        name: text_of(alloc, word_at(words, 1))?,
        from,
        to,
        kind: whole_in(word_at(words, 7)),
    };
    graph.add_arc(arc, &reached)?;
    blocks.arcs += 1;
    Ok(())
}

/// Takes the words of a deadline.
fn take_deadline(graph: &mut OpenGraph, hard: bool, words: &[&str]) -> Result<(), Stop>
    ensures fine { OnOk result (first_broken (tests.deadline_tests graph.old (said words.now)) ≡ None) }
    ensures taken { OnOk result (graph.new ≡ states.with_deadline graph.old hard (said words.now)) }
    ensures stops { IfErr result (λ stop. Stops stop (first_broken (tests.deadline_tests graph.old (said words.now)))) }
{
    if let Some(why) = deadline_fault(graph.graph(), words) {
        return Err(Stop::Broken(why));
    }
    let deadline = TgffDeadline {
        task: place_of(graph.graph().tasks.list(), word_at(words, 3)),
        at: decimal_in(word_at(words, 5)),
        hard,
    };
    graph.add_deadline(deadline)?;
    Ok(())
}

/// Takes a line of a task graph by its keyword. A line without one is passed over.
fn take_known(
    alloc: Global,
    blocks: &mut Blocks,
    graph: &mut OpenGraph,
    words: &[&str],
    keyword: Option<Keyword>,
) -> Result<(), Stop>
    requires { length graph.old.tasks ≤ blocks.old.tasks }
    ensures takes { OnOk result (takes.TakesKnown blocks.old blocks.new graph.old graph.new (said words.now) keyword) }
    ensures stops { IfErr result (λ stop. Stops stop (first_broken (tests.known_tests blocks.old graph.old (said words.now) keyword))) }
{
    match keyword {
        None => Ok(()),
        Some(Keyword::Period) => take_period(graph, words),
        Some(Keyword::Task) => take_task(alloc, blocks, graph, words),
        Some(Keyword::Arc) => take_arc(alloc, blocks, graph, words),
        Some(Keyword::HardDeadline) => take_deadline(graph, true, words),
        Some(Keyword::SoftDeadline) => take_deadline(graph, false, words),
    }
}

/// Takes a row of a table.
fn take_row(alloc: Global, table: &mut Table, words: &[&str]) -> Result<(), AllocError>
    ensures { OnOk result (table.new ≡ states.with_row table.old (said words.now)) }
{
    let row = Row {
        words: texts_of(alloc, words)?,
    };
    table.rows.push(row)
}

/// Takes a line in a block that neither closes it nor opens another.
fn take_inside(alloc: Global, state: &mut State, words: &[&str]) -> Result<(), Stop>
    requires room { takes.HasRoom state.old.current state.old.blocks }
    requires open { tests.is_open state.old.current ≡ true }
    requires no_close { is_closing (said words.now) ≡ false }
    requires no_block { is_at (first (said words.now)) ≡ false }
    ensures takes { OnOk result (takes.Takes state.old state.new (said words.now)) }
    ensures stops { IfErr result (λ stop. Stops stop (first_broken (tests.tests state.old (said words.now)))) }
{
    let State { current, blocks } = state;
    match current {
        Open::Outside => Ok(()),
        Open::InGraph(graph) => take_known(alloc, blocks, graph, words, keyword_of(first(words))),
        Open::InTable(table) => Ok(take_row(alloc, table, words)?),
    }
}

/// Closes the block that is open.
fn close(alloc: Global, state: &mut State) -> Result<(), AllocError>
    ensures { OnOk result (state.new ≡ record { current = blocks_in.Outside; blocks = takes.closed_with state.old.current state.old.blocks }) }
{
    match replace(&mut state.current, Open::Outside) {
        Open::Outside => Ok(()),
        Open::InGraph(graph) => state.blocks.graphs.push(graph.close()),
        Open::InTable(table) => {
            let table = table.close(alloc)?;
            state.blocks.tables.push(alloc, table)
        }
    }
}

/// Takes a line.
pub(crate) fn take(alloc: Global, state: &mut State, words: &[&str]) -> Result<(), Stop>
    requires { takes.HasRoom state.old.current state.old.blocks }
    ensures takes { OnOk result (takes.Takes state.old state.new (said words.now)) }
    ensures stops { IfErr result (λ stop. Stops stop (first_broken (tests.tests state.old (said words.now)))) }
{
    if !state.is_open() {
        state.current = outside(alloc, &state.blocks, words)?;
        return Ok(());
    }
    if is_closing(words) {
        close(alloc, state)?;
        return Ok(());
    }
    if is_at(first(words)) {
        return Err(Stop::Broken(Why::Unclosed));
    }
    take_inside(alloc, state, words)
}
