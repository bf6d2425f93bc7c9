//! The parts of a made specification: the lines of all resources, links, tasks, messages and options, with their draws.

ghost use Rattle.std.specs.Prelude.{◌≡◌, ℕ, ◌+◌, ◌*◌, ◌^◌, ◌≤◌, ◌<◌, ◌++◌, ◌∷◌, [], length, filter, OnOk};
ghost use Rattle.std.specs.List.{flat_map, enumerate_from};
ghost use Rattle.spec_model.specs.Spec.{below};
ghost use Rattle.spelled_lines.specs.Lines.{spelled};
ghost use Rattle.genotype.specs.Draws.{draw, after_words};
ghost use Rattle.spec_make.specs.Streams.{stream_of, taking};
ghost use Rattle.spec_make.specs.Mesh.{resources_of, tasks_of, all_ends, has_message, messages_of};
ghost use Rattle.spec_make.specs.Made.{header_lines, resource_lines, link_lines, task_lines, message_lines, option_words, map_lines};
ghost use Rattle.spec_make.specs.declared.mesh.Ends.{Ends};

use crate::lines::{put_hops, put_link, put_map, put_message, put_resource, put_task, put_traffic};
use crate::mesh::{self, Ends};
use genotype::{Words, below};
use std::alloc::{AllocError, Global};

/// A number from `low` on, one of `count`, of the next word.
fn draw_from<W: Words>(low: u32, count: u32, words: &mut W) -> u64
    ensures number { result ≡ low + draw W.gives count words.old }
    ensures after { words.new ≡ W.after words.old }
{
    u64::from(low) + u64::from(below(count, words))
}

/// The number of an item among so many, of the next word.
fn draw_one<W: Words>(count: u64, words: &mut W) -> u64
    requires { count < 2 ^ 32 }
    ensures number { result ≡ draw W.gives count words.old }
    ensures small { result < 2 ^ 32 }
    ensures after { words.new ≡ W.after words.old }
{
    u64::from(below(count as u32, words))
}

pub(crate) fn put_header(text: &mut Vec<u8>) -> Result<(), AllocError>
    ensures { OnOk result (text.new.items ≡ text.old.items ++ flat_map spelled header_lines) }
{
    text.extend_from_slice(b"arch 1\nobjective cost\nobjective energy\n")
}

/// The line of a resource.
fn put_resource_of<W: Words>(
    alloc: Global,
    i: u64,
    words: &mut W,
    text: &mut Vec<u8>,
) -> Result<(), AllocError>
    ensures text { OnOk result (text.new.items ≡ text.old.items ++ flat_map spelled (resource_lines (stream_of W.gives W.after words.old) i)) }
    ensures words { OnOk result (words.new ≡ after_words W.after 1 words.old) }
{
    let cost = draw_from(10, 90, words);
    put_resource(alloc, i, cost, text)
}

pub(crate) fn put_resources<W: Words>(
    alloc: Global,
    side: u64,
    words: &mut W,
    text: &mut Vec<u8>,
) -> Result<(), AllocError>
    requires { side ≤ 5 }
    ensures text { OnOk result (text.new.items ≡ text.old.items ++ flat_map spelled (taking 1 resource_lines (stream_of W.gives W.after words.old) (below (resources_of side)))) }
    ensures words { OnOk result (words.new ≡ after_words W.after (resources_of side) words.old) }
{
    for i in 0..mesh::resources_of(side) {
        put_resource_of(alloc, i, words, text)?;
    }
    Ok(())
}

/// The two lines of a link.
fn put_link_of<W: Words>(
    alloc: Global,
    e: u64,
    joined: Ends,
    words: &mut W,
    text: &mut Vec<u8>,
) -> Result<(), AllocError>
    ensures text { OnOk result (text.new.items ≡ text.old.items ++ flat_map spelled (link_lines (stream_of W.gives W.after words.old) (e, joined))) }
    ensures words { OnOk result (words.new ≡ after_words W.after 1 words.old) }
{
    let cost = draw_from(1, 9, words);
    put_link(alloc, e, joined, cost, text)?;
    put_traffic(alloc, e, text)
}

/// The lines of these links, numbered in their order.
fn put_numbered<W: Words>(
    alloc: Global,
    all: &[Ends],
    words: &mut W,
    text: &mut Vec<u8>,
) -> Result<(), AllocError>
    ensures text { OnOk result (text.new.items ≡ text.old.items ++ flat_map spelled (taking 1 link_lines (stream_of W.gives W.after words.old) (enumerate_from 0 all.now))) }
    ensures words { OnOk result (words.new ≡ after_words W.after (length all.now) words.old) }
{
    for (e, joined) in all.iter().enumerate() {
        put_link_of(alloc, e as u64, *joined, words, text)?;
    }
    Ok(())
}

pub(crate) fn put_links<W: Words>(
    alloc: Global,
    side: u64,
    words: &mut W,
    text: &mut Vec<u8>,
) -> Result<(), AllocError>
    requires some { 2 ≤ side }
    requires few { side ≤ 5 }
    ensures text { OnOk result (text.new.items ≡ text.old.items ++ flat_map spelled (taking 1 link_lines (stream_of W.gives W.after words.old) (enumerate_from 0 (all_ends side)))) }
    ensures words { OnOk result (words.new ≡ after_words W.after (length (all_ends side)) words.old) }
{
    let all = mesh::all_ends(alloc, side)?;
    put_numbered(alloc, &all, words, text)
}

pub(crate) fn put_tasks(alloc: Global, side: u64, text: &mut Vec<u8>) -> Result<(), AllocError>
    requires some { 2 ≤ side }
    requires few { side ≤ 5 }
    ensures { OnOk result (text.new.items ≡ text.old.items ++ flat_map spelled (task_lines side)) }
{
    put_hops(alloc, side, text)?;
    for i in 0..mesh::tasks_of(side) {
        put_task(alloc, i, text)?;
    }
    Ok(())
}

/// The line of the message that is named for a task, where there is one.
fn put_message_of<W: Words>(
    alloc: Global,
    tasks: u64,
    i: u64,
    words: &mut W,
    text: &mut Vec<u8>,
) -> Result<(), AllocError>
    requires there { i < tasks }
    requires few { tasks ≤ 46 }
    ensures text { OnOk result (text.new.items ≡ text.old.items ++ flat_map spelled (taking 1 (message_lines tasks) (stream_of W.gives W.after words.old) (filter has_message (i ∷ [])))) }
    ensures words { OnOk result (words.new ≡ after_words W.after (length (filter has_message (i ∷ []))) words.old) }
{
    if !mesh::has_message(i) {
        return Ok(());
    }
    let sender = draw_one(i, words);
    put_message(alloc, tasks, i, sender, text)
}

pub(crate) fn put_messages<W: Words>(
    alloc: Global,
    side: u64,
    words: &mut W,
    text: &mut Vec<u8>,
) -> Result<(), AllocError>
    requires some { 2 ≤ side }
    requires few { side ≤ 5 }
    ensures text { OnOk result (text.new.items ≡ text.old.items ++ flat_map spelled (taking 1 (message_lines (tasks_of side)) (stream_of W.gives W.after words.old) (messages_of (tasks_of side)))) }
    ensures words { OnOk result (words.new ≡ after_words W.after (length (messages_of (tasks_of side))) words.old) }
{
    let tasks = mesh::tasks_of(side);
    for i in 1..tasks {
        put_message_of(alloc, tasks, i, words, text)?;
    }
    Ok(())
}

/// The line of an option.
fn put_option<W: Words>(
    alloc: Global,
    t: u64,
    r: u64,
    words: &mut W,
    text: &mut Vec<u8>,
) -> Result<(), AllocError>
    ensures text { OnOk result (text.new.items ≡ text.old.items ++ spelled (option_words (stream_of W.gives W.after words.old) 0 t r)) }
    ensures words { OnOk result (words.new ≡ after_words W.after 2 words.old) }
{
    let time = draw_from(1, 20, words);
    let energy = draw_from(1, 50, words);
    put_map(alloc, t, r, time, energy, text)
}

/// The lines of a task's options.
fn put_maps_of<W: Words>(
    alloc: Global,
    side: u64,
    t: u64,
    words: &mut W,
    text: &mut Vec<u8>,
) -> Result<(), AllocError>
    requires some { 2 ≤ side }
    requires few { side ≤ 5 }
    ensures text { OnOk result (text.new.items ≡ text.old.items ++ flat_map spelled (map_lines side (stream_of W.gives W.after words.old) t)) }
    ensures words { OnOk result (words.new ≡ after_words W.after 7 words.old) }
{
    let resources = mesh::resources_of(side);
    let first = draw_one(resources, words);
    put_option(alloc, t, first, words, text)?;
    put_option(alloc, t, (first + 1) % resources, words, text)?;
    put_option(alloc, t, (first + side) % resources, words, text)?;
    Ok(())
}

pub(crate) fn put_maps<W: Words>(
    alloc: Global,
    side: u64,
    words: &mut W,
    text: &mut Vec<u8>,
) -> Result<(), AllocError>
    requires some { 2 ≤ side }
    requires few { side ≤ 5 }
    ensures { OnOk result (text.new.items ≡ text.old.items ++ flat_map spelled (taking 7 (map_lines side) (stream_of W.gives W.after words.old) (below (tasks_of side)))) }
{
    for t in 0..mesh::tasks_of(side) {
        put_maps_of(alloc, side, t, words, text)?;
    }
    Ok(())
}
