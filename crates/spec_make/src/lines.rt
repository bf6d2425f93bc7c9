//! The lines of a made specification, one by one. Each word is put with the space before it.

ghost use Rattle.std.specs.Prelude.{◌≡◌, ◌+◌, ◌<◌, ◌≤◌, ◌++◌, ◌∷◌, decimal, OnOk, OnErr};
ghost use Rattle.spelled_lines.specs.Lines.{spelled};
ghost use Rattle.spec_make.specs.Made.{name, resource_name, task_name, setting, resource_words, link_words, traffic_words, hops_words, task_words, message_words, map_words};
ghost use Rattle.spec_make.specs.declared.mesh.Ends.{Ends};

use crate::mesh::{Ends, goes_to_two};
use line_words::put_whole;
use std::alloc::{AllocError, Global};

/// Appends a space and a word.
fn put_word(text: &mut Vec<u8>, word: &[u8]) -> Result<(), AllocError>
    ensures { OnOk result (text.new.items ≡ text.old.items ++ 32 ∷ word.now) }
{
    text.push(b' ')?;
    text.extend_from_slice(word)
}

/// Appends a space and a name.
fn put_name(alloc: Global, letter: u8, i: u64, text: &mut Vec<u8>) -> Result<(), AllocError>
    ensures { OnOk result (text.new.items ≡ text.old.items ++ 32 ∷ name letter i) }
{
    text.push(b' ')?;
    text.push(letter)?;
    put_whole(alloc, text, i)
}

/// Appends a space and a word `KEY=N`.
fn put_setting(alloc: Global, key: &[u8], n: u64, text: &mut Vec<u8>) -> Result<(), AllocError>
    ensures { OnOk result (text.new.items ≡ text.old.items ++ 32 ∷ setting key.now n) }
{
    put_word(text, key)?;
    text.push(b'=')?;
    put_whole(alloc, text, n)
}

pub(crate) fn put_resource(
    alloc: Global,
    i: u64,
    cost: u64,
    text: &mut Vec<u8>,
) -> Result<(), AllocError>
    ensures { OnOk result (text.new.items ≡ text.old.items ++ spelled (resource_words i cost)) }
{
    text.extend_from_slice(b"resource")?;
    put_name(alloc, b'r', i, text)?;
    put_setting(alloc, b"cost", cost, text)?;
    text.push(b'\n')?;
    Ok(())
}

pub(crate) fn put_link(
    alloc: Global,
    e: u64,
    joined: Ends,
    cost: u64,
    text: &mut Vec<u8>,
) -> Result<(), AllocError>
    ensures { OnOk result (text.new.items ≡ text.old.items ++ spelled (link_words e joined cost)) }
{
    text.extend_from_slice(b"link")?;
    put_name(alloc, b'l', e, text)?;
    put_name(alloc, b'r', joined.first, text)?;
    put_word(text, b"--")?;
    put_name(alloc, b'r', joined.second, text)?;
    put_setting(alloc, b"cost", cost, text)?;
    text.push(b'\n')?;
    Ok(())
}

pub(crate) fn put_traffic(alloc: Global, e: u64, text: &mut Vec<u8>) -> Result<(), AllocError>
    ensures { OnOk result (text.new.items ≡ text.old.items ++ spelled (traffic_words e)) }
{
    text.extend_from_slice(b"traffic")?;
    put_name(alloc, b'l', e, text)?;
    put_setting(alloc, b"energy", 1, text)?;
    text.push(b'\n')?;
    Ok(())
}

pub(crate) fn put_hops(alloc: Global, side: u64, text: &mut Vec<u8>) -> Result<(), AllocError>
    requires { side ≤ 5 }
    ensures { OnOk result (text.new.items ≡ text.old.items ++ spelled (hops_words side)) }
{
    text.extend_from_slice(b"hops ")?;
    put_whole(alloc, text, 2 * side)?;
    text.push(b'\n')?;
    Ok(())
}

pub(crate) fn put_task(alloc: Global, i: u64, text: &mut Vec<u8>) -> Result<(), AllocError>
    ensures { OnOk result (text.new.items ≡ text.old.items ++ spelled (task_words i)) }
{
    text.extend_from_slice(b"task")?;
    put_name(alloc, b't', i, text)?;
    text.push(b'\n')?;
    Ok(())
}

pub(crate) fn put_message(
    alloc: Global,
    tasks: u64,
    i: u64,
    sender: u64,
    text: &mut Vec<u8>,
) -> Result<(), AllocError>
    requires { i < tasks }
    ensures { OnOk result (text.new.items ≡ text.old.items ++ spelled (message_words tasks i sender)) }
{
    text.extend_from_slice(b"message")?;
    put_name(alloc, b'm', i, text)?;
    put_name(alloc, b't', sender, text)?;
    put_word(text, b"->")?;
    put_name(alloc, b't', i, text)?;
    if goes_to_two(tasks, i) {
        put_name(alloc, b't', i + 1, text)?;
    }
    text.push(b'\n')?;
    Ok(())
}

pub(crate) fn put_map(
    alloc: Global,
    t: u64,
    r: u64,
    time: u64,
    energy: u64,
    text: &mut Vec<u8>,
) -> Result<(), AllocError>
    ensures { OnOk result (text.new.items ≡ text.old.items ++ spelled (map_words t r time energy)) }
{
    text.extend_from_slice(b"map")?;
    put_name(alloc, b't', t, text)?;
    put_name(alloc, b'r', r, text)?;
    put_setting(alloc, b"time", time, text)?;
    put_setting(alloc, b"energy", energy, text)?;
    text.push(b'\n')?;
    Ok(())
}
