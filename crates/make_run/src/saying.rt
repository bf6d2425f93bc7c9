//! What is said of a made specification and of its exploration.

ghost use Rattle.std.specs.Prelude.{◌≡◌, ◌∷◌, ◌++◌, length, decimal, OnOk};
ghost use Rattle.std.specs.List.{flat_map};
ghost use Rattle.spelled_lines.specs.Lines.{spelled};
ghost use Rattle.result_text.specs.Spelling.{vector_words};
ghost use Rattle.explore_run.specs.Saying.{last_words};
ghost use Rattle.make_run.specs.Saying.{count_words, made_words, run_text, vector_text};

use evo_explore::{End, Run};
use front_archive::Member;
use line_words::put_whole;
use spec_graph::Spec;
use std::alloc::{AllocError, Global};

/// Appends a space and a number.
fn put_number(alloc: Global, number: u64, out: &mut Vec<u8>) -> Result<(), AllocError>
    ensures { OnOk result (out.new.items ≡ out.old.items ++ 32 ∷ decimal number) }
{
    out.push(b' ')?;
    put_whole(alloc, out, number)
}

/// Appends what is counted, and how many there are.
fn put_count(
    alloc: Global,
    counted: &str,
    count: usize,
    out: &mut Vec<u8>,
) -> Result<(), AllocError>
    ensures { OnOk result (out.new.items ≡ out.old.items ++ 32 ∷ (counted.now ++ 32 ∷ decimal count)) }
{
    out.push(b' ')?;
    out.extend_from_slice(counted.as_bytes())?;
    put_number(alloc, count as u64, out)
}

/// Appends from which number a specification is made, and how much it states.
pub(crate) fn put_made(
    alloc: Global,
    number: u64,
    spec: &Spec,
    out: &mut Vec<u8>,
) -> Result<(), AllocError>
    ensures { OnOk result (out.new.items ≡ out.old.items ++ spelled (made_words number spec.now)) }
{
    out.extend_from_slice(b"made")?;
    put_number(alloc, number, out)?;
    put_count(alloc, "tasks", spec.tasks(), out)?;
    put_count(alloc, "messages", spec.messages(), out)?;
    put_count(alloc, "resources", spec.resources(), out)?;
    put_count(alloc, "links", spec.links(), out)?;
    put_count(alloc, "options", spec.options(), out)?;
    out.push(b'\n')?;
    Ok(())
}

/// Appends the line of a vector.
fn put_vector(alloc: Global, vector: &[u64], out: &mut Vec<u8>) -> Result<(), AllocError>
    ensures { OnOk result (out.new.items ≡ out.old.items ++ spelled (vector_words vector.now)) }
{
    out.extend_from_slice(b"vector")?;
    for number in vector {
        put_number(alloc, *number, out)?;
    }
    out.push(b'\n')?;
    Ok(())
}

/// Appends the line of a member's vector.
fn put_member(alloc: Global, member: &Member, out: &mut Vec<u8>) -> Result<(), AllocError>
    ensures { OnOk result (out.new.items ≡ out.old.items ++ vector_text member.now) }
{
    put_vector(alloc, member.vector.numbers(), out)
}

/// Appends the lines of the members' vectors.
fn put_members(alloc: Global, members: &[Member], out: &mut Vec<u8>) -> Result<(), AllocError>
    ensures { OnOk result (out.new.items ≡ out.old.items ++ flat_map vector_text members.now) }
{
    for member in members {
        put_member(alloc, member, out)?;
    }
    Ok(())
}

/// Appends the line of what is counted.
fn put_count_line(
    alloc: Global,
    counted: &str,
    count: usize,
    out: &mut Vec<u8>,
) -> Result<(), AllocError>
    ensures { OnOk result (out.new.items ≡ out.old.items ++ spelled (count_words counted.now count)) }
{
    out.extend_from_slice(counted.as_bytes())?;
    put_number(alloc, count as u64, out)?;
    out.push(b'\n')?;
    Ok(())
}

/// Appends how a run ended.
fn put_end(end: End, out: &mut Vec<u8>) -> Result<(), AllocError>
    ensures { OnOk result (out.new.items ≡ out.old.items ++ spelled (last_words end)) }
{
    match end {
        End::Done => out.extend_from_slice(b"done\n"),
        End::Infeasible => out.extend_from_slice(b"none\n"),
    }
}

/// Appends what is said of a run: how many rounds there were, how many members the archive has, their vectors, and how
/// it ended.
pub(crate) fn put_run(alloc: Global, run: &Run, out: &mut Vec<u8>) -> Result<(), AllocError>
    ensures { OnOk result (out.new.items ≡ out.old.items ++ run_text (length run.now.history) run.now.archive.members run.now.end) }
{
    let members = run.archive.members();
    put_count_line(alloc, "rounds", run.history.vectors().len(), out)?;
    put_count_line(alloc, "archive", members.len(), out)?;
    put_members(alloc, members, out)?;
    put_end(run.end, out)
}
