//! What is said of a run.

ghost use Rattle.std.specs.Prelude.{◌≡◌, ◌<◌, ◌∷◌, ◌++◌, [], All, length, map, slice_index_or, decimal, IfOk, OnOk};
ghost use Rattle.spec_model.specs.Spec.{design_variables};
ghost use Rattle.spelled_lines.specs.Lines.{spelled};
ghost use Rattle.result_text.specs.Fronts.{entry_text, entries_text, entry_words};
ghost use Rattle.explore_run.specs.Tools.{tags_at};
ghost use Rattle.explore_run.specs.Words.{spaced};
ghost use Rattle.explore_run.specs.Saying.{archive_words, entry_of, explored_text, header_words, last_words, names_words, rounds_words};

use evaluators::Evaluator;
use evo_explore::{End, Run};
use front_archive::Member;
use line_words::put_whole;
use result_text::print_design;
use spec_graph::Spec;
use std::alloc::{AllocError, Global};

/// Appends the first line.
fn put_header(out: &mut Vec<u8>) -> Result<(), AllocError>
    ensures { OnOk result (out.new.items ≡ out.old.items ++ spelled header_words) }
{
    out.extend_from_slice(b"explore 1\n")
}

/// Appends a space and a word.
fn put_word(out: &mut Vec<u8>, word: &str) -> Result<(), AllocError>
    ensures { OnOk result (out.new.items ≡ out.old.items ++ 32 ∷ word.now) }
{
    out.push(b' ')?;
    out.extend_from_slice(word.as_bytes())
}

/// Appends the names of the objectives, each after a space.
fn put_objectives(spec: &Spec, out: &mut Vec<u8>) -> Result<(), AllocError>
    ensures { OnOk result (out.new.items ≡ out.old.items ++ spaced spec.now.objectives) }
{
    for j in 0..spec.objectives() {
        put_word(out, spec.objective_name(j))?;
    }
    Ok(())
}

/// Appends a space and the tag of a tool.
fn put_tag_of(tool: &Box<dyn Evaluator>, out: &mut Vec<u8>) -> Result<(), AllocError>
    ensures { OnOk result (out.new.items ≡ out.old.items ++ 32 ∷ text tool.now) }
{
    put_word(out, tool.tag())
}

/// Appends a space and the tag of the tool at a place.
fn put_tag(tools: &[Box<dyn Evaluator>], place: usize, out: &mut Vec<u8>) -> Result<(), AllocError>
    requires { place < length tools.now }
    ensures { OnOk result (out.new.items ≡ out.old.items ++ 32 ∷ slice_index_or (map text tools.now) place []) }
{
    put_tag_of(&tools[place], out)
}

/// Appends the tags of the tools at these places, each after a space.
fn put_tags(
    tools: &[Box<dyn Evaluator>],
    chosen: &[usize],
    out: &mut Vec<u8>,
) -> Result<(), AllocError>
    requires { All (λ p. p < length tools.now) chosen.now }
    ensures { OnOk result (out.new.items ≡ out.old.items ++ spaced (tags_at (map text tools.now) chosen.now)) }
{
    for i in 0..chosen.len() {
        put_tag(tools, chosen[i], out)?;
    }
    Ok(())
}

/// Appends the line that names the numbers of a vector.
fn put_names(
    spec: &Spec,
    tools: &[Box<dyn Evaluator>],
    chosen: &[usize],
    out: &mut Vec<u8>,
) -> Result<(), AllocError>
    requires { All (λ p. p < length tools.now) chosen.now }
    ensures { OnOk result (out.new.items ≡ out.old.items ++ spelled (names_words spec.now (tags_at (map text tools.now) chosen.now))) }
{
    out.extend_from_slice(b"names")?;
    put_objectives(spec, out)?;
    put_tags(tools, chosen, out)?;
    out.push(b'\n')?;
    Ok(())
}

/// Appends a space and a number.
fn put_number(alloc: Global, number: u64, out: &mut Vec<u8>) -> Result<(), AllocError>
    ensures { OnOk result (out.new.items ≡ out.old.items ++ 32 ∷ decimal number) }
{
    out.push(b' ')?;
    put_whole(alloc, out, number)
}

/// Appends the line of the rounds.
fn put_rounds(alloc: Global, rounds: u64, out: &mut Vec<u8>) -> Result<(), AllocError>
    ensures { OnOk result (out.new.items ≡ out.old.items ++ spelled (rounds_words rounds)) }
{
    out.extend_from_slice(b"rounds")?;
    put_number(alloc, rounds, out)?;
    out.push(b'\n')?;
    Ok(())
}

/// Appends the line of the archive.
fn put_archive(alloc: Global, members: u64, out: &mut Vec<u8>) -> Result<(), AllocError>
    ensures { OnOk result (out.new.items ≡ out.old.items ++ spelled (archive_words members)) }
{
    out.extend_from_slice(b"archive")?;
    put_number(alloc, members, out)?;
    out.push(b'\n')?;
    Ok(())
}

/// Appends the line above the member with this number.
fn put_number_line(alloc: Global, number: u64, out: &mut Vec<u8>) -> Result<(), AllocError>
    ensures { OnOk result (out.new.items ≡ out.old.items ++ spelled (entry_words number)) }
{
    out.extend_from_slice(b"entry")?;
    put_number(alloc, number, out)?;
    out.push(b'\n')?;
    Ok(())
}

/// Appends a member under its number.
fn put_member(
    alloc: Global,
    spec: &Spec,
    number: u64,
    member: &Member,
    out: &mut Vec<u8>,
) -> Result<(), AllocError>
    requires { length member.now.design ≡ design_variables spec.now }
    ensures { OnOk result (out.new.items ≡ out.old.items ++ entry_text spec.now number (entry_of member.now)) }
{
    put_number_line(alloc, number, out)?;
    print_design(alloc, spec, &member.design, member.vector.numbers(), out)
}

/// Appends members, under numbers from 1.
fn put_members(
    alloc: Global,
    spec: &Spec,
    members: &[Member],
    out: &mut Vec<u8>,
) -> Result<(), AllocError>
    requires { All (λ m. length m.design ≡ design_variables spec.now) members.now }
    ensures { OnOk result (out.new.items ≡ out.old.items ++ entries_text spec.now 1 (map entry_of members.now)) }
{
    for i in 0..members.len() {
        put_member(alloc, spec, i as u64 + 1, &members[i], out)?;
    }
    Ok(())
}

/// Appends how a run ended.
fn put_end(end: End, out: &mut Vec<u8>) -> Result<(), AllocError>
    ensures { OnOk result (out.new.items ≡ out.old.items ++ spelled (last_words end)) }
{
    match end {
        End::Done => out.extend_from_slice(b"done\n"),
        End::Infeasible => out.extend_from_slice(b"none\n"),
    }
}

/// What is said of a run, with the tags of the tools at the chosen places.
pub(crate) fn text_of(
    alloc: Global,
    spec: &Spec,
    tools: &[Box<dyn Evaluator>],
    chosen: &[usize],
    run: &Run,
) -> Result<Vec<u8>, AllocError>
    requires within { All (λ p. p < length tools.now) chosen.now }
    requires sized { All (λ m. length m.design ≡ design_variables spec.now) run.now.archive.members }
    ensures { IfOk result (λ said. said.items ≡ explored_text spec.now (tags_at (map text tools.now) chosen.now) (length run.now.history) run.now.archive.members run.now.end) }
{
    let members = run.archive.members();
    let mut out = Vec::new(alloc);
    put_header(&mut out)?;
    put_names(spec, tools, chosen, &mut out)?;
    put_rounds(alloc, run.history.vectors().len() as u64, &mut out)?;
    put_archive(alloc, members.len() as u64, &mut out)?;
    put_members(alloc, spec, members, &mut out)?;
    put_end(run.end, &mut out)?;
    Ok(out)
}
