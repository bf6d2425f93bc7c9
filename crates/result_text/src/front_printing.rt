//! Writes a front in its one spelling.

ghost use Rattle.std.specs.Prelude.{◌≡◌, ℕ, ◌<◌, ◌∷◌, ◌++◌, [], All, length, map, IfOk, OnOk, OnErr};
ghost use Rattle.spec_model.specs.Spec.{design_variables};
ghost use Rattle.spelled_lines.specs.Lines.{spelled};
ghost use Rattle.result_text.specs.Answers.{as_seen};
ghost use Rattle.result_text.specs.Fronts.{front_of, header_words, objectives_words, entry_words, end_words, entry_text, entries_text, front_text};

use crate::printing::{put_items, put_number, put_vector, put_word};
use crate::{Entry, Front};
use spec_graph::Spec;
use std::alloc::{AllocError, Global};

fn put_header(text: &mut Vec<u8>) -> Result<(), AllocError>
    ensures { OnOk result (text.new.items ≡ text.old.items ++ spelled header_words) }
{
    text.extend_from_slice(b"front 1\n")
}

fn put_objectives(spec: &Spec, text: &mut Vec<u8>) -> Result<(), AllocError>
    ensures { OnOk result (text.new.items ≡ text.old.items ++ spelled (objectives_words spec.now)) }
{
    text.extend_from_slice(b"objectives")?;
    for j in 0..spec.objectives() {
        put_word(text, spec.objective_name(j))?;
    }
    text.push(b'\n')?;
    Ok(())
}

/// The line of the objectives.
pub(crate) fn objectives_line(alloc: Global, spec: &Spec) -> Result<Vec<u8>, AllocError>
    ensures { IfOk result (λ line. line.items ≡ spelled (objectives_words spec.now)) }
{
    let mut line = Vec::new(alloc);
    put_objectives(spec, &mut line)?;
    Ok(line)
}

fn put_number_line(alloc: Global, number: u64, text: &mut Vec<u8>) -> Result<(), AllocError>
    ensures { OnOk result (text.new.items ≡ text.old.items ++ spelled (entry_words number)) }
{
    text.extend_from_slice(b"entry")?;
    put_number(alloc, text, number)?;
    text.push(b'\n')?;
    Ok(())
}

/// Appends an entry under its number.
fn put_entry(
    alloc: Global,
    spec: &Spec,
    number: u64,
    entry: &Entry,
    text: &mut Vec<u8>,
) -> Result<(), AllocError>
    requires { length entry.now.design ≡ design_variables spec.now }
    ensures { OnOk result (text.new.items ≡ text.old.items ++ entry_text spec.now number (as_seen entry.now)) }
{
    put_number_line(alloc, number, text)?;
    put_items(alloc, spec, &entry.design, text)?;
    put_vector(alloc, entry.vector.numbers(), text)?;
    Ok(())
}

/// Appends entries, under numbers from 1.
fn put_entries(
    alloc: Global,
    spec: &Spec,
    entries: &[Entry],
    text: &mut Vec<u8>,
) -> Result<(), AllocError>
    requires { All (λ e. length e.design ≡ design_variables spec.now) entries.now }
    ensures { OnOk result (text.new.items ≡ text.old.items ++ entries_text spec.now 1 (map as_seen entries.now)) }
{
    for i in 0..entries.len() {
        put_entry(alloc, spec, i as u64 + 1, &entries[i], text)?;
    }
    Ok(())
}

fn put_end(complete: bool, text: &mut Vec<u8>) -> Result<(), AllocError>
    ensures { OnOk result (text.new.items ≡ text.old.items ++ spelled (end_words complete)) }
{
    if complete {
        return text.extend_from_slice(b"complete\n");
    }
    text.extend_from_slice(b"open\n")
}

fn text_of(alloc: Global, spec: &Spec, front: &Front) -> Result<Vec<u8>, AllocError>
    requires { All (λ e. length e.design ≡ design_variables spec.now) front.now.entries }
    ensures { IfOk result (λ text. text.items ≡ front_text spec.now (front_of front.now)) }
{
    let mut text = Vec::new(alloc);
    put_header(&mut text)?;
    put_objectives(spec, &mut text)?;
    put_entries(alloc, spec, front.entries.list(), &mut text)?;
    put_end(front.complete, &mut text)?;
    Ok(text)
}

/// Appends the text of a front: `front 1`, `objectives` and the names of the objectives, each entry under its number
/// from 1, and last `complete` or `open`. Whether the entries are valid, and a front, isn't asked.
///
/// Where memory runs out, `out` is as before.
pub fn print_front(
    alloc: Global,
    spec: &Spec,
    front: &Front,
    out: &mut Vec<u8>,
) -> Result<(), AllocError>
    requires { All (λ e. length e.design ≡ design_variables spec.now) front.now.entries }
    ensures ok { OnOk result (out.new.items ≡ out.old.items ++ front_text spec.now (front_of front.now)) }
    ensures err { OnErr result (out.new.items ≡ out.old.items) }
{
    let text = text_of(alloc, spec, front)?;
    out.extend_from_slice(&text)
}
