//! Specifications made from a number, as texts: a mesh of resources, and tasks that send messages to later ones.
//!
//! `specs/Mesh.antt` says what shape one has, and `specs/Made.antt` its text, line by line, as a function of the number:
//! costs, senders, places and times are drawn from the generator Pcg32, whose seed is the number. So anybody can make the
//! same specification again. `mesh` has the shape, `lines` single lines, and `parts` the lines of all resources, links,
//! tasks, messages and options.
#![tactic(auto)]

ghost use Rattle.std.specs.Prelude.{◌≡◌, ◌++◌, ◌≤◌, OnOk, OnErr, IfOk};
ghost use Rattle.std.specs.List.{flat_map};
ghost use Rattle.spelled_lines.specs.Lines.{spelled};
ghost use Rattle.spec_make.specs.Streams.{stream_of};
ghost use Rattle.spec_make.specs.Made.{made_lines, made_text};

mod lines;
mod mesh;
mod parts;

use genotype::Words;
use rand_core::SeedableRng;
use rand_pcg::Pcg32;
use std::alloc::{AllocError, Global};

/// The text of a mesh with so many resources on a side, from the next words.
fn text_of<W: Words>(alloc: Global, side: u64, words: &mut W) -> Result<Vec<u8>, AllocError>
    requires some { 2 ≤ side }
    requires few { side ≤ 5 }
    ensures { IfOk result (λ text. text.items ≡ flat_map spelled (made_lines side (stream_of W.gives W.after words.old))) }
{
    let mut text = Vec::new(alloc);
    parts::put_header(&mut text)?;
    parts::put_resources(alloc, side, words, &mut text)?;
    parts::put_links(alloc, side, words, &mut text)?;
    parts::put_tasks(alloc, side, &mut text)?;
    parts::put_messages(alloc, side, words, &mut text)?;
    parts::put_maps(alloc, side, words, &mut text)?;
    Ok(text)
}

/// Appends the text of an architecture file that is made from a number: a specification with 4 to 46 tasks on a mesh of 2
/// by 2 to 5 by 5 resources, by the number's lowest three bits, with costs and places drawn from the number as a seed.
///
/// Where memory runs out, `out` is as before.
pub fn make_text(alloc: Global, number: u64, out: &mut Vec<u8>) -> Result<(), AllocError>
    ensures ok { OnOk result (out.new.items ≡ out.old.items ++ made_text number) }
    ensures err { OnErr result (out.new.items ≡ out.old.items) }
{
    let mut words = Pcg32::seed_from_u64(number);
    let text = text_of(alloc, mesh::side_of(number), &mut words)?;
    out.extend_from_slice(&text)
}
