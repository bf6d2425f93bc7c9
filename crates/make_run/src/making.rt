//! The command: the text of a number, what it reads as, and what is said of it.

ghost use Rattle.std.specs.Prelude.{◌≡◌, ◌≤◌, ◌∷◌, [], None, Ok, length, IfOk};
ghost use Rattle.line_words.specs.Limits.{most_file_bytes};
ghost use Rattle.spec_make.specs.Made.{made_text};
ghost use Rattle.run_base.specs.After.{Makes};
ghost use Rattle.run_base.specs.Reading.{ReadsSpec};
ghost use Rattle.make_run.specs.Making.{Making, MakesFile, Says};
ghost use Rattle.make_run.specs.Wanting.{wanted_value};

use crate::exploring::{Said, explored};
use crate::saying::put_made;
use arch_reader::read_arch;
use file_writes::{Content, Writes};
use line_words::ReadFault;
use made_laws::{law_of_made_specification, law_of_made_text};
use run_base::{Ending, Outcome};
use spec_graph::Spec;
use spec_join::join;
use spec_make::make_text;
use std::alloc::{AllocError, Global};
use tgff_reader::Tgff;

/// What is wanted: a made specification, the file that its text is written to, and an exploration.
#[derive(Clone, Copy, Debug)]
pub struct Wanted<'a> {
    /// The number that the specification is made from.
    pub number: u64,
    /// The file that its text is written to.
    pub arch: &'a str,
    /// How many rounds it is explored, where that is given.
    pub rounds: Option<u64>,
}

/// What a text reads as, as an architecture file without task graphs.
fn read_text(alloc: Global, text: &[u8]) -> Result<Spec, ReadFault>
    requires short { length text.now ≤ most_file_bytes }
    ensures { ReadsSpec None text.now result }
{
    match read_arch(alloc, text) {
        Ok(file) => join(alloc, &Tgff::none(alloc), &file),
        Err(fault) => Err(fault),
    }
}

/// The specification of a made text, which no reader refuses.
fn read_made(alloc: Global, number: u64, text: &[u8]) -> Result<Spec, ReadFault>
    requires made { text.now ≡ made_text number }
    ensures { Makes (λ spec. ReadsSpec None (made_text number) (Ok spec)) result }
{
    let _ = number;
    law_of_made_text();
    law_of_made_specification();
    read_text(alloc, text)
}

/// How the command ends, and what it says of the specification of a number.
fn said_of(alloc: Global, spec: &Spec, number: u64, rounds: Option<u64>) -> Result<Said, AllocError>
    ensures { IfOk result (λ said. Says number rounds spec.now said.ending said.text.items) }
{
    let mut text = Vec::new(alloc);
    put_made(alloc, number, spec, &mut text)?;
    match rounds {
        None => Ok(Said {
            ending: Ending::Done,
            text,
        }),
        Some(rounds) => explored(alloc, spec, number, rounds, text),
    }
}

/// The file that a text is written to.
fn writes_of(alloc: Global, name: &str, text: Vec<u8>) -> Result<Writes, AllocError>
    ensures { IfOk result (λ writes. writes ≡ (name.now, text.items) ∷ []) }
{
    let mut writes = Writes::none(alloc);
    writes.add(alloc, name, Content::Text(text))?;
    Ok(writes)
}

/// What the made specification comes to.
fn outcome_of(
    alloc: Global,
    spec: &Spec,
    wanted: Wanted<'_>,
    text: Vec<u8>,
) -> Result<Outcome, AllocError>
    requires made { text.items ≡ made_text wanted.number }
    requires reads { ReadsSpec None (made_text wanted.number) (Ok spec.now) }
    ensures { IfOk result (MakesFile (wanted_value wanted.entry)) }
{
    let said = said_of(alloc, spec, wanted.number, wanted.rounds)?;
    let writes = writes_of(alloc, wanted.arch, text)?;
    Ok(Outcome {
        ending: said.ending,
        text: said.text,
        writes,
    })
}

/// What is made of a number: the text of a specification, which is written to a file, how much that states, and where
/// rounds are given, what its exploration by no tools finds, with the number as its seed. It is refused for nothing;
/// memory may run out.
pub fn make(alloc: Global, wanted: Wanted<'_>) -> Result<Outcome, ReadFault>
    ensures { Making (wanted_value wanted.entry) result }
{
    let mut text = Vec::new(alloc);
    make_text(alloc, wanted.number, &mut text)?;
    let spec = read_made(alloc, wanted.number, &text)?;
    let outcome = outcome_of(alloc, &spec, wanted, text)?;
    Ok(outcome)
}
