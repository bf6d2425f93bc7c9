//! What `front` comes to: the front, complete or as far as the budget goes, and the two files that are written.

ghost use Rattle.std.specs.Prelude.{◌≡◌, ◌≢◌, ◌≤◌, ◌++◌, length, All, IfOk, IfSome, OnOk};
ghost use Rattle.proof_log.specs.Text.{proof_text};
ghost use Rattle.result_text.specs.Fronts.{front_of, front_text, IsShaped};
ghost use Rattle.run_base.specs.After.{GoesOn};
ghost use Rattle.run_base.specs.Worlds.{World, AreLoaded};
ghost use Rattle.front_run.specs.Fronting.{Finds, Fronts, FrontsSpec, both_files};
ghost use Rattle.front_run.specs.Wanting.{ending_of, said_of, wanted_value};

use file_writes::{Content, Writes};
use front_search::{SearchEnd, search};
use line_words::{ReadFault, put_whole};
use proof_log::{Log, law_of_files};
use result_text::{Front, print_front};
use run_base::{Ending, Inputs, Outcome, read_spec};
use spec_graph::Spec;
use std::alloc::{AllocError, Global};

/// What is wanted: how many lines the search may derive, and the files that are written.
#[derive(Clone, Copy, Debug)]
pub struct Wanted<'a> {
    /// How many lines the search may derive, at least 1, where it is given.
    pub budget: Option<u64>,
    /// The file that the front is written to.
    pub front_file: &'a str,
    /// The file that the proof is written to.
    pub proof_file: &'a str,
}

/// What is said of a front.
fn text_of(alloc: Global, front: &Front) -> Result<Vec<u8>, AllocError>
    ensures { IfOk result (λ text. text.items ≡ said_of (front_of front.now)) }
{
    let mut text = Vec::new(alloc);
    if front.complete {
        text.extend_from_slice(b"front complete ")?;
    } else {
        text.extend_from_slice(b"front open ")?;
    }
    put_whole(alloc, &mut text, front.entries.list().len() as u64)?;
    text.push(b'\n')?;
    Ok(text)
}

/// The files that a front and its proof are written to, in order.
fn writes_of(
    alloc: Global,
    spec: &Spec,
    wanted: Wanted<'_>,
    front: &Front,
    log: Log,
) -> Result<Writes, AllocError>
    requires shaped { All (IsShaped spec.now) front.now.entries }
    requires apart { wanted.front_file.now ≢ wanted.proof_file.now }
    ensures { IfOk result (λ writes. writes ≡ both_files (wanted_value wanted.entry) (front_text spec.now (front_of front.now)) (proof_text log.lines)) }
{
    let mut bytes = Vec::new(alloc);
    print_front(alloc, spec, front, &mut bytes)?;
    let mut writes = Writes::none(alloc);
    writes.add(alloc, wanted.front_file, Content::Text(bytes))?;
    writes.add(alloc, wanted.proof_file, Content::Proof(log))?;
    Ok(writes)
}

/// How the command ends by the end of a search.
fn ending_of(end: SearchEnd) -> Ending
    ensures { result ≡ ending_of end }
{
    match end {
        SearchEnd::Complete => Ending::Done,
        SearchEnd::Budget => Ending::Budget,
    }
}

/// What a specification comes to. Without a budget the greatest one is given: a log has fewer than 2^63 derived lines, so
/// no search reaches it.
fn find_front(alloc: Global, spec: &Spec, wanted: Wanted<'_>) -> Result<Outcome, AllocError>
    requires some { IfSome wanted.budget (λ n. 1 ≤ n) }
    requires apart { wanted.front_file.now ≢ wanted.proof_file.now }
    ensures { IfOk result (Finds (wanted_value wanted.entry) spec.now) }
{
    law_of_files();
    let searched = search(alloc, spec, wanted.budget.unwrap_or(u64::MAX))?;
    let ending = ending_of(searched.end);
    let log = searched.log;
    let _learned = log.learned();
    let text = text_of(alloc, &searched.front)?;
    let writes = writes_of(alloc, spec, wanted, &searched.front, log)?;
    Ok(Outcome {
        ending,
        text,
        writes,
    })
}

/// What a specification comes to, where memory suffices.
fn front_with(alloc: Global, spec: &Spec, wanted: Wanted<'_>) -> Result<Outcome, ReadFault>
    requires some { IfSome wanted.budget (λ n. 1 ≤ n) }
    requires apart { wanted.front_file.now ≢ wanted.proof_file.now }
    ensures { FrontsSpec (wanted_value wanted.entry) spec.now result }
{
    Ok(find_front(alloc, spec, wanted)?)
}

/// What a specification comes to that was read or refused.
fn front_spec(
    alloc: Global,
    read: Result<Spec, ReadFault>,
    wanted: Wanted<'_>,
) -> Result<Outcome, ReadFault>
    requires some { IfSome wanted.budget (λ n. 1 ≤ n) }
    requires apart { wanted.front_file.now ≢ wanted.proof_file.now }
    ensures { GoesOn read (FrontsSpec (wanted_value wanted.entry)) result }
{
    match read {
        Ok(spec) => front_with(alloc, &spec, wanted),
        Err(fault) => Err(fault),
    }
}

/// What the files come to: the front with its proof, complete or as far as the budget goes, or the refusal of a file.
pub fn front(alloc: Global, inputs: &Inputs, wanted: Wanted<'_>) -> Result<Outcome, ReadFault>
    requires some { IfSome wanted.budget (λ n. 1 ≤ n) }
    requires apart { wanted.front_file.now ≢ wanted.proof_file.now }
    ensures { (world : World) → AreLoaded inputs.now world → Fronts (wanted_value wanted.entry) world result }
{
    front_spec(alloc, read_spec(alloc, &inputs.tgff, &inputs.arch), wanted)
}
