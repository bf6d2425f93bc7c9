//! What `decode` comes to: the first valid implementation in the genotype's order, with its vector, and the proof file
//! where one is named.

ghost use Rattle.std.specs.Prelude.{◌≡◌, ◌++◌, ◌≤◌, length, IfOk, IfSome, OnOk};
ghost use Rattle.spec_model.specs.Spec.{design_variables};
ghost use Rattle.run_base.specs.Loading.{IsLoadedIfNamed};
ghost use Rattle.run_base.specs.After.{GoesOn};
ghost use Rattle.run_base.specs.Worlds.{World, AreLoaded};
ghost use Rattle.dse_run.specs.Decoding.{Decodes, DecodesSpec, DecodesGenes, Finds};
ghost use Rattle.dse_run.specs.Searching.{IsSearched, IsSized, answer_text, ending_of, evidence_value};

use crate::search::{Evidence, Search, find_design};
use genotype::Genotype;
use impl_rules::vector_of;
use line_words::{ReadFault, put_whole};
use proof_files::writes_of;
use proof_log::{Log, law_of_files};
use result_text::print_design;
use run_base::{Ending, Inputs, Outcome, read_genes, read_spec};
use sat_decoder::Decoded;
use spec_graph::Spec;
use std::alloc::{AllocError, Global};

/// Appends what is said of an answer.
fn put_answer(
    alloc: Global,
    spec: &Spec,
    decoded: &Decoded,
    budget: Option<u64>,
    text: &mut Vec<u8>,
) -> Result<(), AllocError>
    requires sized { IsSized spec.now decoded.now }
    ensures { OnOk result (text.new.items ≡ text.old.items ++ answer_text spec.now budget decoded.now) }
{
    match decoded {
        Decoded::First(design) => {
            let vector = vector_of(alloc, spec, design)?;
            print_design(alloc, spec, design, &vector, text)
        }
        Decoded::Nothing => text.extend_from_slice(b"none\n"),
        Decoded::Budget => {
            text.extend_from_slice(b"budget ")?;
            put_whole(alloc, text, budget.unwrap_or(u64::MAX))?;
            text.extend_from_slice(b"\n")
        }
    }
}

/// How an answer ends.
fn ending_of(decoded: &Decoded) -> Ending
    ensures { result ≡ ending_of decoded.now }
{
    match decoded {
        Decoded::First(_) => Ending::Done,
        Decoded::Nothing => Ending::No,
        Decoded::Budget => Ending::Budget,
    }
}

/// What an answer with its log comes to.
fn outcome_of(
    alloc: Global,
    spec: &Spec,
    genotype: &Genotype,
    decoded: &Decoded,
    log: Log,
    wanted: Evidence<'_>,
) -> Result<Outcome, AllocError>
    requires searched { IsSearched spec.now genotype.now wanted.budget decoded.now log }
    ensures { IfOk result (Finds (evidence_value wanted.entry) spec.now genotype.now) }
{
    let _ = genotype;
    law_of_files();
    let mut text = Vec::new(alloc);
    put_answer(alloc, spec, decoded, wanted.budget, &mut text)?;
    let writes = writes_of(alloc, wanted.proof_file, log)?;
    Ok(Outcome {
        ending: ending_of(decoded),
        text,
        writes,
    })
}

/// What a specification and a genotype come to.
fn find_first(
    alloc: Global,
    spec: &Spec,
    genotype: &Genotype,
    wanted: Evidence<'_>,
) -> Result<Outcome, AllocError>
    requires genes { length genotype.now ≡ design_variables spec.now }
    requires some { IfSome wanted.budget (λ n. 1 ≤ n) }
    ensures { IfOk result (Finds (evidence_value wanted.entry) spec.now genotype.now) }
{
    let Search { decoded, log } = find_design(alloc, spec, genotype, wanted.budget)?;
    outcome_of(alloc, spec, genotype, &decoded, log, wanted)
}

/// What a genotype comes to, or the refusal of its file.
fn decode_genes(
    alloc: Global,
    spec: &Spec,
    read: Result<Genotype, ReadFault>,
    wanted: Evidence<'_>,
) -> Result<Outcome, ReadFault>
    requires genes { IfOk read (λ genes. length genes ≡ design_variables spec.now) }
    requires some { IfSome wanted.budget (λ n. 1 ≤ n) }
    ensures { GoesOn read (DecodesGenes (evidence_value wanted.entry) spec.now) result }
{
    match read {
        Ok(genotype) => Ok(find_first(alloc, spec, &genotype, wanted)?),
        Err(fault) => Err(fault),
    }
}

/// What a specification comes to with the third file.
fn decode_with(
    alloc: Global,
    spec: &Spec,
    inputs: &Inputs,
    wanted: Evidence<'_>,
) -> Result<Outcome, ReadFault>
    requires some { IfSome wanted.budget (λ n. 1 ≤ n) }
    ensures { (world : World) → IsLoadedIfNamed inputs.now.third world.third → DecodesSpec (evidence_value wanted.entry) world spec.now result }
{
    decode_genes(alloc, spec, read_genes(alloc, spec, &inputs.third), wanted)
}

/// What a specification comes to with the third file, or the refusal of the files that make it.
fn decode_spec(
    alloc: Global,
    read: Result<Spec, ReadFault>,
    inputs: &Inputs,
    wanted: Evidence<'_>,
) -> Result<Outcome, ReadFault>
    requires some { IfSome wanted.budget (λ n. 1 ≤ n) }
    ensures { (world : World) → IsLoadedIfNamed inputs.now.third world.third → GoesOn read (DecodesSpec (evidence_value wanted.entry) world) result }
{
    match read {
        Ok(spec) => decode_with(alloc, &spec, inputs, wanted),
        Err(fault) => Err(fault),
    }
}

/// What the files come to.
pub(crate) fn decode(
    alloc: Global,
    inputs: &Inputs,
    wanted: Evidence<'_>,
) -> Result<Outcome, ReadFault>
    requires some { IfSome wanted.budget (λ n. 1 ≤ n) }
    ensures { (world : World) → AreLoaded inputs.now world → Decodes (evidence_value wanted.entry) world result }
{
    decode_spec(
        alloc,
        read_spec(alloc, &inputs.tgff, &inputs.arch),
        inputs,
        wanted,
    )
}
