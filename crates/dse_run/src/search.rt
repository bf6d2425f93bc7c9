//! The search of `decode`, with its log.

ghost use Rattle.std.specs.Prelude.{◌≡◌, ◌<◌, ◌≤◌, length, IfOk, IfSome};
ghost use Rattle.spec_model.specs.Spec.{design_variables};
ghost use Rattle.dse_run.specs.Searching.{IsSearched};

use genotype::Genotype;
use proof_log::{Log, law_of_files};
use sat_decoder::laws::law_of_frames;
use sat_decoder::{Decoded, Decoder};
use spec_graph::Spec;
use std::alloc::{AllocError, Global};

/// What is wanted beside the answer.
#[derive(Clone, Copy, Debug)]
pub(crate) struct Evidence<'a> {
    /// How many lines the search may derive, at least 1, where it is given.
    pub(crate) budget: Option<u64>,
    /// The file that the proof is written to, where one is named.
    pub(crate) proof_file: Option<&'a str>,
}

/// An answer of the decoder, and the log that shows it.
#[derive(Drop)]
pub(crate) struct Search {
    /// The answer.
    pub(crate) decoded: Decoded,
    /// The lines that were derived.
    pub(crate) log: Log,
}

/// Searches for the first valid design in the genotype's order. Without a budget the greatest one is given: a log has
/// fewer than 2^63 derived lines, so no search reaches it.
pub(crate) fn find_design(
    alloc: Global,
    spec: &Spec,
    genotype: &Genotype,
    budget: Option<u64>,
) -> Result<Search, AllocError>
    requires genes { length genotype.now ≡ design_variables spec.now }
    requires some { IfSome budget (λ n. 1 ≤ n) }
    ensures { IfOk result (λ search. IsSearched spec.now genotype.now budget search.decoded search.log) }
{
    spec.facts();
    law_of_frames();
    let mut decoder = Decoder::new(alloc, spec)?;
    let decoded = decoder.decode(alloc, genotype, budget.unwrap_or(u64::MAX))?;
    let log = decoder.into_log();
    let _learned = log.learned();
    Ok(Search { decoded, log })
}
