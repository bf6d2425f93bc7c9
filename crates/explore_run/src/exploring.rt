//! What `explore` comes to: the archive of a run, and the proof of its decodings.

ghost use Rattle.std.specs.Prelude.{◌≡◌, ◌<◌, All, length, vec_len, map, option_map, IfOk};
ghost use Rattle.spec_model.specs.Spec.{design_variables};
ghost use Rattle.evo_explore.specs.Counts.{HasRoom, RoseAtMost};
ghost use Rattle.run_base.specs.After.{GoesOn};
ghost use Rattle.run_base.specs.Worlds.{World, AreLoaded};
ghost use Rattle.proof_files.specs.Writing.{files_of};
ghost use Rattle.explore_run.specs.Tools.{Keeps, tags_at};
ghost use Rattle.explore_run.specs.Saying.{explored_text};
ghost use Rattle.explore_run.specs.Exploring.{Explores, ExploresSpec, Finds};
ghost use Rattle.explore_run.specs.Wanting.{ending_of, wanted_value};

use crate::saying::text_of;
use evaluators::Evaluator;
use evo_explore::laws::law_of_logs;
use evo_explore::{End, Params, Run, explore as explored};
use line_words::ReadFault;
use proof_files::writes_of;
use proof_log::law_of_files;
use rand_core::SeedableRng;
use rand_pcg::Pcg32;
use run_base::{Ending, Inputs, Outcome, read_spec};
use sat_decoder::laws::law_of_frames;
use spec_graph::Spec;
use std::alloc::{AllocError, Global};

/// What is wanted: an exploration, and the file that its proof is written to.
#[derive(Clone, Copy, Debug)]
pub struct Wanted<'a> {
    /// How many rounds there are.
    pub rounds: u64,
    /// The number from which the words of the draws are made.
    pub seed: u64,
    /// The places of the tools that measure.
    pub chosen: &'a [usize],
    /// The file that the proof is written to, where one is named.
    pub proof_file: Option<&'a str>,
}

/// How the command ends by the end of a run.
fn ending_of(end: End) -> Ending
    ensures { result ≡ ending_of end }
{
    match end {
        End::Done => Ending::Done,
        End::Infeasible => Ending::No,
    }
}

/// The rounds and the places of the tools.
fn params_of(alloc: Global, wanted: Wanted<'_>) -> Result<Params, AllocError>
    ensures rounds { IfOk result (λ params. params.rounds ≡ wanted.entry.rounds) }
    ensures chosen { IfOk result (λ params. params.chosen.items ≡ wanted.entry.chosen.now) }
{
    let mut chosen = Vec::new(alloc);
    chosen.extend_from_slice(wanted.chosen)?;
    Ok(Params {
        rounds: wanted.rounds,
        chosen,
    })
}

/// What a run comes to.
fn outcome_of(
    alloc: Global,
    spec: &Spec,
    tools: &[Box<dyn Evaluator>],
    wanted: Wanted<'_>,
    run: Run,
) -> Result<Outcome, AllocError>
    requires within { All (λ p. p < length tools.now) wanted.chosen.now }
    requires sized { All (λ m. length m.design ≡ design_variables spec.now) run.archive.members }
    ensures ending { IfOk result (λ outcome. outcome.ending ≡ ending_of run.end) }
    ensures says { IfOk result (λ outcome. outcome.text.items ≡ explored_text spec.now (tags_at (map text tools.now) wanted.entry.chosen.now) (length run.history) run.archive.members run.end) }
    ensures writes { IfOk result (λ outcome. outcome.writes ≡ files_of (option_map (λ s. s.now) wanted.entry.proof_file) run.log) }
{
    let text = text_of(alloc, spec, tools, wanted.chosen, &run)?;
    let ending = ending_of(run.end);
    let writes = writes_of(alloc, wanted.proof_file, run.log)?;
    Ok(Outcome {
        ending,
        text,
        writes,
    })
}

/// What a specification comes to.
#[tactic(auto, using(crate::proofs::Kept::same_tools))]
fn find_archive(
    alloc: Global,
    spec: &Spec,
    tools: &mut Vec<Box<dyn Evaluator>>,
    wanted: Wanted<'_>,
) -> Result<Outcome, AllocError>
    requires within { All (λ p. p < vec_len tools.old) wanted.chosen.now }
    requires room { HasRoom wanted.rounds wanted.chosen.now (map calls tools.old.items) }
    ensures finds { IfOk result (Finds (wanted_value wanted.entry) (record { tags = map text tools.old.items; calls = map calls tools.old.items; values = λ s f. map (λ t. value t s f) tools.old.items }) (map calls tools.new.items) spec.now) }
    ensures kept { Keeps (RoseAtMost wanted.entry.rounds wanted.entry.chosen.now) (record { tags = map text tools.old.items; calls = map calls tools.old.items; values = λ s f. map (λ t. value t s f) tools.old.items }) (record { tags = map text tools.new.items; calls = map calls tools.new.items; values = λ s f. map (λ t. value t s f) tools.new.items }) }
{
    spec.facts();
    law_of_frames();
    law_of_files();
    law_of_logs();
    let params = params_of(alloc, wanted)?;
    let mut words = Pcg32::seed_from_u64(wanted.seed);
    let run = explored(alloc, spec, &mut words, tools, &params)?;
    let outcome = outcome_of(alloc, spec, tools, wanted, run)?;
    Ok(outcome)
}

/// What a specification comes to, where memory suffices.
fn explore_with(
    alloc: Global,
    spec: &Spec,
    tools: &mut Vec<Box<dyn Evaluator>>,
    wanted: Wanted<'_>,
) -> Result<Outcome, ReadFault>
    requires within { All (λ p. p < vec_len tools.old) wanted.chosen.now }
    requires room { HasRoom wanted.rounds wanted.chosen.now (map calls tools.old.items) }
    ensures comes { ExploresSpec (wanted_value wanted.entry) (record { tags = map text tools.old.items; calls = map calls tools.old.items; values = λ s f. map (λ t. value t s f) tools.old.items }) (map calls tools.new.items) spec.now result }
    ensures kept { Keeps (RoseAtMost wanted.entry.rounds wanted.entry.chosen.now) (record { tags = map text tools.old.items; calls = map calls tools.old.items; values = λ s f. map (λ t. value t s f) tools.old.items }) (record { tags = map text tools.new.items; calls = map calls tools.new.items; values = λ s f. map (λ t. value t s f) tools.new.items }) }
{
    Ok(find_archive(alloc, spec, tools, wanted)?)
}

/// What a specification comes to that was read or refused.
#[tactic(auto, using(crate::proofs::Kept::same_tools))]
fn explore_spec(
    alloc: Global,
    read: Result<Spec, ReadFault>,
    tools: &mut Vec<Box<dyn Evaluator>>,
    wanted: Wanted<'_>,
) -> Result<Outcome, ReadFault>
    requires within { All (λ p. p < vec_len tools.old) wanted.chosen.now }
    requires room { HasRoom wanted.rounds wanted.chosen.now (map calls tools.old.items) }
    ensures comes { GoesOn read (ExploresSpec (wanted_value wanted.entry) (record { tags = map text tools.old.items; calls = map calls tools.old.items; values = λ s f. map (λ t. value t s f) tools.old.items }) (map calls tools.new.items)) result }
    ensures kept { Keeps (RoseAtMost wanted.entry.rounds wanted.entry.chosen.now) (record { tags = map text tools.old.items; calls = map calls tools.old.items; values = λ s f. map (λ t. value t s f) tools.old.items }) (record { tags = map text tools.new.items; calls = map calls tools.new.items; values = λ s f. map (λ t. value t s f) tools.new.items }) }
{
    match read {
        Ok(spec) => explore_with(alloc, &spec, tools, wanted),
        Err(fault) => Err(fault),
    }
}

/// What the files come to: the archive of an exploration with the proof of its decodings, or the refusal of a file.
/// Each chosen tool is called once a round where the exploration ends, and at most once a round otherwise; no other tool
/// is called, and no tool changes its tag or what it measures.
pub fn explore(
    alloc: Global,
    inputs: &Inputs,
    tools: &mut Vec<Box<dyn Evaluator>>,
    wanted: Wanted<'_>,
) -> Result<Outcome, ReadFault>
    requires within { All (λ p. p < vec_len tools.old) wanted.chosen.now }
    requires room { HasRoom wanted.rounds wanted.chosen.now (map calls tools.old.items) }
    ensures comes { (world : World) → AreLoaded inputs.now world → Explores (wanted_value wanted.entry) (record { tags = map text tools.old.items; calls = map calls tools.old.items; values = λ s f. map (λ t. value t s f) tools.old.items }) (map calls tools.new.items) world result }
    ensures kept { Keeps (RoseAtMost wanted.entry.rounds wanted.entry.chosen.now) (record { tags = map text tools.old.items; calls = map calls tools.old.items; values = λ s f. map (λ t. value t s f) tools.old.items }) (record { tags = map text tools.new.items; calls = map calls tools.new.items; values = λ s f. map (λ t. value t s f) tools.new.items }) }
{
    explore_spec(
        alloc,
        read_spec(alloc, &inputs.tgff, &inputs.arch),
        tools,
        wanted,
    )
}
