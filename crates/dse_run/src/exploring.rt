//! The tools of a run, and `explore` over them.

ghost use Rattle.std.specs.Prelude.{◌≡◌, ◌<◌, ◌≤◌, ◌-◌, ◌^◌, All, IfOk, map, string_bytes, vec_len};
ghost use Rattle.evo_explore.specs.Counts.{RoseAtMost};
ghost use Rattle.run_words.specs.Fit.{AreRising};
ghost use Rattle.run_words.specs.Exploring.{most_rounds};
ghost use Rattle.run_base.specs.Worlds.{World, AreLoaded};
ghost use Rattle.explore_run.specs.Tools.{Keeps};
ghost use Rattle.explore_run.specs.Exploring.{Explores};
ghost use Rattle.explore_run.specs.Wanting.{wanted_value};

use evaluators::Evaluator;
use evo_explore::laws::law_of_counts;
use explore_run::{Wanted, explore};
use line_words::ReadFault;
use run_base::{Inputs, Outcome};
use std::alloc::{AllocError, Global};

/// The tag of a tool, as a text of its own.
fn tag_of(alloc: Global, tool: &Box<dyn Evaluator>) -> Result<String, AllocError>
    ensures { IfOk result (λ tag. string_bytes tag ≡ text tool.now) }
{
    String::from_str(alloc, tool.tag())
}

/// The tags of tools, in their order.
pub(crate) fn tags_of(
    alloc: Global,
    tools: &[Box<dyn Evaluator>],
) -> Result<Vec<String>, AllocError>
    ensures { IfOk result (λ tags. map string_bytes tags.items ≡ map text tools.now) }
{
    let mut tags = Vec::new(alloc);
    for i in 0..tools.len() {
        let tag = tag_of(alloc, &tools[i])?;
        tags.push(tag)?;
    }
    Ok(tags)
}

/// What the files come to. The places of the tools rise, so that each is called at most once a round.
pub(crate) fn explored(
    alloc: Global,
    inputs: &Inputs,
    tools: &mut Vec<Box<dyn Evaluator>>,
    wanted: Wanted<'_>,
) -> Result<Outcome, ReadFault>
    requires few { wanted.rounds ≤ most_rounds }
    requires within { All (λ p. p < vec_len tools.old) wanted.chosen.now }
    requires rising { AreRising wanted.chosen.now }
    requires room { All (λ n. n ≤ 2 ^ 63 - most_rounds) (map calls tools.old.items) }
    ensures comes { (world : World) → AreLoaded inputs.now world → Explores (wanted_value wanted.entry) (record { tags = map text tools.old.items; calls = map calls tools.old.items; values = λ s f. map (λ t. value t s f) tools.old.items }) (map calls tools.new.items) world result }
    ensures kept { Keeps (RoseAtMost wanted.entry.rounds wanted.entry.chosen.now) (record { tags = map text tools.old.items; calls = map calls tools.old.items; values = λ s f. map (λ t. value t s f) tools.old.items }) (record { tags = map text tools.new.items; calls = map calls tools.new.items; values = λ s f. map (λ t. value t s f) tools.new.items }) }
{
    law_of_counts();
    explore(alloc, inputs, tools, wanted)
}
