//! A made specification is explored by no tools, with its number as the seed.

ghost use Rattle.std.specs.Prelude.{◌≡◌, ◌↔◌, ◌++◌, IfOk};
ghost use Rattle.evo_explore.specs.Run.{FindsNone};
ghost use Rattle.explore_run.specs.Wanting.{ending_of};
ghost use Rattle.spelled_lines.specs.Lines.{spelled};
ghost use Rattle.make_run.specs.Saying.{made_words};
ghost use Rattle.make_run.specs.Making.{Explores, RunsAlone};

use crate::saying::put_run;
use evaluators::Evaluator;
use evo_explore::{End, Params, Run, explore};
use rand_core::SeedableRng;
use rand_pcg::Pcg32;
use run_base::Ending;
use spec_graph::Spec;
use std::alloc::{AllocError, Global};

/// How the command ends, and what it says.
#[derive(Drop)]
pub(crate) struct Said {
    /// How it ends.
    pub(crate) ending: Ending,
    /// What it says.
    pub(crate) text: Vec<u8>,
}

/// How the command ends by the end of a run.
fn ending_of(end: End) -> Ending
    ensures { result ≡ ending_of end }
{
    match end {
        End::Done => Ending::Done,
        End::Infeasible => Ending::No,
    }
}

/// A run of so many rounds by no tools, of words from this seed.
fn run_of(alloc: Global, spec: &Spec, seed: u64, rounds: u64) -> Result<Run, AllocError>
    ensures run { IfOk result (RunsAlone spec.now seed rounds) }
    ensures infeasible { IfOk result (λ run. (run.end ≡ End.Infeasible) ↔ FindsNone spec.now rounds) }
{
    let mut words = Pcg32::seed_from_u64(seed);
    let mut tools: Vec<Box<dyn Evaluator>> = Vec::new(alloc);
    let params = Params {
        rounds,
        chosen: Vec::new(alloc),
    };
    explore(alloc, spec, &mut words, &mut tools, &params)
}

/// What the specification of a number comes to when it is explored, said behind the line that says how much it states.
pub(crate) fn explored(
    alloc: Global,
    spec: &Spec,
    number: u64,
    rounds: u64,
    text: Vec<u8>,
) -> Result<Said, AllocError>
    requires made { text.items ≡ spelled (made_words number spec.now) }
    ensures { IfOk result (λ said. Explores number rounds spec.now said.ending said.text.items) }
{
    let run = run_of(alloc, spec, number, rounds)?;
    let mut text = text;
    put_run(alloc, &run, &mut text)?;
    Ok(Said {
        ending: ending_of(run.end),
        text,
    })
}
