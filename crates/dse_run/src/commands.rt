//! Where the commands come together: a line for each.

ghost use Rattle.std.specs.Prelude.{◌≡◌, ◌⊎◌, ◌≤◌, ◌-◌, ◌^◌, All, Some, IfOk, map, vec_len};
ghost use Rattle.desk_io.specs.Causes.{HasCause};
ghost use Rattle.run_words.specs.Fit.{IsFit};
ghost use Rattle.run_words.specs.Values.{request_value};
ghost use Rattle.run_words.specs.Exploring.{most_rounds};
ghost use Rattle.run_base.specs.Worlds.{World, AreLoaded, names_value};
ghost use Rattle.check_run.specs.Calls.{NoneFailed};
ghost use Rattle.dse_run.specs.Commands.{AreLoadedFor, ComesTo, KeepsTools, MayCall, names_of};

use crate::decode::decode;
use crate::exploring::explored;
use crate::search::Evidence;
use check_run::check;
use desk_io::{Desk, DeskError};
use evaluators::Evaluator;
use explore_run::Wanted as Exploration;
use front_run::{Wanted, front};
use line_words::ReadFault;
use make_run::{Wanted as Making, make};
use run_base::{Inputs, Loaded, Names, Outcome, load_inputs};
use run_words::Request;
use std::alloc::Global;

/// The files that a request names.
pub(crate) fn names_of<'a>(request: &'a Request) -> Names<'a>
    ensures { names_value result ≡ names_of (request_value request.entry.now) }
{
    match request {
        Request::Decode {
            tgff,
            arch,
            geno,
            ..
        } => Names {
            tgff: tgff.as_str(),
            arch: arch.as_str(),
            third: geno.as_str(),
        },
        Request::Explore { tgff, arch, .. } => Names {
            tgff: tgff.as_str(),
            arch: arch.as_str(),
            third: "-",
        },
        Request::Front { tgff, arch, .. } => Names {
            tgff: tgff.as_str(),
            arch: arch.as_str(),
            third: "-",
        },
        Request::Check {
            tgff,
            arch,
            front_file,
            ..
        } => Names {
            tgff: tgff.as_str(),
            arch: arch.as_str(),
            third: front_file.as_str(),
        },
        Request::Make { .. } => Names {
            tgff: "-",
            arch: "-",
            third: "-",
        },
    }
}

/// The files of a request, loaded: `make` reads none, so that nothing is loaded for it.
pub(crate) fn inputs_for<D: Desk>(
    alloc: Global,
    desk: &mut D,
    request: &Request,
    names: &Names<'_>,
) -> Result<Inputs, DeskError>
    requires named { names_value names.now ≡ names_of (request_value request.now) }
    ensures loaded { IfOk result (AreLoadedFor (D.files desk.old) (request_value request.now)) }
    ensures files { D.files desk.new ≡ D.files desk.old }
    ensures said { D.said desk.new ≡ D.said desk.old }
    ensures cause { HasCause (D.faults desk.old) (D.faults desk.new) result }
{
    match request {
        Request::Make { .. } => Ok(Inputs {
            tgff: None,
            arch: Loaded::Bytes(Vec::new(alloc)),
            third: None,
        }),
        Request::Decode { .. } | Request::Explore { .. } => load_inputs(alloc, desk, names),
        Request::Front { .. } | Request::Check { .. } => load_inputs(alloc, desk, names),
    }
}

/// What a request comes to, or what a call gave up for: a command reads those files itself that aren't loaded whole.
#[tactic(auto, using(crate::proofs::Keeping::same_kept))]
pub(crate) fn answer<D: Desk>(
    alloc: Global,
    desk: &mut D,
    request: &Request,
    inputs: &Inputs,
    tools: &mut Vec<Box<dyn Evaluator>>,
) -> Result<Result<Outcome, ReadFault>, DeskError>
    requires fit { IsFit (vec_len tools.old) (request_value request.now) }
    requires room { All (λ n. n ≤ 2 ^ 63 - most_rounds) (map calls tools.old.items) }
    ensures comes { IfOk result (λ tried. (world : World) → AreLoaded inputs.now world → ComesTo (request_value request.now) (record { tags = map text tools.old.items; calls = map calls tools.old.items; values = λ s f. map (λ t. value t s f) tools.old.items }) (map calls tools.new.items) (D.files desk.old) world tried) }
    ensures kept { KeepsTools (Some (request_value request.now)) (record { tags = map text tools.old.items; calls = map calls tools.old.items; values = λ s f. map (λ t. value t s f) tools.old.items }) (record { tags = map text tools.new.items; calls = map calls tools.new.items; values = λ s f. map (λ t. value t s f) tools.new.items }) }
    ensures files { D.files desk.new ≡ D.files desk.old }
    ensures said { D.said desk.new ≡ D.said desk.old }
    ensures cause { HasCause (D.faults desk.old) (D.faults desk.new) result }
    ensures late { (world : World) → AreLoaded inputs.now world → MayCall (request_value request.now) world ⊎ NoneFailed (D.faults desk.old) (D.faults desk.new) result }
{
    match request {
        Request::Decode {
            budget,
            proof_file,
            ..
        } => {
            let wanted = Evidence {
                budget: *budget,
                proof_file: proof_file.as_deref(),
            };
            Ok(decode(alloc, inputs, wanted))
        }
        Request::Explore {
            rounds,
            seed,
            chosen,
            proof_file,
            ..
        } => {
            let wanted = Exploration {
                rounds: *rounds,
                seed: *seed,
                chosen,
                proof_file: proof_file.as_deref(),
            };
            Ok(explored(alloc, inputs, tools, wanted))
        }
        Request::Front {
            front_file,
            proof_file,
            budget,
            ..
        } => {
            let wanted = Wanted {
                budget: *budget,
                front_file: front_file.as_str(),
                proof_file: proof_file.as_str(),
            };
            Ok(front(alloc, inputs, wanted))
        }
        Request::Check { proof_file, .. } => check(alloc, desk, inputs, proof_file.as_str()),
        Request::Make {
            number,
            arch,
            rounds,
        } => {
            let wanted = Making {
                number: *number,
                arch: arch.as_str(),
                rounds: *rounds,
            };
            Ok(make(alloc, wanted))
        }
    }
}
