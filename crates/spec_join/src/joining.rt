//! Joins the statements of an architecture file to a specification.

ghost use Rattle.std.specs.Prelude.{◌≡◌, [], length, IfOk, OnOk, IfErr};
ghost use Rattle.arch_reader.specs.Arch.{AllPass, statements_in};
ghost use Rattle.spec_graph.specs.Plan.{finished};
ghost use Rattle.spec_join.specs.Refusals.{BreaksEnd};
ghost use Rattle.spec_join.specs.Reading.{JoinReads, NoneBreaks, after_all};
ghost use Rattle.spec_join.specs.Stops.{IsRefused, RefusesEnd, AcceptsEnd};

use crate::faults::stop_for;
use crate::joiner::Joiner;
use arch_reader::{ArchFile, ArchLine};
use line_words::{FileTag, ReadFault, Stop};
use spec_graph::Spec;
use std::alloc::Global;
use tgff_reader::Tgff;

/// Carries out the statements of a file in their order.
fn carry_all<'a>(alloc: Global, tgff: &'a Tgff, lines: &[ArchLine]) -> Result<Joiner<'a>, ReadFault>
    requires { AllPass [] lines.now }
    ensures made { IfOk result (λ joiner. joiner ≡ after_all tgff.now lines.now) }
    ensures accepted { OnOk result (NoneBreaks tgff.now (statements_in lines.now) (length lines.now)) }
    ensures refused { IfErr result (IsRefused tgff.now lines.now) }
{
    let mut joiner = Joiner::start(alloc, tgff, lines)?;
    for line in lines {
        match joiner.carry_out(&line.statement) {
            Ok(()) => {}
            Err(stop) => return Err(stop.at_line(FileTag::Arch, line.line)),
        }
    }
    Ok(joiner)
}

/// The specification that the plan becomes.
#[tactic(auto, using(crate::proofs::Ending::end_refused, crate::proofs::Ending::end_accepted))]
fn finish(joiner: Joiner<'_>) -> Result<Spec, Stop>
    ensures finished { IfOk result (λ spec. spec ≡ finished joiner.entry.plan) }
    ensures accepted { OnOk result (AcceptsEnd joiner.entry.plan) }
    ensures refused { IfErr result (RefusesEnd joiner.entry.plan) }
{
    match joiner.plan.finish() {
        Ok(spec) => Ok(spec),
        Err(fault) => Err(stop_for(fault)),
    }
}

/// Joins the graphs and tables of a TGFF file and the statements of an architecture file to a
/// specification.
///
/// The tasks, messages and deadlines of the graphs stand first. Then the statements are carried out
/// in the order of their lines. The first one that is refused is answered with its line and with the
/// lowest that it is refused for: `BadStatement` (a merge of messages of different senders),
/// `UnknownName` (a task, a message or a table that isn't there), `RepeatedName` (a task, a message,
/// or a pair of task and resource that is there already; a name listed twice), `Cyclic`, and
/// `Limit`; for the cells that a table line uses also `BadNumber`, `NoRow`, `NotWhole` and `TooBig`.
/// Where none is refused, the whole may be, at the end line: as `TooBig` where a traffic weight times
/// a quantity is above 2^40, then as `Limit` of `Variables`, then of `Terms`. Otherwise the answer is
/// the specification that the graphs and the statements state.
pub fn join(alloc: Global, tgff: &Tgff, arch: &ArchFile) -> Result<Spec, ReadFault>
    ensures reads { JoinReads tgff.now arch.now result }
{
    arch.facts();
    let joiner = carry_all(alloc, tgff, arch.lines.list())?;
    match finish(joiner) {
        Ok(spec) => Ok(spec),
        Err(stop) => Err(stop.at_line(FileTag::Arch, arch.end_line)),
    }
}
