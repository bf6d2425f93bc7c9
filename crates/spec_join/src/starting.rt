//! The state before the first statement.

ghost use Rattle.std.specs.Prelude.{◌≡◌, [], IfOk};
ghost use Rattle.arch_reader.specs.Arch.{AllPass, statements_in};
ghost use Rattle.arch_reader.specs.Seen.{seen};
ghost use Rattle.spec_join.specs.Joining.{start};

use crate::joiner::Joiner;
use crate::settings::Settings;
use arch_reader::{ArchLine, scale_or_0};
use graph_plan::{message_kinds, task_kinds, with_graphs};
use std::alloc::{AllocError, Global};
use tgff_reader::Tgff;

/// The hop limit of a message for which none is stated.
const NO_LIMIT: u64 = 9_223_372_036_854_775_807;

impl<'a> Joiner<'a> {
    /// The state before the first statement: the objectives of all statements, and the graphs.
    pub(crate) fn start(
        alloc: Global,
        tgff: &'a Tgff,
        lines: &[ArchLine],
    ) -> Result<Joiner<'a>, AllocError>
        requires { AllPass [] lines.now }
        ensures { IfOk result (λ joiner. joiner ≡ start tgff.now (seen (statements_in lines.now))) }
    {
        let settings = Settings::of(alloc, lines)?;
        let task_kinds = task_kinds(alloc, tgff)?;
        let message_kinds = message_kinds(alloc, tgff)?;
        let clock = scale_or_0(settings.clock);
        let plan = with_graphs(alloc, settings.plan, tgff, clock)?;
        Ok(Joiner {
            alloc,
            tgff,
            plan,
            task_kinds,
            message_kinds,
            scales: settings.scales,
            floors: settings.floors,
            clock: None,
            hops: NO_LIMIT,
            delay: 0,
        })
    }
}
