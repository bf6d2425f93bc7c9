//! The four tools.

ghost use Rattle.std.specs.Prelude.{◌≡◌, ◌+◌, codes};
ghost use Rattle.spec_model.specs.Schedule.{makespan as makespan_of, lateness as lateness_of, hopsum as hopsum_of, peakload as peakload_of};

use crate::evaluator::Evaluator;
use crate::sums::{hopsum, lateness, peakload};
use crate::timetable::timetable_of;
use impl_rules::Design;
use spec_graph::Spec;
use std::alloc::{AllocError, Global};

/// When the last task ends.
#[derive(Drop)]
pub struct Makespan {
    calls: u64,
}

/// How late a task ends at most for its deadline, 0 where all are in time.
#[derive(Drop)]
pub struct Lateness {
    calls: u64,
}

/// What each message carries, for each arc that it uses, added up.
#[derive(Drop)]
pub struct HopSum {
    calls: u64,
}

/// The greatest sum of the times of the options that are chosen on one resource.
#[derive(Drop)]
pub struct PeakLoad {
    calls: u64,
}

impl Makespan {
    /// A tool that wasn't called yet.
    pub fn new() -> Makespan
        ensures { result.calls ≡ 0 }
    {
        Makespan { calls: 0 }
    }
}

impl Lateness {
    /// A tool that wasn't called yet.
    pub fn new() -> Lateness
        ensures { result.calls ≡ 0 }
    {
        Lateness { calls: 0 }
    }
}

impl HopSum {
    /// A tool that wasn't called yet.
    pub fn new() -> HopSum
        ensures { result.calls ≡ 0 }
    {
        HopSum { calls: 0 }
    }
}

impl PeakLoad {
    /// A tool that wasn't called yet.
    pub fn new() -> PeakLoad
        ensures { result.calls ≡ 0 }
    {
        PeakLoad { calls: 0 }
    }
}

impl Evaluator for Makespan {
    ghost text = { λ _. codes "makespan" };

    ghost calls = { λ it. it.calls };

    ghost value = { λ it s f. makespan_of s f };

    fn tag(&self) -> &str {
        "makespan"
    }

    #[tactic(auto, unfolding(spec_model::specs::Schedule::makespan))]
    fn measure(&mut self, alloc: Global, spec: &Spec, design: &Design) -> Result<u64, AllocError> {
        let table = timetable_of(alloc, spec, design)?;
        self.calls += 1;
        Ok(table.last)
    }
}

impl Evaluator for Lateness {
    ghost text = { λ _. codes "lateness" };

    ghost calls = { λ it. it.calls };

    ghost value = { λ it s f. lateness_of s f };

    fn tag(&self) -> &str {
        "lateness"
    }

    fn measure(&mut self, alloc: Global, spec: &Spec, design: &Design) -> Result<u64, AllocError> {
        let table = timetable_of(alloc, spec, design)?;
        self.calls += 1;
        Ok(lateness(spec, design, &table.ends))
    }
}

impl Evaluator for HopSum {
    ghost text = { λ _. codes "hopsum" };

    ghost calls = { λ it. it.calls };

    ghost value = { λ it s f. hopsum_of s f };

    fn tag(&self) -> &str {
        "hopsum"
    }

    fn measure(&mut self, _alloc: Global, spec: &Spec, design: &Design) -> Result<u64, AllocError> {
        self.calls += 1;
        Ok(hopsum(spec, design))
    }
}

impl Evaluator for PeakLoad {
    ghost text = { λ _. codes "peakload" };

    ghost calls = { λ it. it.calls };

    ghost value = { λ it s f. peakload_of s f };

    fn tag(&self) -> &str {
        "peakload"
    }

    fn measure(&mut self, _alloc: Global, spec: &Spec, design: &Design) -> Result<u64, AllocError> {
        self.calls += 1;
        Ok(peakload(spec, design))
    }
}
