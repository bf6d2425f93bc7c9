//! What the statements of a file say that counts from its start on: the objectives, and the clock.

ghost use Rattle.std.specs.Prelude.{◌≡◌, ◌∷◌, [], Some, IfOk, OnOk};
ghost use Rattle.std.specs.Option.{option_or};
ghost use Rattle.arch_reader.specs.Arch.{AllPass, statements_in};
ghost use Rattle.arch_reader.specs.Seen.{scale_or_0, seen};
ghost use Rattle.spec_join.specs.Joining.{settings_of, with_objectives, with_declared};
ghost use Rattle.spec_join.specs.Fits.{IsDeclarable, IsFitObjective};

use arch_reader::{ArchLine, Statement, scale_or_0};
use spec_graph::{BuildFault, SpecBuilder};
use std::alloc::{AllocError, Global};
use std::marker::Model;

/// A plan of the objectives, their scales, whether the fractions of their weights are cut off, and
/// the scale of all times where one is stated.
#[derive(Drop)]
pub(crate) struct Settings {
    pub(crate) plan: SpecBuilder,
    pub(crate) scales: Vec<u64>,
    pub(crate) floors: Vec<bool>,
    pub(crate) clock: Option<u64>,
}

impl Model for Settings {
    ghost use Rattle.std.specs.Prelude.{◌≡◌, length};
    ghost use Rattle.spec_join.specs.Joining.{SettingsValue};

    ghost Value = { SettingsValue };

    ghost view = { λ s. record { plan = s.plan; scales = s.scales.items; floors = s.floors.items; clock = s.clock } };

    ghost invariant = { λ s. (length s.scales.items ≡ length s.plan.objectives) × (length s.floors.items ≡ length s.plan.objectives) };
}

/// The scale of all times after a line that states one: the first line counts.
pub(crate) fn clock_with(clock: Option<u64>, scale: Option<u64>) -> Option<u64>
    ensures { result ≡ option_or clock (Some (scale_or_0 scale)) }
{
    match clock {
        Some(first) => Some(first),
        None => Some(scale_or_0(scale)),
    }
}

impl Settings {
    /// Nothing yet.
    fn none(alloc: Global) -> Settings
        ensures { result ≡ settings_of (seen []) }
    {
        Settings {
            plan: SpecBuilder::new(alloc),
            scales: Vec::new(alloc),
            floors: Vec::new(alloc),
            clock: None,
        }
    }

    /// Puts an objective into the plan.
    fn objective(&mut self, name: &str, scale: u64, floor: bool) -> Result<(), AllocError>
        requires { IsFitObjective self.old name.now }
        ensures { OnOk result (self.new ≡ with_objectives self.old (record { name = name.now; scale = scale; floor = floor } ∷ [])) }
    {
        self.scales.reserve(1)?;
        self.floors.reserve(1)?;
        match self.plan.objective(name) {
            Ok(()) => {
                self.scales.push_reserved(scale);
                self.floors.push_reserved(floor);
                Ok(())
            }
            Err(fault) => match fault {
                BuildFault::NoMemory => Err(AllocError),
                _ => unreachable!(),
            },
        }
    }

    /// Takes what a statement says of the objectives and the clock.
    fn declare(&mut self, statement: &Statement) -> Result<(), AllocError>
        requires { IsDeclarable self.old statement.now }
        ensures { OnOk result (self.new ≡ with_declared self.old statement.now) }
    {
        match statement {
            Statement::Objective { name, scale, floor } => {
                self.objective(name.list(), scale_or_0(*scale), *floor)
            }
            Statement::Clock { scale, .. } => {
                self.clock = clock_with(self.clock, *scale);
                Ok(())
            }
            _ => Ok(()),
        }
    }

    /// What all statements of a file say of it.
    pub(crate) fn of(alloc: Global, lines: &[ArchLine]) -> Result<Settings, AllocError>
        requires { AllPass [] lines.now }
        ensures { IfOk result (λ settings. settings ≡ settings_of (seen (statements_in lines.now))) }
    {
        let mut settings = Settings::none(alloc);
        for line in lines {
            settings.declare(&line.statement)?;
        }
        Ok(settings)
    }
}
