//! What the statements so far declare.

ghost use Rattle.std.specs.Prelude.{◌≡◌, [], OnOk};
ghost use Rattle.arch_reader.specs.Seen.{scale_or_0, seen, after};

use crate::statement::Statement;
use file_bricks::{Items, Text, text_of};
use std::alloc::{AllocError, Global};

/// An objective.
#[derive(Debug, Drop)]
pub struct Objective {
    /// Its name.
    pub name: Text,
    /// Its weights are taken times ten to this.
    pub scale: u64,
    /// Whether the fractions of its weights are cut off.
    pub floor: bool,
}

/// What statements declare, in their order.
#[derive(Debug, Drop)]
pub struct Seen {
    /// The objectives.
    pub objectives: Items<Objective>,
    /// The names of resources.
    pub resources: Items<Text>,
    /// The names of links.
    pub links: Items<Text>,
    /// The scale of the clock that comes first, where there is one.
    pub clock: Option<u64>,
    /// Whether a statement has a time, so that no clock may follow.
    pub is_timed: bool,
}

/// A scale that isn't written is 0.
pub fn scale_or_0(scale: Option<u64>) -> u64
    ensures { result ≡ scale_or_0 scale }
{
    match scale {
        Some(scale) => scale,
        None => 0,
    }
}

impl Seen {
    /// What no statement declares.
    pub fn none(alloc: Global) -> Seen
        ensures { result ≡ seen [] }
    {
        Seen {
            objectives: Items::of(Vec::new(alloc)),
            resources: Items::of(Vec::new(alloc)),
            links: Items::of(Vec::new(alloc)),
            clock: None,
            is_timed: false,
        }
    }

    /// Adds what one more statement declares.
    pub fn add(&mut self, alloc: Global, statement: &Statement) -> Result<(), AllocError>
        ensures { OnOk result (self.new ≡ after self.old statement.now) }
    {
        match statement {
            Statement::Objective { name, scale, floor } => {
                let objective = Objective {
                    name: text_of(alloc, name.list())?,
                    scale: scale_or_0(*scale),
                    floor: *floor,
                };
                self.objectives.push(objective)
            }
            Statement::Resource { name, .. } => self.resources.push(text_of(alloc, name.list())?),
            Statement::Link { name, .. } => self.links.push(text_of(alloc, name.list())?),
            Statement::Clock { scale, .. } => {
                if self.clock.is_none() {
                    self.clock = Some(scale_or_0(*scale));
                }
                Ok(())
            }
            Statement::Map { .. }
            | Statement::Table { .. }
            | Statement::Delay { .. }
            | Statement::Deadline { .. } => {
                self.is_timed = true;
                Ok(())
            }
            _ => Ok(()),
        }
    }
}
