//! What the lines so far state.

ghost use Rattle.std.specs.Prelude.{◌≡◌};
ghost use Rattle.tgff_reader.specs.Facts.{IsTgff};
ghost use Rattle.tgff_reader.specs.Faults.{is_open};
ghost use Rattle.tgff_reader.specs.After.{start};
ghost use Rattle.tgff_reader.specs.Tgff.{closed_blocks};

use crate::file::{Table, Tgff};
use crate::graphs::Graphs;
use crate::open_graph::OpenGraph;
use crate::tables::Tables;
use std::alloc::Global;

/// The block that is open.
#[derive(Drop)]
pub enum Open {
    Outside,
    InGraph(OpenGraph),
    InTable(Table),
}

/// The blocks that are closed, and how many tasks and arcs there are, those of an open graph too.
#[derive(Drop)]
pub struct Blocks {
    pub graphs: Graphs,
    pub tables: Tables,
    pub tasks: usize,
    pub arcs: usize,
}

/// The block that is open, and those that are closed.
#[derive(Drop)]
pub struct State {
    pub current: Open,
    pub blocks: Blocks,
}

impl State {
    /// What stands before the first line.
    pub(crate) fn start(alloc: Global) -> State
        ensures { result ≡ start }
    {
        State {
            current: Open::Outside,
            blocks: Blocks {
                graphs: Graphs::none(alloc),
                tables: Tables::none(alloc),
                tasks: 0,
                arcs: 0,
            },
        }
    }

    /// Whether a block is open.
    pub(crate) fn is_open(&self) -> bool
        ensures { result ≡ is_open self.now.current }
    {
        match &self.current {
            Open::Outside => false,
            _ => true,
        }
    }

    /// The file of the blocks that are closed.
    pub(crate) fn into_file(self) -> Tgff
        requires { IsTgff (closed_blocks self) }
        ensures { result ≡ closed_blocks self }
    {
        let State { current: _, blocks } = self;
        let Blocks {
            graphs,
            tables,
            tasks: _,
            arcs: _,
        } = blocks;
        Tgff { graphs, tables }
    }
}
