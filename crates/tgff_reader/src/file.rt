//! The task graphs and tables of a file that was read.

ghost use Rattle.std.specs.Prelude.{◌≡◌, [], IfOk};
ghost use Rattle.tgff_reader.specs.Facts.{IsTgff};

use crate::graphs::Graphs;
use crate::rows::Rows;
use crate::tables::Tables;
use file_bricks::{Items, Text};
use std::alloc::{AllocError, Global};
use std::marker::Model;

/// A task of a graph: its name, and its type.
#[derive(Debug, Drop)]
pub struct TgffTask {
    pub name: Text,
    pub kind: u64,
}

/// An arc of a graph, from one of its tasks to another, each by its place from 0.
#[derive(Debug, Drop)]
pub struct TgffArc {
    pub name: Text,
    pub from: usize,
    pub to: usize,
    pub kind: u64,
}

/// A deadline of a task of the graph, by its place. The time is in units of 10 ^ -12.
#[derive(Debug, Drop)]
pub struct TgffDeadline {
    pub task: usize,
    pub at: i128,
    pub hard: bool,
}

/// A task graph. Its period is in units of 10 ^ -12.
#[derive(Debug, Drop)]
pub struct Graph {
    pub index: u64,
    pub period: Option<i128>,
    pub tasks: Items<TgffTask>,
    pub arcs: Items<TgffArc>,
    pub deadlines: Items<TgffDeadline>,
}

/// A row of a table. Its words are read as numbers only where they are used.
#[derive(Debug, Drop)]
pub struct Row {
    pub words: Items<Text>,
}

/// A table. Its rows count from 0.
#[derive(Debug, Drop)]
pub struct Table {
    pub name: Text,
    pub index: u64,
    pub rows: Rows,
}

/// The task graphs and the tables of a file, each in the order of the file.
///
/// Every rule that the reader tests holds of them: names of tasks and of arcs are new in their
/// graph and have at most 64 bytes, arcs and deadlines name tasks of their graph, no arcs of a graph
/// make a cycle, whole numbers are below 2^63, periods and deadlines below 10^15 of either sign, no
/// two blocks have one name and index, and there are at most 1,024 tasks and 2,048 arcs.
#[derive(Debug, Drop)]
pub struct Tgff {
    pub graphs: Graphs,
    pub tables: Tables,
}

impl Model for Tgff {
    ghost use Rattle.tgff_reader.specs.Facts.{TgffValue, IsTgff};

    ghost Value = { TgffValue };

    ghost view = { λ f. record { graphs = f.graphs; tables = f.tables } };

    ghost invariant = { λ f. IsTgff (record { graphs = f.graphs; tables = f.tables }) };
}

impl Table {
    /// The same table, once its block is closed: a row of a type is found in it without a look at all rows.
    pub(crate) fn close(self, alloc: Global) -> Result<Table, AllocError>
        ensures { IfOk result (λ table. table ≡ self) }
    {
        let Table { name, index, rows } = self;
        let rows = rows.close(alloc)?;
        Ok(Table { name, index, rows })
    }
}

impl Tgff {
    /// No graphs and no tables. It takes no memory.
    pub fn none(alloc: Global) -> Tgff
        ensures { result ≡ record { graphs = []; tables = [] } }
    {
        Tgff {
            graphs: Graphs::none(alloc),
            tables: Tables::none(alloc),
        }
    }

    /// What holds of the graphs and tables.
    pub fn facts(&self)
        ensures { IsTgff self.now }
    {
        let _ = &self.graphs;
    }
}
