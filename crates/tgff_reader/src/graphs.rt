//! The task graphs of a file, and which indices they have.

ghost use Rattle.std.specs.Prelude.{◌≡◌, ◌++◌, ◌∷◌, [], OnOk, OnErr};
ghost use Rattle.std.specs.List.{list_any};
ghost use Rattle.tgff_reader.specs.Looking.{is_graph};

use crate::file::Graph;
use indexmap::IndexSet;
use std::alloc::{AllocError, Global};
use std::marker::Model;

/// Task graphs in the order of the file, seen as their list. Their indices stand beside them, so that one is found
/// without a look at all graphs.
#[derive(Debug, Drop)]
pub struct Graphs {
    list: Vec<Graph>,
    indices: IndexSet<u64>,
}

impl Model for Graphs {
    ghost use Rattle.std.specs.Prelude.{List};
    ghost use Rattle.tgff_reader.specs.Places.{AreIndices};
    ghost use Rattle.tgff_reader.specs.declared.file.Graph.{Graph};

    ghost Value = { List Graph };

    ghost view = { λ g. g.list.items };

    ghost invariant = { λ g. AreIndices g.indices.keys g.list.items };
}

impl Graphs {
    /// No graphs. It takes no memory.
    pub(crate) fn none(alloc: Global) -> Graphs
        ensures { result ≡ [] }
    {
        Graphs {
            list: Vec::new(alloc),
            indices: IndexSet::new(alloc),
        }
    }

    /// All graphs, in the order of the file.
    pub fn list(&self) -> &[Graph]
        ensures { result.now ≡ self.now }
    {
        &self.list
    }

    /// Whether there is a graph of an index.
    pub(crate) fn has(&self, index: u64) -> bool
        ensures { result ≡ list_any (is_graph index) self.now }
    {
        self.indices.contains(&index)
    }

    /// Puts one more graph at the end.
    pub(crate) fn push(&mut self, graph: Graph) -> Result<(), AllocError>
        ensures pushed { OnOk result (self.new ≡ self.old ++ graph ∷ []) }
        ensures err { OnErr result (self.new ≡ self.old) }
    {
        self.list.reserve(1)?;
        self.indices.insert(graph.index)?;
        self.list.push_reserved(graph);
        Ok(())
    }
}
