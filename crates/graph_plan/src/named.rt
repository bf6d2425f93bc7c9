//! The names that the names of a graph have in the plan.

ghost use Rattle.std.specs.Prelude.{◌≡◌, IfOk, string_bytes};
ghost use Rattle.names.specs.Names.{IsName};
ghost use Rattle.file_bricks.specs.Words.{IsWord};
ghost use Rattle.graph_plan.specs.Graphs.{name_in};

use std::alloc::{AllocError, Global};

/// The name that a name of a graph has in the plan: the graph's index, a full stop, and the name.
pub(crate) fn name_in(alloc: Global, index: u64, name: &str) -> Result<String, AllocError>
    requires { IsWord name.now }
    ensures bytes { IfOk result (λ text. string_bytes text ≡ name_in index name.now) }
    ensures named { IfOk result (λ text. IsName (string_bytes text)) }
{
    format!(in alloc; "{index}.{name}")
}
