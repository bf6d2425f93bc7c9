//! Puts the graphs of a TGFF file into a plan: each task and each arc with the index of its graph in front of its name,
//! each arc as a message from its first task to its second one, and each deadline at the clock's scale.
//!
//! What a file of graphs was read for is all that the builder asks of them, so nothing is refused here: names are new,
//! since those of a graph differ and no two graphs have one index, and no message closes a cycle.
#![tactic(auto)]

mod graphs;
mod items;
mod kinds;
mod named;

pub use graphs::with_graphs;
pub use kinds::{message_kinds, task_kinds};
