//! A specification as lists of tasks, messages, resources, links and options, and the builder that makes one.
#![tactic(auto)]

mod builder;
mod changes;
mod choices;
mod faults;
mod finish;
mod gathered;
mod held;
mod items;
mod links;
mod listed;
mod lookups;
mod merging;
mod messages;
mod numbers;
mod products;
mod rows;
mod sending;
mod spec;
mod sums;

pub use builder::SpecBuilder;
pub use faults::BuildFault;
pub use line_words::What;
pub use messages::Change;
pub use numbers::{Arc, ArcNo, Choice, LinkNo, MsgNo, OptNo, ResNo, TaskNo};
pub use spec::Spec;
