//! Exploration: an evolutionary search over genotypes, each of which is decoded into the first valid design in its order
//! (SAT decoding; Lukasiewycz and others, 2007).
//!
//! In each round a genotype is drawn at random, or bred from two members of the archive; its design is measured by the
//! chosen tools and offered to the archive. All that is drawn comes from a stream of words, so a run can be repeated.
#![tactic(auto)]

mod breeding;
mod history;
pub mod laws;
mod measuring;
mod objectives;
mod run;

pub use history::History;
pub use run::{End, Params, Run, explore};
