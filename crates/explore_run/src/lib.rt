//! The command `explore`: an evolutionary search over genotypes, each of which is decoded into a design.
//!
//! `exploring` has the command over the loaded files, and `saying` what is said of a run. `specs/Exploring.antt` says over
//! contents alone what the command comes to, and `specs/Saying.antt` its text. The run itself stands in `evo_explore`, and
//! what a proof file of decodings is worth in `proof_files`.
#![tactic(auto)]

mod exploring;
mod saying;

pub use exploring::{Wanted, explore};
