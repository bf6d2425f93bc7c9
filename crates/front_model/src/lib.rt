//! Fronts and the proofs that come with them: what a front claims, which proof texts are accepted with it, and that an
//! accepted front is the front of the specification.
//!
//! `specs/Fronts.antt` has what a front claims and what the front of a specification is, `specs/Proofs.antt` which texts
//! are accepted together, and `specs/Judging.antt` how a proof file is judged line by line with its first fault.
#![tactic(auto)]

pub mod laws;
mod refusals;
mod vectors;

pub use refusals::{FrontRefused, FrontWhy, ProofWhy, Refused, Verdict};
pub use vectors::{is_at_most, stands_before};
