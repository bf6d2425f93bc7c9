//! The decoder: the first valid design of a specification in a genotype's order, or that no design is valid.
//!
//! A decoder keeps a solver over the specification's encoding and asks it for the first model in the genotype's order of
//! the variables. The design variables lead that order, so that the design part of the first model is the first valid
//! design. `decoded` has the answer and how it stands for the solver's, `decoder` the public type. The encoding stands in
//! `route_encode`, the order in `genotype`, and the search in `ordered_solver`.
#![tactic(auto)]

mod decoded;
mod decoder;
pub mod laws;

pub use decoded::Decoded;
pub use decoder::Decoder;
