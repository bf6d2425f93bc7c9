//! Designs, the rules that a valid one meets, and the vector of a design.
#![tactic(auto)]

mod allocation;
mod binding;
mod design;
mod routes;
mod rules;
mod vector;
mod walks;

pub use design::Design;
pub use rules::{Rule, first_broken};
pub use vector::{vector_at, vector_of};
