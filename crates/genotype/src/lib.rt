//! Genotypes: genes, their text, and the order of the variables that they give.
//!
//! A genotype says of each design variable how early it is decided and which value it has first.
//! `Genotype::order_of` makes the order of a solver's variables from it, which the solver decides along;
//! `read_genotype` and `print_genotype` read and write the text that a user edits. `Genotype::random`
//! and `Genotype::child` draw genes from a stream of words.
#![tactic(auto)]

mod draws;
mod genes;
pub mod laws;
mod ordering;
mod printing;
mod reading;
mod stated;
mod words;

pub use draws::below;
pub use genes::{Gene, Genotype};
pub use printing::print_genotype;
pub use reading::read_genotype;
pub use words::{ListWords, Words};
