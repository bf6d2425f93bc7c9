//! The search for the exact front: a found list, the front that it gives, and a log that refutes all else.
//!
//! One solver has the encoding, and takes after each found design the block of its vector, so that each solve along the
//! natural genotype gives the next found design or shows that none is left. Ruling out what a found vector covers is
//! that of the guided improvement algorithm of Rayside, Estler and Jackson (2009), with no climb to a better design before;
//! what is found first and dominated later is left out of the front. `searching` has the loop over solves, `covering` what follows a found design, `fronts` the undominated
//! entries in their order, and `ending` what comes out. What a front is, and which proofs are accepted, `front_model` says.
#![tactic(auto)]

mod covering;
mod ending;
mod fronts;
mod searching;

pub use ending::{Search, SearchEnd};
pub use searching::search;
