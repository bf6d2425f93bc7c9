//! Found lists: the designs that a search for the exact front finds one after another, and the front that they give.
//!
//! Each found design is the first valid one, in the order of the natural genotype, whose vector no found vector covers.
//! The front has those that no other dominates. No solver and no file is known here: the laws lead from models of the
//! encoding and of the blocks to the next found design, and from lines that refute to texts that are accepted.
#![tactic(auto)]

pub mod laws;
