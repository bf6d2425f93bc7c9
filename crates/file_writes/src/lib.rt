//! The files that a command writes: which, with which bytes, and how they are written.
//!
//! `writes` has the files with what is written into each, and `pieces` writes a proof: line by line as its log has them,
//! so that its text is never whole in memory. What writing leaves, also where it is cut short, stands in
//! `specs/Writes.antt`.
#![tactic(auto)]

mod pieces;
mod writes;

pub use writes::{Content, Write, Writes};
