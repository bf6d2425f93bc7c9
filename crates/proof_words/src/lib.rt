//! The words of a proof file's lines: operations read and printed, and whole lines printed.
//!
//! A line that derives a constraint is `p` and a word for each operation, a cover is `c` and its numbers. Words stand
//! with one space between two, and LF ends a line. `specs/Words.antt` has the one spelling of an operation and the
//! operation that a word says. What a line derives, and whether it is legal, is `pb_rules`'.
#![tactic(auto)]

pub mod laws;
mod printing;
mod reading;

pub use printing::{put_cover, put_derivation, put_op};
pub use reading::{WordOp, read_op};
