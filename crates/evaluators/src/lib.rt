//! What is measured of a valid design beyond its objectives, by tools that a caller holds in boxes.
//!
//! [`Evaluator`] is what every such tool promises: which value it has of a design, and that measuring changes nothing but
//! how often it was called. The four tools of this crate measure a list schedule (Graham, 1969, with tasks by rising depth)
//! and what the links and the processors carry.
#![tactic(auto)]

mod binding;
mod chains;
mod evaluator;
mod receiving;
mod sums;
mod timetable;
mod tools;
mod walks;

pub use evaluator::Evaluator;
pub use tools::{HopSum, Lateness, Makespan, PeakLoad};
