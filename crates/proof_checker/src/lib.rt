//! Checks a proof against a front, line by line, with code that has no solver.
//!
//! A [`Checker`] is made of a front that may be checked against, takes the lines of a proof one by one, and says at the end
//! whether they prove that the front is the exact one. What each line is judged as stands in `front_model`. Here `checker`
//! has the type, `fronts` what a front is refused for, `lines` takes a line apart, `derivations` and `operations` carry a
//! derived line out on a `stack`, `weakenings` takes a run of
//! words at once, and `covers` judges a cover.
#![tactic(auto)]

mod checker;
mod covers;
mod derivations;
mod faults;
mod fronts;
mod lines;
mod operations;
mod stack;
mod weakenings;

pub use checker::Checker;
pub use faults::{LineFault, StartFault};
pub use front_model::{FrontRefused, FrontWhy, ProofWhy, Refused, Verdict};
