//! The command `check`: whether a front file is accepted with a proof file.
//!
//! `checking` has the command over the loaded files and a desk. `fronts` reads the front file, `proof_file` reads the proof
//! file in pieces of a fixed size, `proof_lines` puts its lines together and hands them to the checker, and `texts` has
//! what is said. `specs/Checking.antt` says over contents alone what the command comes to. No crate below has a solver.
#![tactic(auto)]

mod checking;
mod fronts;
mod proof_file;
mod proof_lines;
mod texts;

pub use checking::check;
