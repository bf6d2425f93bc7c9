//! The command `front`: the front of the files' specification, written with its proof.
//!
//! `fronting` has the command over the loaded files. `specs/Fronting.antt` says over contents alone what it comes to, and
//! which two files it writes. The search itself, and what it shows, stand in `front_search`.
#![tactic(auto)]

mod fronting;

pub use fronting::{Wanted, front};
