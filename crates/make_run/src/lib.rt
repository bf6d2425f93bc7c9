//! The command `make`: a specification that is made from a number, written to a file, and explored where that is wanted.
//!
//! `making` has the command: it makes the text, reads it as any other architecture file is read, and says how much it
//! states. `exploring` explores it by no tools, with the same number as the seed, and `saying` has what is said.
//! `specs/Making.antt` says what the command comes to. It reads no file, and is refused for none: reading a made text
//! gives a specification, as `made_laws` says.
#![tactic(auto)]

mod exploring;
mod making;
mod saying;

pub use making::{Wanted, make};
