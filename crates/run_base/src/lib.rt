//! What each command stands on: the files that its line names, what these read as, and what a command comes to.
//!
//! `loading` loads one file from a desk, with the limit of its bytes, `inputs` all files of a line, and `reading` says
//! what they read as. From there on no command knows of a desk: it makes an `Outcome` of its `Inputs`, or hands on the
//! refusal of a file. Who says the outcome or the refusal is the top call, which before writes the files of the outcome.
#![tactic(auto)]

mod inputs;
mod loading;
mod outcome;
mod reading;

pub use inputs::{Inputs, Names, load_inputs};
pub use loading::{Loaded, load};
pub use outcome::{Ending, Outcome};
pub use reading::{read_genes, read_spec, short_bytes};
