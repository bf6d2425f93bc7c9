//! The top call: from the words of a command line to what is said and the status.
//!
//! `top` has the call `run`: it reads the words, loads the files that they name, asks the command, writes the files that
//! this comes to, and says its text. `commands` is where the commands come together, `decode` has the one that is
//! there and `search` its search, `exploring` the tools that a run is handed, and `refusing` the line that refuses a file. The request of
//! a command line stands in the crate `run_words`, and what each command stands on in `run_base`.
#![tactic(auto)]

mod commands;
mod decode;
mod exploring;
mod refusing;
mod search;
mod status;
#[cfg(test)]
mod tests;
mod top;

pub use status::Status;
pub use top::run;
