//! The request of a command line.
//!
//! The first word is compared by hand, and the words after it are read by the table of their command, which stands in
//! the command's own module with its line of usage. `specs/` says over words alone which request they are; an option is
//! one more entry of a table.
#![tactic(auto)]

mod check;
mod decode;
mod explore;
mod front;
pub mod laws;
mod make;
mod names;
mod numbers;
mod request;
mod tools;

pub use request::{Request, put_usage, read_words};

#[cfg(test)]
mod tests;
