//! What a specification, a design and a valid design are: the definitions that the contracts of the other crates
//! cite. [`laws`] says what follows from them, and `limits` has its limits as constants; the crate has no other code.
#![tactic(auto)]

pub mod laws;
mod limits;

pub use limits::{
    MOST_LINKS, MOST_MESSAGES, MOST_NUMBER, MOST_OBJECTIVES, MOST_OPTIONS, MOST_RESOURCES,
    MOST_TASKS, MOST_TERMS, MOST_VARIABLES,
};
