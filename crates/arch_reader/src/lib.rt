//! Reads architecture files: objectives, resources, links, tasks, messages, options and deadlines.
//!
//! `read_arch` gives the statements of a file, or refuses it at the first line that breaks a rule.
//! `shapes` finds the form of a line's words, `rules` tries the statement after what `seen` has of
//! the statements before it, and `reading` goes over the lines once. The definition of all this is
//! `specs/Arch.antt`, with one test for each cause of a refusal in `specs/Tests.antt`. Tables and
//! the names of tasks and messages aren't looked at here.
#![tactic(auto)]

mod file;
mod form;
mod keyword;
mod numbers;
mod parts;
mod reading;
mod rules;
mod seen;
mod shapes;
mod statement;
mod words;

pub use file::ArchFile;
pub use numbers::{at_scale, has_fraction_at};
pub use reading::read_arch;
pub use seen::scale_or_0;
pub use statement::{ArchLine, KeyAmount, KeyColumn, Statement};
