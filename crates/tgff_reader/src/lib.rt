//! Reads TGFF files: task graphs, and the tables of processors and communication.
//!
//! `read_tgff` gives the graphs and tables of a file, or refuses it at the first line that breaks a
//! rule. `shapes` says what a line's words are, `faults` tries the line after what the lines before
//! it state, `taking` adds what it states, and `reading` goes over the lines once. The definition of
//! all this is `specs/Tgff.antt`, with one test for each cause of a refusal in `specs/Faults.antt`;
//! what holds of each file that was read is `specs/Facts.antt`. The words of a table are looked at
//! only by those who use them.
#![tactic(auto)]

mod faults;
mod file;
mod graphs;
mod keyword;
pub mod laws;
mod looking;
mod open_graph;
mod reading;
mod rows;
mod shapes;
mod state;
mod tables;
mod taking;
mod words;

pub use file::{Graph, Row, Table, Tgff, TgffArc, TgffDeadline, TgffTask};
pub use graphs::Graphs;
pub use reading::read_tgff;
pub use rows::Rows;
pub use tables::Tables;
