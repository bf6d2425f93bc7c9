//! Joins the graphs and tables of a TGFF file and the statements of an architecture file to a
//! specification.
//!
//! `join` puts the graphs in front, and carries the statements out in the order of their lines.
//! What each of them makes of what those before it made is `effect` of `specs/Effects.antt`, and
//! what it is refused for stands in `specs/Refusals.antt`, cause by cause; `specs/Reading.antt` puts
//! both together. What the reader of the file tested already isn't tested again: `specs/Fits.antt`
//! has it of each statement.
//! `joiner` has the state and `starting` makes its first one, `weights`, `items`, `changes`,
//! `messages`, `merging`, `tables` and `quantities` carry out one kind of statement each, `joining`
//! goes over the lines once. What a table line is refused for is found in `table_faults`, before
//! anything is made of it.
#![tactic(auto)]

mod changes;
mod faults;
mod items;
mod joiner;
mod joining;
mod lookups;
mod merging;
mod messages;
mod quantities;
mod settings;
mod starting;
mod statements;
mod table_faults;
mod tables;
mod weights;

pub use joining::join;
