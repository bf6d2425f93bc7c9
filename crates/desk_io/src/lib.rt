//! The outside of the program as a value: files by name, what was said, and a count of faults.
//!
//! All that the program reads and writes goes through the trait [`Desk`], whose contracts say what
//! each call does to the files, to what was said and to the count. [`MemoryDesk`] holds all of it in
//! memory and can be told which of its calls fail, [`SureDesk`] holds it in memory and never fails,
//! and [`RealDesk`] adapts the files and the standard output of the machine.
#![tactic(auto)]

mod desk;
mod held;
mod memory;
mod real;
mod sure;

pub use desk::{Desk, DeskError};
pub use held::names_are_distinct;
pub use memory::MemoryDesk;
pub use real::RealDesk;
pub use sure::SureDesk;
