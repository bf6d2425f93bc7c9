//! Implementations and fronts as text. An implementation has a line for each true design variable of a design, and the
//! line of its vector; a front has its entries, each an implementation under its number.
//!
//! A result text has one spelling. `print_design` writes it, and `read_implementation` takes exactly what
//! `print_design` writes, gives the printed design and vector back, and refuses every other text by its lowest line.
//! So do `print_front` and `read_front`. Whether a design is valid, and entries are a front, isn't asked here.
#![tactic(auto)]

mod entries;
mod front_lines;
mod front_printing;
mod front_reading;
mod fronts;
mod items;
mod places;
mod printing;
mod reading;
mod vectors;

pub use entries::{Entry, Vector};
pub use front_printing::print_front;
pub use front_reading::read_front;
pub use fronts::{Entries, Front};
pub use printing::print_design;
pub use reading::read_implementation;
