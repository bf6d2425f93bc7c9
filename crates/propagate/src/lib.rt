//! Propagation: pushes the literals that the attached constraints force, until one is in conflict or nothing is
//! forced any more.
//!
//! The rule is unit propagation by slack for pseudo-Boolean constraints (Chai and Kuehlmann): the slack of a
//! constraint is the sum of the coefficients of its literals that are not false, less its degree. Where it is
//! negative there is a conflict, and an unassigned literal whose coefficient is greater than it is forced. Numbers
//! below zero are avoided by the room, which is that sum alone.
//!
//! Rooms are kept and not summed up anew: a literal that becomes false is taken off the rooms of the constraints that
//! it occurs in, and given back where it is taken off the trail. So a run costs what was newly assigned. `counters`
//! keeps the rooms, `occurrences` the constraints of each literal, `waiting` those that are to be looked at, `ranked`
//! the terms of one of them by falling coefficient, `scan` pushes what it forces, and `filling` makes and takes lists.
//!
//! Of a clause of some length two literals are watched instead (`watched`): `watches` keeps these clauses, `lists` those
//! that watch each literal, `visits` looks at those of a literal that became false, and `plain` at all of them where
//! there is no memory for a watch.
//!
//! `propagator` has the public type, over both. Beside its answer a run changes nothing but the end of the trail and what
//! is counted and watched. The trail itself stands in `trail_state`, the constraints that are attached in
//! `constraint_store`, and what follows a conflict in `conflict_graph`.
#![tactic(auto)]

mod counters;
mod filling;
mod lists;
mod occurrences;
mod plain;
mod propagator;
mod ranked;
mod scan;
mod visits;
mod waiting;
mod watched;
mod watches;

pub use propagator::Propagator;
