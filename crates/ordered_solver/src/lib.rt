//! The ordered solver: the first model of pseudo-Boolean constraints in an order of literals, or that there is none.
//!
//! It decides the first literal of the order whose variable has no value, propagates, and learns a clause from each
//! conflict, one line of the log each, until every variable has a value, `0 >= 1` is derived, or the budget of lines is
//! used up. Deciding along a fixed order makes the first model found the first one there is. A call changes the solver's
//! log and its kept clauses alone: the last clauses that were learned are kept for the calls to come, and a given
//! constraint is never dropped.
//!
//! The search is that of Davis, Putnam, Logemann and Loveland, with the learning of Marques-Silva and Sakallah. `engine`
//! has the parts that a search works on, `descent` propagates and decides, `learning` takes a conflict apart,
//! `searching` is the loop over conflicts, `keeping` drops old clauses, and `solver` has the public type. Propagation stands in `propagate`, conflict
//! analysis in `conflict_graph`, and what lines mean in `pb_rules`.
#![tactic(auto)]

mod answer;
mod descent;
mod engine;
mod keeping;
pub mod laws;
mod learning;
mod searching;
mod solver;

pub use answer::Answer;
pub use solver::Solver;
