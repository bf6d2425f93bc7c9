//! An archive of implementations, none of whose vectors is at most another: what a search keeps of all that it was offered.
//!
//! The archive of a multi-objective search holds the offered members that no other dominates, one for each vector (an
//! unbounded archive of Pareto optimal points; Knowles and Corne, 2003). Its vectors stand in columns beside the members,
//! and an offer is compared with a group of them at a time.
#![tactic(auto)]

mod archive;
pub mod laws;
mod member;

pub use archive::{Archive, Offer};
pub use member::Member;
