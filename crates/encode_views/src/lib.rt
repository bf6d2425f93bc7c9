//! From a valid design to its model of the encoding, and back.
//!
//! [`model_of`] gives the one model of a specification's encoding whose design part is a valid design, and
//! [`design_of`] the valid design that is the design part of a model. So the design parts of the models are exactly
//! the valid designs, and each is that of exactly one model. The rows of resources that a message reaches are in
//! `reached`, and their bits in the order of the variables in `models`.
#![tactic(auto)]

mod designs;
mod models;
mod reached;

pub use designs::design_of;
pub use models::model_of;
