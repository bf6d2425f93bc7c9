//! The encoding of a specification as pseudo-Boolean constraints, and the blocks of covers: the definitions that the
//! encoder and the laws of the encoding cite. The crate has no code of its own.
#![tactic(auto)]
