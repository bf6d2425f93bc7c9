//! The words on plain lists that the definitions of several crates share, and lemmas on numbers and results that their
//! proofs share. It has no code.
#![tactic(auto)]
