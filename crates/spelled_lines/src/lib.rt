//! Lines of texts that have one spelling: cut at LF, and their words between single spaces.
//!
//! A result text and a proof file are written in such lines. `specs/Lines.antt` says what the pieces of a text are, what
//! their words are, and how words are spelled as a line; `proofs/Spelled.antt` that spelled words are read again, and
//! `proofs/Ended.antt` that a piece with its LF is its words, spelled.
#![tactic(auto)]

mod pieces;

pub use pieces::{body_of, first_piece, has_bad_byte, has_empty, lacks_lf, words_of};
