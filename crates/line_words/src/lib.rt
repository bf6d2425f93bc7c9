//! Lines, words and numbers of text files, and what a file is refused for.
//!
//! Every file reader stands on this crate. `Lines` gives the lines of a file that have a word, and
//! `Line::words` their words; `whole`, `plain_whole` and `decimal` read a word as a number.
//! `specs/Rules.antt` says what a file is refused for, whatever its kind: the lowest line at which
//! a rule is broken, and there the rule with the lowest number. `proofs/Steps.antt` has the lemmas
//! by which a reader that goes once from left to right is shown to find it.
#![tactic(auto)]

mod decimals;
mod limits;
mod lines;
mod numbers;
mod numerals;
mod refusals;
mod words;

pub use decimals::decimal;
pub use limits::{MOST_FILE_BYTES, MOST_LINE_BYTES, MOST_NAME_BYTES};
pub use lines::{Line, Lines};
pub use numbers::{NumberFault, plain_whole, put_whole, whole};
pub use refusals::{FileTag, ReadFault, Refusal, Refusal1, Stop, What, Why};
pub use words::{LineWords, Word};
