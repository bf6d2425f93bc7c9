//! Bricks of a file reader, over the lines and words of `line_words`.
//!
//! `words_of` gives a line's words, `is_headed` tests its header, `keyword_in` looks a word up among
//! keywords, `first_broken` finds the test that refuses, and `numbers` reads words as numbers. `Text` and `Items` hold what was read.
//! `specs/Headed.antt` has the rules of a file that begins with a header, whose words the rules of
//! later lines are given. `proofs/Deciding.antt` says what holds where no test is broken, and
//! `proofs/Written.antt` that a line which is written is read as its words.
#![tactic(auto)]

mod numbers;
mod tests;
mod texts;
mod words;

pub use numbers::{
    decimal_in, is_bad, is_bad_decimal, is_bad_whole, is_big, is_big_decimal, is_big_whole,
    whole_in,
};
pub use tests::first_broken;
pub use texts::{Items, Text, text_of, texts_of};
pub use words::{is_headed, keyword_in, word_at, words_of};
