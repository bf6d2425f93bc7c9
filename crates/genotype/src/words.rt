//! Streams of words of 32 bits, from which genes are drawn.

ghost use Rattle.std.specs.Prelude.{◌≡◌, ℕ, vec_len, slice_index, nat_lt, ◌+◌, ◌==◌, if◌then◌else◌};
ghost use Rattle.rand_pcg.specs.Pcg.{pcg32};

use rand_core::utils::NextWord;
use rand_pcg::Pcg32;

/// A stream of words: which word a state gives, and which state follows.
pub trait Words {
    ghost gives: { Self → ℕ };

    ghost after: { Self → Self };

    /// The next word.
    fn word(&mut self) -> u32
        ensures word { result ≡ gives self.old }
        ensures after { self.new ≡ after self.old };
}

/// The words of the generator PCG XSH RR 64/32 (O'Neill, 2014).
impl Words for Pcg32 {
    ghost gives = { λ g. (pcg32 g).0 };

    ghost after = { λ g. (pcg32 g).1 };

    fn word(&mut self) -> u32 {
        self.next_word()
    }
}

/// The words of a list, round and round, and 0 where it is empty.
#[derive(Drop)]
pub struct ListWords {
    list: Vec<u32>,
    at: usize,
}

impl ListWords {
    /// The stream that begins with the first word of the list.
    pub fn new(list: Vec<u32>) -> ListWords
        ensures list { result.list ≡ list }
        ensures first { result.at ≡ 0 }
    {
        ListWords { list, at: 0 }
    }
}

impl Words for ListWords {
    ghost gives = { λ s. slice_index s.list.items s.at };

    ghost after = { λ s. record s { at = (if nat_lt s.at (vec_len s.list) then (if s.at + 1 == vec_len s.list then 0 else s.at + 1) else s.at) } };

    fn word(&mut self) -> u32 {
        if self.at < self.list.len() {
            let word = self.list[self.at];
            self.at = if self.at + 1 == self.list.len() {
                0
            } else {
                self.at + 1
            };
            word
        } else {
            0
        }
    }
}
