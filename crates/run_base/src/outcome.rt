//! What a command comes to, before anything is written or said.

ghost use Rattle.std.specs.Prelude.{◌≡◌, []};

use file_writes::Writes;
use std::alloc::Global;

/// How a command ends by itself: its words are a request, no file is refused, and nothing cuts it short.
#[derive(Clone, Copy, Debug, PartialEq, Eq)]
pub enum Ending {
    /// What was asked for is said.
    Done,
    /// No design is valid.
    No,
    /// As many lines were derived as the budget has.
    Budget,
}

/// How a command ends, what it says, and which files it writes.
#[derive(Drop)]
pub struct Outcome {
    /// How it ends.
    pub ending: Ending,
    /// What it says.
    pub text: Vec<u8>,
    /// Which files it writes, in order.
    pub writes: Writes,
}

impl Outcome {
    /// What is said alone: no file is written.
    pub fn said(alloc: Global, ending: Ending, text: Vec<u8>) -> Outcome
        ensures ending { result.ending ≡ ending }
        ensures text { result.text.items ≡ text.items }
        ensures writes { result.writes ≡ [] }
    {
        Outcome {
            ending,
            text,
            writes: Writes::none(alloc),
        }
    }
}
