//! The vectors of a run, by round.

ghost use Rattle.std.specs.Prelude.{◌≡◌, ◌++◌, [], ◌∷◌, OnOk, OnErr};

use result_text::Vector;
use std::alloc::{AllocError, Global};
use std::marker::Model;

/// The vectors of the designs that a run decoded, in the order of its rounds.
#[derive(Drop)]
pub struct History {
    vectors: Vec<Vector>,
}

impl Model for History {
    ghost use Rattle.std.specs.Prelude.{List, ℕ};

    ghost Value = { List (List ℕ) };

    ghost view = { λ h. h.vectors.items };
}

impl History {
    /// A history without rounds. It takes no memory.
    pub(crate) fn new(alloc: Global) -> History
        ensures { result ≡ [] }
    {
        History {
            vectors: Vec::new(alloc),
        }
    }

    /// The vectors, by round.
    pub fn vectors(&self) -> &[Vector]
        ensures { result.now ≡ self.now }
    {
        &self.vectors
    }

    /// Adds the vector of a round. Where there is no memory the history is as before.
    pub(crate) fn add(&mut self, vector: Vector) -> Result<(), AllocError>
        ensures ok { OnOk result (self.new ≡ self.old ++ vector ∷ []) }
        ensures err { OnErr result (self.new ≡ self.old) }
    {
        self.vectors.push(vector)?;
        Ok(())
    }
}
