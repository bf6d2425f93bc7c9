//! What an implementation text holds.

ghost use Rattle.std.specs.Prelude.{◌≡◌, IfOk};

use impl_rules::Design;
use std::alloc::{AllocError, Global};
use std::marker::Model;

/// The numbers of a vector, one for each objective.
#[derive(Drop)]
pub struct Vector {
    pub(crate) numbers: Vec<u64>,
}

impl Model for Vector {
    ghost use Rattle.std.specs.Prelude.{List, ℕ};

    ghost Value = { List ℕ };

    ghost view = { λ v. v.numbers.items };
}

impl Vector {
    /// A vector of these numbers.
    pub fn of(alloc: Global, numbers: &[u64]) -> Result<Vector, AllocError>
        ensures { IfOk result (λ v. v ≡ numbers.now) }
    {
        let numbers = Vec::from_slice(alloc, numbers)?;
        Ok(Vector { numbers })
    }

    /// The numbers, by objective.
    pub fn numbers(&self) -> &[u64]
        ensures { result.now ≡ self.now }
    {
        &self.numbers
    }
}

/// A design with its vector.
#[derive(Drop)]
pub struct Entry {
    pub design: Design,
    pub vector: Vector,
}

impl Entry {
    /// A copy. It is refused only for want of memory.
    pub fn copy(&self, alloc: Global) -> Result<Entry, AllocError>
        ensures { IfOk result (λ e. e ≡ self.now) }
    {
        let design = self.design.copy(alloc)?;
        let vector = Vector::of(alloc, self.vector.numbers())?;
        Ok(Entry { design, vector })
    }
}
