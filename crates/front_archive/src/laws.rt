//! What the definitions imply, as functions that do nothing.

ghost use Rattle.std.specs.Prelude.{◌≡◌, ◌↔◌, ℕ, true, List, length};
ghost use Rattle.spec_model.specs.Vectors.{IsAtMost};
ghost use Rattle.front_archive.specs.AtMost.{at_most};

/// Of vectors of one width the test says which is at most which in each place, and vectors that are at most each other are
/// the same.
pub fn law_of_vectors()
    ensures at_most { (u v : List ℕ) → length u ≡ length v → (at_most u v ≡ true) ↔ IsAtMost u v }
    ensures same { (u v : List ℕ) → at_most u v ≡ true → at_most v u ≡ true → u ≡ v }
{}
