//! Vectors held against each other.

ghost use Rattle.std.specs.Prelude.{◌≡◌, ◌↔◌, length, IsTrue};
ghost use Rattle.spec_model.specs.Vectors.{IsAtMost};
ghost use Rattle.front_model.specs.Fronts.{StandsBefore};

/// Whether a vector stands before another of its length: at the first place at which they differ it is less.
pub fn stands_before(u: &[u64], v: &[u64]) -> bool
    requires { length u.now ≡ length v.now }
    ensures { IsTrue result ↔ StandsBefore u.now v.now }
{
    for j in 0..u.len() {
        if u[j] != v[j] {
            return u[j] < v[j];
        }
    }
    false
}

/// Whether a vector is at most another of its length in each place.
pub fn is_at_most(u: &[u64], v: &[u64]) -> bool
    requires { length u.now ≡ length v.now }
    ensures { IsTrue result ↔ IsAtMost u.now v.now }
{
    for j in 0..u.len() {
        if u[j] > v[j] {
            return false;
        }
    }
    true
}
