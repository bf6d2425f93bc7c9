//! One vector compared with one vector.

ghost use Rattle.std.specs.Prelude.{◌≡◌, ◌<◌, length, map, All, vec_len, vec_items};
ghost use Rattle.dominance_lanes.specs.Groups.{is_below_at, is_above_at};

/// Whether the vector at a place is at most `v`.
pub fn is_below(columns: &[Vec<u64>], v: &[u64], k: usize) -> bool
    requires width { length columns.now ≡ length v.now }
    requires room { All (λ c. k < vec_len c) columns.now }
    ensures { result ≡ is_below_at (map vec_items columns.now) v.now k }
{
    for (j, column) in columns.iter().enumerate() {
        if column[k] > v[j] {
            return false;
        }
    }
    true
}

/// Whether `v` is at most the vector at a place.
pub fn is_above(columns: &[Vec<u64>], v: &[u64], k: usize) -> bool
    requires width { length columns.now ≡ length v.now }
    requires room { All (λ c. k < vec_len c) columns.now }
    ensures { result ≡ is_above_at (map vec_items columns.now) v.now k }
{
    for (j, column) in columns.iter().enumerate() {
        if v[j] > column[k] {
            return false;
        }
    }
    true
}
