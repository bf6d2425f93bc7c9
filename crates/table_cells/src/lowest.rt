//! The lower of two refusals.

ghost use Rattle.std.specs.Prelude.{◌≡◌};
ghost use Rattle.table_cells.specs.Least.{lower, lower_of};

use line_words::Why;

/// The lower of two refusals.
fn lower(a: Why, b: Why) -> Why
    ensures { result ≡ lower a b }
{
    if b.rank() < a.rank() { b } else { a }
}

/// The lower of two refusals, where there are any: that of the lower number.
pub fn lower_of(a: Option<Why>, b: Option<Why>) -> Option<Why>
    ensures { result ≡ lower_of a b }
{
    match (a, b) {
        (None, b) => b,
        (a, None) => a,
        (Some(a), Some(b)) => Some(lower(a, b)),
    }
}
