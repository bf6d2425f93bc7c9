//! Tests of a line, in the order of the refusals' numbers.

ghost use Rattle.std.specs.Prelude.{◌≡◌};
ghost use Rattle.line_words.specs.Rules.{first_broken};

use line_words::Why;

/// The first test that is broken: each is what it refuses for, and whether it is broken.
pub fn first_broken(tests: &[(Why, bool)]) -> Option<Why>
    ensures { result ≡ first_broken tests.now }
{
    let mut left = tests;
    'tests: while let [(why, broken), more @ ..] = left {
        if *broken {
            return Some(*why);
        }
        left = more;
    }
    None
}
