//! What pseudo-Boolean constraints, partial assignments, proof lines and orders mean: the definitions that the
//! solver's crates and the checker share, with the three types that the definitions speak of.
#![tactic(auto)]

ghost use Rattle.std.specs.Prelude.{◌≡◌, ◌<◌, ◌^◌, true, false};
ghost use Rattle.pb_rules.specs.Literal.{Literal, opposite_of};

pub mod laws;

use std::marker::Model;

/// A variable or its opposite. Variables count from 0 and are below 2^62. Both stand in one word, so that a term and an
/// operation take two.
#[derive(Clone, Copy, Debug, PartialEq, Eq)]
pub struct Lit {
    /// Twice the variable, and 1 more where the literal is the variable itself.
    code: u64,
}

impl Model for Lit {
    ghost use Rattle.std.specs.Prelude.{◌<◌, ◌^◌, ◌+◌, ◌*◌, ◌/◌, ◌%◌, ◌==◌, if◌then◌else◌};
    ghost use Rattle.pb_rules.specs.Literal.{Literal};

    ghost Value = { Literal };

    ghost view = { λ l. record { var = l.code / 2; yes = l.code % 2 == 1 } };

    ghost invariant = { λ l. l.code < 2 ^ 63 };

    ghost inverse = { λ v. record { code = 2 * v.var + (if v.yes then 1 else 0) } };
}

impl Lit {
    /// The literal that is true where the variable is.
    pub fn yes(var: u64) -> Lit
        requires { var < 2 ^ 62 }
        ensures { result ≡ record { var = var; yes = true } }
    {
        Lit { code: 2 * var + 1 }
    }

    /// The literal that is true where the variable is false.
    pub fn no(var: u64) -> Lit
        requires { var < 2 ^ 62 }
        ensures { result ≡ record { var = var; yes = false } }
    {
        Lit { code: 2 * var }
    }

    /// The variable.
    pub fn var(&self) -> u64
        ensures value { result ≡ self.now.var }
        ensures small { result < 2 ^ 62 }
    {
        self.code / 2
    }

    /// Whether the literal is the variable itself and not its opposite.
    pub fn is_yes(&self) -> bool
        ensures { result ≡ self.now.yes }
    {
        self.code % 2 == 1
    }

    /// The other literal of the variable.
    pub fn opposite(&self) -> Lit
        ensures { result ≡ opposite_of self.now }
    {
        if self.code % 2 == 1 {
            Lit {
                code: self.code - 1,
            }
        } else {
            Lit {
                code: self.code + 1,
            }
        }
    }
}

/// A coefficient and its literal.
#[derive(Clone, Copy, Debug, PartialEq, Eq)]
pub struct Term {
    pub coef: u64,
    pub lit: Lit,
}

/// An operation of a derived proof line, in reverse Polish notation over a stack of constraints:
/// the rules of cutting planes with saturation (Cook, Coullard and Turán; Chai and Kuehlmann).
#[derive(Clone, Copy, Debug, PartialEq, Eq)]
pub enum Op {
    /// Pushes the constraint with this id.
    Id(u64),
    /// Pushes `l >= 0`.
    Axiom(Lit),
    /// Replaces the top two by their sum.
    Add,
    /// Multiplies the top by a number of at least 1.
    Times(u64),
    /// Divides the top, each number rounded up.
    Divide(u64),
    /// Cuts the top's coefficients down to its degree.
    Saturate,
    /// Removes the top's term of this variable, and takes its coefficient from the degree.
    Weaken(u64),
}
