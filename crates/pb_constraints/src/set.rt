//! Lists of constraints over numbered variables.

ghost use Rattle.std.specs.Prelude.{◌≡◌, ◌++◌, ◌∷◌, [], OnOk, OnErr, All};
ghost use Rattle.pb_rules.specs.Linear.{Linear};
ghost use Rattle.pb_constraints.specs.Sets.{SetValue, IsBelow};

use crate::Constraint;
use std::alloc::{AllocError, Global};
use std::marker::Model;

/// Constraints in order, each over the variables below a number.
#[derive(Drop, Debug)]
pub struct Set {
    variables: u64,
    constraints: Vec<Constraint>,
}

impl Model for Set {
    ghost use Rattle.std.specs.Prelude.{All};
    ghost use Rattle.pb_constraints.specs.Sets.{SetValue, IsBelow};

    ghost Value = { SetValue };

    ghost view = { λ s. record { variables = s.variables; constraints = s.constraints.items } };

    ghost invariant = { λ s. All (IsBelow s.variables) s.constraints.items };
}

impl Set {
    /// No constraint yet, over the variables below a number. It takes no memory.
    pub fn new(alloc: Global, variables: u64) -> Set
        ensures { result ≡ record { variables = variables; constraints = [] } }
    {
        Set {
            variables,
            constraints: Vec::new(alloc),
        }
    }

    /// Adds a constraint last. It is refused only for want of memory, and then the set is as it was.
    pub fn add(&mut self, constraint: Constraint) -> Result<(), AllocError>
        requires { IsBelow self.old.variables constraint }
        ensures ok { OnOk result (self.new ≡ record self.old { constraints = self.old.constraints ++ constraint ∷ [] }) }
        ensures err { OnErr result (self.new ≡ self.old) }
    {
        self.constraints.push(constraint)?;
        Ok(())
    }

    /// The number of variables.
    pub fn variables(&self) -> u64
        ensures value { result ≡ self.now.variables }
        ensures below { All (IsBelow self.now.variables) self.now.constraints }
    {
        self.variables
    }

    /// The constraints in order.
    pub fn constraints(&self) -> &[Constraint]
        ensures value { result.now ≡ self.now.constraints }
        ensures below { All (IsBelow self.now.variables) self.now.constraints }
    {
        self.constraints.as_slice()
    }

    /// The constraints in order, moved out of the set. It takes no memory.
    pub fn into_constraints(self) -> Vec<Constraint>
        ensures value { result.items ≡ self.constraints }
        ensures below { All (IsBelow self.variables) self.constraints }
    {
        self.constraints
    }
}
