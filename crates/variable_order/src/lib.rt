//! Orders of variables, along which a solver decides.
//!
//! An `Order` has each variable below a number once, with the value that it has first. What gives the
//! order is nothing to this crate: whoever has the list of literals makes an order of it.
#![tactic(auto)]

ghost use Rattle.std.specs.Prelude.{◌≡◌, length};
ghost use Rattle.variable_order.specs.Order.{IsOrder};

use pb_rules::Lit;
use std::marker::Model;

/// An order of the variables below a number, each with the value that it has first: the literal is
/// the variable where that is true, and else its opposite.
#[derive(Drop)]
pub struct Order {
    literals: Vec<Lit>,
}

impl Model for Order {
    ghost use Rattle.std.specs.Prelude.{List};
    ghost use Rattle.pb_rules.specs.Literal.{Literal};
    ghost use Rattle.variable_order.specs.Order.{IsOrder};

    ghost Value = { List Literal };

    ghost view = { λ o. o.literals.items };

    ghost invariant = { λ o. IsOrder o.literals.items };
}

impl Order {
    /// The order in which the literals stand.
    pub fn new(literals: Vec<Lit>) -> Order
        requires { IsOrder literals.items }
        ensures { result ≡ literals.items }
    {
        Order { literals }
    }

    /// The literals in their order.
    pub fn literals(&self) -> &[Lit]
        ensures literals { result.now ≡ self.now }
        ensures each_once { IsOrder self.now }
    {
        &self.literals
    }

    /// How many variables stand in the order, which are those below this number.
    pub fn variables(&self) -> u64
        ensures count { result ≡ length self.now }
        ensures each_once { IsOrder self.now }
    {
        self.literals.len() as u64
    }
}
