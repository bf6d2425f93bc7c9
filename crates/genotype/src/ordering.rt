//! The order of a solver's variables that a genotype gives.
//!
//! The variables with genes stand first, by falling priority and equal priorities by number, each
//! with its gene's phase. The solver's other variables follow by number, false first. A stable sort
//! of the variables by number keeps equal priorities in order.

ghost use Rattle.std.specs.Prelude.{◌≡◌, ℕ, ◌+◌, ◌-◌, ◌<◌, ◌≤◌, ◌^◌, ◌++◌, length, map, All, IfOk, OnOk};
ghost use Rattle.std.specs.List.{range_with_len};
ghost use Rattle.std.specs.List.Sorted.{IsPermutation, IsNonDecreasingBy};
ghost use Rattle.pb_rules.specs.Literal.{Literal};
ghost use Rattle.spec_model.specs.Spec.{below};
ghost use Rattle.genotype.specs.Genes.{HasPriority};
ghost use Rattle.variable_order.specs.Order.{var_of, IsOrder};
ghost use Rattle.genotype.specs.Order.{IsOrderOf};
ghost use Rattle.genotype.specs.Placing.{literals_of, lateness, other_literal, IsLed};

use crate::genes::{Gene, Genotype};
use pb_rules::Lit;
use std::alloc::{AllocError, Global};
use variable_order::Order;

fn literal(var: u64, phase: bool) -> Lit
    requires { var < 2 ^ 62 }
    ensures { result ≡ record { var = var; yes = phase } }
{
    if phase { Lit::yes(var) } else { Lit::no(var) }
}

/// The variables with genes, by number.
fn by_number(alloc: Global, genes: &[Gene]) -> Result<Vec<Lit>, AllocError>
    requires { length genes.now ≤ 2 ^ 62 }
    ensures { IfOk result (λ v. v.items ≡ literals_of genes.now) }
{
    let mut literals = Vec::new(alloc);
    for (v, gene) in genes.iter().enumerate() {
        literals.push(literal(v as u64, gene.phase))?;
    }
    Ok(literals)
}

/// How far a priority is below the highest one.
fn lateness(genes: &[Gene], literal: &Lit) -> u32
    ensures { result ≡ lateness genes.now literal.now }
{
    match genes.get(literal.var() as usize) {
        Some(gene) => u32::MAX - gene.priority,
        None => u32::MAX,
    }
}

/// The variables with genes, in their order.
fn leading(alloc: Global, genes: &[Gene]) -> Result<Vec<Lit>, AllocError>
    requires few { length genes.now ≤ 2 ^ 62 }
    requires small { All HasPriority genes.now }
    ensures { IfOk result (λ v. IsLed genes.now v.items) }
{
    let mut literals = by_number(alloc, genes)?;
    literals.sort_by_key(|literal| lateness(genes, literal))?;
    Ok(literals)
}

/// Adds the variables from the number of the present ones on.
fn add_others(literals: &mut Vec<Lit>, variables: u64) -> Result<(), AllocError>
    requires few { variables ≤ 2 ^ 62 }
    requires more { length literals.old.items ≤ variables }
    ensures { OnOk result (literals.new.items ≡ literals.old.items ++ map other_literal (range_with_len (length literals.old.items) (variables - length literals.old.items))) }
{
    for var in literals.len() as u64..variables {
        literals.push(Lit::no(var))?;
    }
    Ok(())
}

impl Genotype {
    /// The order of `variables` variables that the genotype gives: its own by falling priority, of equal
    /// priorities the lower number first, then the others by number with phase false.
    ///
    /// A list of more than 2^62 literals has no memory.
    pub fn order_of(&self, alloc: Global, variables: u64) -> Result<Order, AllocError>
        requires { length self.now ≤ variables }
        ensures { IfOk result (IsOrderOf self.now variables) }
    {
        if variables > 1 << 62 {
            return Err(AllocError);
        }
        let mut literals = leading(alloc, self.genes())?;
        add_others(&mut literals, variables)?;
        Ok(Order::new(literals))
    }
}
