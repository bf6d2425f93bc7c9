//! Genes, and the list of them.

ghost use Rattle.std.specs.Prelude.{◌≡◌, ◌<◌, ◌^◌, length, slice_set, All, IfOk};
ghost use Rattle.spec_model.specs.Genotypes.{natural, plain_gene};
ghost use Rattle.genotype.specs.Genes.{HasPriority};

use std::alloc::{AllocError, Global};
use std::marker::Model;

/// How early a design variable stands in the order, and which value it has first.
///
/// A variable of a higher priority stands earlier. The priorities of a genotype are compared with
/// each other alone.
#[derive(Clone, Copy, Debug, PartialEq, Eq)]
pub struct Gene {
    pub priority: u32,
    pub phase: bool,
}

impl Model for Gene {
    ghost use Rattle.spec_model.specs.Genotypes.{GeneValue};

    ghost Value = { GeneValue };

    ghost view = { λ g. record { priority = g.priority; phase = g.phase } };

    ghost inverse = { λ v. record { priority = v.priority; phase = v.phase } };
}

/// The genes of the design variables, by number.
#[derive(Drop)]
pub struct Genotype {
    genes: Vec<Gene>,
}

impl Model for Genotype {
    ghost use Rattle.std.specs.Prelude.{List, All};
    ghost use Rattle.spec_model.specs.Genotypes.{GeneValue};
    ghost use Rattle.genotype.specs.Genes.{HasPriority};

    ghost Value = { List GeneValue };

    ghost view = { λ g. g.genes.items };

    ghost invariant = { λ g. All HasPriority g.genes.items };
}

/// The gene of a variable that isn't named.
pub(crate) fn plain_gene() -> Gene
    ensures { result ≡ plain_gene }
{
    Gene {
        priority: 0,
        phase: false,
    }
}

impl Genotype {
    /// The genotype of `n` variables that stand by number, false first.
    pub fn natural(alloc: Global, n: u64) -> Result<Genotype, AllocError>
        ensures { IfOk result (λ g. g ≡ natural n) }
    {
        let mut genes = Vec::new(alloc);
        for _variable in 0..n {
            genes.push(plain_gene())?;
        }
        Ok(Genotype { genes })
    }

    /// The genes, by the number of their variable.
    pub fn genes(&self) -> &[Gene]
        ensures genes { result.now ≡ self.now }
        ensures small { All HasPriority self.now }
        ensures few { length self.now < 2 ^ 63 }
    {
        &self.genes
    }

    /// Changes the gene of a variable.
    pub fn set(&mut self, v: u64, gene: Gene)
        requires { v < length self.old }
        ensures { self.new ≡ slice_set self.old v gene }
    {
        let _priority = gene.priority;
        self.genes[v as usize] = gene;
    }
}
