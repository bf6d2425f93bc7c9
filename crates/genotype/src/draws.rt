//! Genotypes that are drawn from a stream of words: random ones, and the children of two.
//!
//! A child has each gene from one parent or from the other, which is uniform crossover, or a random one in its place
//! about once a child, which is mutation (Syswerda, 1989; Mühlenbein, 1992). Both calls take their memory before they use a
//! word, so that the words which a run has used depend on the genotypes alone.

ghost use Rattle.std.specs.Prelude.{◌≡◌, ◌<◌, ◌/◌, length, true, false, IfOk, OnOk, OnErr};
ghost use Rattle.genotype.specs.Draws.{draw as below_of, gene_of, random_genes, after_words, child_gene as gene_of_child, after_gene, child_genes, after_child};

use crate::genes::{Gene, Genotype};
use crate::words::Words;
use std::alloc::{AllocError, Global};

/// A number below `q`, of the next word; 0 where `q` is 0.
pub fn below<W: Words>(q: u32, words: &mut W) -> u32
    ensures number { result ≡ below_of W.gives q words.old }
    ensures after { words.new ≡ W.after words.old }
{
    (u64::from(words.word()) * u64::from(q) >> 32) as u32
}

/// The gene of the next word.
fn random_gene<W: Words>(words: &mut W) -> Gene
    ensures gene { result ≡ gene_of (W.gives words.old) }
    ensures after { words.new ≡ W.after words.old }
{
    let word = words.word();
    Gene {
        priority: word / 2,
        phase: word % 2 == 1,
    }
}

/// A gene of a child of `n` genes whose parents have the genes `a` and `b`.
fn child_gene<W: Words>(n: usize, a: Gene, b: Gene, words: &mut W) -> Gene
    requires { 0 < n }
    ensures gene { result ≡ gene_of_child W.gives W.after n a b words.old }
    ensures after { words.new ≡ after_gene W.gives W.after n words.old }
{
    let word = words.word();
    if (word / 2) as usize % n == 0 {
        return random_gene(words);
    }
    if word % 2 == 0 { a } else { b }
}

/// Makes each gene a random one.
fn fill_random<W: Words>(drawn: &mut Genotype, words: &mut W)
    ensures genes { drawn.new ≡ random_genes W.gives W.after (length drawn.old) words.old }
    ensures after { words.new ≡ after_words W.after (length drawn.old) words.old }
{
    let n = drawn.genes().len();
    for v in 0..n {
        drawn.set(v as u64, random_gene(words));
    }
}

/// Makes the genes those of a child.
fn fill_child<W: Words>(a: &[Gene], b: &[Gene], drawn: &mut Genotype, words: &mut W)
    requires first { length a.now ≡ length drawn.old }
    requires second { length b.now ≡ length drawn.old }
    ensures genes { drawn.new ≡ child_genes W.gives W.after (length drawn.old) a.now b.now words.old }
    ensures after { words.new ≡ after_child W.gives W.after (length drawn.old) a.now words.old }
{
    let n = drawn.genes().len();
    for v in 0..n {
        drawn.set(v as u64, child_gene(n, a[v], b[v], words));
    }
}

impl Genotype {
    /// The genotype of `n` random genes, one for each of the next words. Where there is no memory no word is used.
    pub fn random<W: Words>(alloc: Global, n: u64, words: &mut W) -> Result<Genotype, AllocError>
        ensures drawn { IfOk result (λ g. g ≡ random_genes W.gives W.after n words.old) }
        ensures after { OnOk result (words.new ≡ after_words W.after n words.old) }
        ensures unused { OnErr result (words.new ≡ words.old) }
    {
        let mut drawn = Genotype::natural(alloc, n)?;
        fill_random(&mut drawn, words);
        Ok(drawn)
    }

    /// The child of two genotypes of one length. Where there is no memory no word is used.
    pub fn child<W: Words>(
        alloc: Global,
        a: &Genotype,
        b: &Genotype,
        words: &mut W,
    ) -> Result<Genotype, AllocError>
        requires { length b.now ≡ length a.now }
        ensures drawn { IfOk result (λ g. g ≡ child_genes W.gives W.after (length a.now) a.now b.now words.old) }
        ensures after { OnOk result (words.new ≡ after_child W.gives W.after (length a.now) a.now words.old) }
        ensures unused { OnErr result (words.new ≡ words.old) }
    {
        let mut drawn = Genotype::natural(alloc, a.genes().len() as u64)?;
        fill_child(a.genes(), b.genes(), &mut drawn, words);
        Ok(drawn)
    }
}
