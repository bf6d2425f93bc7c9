//! The genotype of a round: a random one, or the child of two members.

ghost use Rattle.std.specs.Prelude.{◌≡◌, ◌<◌, ◌≤◌, All, length, IfOk, OnOk};
ghost use Rattle.genotype.specs.Draws.{draw};
ghost use Rattle.evo_explore.specs.Breeding.{bred as bred_genes, after_bred, next_genes, after_next, HasGenes};

use front_archive::Member;
use genotype::{Genotype, Words};
use std::alloc::{AllocError, Global};

/// The place of one of so many members, by the next word.
fn drawn_place<W: Words>(count: u32, words: &mut W) -> u32
    requires { 0 < count }
    ensures place { result ≡ draw W.gives count words.old }
    ensures there { result < count }
    ensures after { words.new ≡ W.after words.old }
{
    (u64::from(words.word()) * u64::from(count) >> 32) as u32
}

/// The child of two members, each drawn by one word. 2^32 members or more are answered as want of memory.
fn bred<W: Words>(
    alloc: Global,
    n: u64,
    members: &[Member],
    words: &mut W,
) -> Result<Genotype, AllocError>
    requires some { 0 < length members.now }
    requires genes { All (HasGenes n) members.now }
    ensures drawn { IfOk result (λ g. g ≡ bred_genes W.gives W.after n members.now words.old) }
    ensures after { OnOk result (words.new ≡ after_bred W.gives W.after n members.now words.old) }
    ensures len { IfOk result (λ g. length g ≡ n) }
{
    let Ok(count) = u32::try_from(members.len()) else {
        return Err(AllocError);
    };
    let a = drawn_place(count, words);
    let b = drawn_place(count, words);
    Genotype::child(
        alloc,
        &members[a as usize].genotype,
        &members[b as usize].genotype,
        words,
    )
}

/// The next genotype of `n` genes, by the members of an archive and the words not yet used.
pub(crate) fn next_genotype<W: Words>(
    alloc: Global,
    n: u64,
    members: &[Member],
    words: &mut W,
) -> Result<Genotype, AllocError>
    requires { All (HasGenes n) members.now }
    ensures drawn { IfOk result (λ g. g ≡ next_genes W.gives W.after n members.now words.old) }
    ensures after { OnOk result (words.new ≡ after_next W.gives W.after n members.now words.old) }
    ensures len { IfOk result (λ g. length g ≡ n) }
{
    if members.is_empty() {
        return Genotype::random(alloc, n, words);
    }
    if words.word() % 4 == 0 {
        return Genotype::random(alloc, n, words);
    }
    bred(alloc, n, members, words)
}
