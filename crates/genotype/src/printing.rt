//! Writes a genotype's text.

ghost use Rattle.std.specs.Prelude.{◌≡◌, ◌++◌, IfOk, OnOk, OnErr};
ghost use Rattle.genotype.specs.Spelling.{is_plain, gene_line, gene_text, genotype_text};

use crate::genes::{Gene, Genotype};
use line_words::put_whole;
use std::alloc::{AllocError, Global};

fn is_plain(gene: Gene) -> bool
    ensures { result ≡ is_plain gene }
{
    gene.priority == 0 && !gene.phase
}

fn put_line(alloc: Global, text: &mut Vec<u8>, v: u64, gene: Gene) -> Result<(), AllocError>
    ensures { OnOk result (text.new.items ≡ text.old.items ++ gene_line v gene) }
{
    text.extend_from_slice(b"gene ")?;
    put_whole(alloc, text, v)?;
    text.push(b' ')?;
    put_whole(alloc, text, gene.priority as u64)?;
    text.push(b' ')?;
    text.push(if gene.phase { b'1' } else { b'0' })?;
    text.push(b'\n')?;
    Ok(())
}

fn put_gene(alloc: Global, text: &mut Vec<u8>, v: u64, gene: Gene) -> Result<(), AllocError>
    ensures { OnOk result (text.new.items ≡ text.old.items ++ gene_text v gene) }
{
    if is_plain(gene) {
        return Ok(());
    }
    put_line(alloc, text, v, gene)
}

fn text_of(alloc: Global, genes: &[Gene]) -> Result<Vec<u8>, AllocError>
    ensures { IfOk result (λ text. text.items ≡ genotype_text genes.now) }
{
    let mut text = Vec::new(alloc);
    text.extend_from_slice(b"genotype 1\n")?;
    for (v, gene) in genes.iter().enumerate() {
        put_gene(alloc, &mut text, v as u64, *gene)?;
    }
    Ok(text)
}

/// Appends the text of a genotype: its header, and a line for each gene other than (0, false).
///
/// Where memory runs out, `out` is as before.
pub fn print_genotype(alloc: Global, g: &Genotype, out: &mut Vec<u8>) -> Result<(), AllocError>
    ensures ok { OnOk result (out.new.items ≡ out.old.items ++ genotype_text g.now) }
    ensures err { OnErr result (out.new.items ≡ out.old.items) }
{
    let text = text_of(alloc, g.genes())?;
    out.extend_from_slice(&text)
}
