//! Reads a genotype's text from left to right, and stops at the first rule that is broken.

ghost use Rattle.std.specs.Prelude.{◌≡◌, ◌<◌, length, map, Some, None, [], MatchResult, IfOk};
ghost use Rattle.line_words.specs.Text.{lines};
ghost use Rattle.line_words.specs.Rules.{first_broken};
ghost use Rattle.line_words.specs.Run.{run};
ghost use Rattle.line_words.specs.Reads.{Reads, Agrees};
ghost use Rattle.genotype.specs.Statements.{stated_of, stated_tests, least_after, with_stated, genotype_rules, genes_of, as_seen};

use crate::genes::{Gene, Genotype};
use crate::stated::{fault_of, number_of, stated_of};
use file_bricks::{is_headed, words_of};
use line_words::{FileTag, Lines, ReadFault, Stop, Why};
use std::alloc::Global;

/// The genes that were read, and the least variable that may come next.
#[derive(Drop)]
struct Seen {
    genotype: Genotype,
    least: u64,
}

/// Takes a statement that has no fault, where there are `n` genes.
fn take(seen: &mut Seen, n: u64, words: &[&str]) -> Result<(), Why>
    requires { length seen.old.genotype ≡ n }
    ensures { let stated = stated_of (map (λ w. w.now) words.now) in
        let fault = first_broken (stated_tests n seen.old.least stated) in
        MatchResult result
        (λ _. (fault ≡ None) × (seen.new.least ≡ least_after seen.old.least stated)
        × (seen.new.genotype ≡ with_stated seen.old.genotype stated))
        (λ why. fault ≡ Some why) }
{
    let Some(stated) = stated_of(words) else {
        return Err(Why::BadStatement);
    };
    if let Some(why) = fault_of(n, seen.least, stated) {
        return Err(why);
    }
    let variable = number_of(stated.variable);
    let gene = Gene {
        priority: number_of(stated.priority) as u32,
        phase: number_of(stated.phase) == 1,
    };
    seen.genotype.set(variable, gene);
    seen.least = variable + 1;
    Ok(())
}

fn read_all(alloc: Global, mut lines: Lines, n: u64) -> Result<Genotype, ReadFault>
    ensures { Agrees FileTag.Genotype as_seen (genes_of n) (run (genotype_rules n) lines.entry.number [] lines.entry.lines) result }
{
    let header = match lines.next() {
        None => return Err(Stop::Broken(Why::NoHeader).at_line(
            FileTag::Genotype,
            lines.end_line(),
        )),
        Some(Err(fault)) => return Err(ReadFault::Refused(fault.of_file(FileTag::Genotype))),
        Some(Ok(line)) => line,
    };
    let words = words_of(alloc, &header)?;
    if !is_headed(&words, "genotype", "1") {
        return Err(Stop::Broken(Why::NoHeader).at_line(FileTag::Genotype, header.number()));
    }
    let mut seen = Seen {
        genotype: Genotype::natural(alloc, n)?,
        least: 0,
    };
    'lines: while let Some(next) = lines.next() {
        let line = match next {
            Ok(line) => line,
            Err(fault) => return Err(ReadFault::Refused(fault.of_file(FileTag::Genotype))),
        };
        let words = words_of(alloc, &line)?;
        match take(&mut seen, n, &words) {
            Ok(()) => {}
            Err(why) => return Err(Stop::Broken(why).at_line(FileTag::Genotype, line.number())),
        }
    }
    Ok(seen.genotype)
}

/// The genotype that a text states for `n` design variables, or the text's least refusal.
///
/// The first statement is `genotype 1`, else `NoHeader`. The others are `gene V P B`, else
/// `BadStatement`: the design variable V below `n` (else `UnknownName`) and above the V before (else
/// `NotInOrder`), the priority P below 2^32 (else `TooBig`) and the phase B, which is 0 or 1 (else
/// `BadNumber`). Variables that aren't named have priority 0 and phase 0.
pub fn read_genotype(alloc: Global, bytes: &[u8], n: u64) -> Result<Genotype, ReadFault>
    ensures reads { Reads FileTag.Genotype (genotype_rules n) as_seen (genes_of n) (lines bytes.now) result }
    ensures len { IfOk result (λ g. length g ≡ n) }
{
    read_all(alloc, Lines::new(bytes), n)
}
