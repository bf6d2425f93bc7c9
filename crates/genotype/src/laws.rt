//! What the definitions imply, as functions that do nothing: the layers above rest on these laws.

ghost use Rattle.std.specs.Prelude.{◌≡◌, ◌<◌, ◌≤◌, ◌^◌, ◌⊎◌, ℕ, Bool, List, length, All, Result, Ok, Err};
ghost use Rattle.pb_rules.specs.Literal.{Literal};
ghost use Rattle.pb_rules.specs.Order.{AgreeOn, IsBeforeAlong};
ghost use Rattle.spec_model.specs.Genotypes.{GeneValue, IsBefore};
ghost use Rattle.line_words.specs.Text.{lines};
ghost use Rattle.line_words.specs.Rules.{HasNoFault, statements};
ghost use Rattle.line_words.specs.Reads.{Reads};
ghost use Rattle.line_words.specs.declared.refusals.ReadFault.{ReadFault};
ghost use Rattle.genotype.specs.Genes.{HasPriority};
ghost use Rattle.genotype.specs.Order.{IsOrderOf};
ghost use Rattle.genotype.specs.Spelling.{genotype_text};
ghost use Rattle.genotype.specs.Statements.{genotype_rules, genes_of, as_seen};

use line_words::{FileTag, ReadFault};

/// What is before along the order of a genotype is before in the genotype's order of designs, or is the same design.
pub fn law_of_first()
    ensures { (genes : List GeneValue) (variables : ℕ) (order : List Literal) (v w : ℕ → Bool) → IsOrderOf genes variables order → length genes ≤ variables
        → AgreeOn order v w ⊎ IsBeforeAlong order v w → ((k : ℕ) → k < length genes → v k ≡ w k) ⊎ IsBefore genes v w }
{}

/// The text of a genotype of fewer than 2^63 genes breaks no rule, and states the genotype. So a reader of it answers the
/// genotype, or has no memory.
pub fn law_of_texts()
    ensures fine { (genes : List GeneValue) → length genes < 2 ^ 63 → All HasPriority genes
        → HasNoFault (genotype_rules (length genes)) (lines (genotype_text genes)) }
    ensures stated { (genes : List GeneValue) → length genes < 2 ^ 63 → All HasPriority genes
        → genes_of (length genes) (statements (genotype_rules (length genes)) (lines (genotype_text genes))) ≡ genes }
    ensures read_back { (genes : List GeneValue) (found : Result (List GeneValue) ReadFault) → length genes < 2 ^ 63 → All HasPriority genes
        → Reads FileTag.Genotype (genotype_rules (length genes)) as_seen (genes_of (length genes)) (lines (genotype_text genes)) found
        → (found ≡ Ok genes) ⊎ (found ≡ Err ReadFault.NoMemory) }
{}
