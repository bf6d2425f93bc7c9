//! What the definitions imply, as functions that do nothing: printer and reader of proof files rest on these laws.

ghost use Rattle.std.specs.Prelude.{ℕ, List, Some, ◌≡◌};
ghost use Rattle.pb_rules.specs.declared.Op.{Op};
ghost use Rattle.proof_words.specs.Words.{op_text, op_of, IsWritable};
ghost use Rattle.proof_words.specs.Legal.{LegalAreWritable, WritableReadBack};

/// An operation has one spelling. What is printed of one that can be written is read as it; a word that says an
/// operation is what is printed of it, and the operation is one that can be written.
pub fn law_of_words()
    ensures read_back { (op : Op) → IsWritable op → op_of (op_text op) ≡ Some op }
    ensures spelling { (word : List ℕ) (op : Op) → op_of word ≡ Some op → op_text op ≡ word }
    ensures writable { (word : List ℕ) (op : Op) → op_of word ≡ Some op → IsWritable op }
{}

/// What is legal can be written: each operation of a legal line has a spelling that reads back, and so has each number
/// of a legal cover.
pub fn law_of_legal_lines()
    ensures writable { LegalAreWritable }
    ensures read_back { WritableReadBack }
{}
