//! Reads a word of a derived line as an operation.

ghost use Rattle.std.specs.Prelude.{◌≡◌, ◌<◌, Some, None, MatchOption, IfSome, option_map, option_and_then};
ghost use Rattle.proof_words.specs.Words.{numeral_number, axiom_on, times_of, alone, after, opposite_said, op_of};
ghost use Rattle.proof_words.specs.Said.{op_in, IsFarWhereSaid};
ghost use Rattle.pb_rules.specs.declared.Op.TheVariants.{Id, Divide, Weaken};

use line_words::plain_whole;
use pb_rules::{Lit, Op};

/// What a word of a derived line says.
#[derive(Clone, Copy, Debug, PartialEq, Eq)]
pub enum WordOp {
    /// An operation that a log may have.
    Operation(Op),
    /// The axiom of a variable or of its opposite, where the variable's number is 2^62 or more. No `Lit` has such a
    /// variable, and so no constraint.
    FarAxiom { var: u64, yes: bool },
}

/// What follows a letter at the front of a word.
fn after(word: &str, letter: char) -> Option<&str>
    requires { letter < 128 }
    ensures { MatchOption result (after letter word.now ≡ None) (λ rest. after letter word.now ≡ Some rest.now) }
{
    word.strip_prefix(letter)
}

/// The number that a numeral writes, where it is spelled well.
fn number_of(numeral: &str) -> Option<u64>
    ensures { result ≡ numeral_number numeral.now }
{
    plain_whole(numeral).ok()
}

/// The axiom of a variable or of its opposite, by the variable's numeral.
fn read_axiom(numeral: &str, yes: bool) -> Option<WordOp>
    ensures value { option_map op_in result ≡ option_map (axiom_on yes) (numeral_number numeral.now) }
    ensures far { IfSome result IsFarWhereSaid }
{
    match number_of(numeral) {
        None => None,
        Some(var) if var >= 1 << 62 => Some(WordOp::FarAxiom { var, yes }),
        Some(var) if yes => Some(WordOp::Operation(Op::Axiom(Lit::yes(var)))),
        Some(var) => Some(WordOp::Operation(Op::Axiom(Lit::no(var)))),
    }
}

/// The axiom of a variable's opposite, by what follows `~`.
fn read_opposite(rest: &str) -> Option<WordOp>
    ensures value { option_map op_in result ≡ opposite_said rest.now }
    ensures far { IfSome result IsFarWhereSaid }
{
    match after(rest, 'x') {
        None => None,
        Some(numeral) => read_axiom(numeral, false),
    }
}

/// The operation of a letter, where nothing follows it.
fn alone(op: Op, rest: &str) -> Option<WordOp>
    ensures value { option_map op_in result ≡ alone op rest.now }
    ensures far { IfSome result IsFarWhereSaid }
{
    if !rest.is_empty() {
        return None;
    }
    Some(WordOp::Operation(op))
}

/// Multiplication by the number of a numeral, if that isn't 0.
fn read_times(numeral: &str) -> Option<WordOp>
    ensures value { option_map op_in result ≡ option_and_then times_of (numeral_number numeral.now) }
    ensures far { IfSome result IsFarWhereSaid }
{
    match number_of(numeral) {
        None | Some(0) => None,
        Some(number) => Some(WordOp::Operation(Op::Times(number))),
    }
}

/// Division by the number of a numeral, which may be 0.
fn read_divide(numeral: &str) -> Option<WordOp>
    ensures value { option_map op_in result ≡ option_map Divide (numeral_number numeral.now) }
    ensures far { IfSome result IsFarWhereSaid }
{
    number_of(numeral).map(|number| WordOp::Operation(Op::Divide(number)))
}

/// Weakening on the variable of a numeral.
fn read_weaken(numeral: &str) -> Option<WordOp>
    ensures value { option_map op_in result ≡ option_map Weaken (numeral_number numeral.now) }
    ensures far { IfSome result IsFarWhereSaid }
{
    number_of(numeral).map(|var| WordOp::Operation(Op::Weaken(var)))
}

/// The constraint whose id a numeral is.
fn read_id(numeral: &str) -> Option<WordOp>
    ensures value { option_map op_in result ≡ option_map Id (numeral_number numeral.now) }
    ensures far { IfSome result IsFarWhereSaid }
{
    number_of(numeral).map(|id| WordOp::Operation(Op::Id(id)))
}

/// The operation that a word says; `None` exactly where it says none. No memory is taken.
pub fn read_op(word: &str) -> Option<WordOp>
    ensures value { option_map op_in result ≡ op_of word.now }
    ensures far { IfSome result IsFarWhereSaid }
{
    if let Some(rest) = after(word, '+') {
        return alone(Op::Add, rest);
    }
    if let Some(rest) = after(word, 's') {
        return alone(Op::Saturate, rest);
    }
    if let Some(numeral) = after(word, 'x') {
        return read_axiom(numeral, true);
    }
    if let Some(rest) = after(word, '~') {
        return read_opposite(rest);
    }
    if let Some(numeral) = after(word, '*') {
        return read_times(numeral);
    }
    if let Some(numeral) = after(word, '/') {
        return read_divide(numeral);
    }
    if let Some(numeral) = after(word, 'w') {
        return read_weaken(numeral);
    }
    read_id(word)
}
