//! Words that weaken the top one after another: a run of them is found, and carried out in one pass over the top's terms.
//! Most words of a proof are such ones, in the order of their variables, and one by one each would go over the terms again.

ghost use Rattle.std.specs.Prelude.{◌≡◌, ◌<◌, ◌≤◌, length, IfOk, IfSome, Some};
ghost use Rattle.std.specs.List.Sorted.{IsNonDecreasing};
ghost use Rattle.pb_rules.specs.declared.Op.TheVariants.{Weaken};
ghost use Rattle.proof_words.specs.Words.{op_of};
ghost use Rattle.proof_checker.specs.Answers.{StepLeaves};
ghost use Rattle.proof_checker.specs.Runs.{IsRun, Follows, weaken_run};

use crate::faults::StepFault;
use crate::stack::{Operand, Stack};
use cutting_planes::weaken_each;
use pb_rules::Op;
use proof_words::{WordOp, read_op};
use std::alloc::{AllocError, Global};

/// The variable of an operation that weakens.
fn weakened_by(op: Op) -> Option<u64>
    ensures { IfSome result (λ x. op ≡ Weaken x) }
{
    match op {
        Op::Weaken(var) => Some(var),
        _ => None,
    }
}

/// The variable by which a word weakens. Of other words the first byte alone is read, for they are read again.
fn weakening(word: &[u8]) -> Option<u64>
    ensures { IfSome result (λ x. op_of word.now ≡ Some (Weaken x)) }
{
    if word.is_empty() || word[0] != b'w' {
        return None;
    }
    let Ok(text) = std::str::from_utf8(word) else {
        return None;
    };
    match read_op(text) {
        Some(WordOp::Operation(op)) => weakened_by(op),
        _ => None,
    }
}

/// The variable by which a word weakens, where it is there and not below the least that may follow.
fn following(known: u64, least: u64, word: &[u8]) -> Option<u64>
    ensures { IfSome result (Follows known least word.now) }
{
    let Some(var) = weakening(word) else {
        return None;
    };
    if var < least || var >= known {
        return None;
    }
    Some(var)
}

/// The variables of the run of weakenings that begins at a word: each is there, and none is below the one before it.
pub(crate) fn run_at(
    alloc: Global,
    known: u64,
    words: &[&[u8]],
    from: usize,
) -> Result<Vec<u64>, AllocError>
    requires { from ≤ length words.now }
    ensures { IfOk result (λ v. IsRun known words.now from v.items) }
{
    let mut vars = Vec::new(alloc);
    let mut least = 0u64;
    let mut next = from;
    while next < words.len() {
        let word = words[next];
        let Some(var) = following(known, least, word) else {
            return Ok(vars);
        };
        vars.push(var)?;
        least = var;
        next += 1;
    }
    Ok(vars)
}

/// Weakens the top by each variable of a run.
pub(crate) fn weaken_run(
    alloc: Global,
    stack: &mut Stack<'_>,
    vars: &[u64],
) -> Result<(), StepFault>
    requires { IsNonDecreasing vars.now }
    ensures { StepLeaves (weaken_run vars.now stack.old) stack.new result }
{
    let Some(a) = stack.pop() else {
        return Err(StepFault::NoStep);
    };
    let made = weaken_each(alloc, a.seen(), vars)?;
    stack.push(Operand::Made(made))?;
    Ok(())
}
