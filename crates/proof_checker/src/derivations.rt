//! A derived line.

ghost use Rattle.std.specs.Prelude.{◌≡◌, ◌<◌, ◌≤◌, ◌^◌, [], length, map, IfOk};
ghost use Rattle.pb_rules.specs.Operations.{only_one};
ghost use Rattle.block_encode.specs.Laws.{KnowsBelow};
ghost use Rattle.front_model.specs.Judging.{judge_words, judge_derivation};
ghost use Rattle.proof_checker.specs.Answers.{context_over, StepGives};
ghost use Rattle.proof_checker.specs.Runs.{StepReaches};

use crate::faults::StepFault;
use crate::operations::take_word;
use crate::stack::Stack;
use crate::weakenings::{run_at, weaken_run};
use pb_constraints::Constraint;
use std::alloc::Global;

/// Carries out words from a place on: those of a run of weakenings, or the first alone. It says the next place.
fn take_some<'a>(
    alloc: Global,
    given: &'a [Constraint],
    known: u64,
    stack: &mut Stack<'a>,
    words: &[&[u8]],
    from: usize,
) -> Result<usize, StepFault>
    requires few { known ≤ 2 ^ 62 }
    requires known { KnowsBelow given.now known }
    requires within { from < length words.now }
    ensures further { IfOk result (λ next. from < next) }
    ensures reaches { StepReaches (context_over given.now) words.now from stack.old stack.new result }
{
    let run = run_at(alloc, known, words, from)?;
    if run.len() < 2 {
        take_word(alloc, given, known, stack, words[from])?;
        return Ok(from + 1);
    }
    match weaken_run(alloc, stack, &run) {
        Ok(()) => Ok(from + run.len()),
        Err(fault) => Err(fault),
    }
}

/// Carries out words from left to right, over an empty stack.
fn take_words<'a>(
    alloc: Global,
    given: &'a [Constraint],
    known: u64,
    words: &[&[u8]],
) -> Result<Stack<'a>, StepFault>
    requires few { known ≤ 2 ^ 62 }
    requires known { KnowsBelow given.now known }
    ensures { StepGives (judge_words (context_over given.now) (map (λ w. w.now) words.now) []) result }
{
    let mut stack = Stack::new(alloc);
    let mut next = 0usize;
    while next < words.len() {
        next = take_some(alloc, given, known, &mut stack, words, next)?;
    }
    Ok(stack)
}

/// The one constraint that is left, copied where it was given.
fn only_one(alloc: Global, stack: Stack<'_>) -> Result<Constraint, StepFault>
    ensures { StepGives (only_one stack.entry) result }
{
    let mut stack = stack;
    let Some(operand) = stack.pop() else {
        return Err(StepFault::NoStep);
    };
    if stack.pop().is_some() {
        return Err(StepFault::NoStep);
    }
    let constraint = operand.into_made(alloc)?;
    Ok(constraint)
}

/// The constraint that a line's words derive.
pub(crate) fn derive(
    alloc: Global,
    given: &[Constraint],
    known: u64,
    words: &[&[u8]],
) -> Result<Constraint, StepFault>
    requires few { known ≤ 2 ^ 62 }
    requires known { KnowsBelow given.now known }
    ensures { StepGives (judge_derivation (context_over given.now) (map (λ w. w.now) words.now)) result }
{
    let stack = take_words(alloc, given, known, words)?;
    only_one(alloc, stack)
}
