//! One operation of a derived line.

ghost use Rattle.std.specs.Prelude.{◌≡◌, ◌<◌, ◌≤◌, ◌^◌, ℕ, Some};
ghost use Rattle.pb_rules.specs.Operations.{Context};
ghost use Rattle.pb_rules.specs.declared.Op.TheVariants.{Id, Axiom, Add, Times, Divide, Saturate, Weaken};
ghost use Rattle.proof_words.specs.Words.{op_of, IsWritable};
ghost use Rattle.front_model.specs.Judging.{judge_op};
ghost use Rattle.block_encode.specs.Laws.{KnowsBelow};
ghost use Rattle.proof_checker.specs.Answers.{context_over, StepLeaves};

use crate::faults::StepFault;
use crate::stack::{Operand, Stack};
use cutting_planes::{add, axiom, into_quotient, into_saturated, into_weakened, times};
use pb_constraints::Constraint;
use pb_rules::{Lit, Op};
use proof_words::{WordOp, read_op};
use std::alloc::Global;

fn push_given<'a>(given: &'a [Constraint], stack: &mut Stack<'a>, id: u64) -> Result<(), StepFault>
    requires { id < 2 ^ 63 }
    ensures { StepLeaves (judge_op (context_over given.now) stack.old (Some (Id id))) stack.new result }
{
    if id == 0 || id > given.len() as u64 {
        return Err(StepFault::Unknown(id));
    }
    stack.push(Operand::Given(&given[(id - 1) as usize]))?;
    Ok(())
}

fn push_axiom(
    alloc: Global,
    given: &[Constraint],
    known: u64,
    stack: &mut Stack<'_>,
    lit: Lit,
) -> Result<(), StepFault>
    requires known { KnowsBelow given.now known }
    ensures { StepLeaves (judge_op (context_over given.now) stack.old (Some (Axiom lit))) stack.new result }
{
    if lit.var() >= known {
        return Err(StepFault::Unknown(lit.var()));
    }
    let made = axiom(alloc, lit)?;
    stack.push(Operand::Made(made))?;
    Ok(())
}

fn add_top(alloc: Global, stack: &mut Stack<'_>) -> Result<(), StepFault>
    ensures { (context : Context) → StepLeaves (judge_op context stack.old (Some Add)) stack.new result }
{
    let Some(b) = stack.pop() else {
        return Err(StepFault::NoStep);
    };
    let Some(a) = stack.pop() else {
        return Err(StepFault::NoStep);
    };
    let made = add(alloc, a.seen(), b.seen())?;
    stack.push(Operand::Made(made))?;
    Ok(())
}

fn multiply_top(alloc: Global, stack: &mut Stack<'_>, factor: u64) -> Result<(), StepFault>
    requires some { 0 < factor }
    requires small { factor < 2 ^ 63 }
    ensures { (context : Context) → StepLeaves (judge_op context stack.old (Some (Times factor))) stack.new result }
{
    let Some(a) = stack.pop() else {
        return Err(StepFault::NoStep);
    };
    let made = times(alloc, a.seen(), factor)?;
    stack.push(Operand::Made(made))?;
    Ok(())
}

fn divide_top(alloc: Global, stack: &mut Stack<'_>, divisor: u64) -> Result<(), StepFault>
    requires small { divisor < 2 ^ 63 }
    ensures { (context : Context) → StepLeaves (judge_op context stack.old (Some (Divide divisor))) stack.new result }
{
    if divisor == 0 {
        return Err(StepFault::ZeroDivisor);
    }
    let Some(a) = stack.pop() else {
        return Err(StepFault::NoStep);
    };
    let made = into_quotient(a.into_made(alloc)?, divisor);
    stack.push(Operand::Made(made))?;
    Ok(())
}

fn saturate_top(alloc: Global, stack: &mut Stack<'_>) -> Result<(), StepFault>
    ensures { (context : Context) → StepLeaves (judge_op context stack.old (Some Saturate)) stack.new result }
{
    let Some(a) = stack.pop() else {
        return Err(StepFault::NoStep);
    };
    let made = into_saturated(a.into_made(alloc)?);
    stack.push(Operand::Made(made))?;
    Ok(())
}

fn weaken_top(
    alloc: Global,
    given: &[Constraint],
    known: u64,
    stack: &mut Stack<'_>,
    var: u64,
) -> Result<(), StepFault>
    requires small { var < 2 ^ 63 }
    requires known { KnowsBelow given.now known }
    ensures { StepLeaves (judge_op (context_over given.now) stack.old (Some (Weaken var))) stack.new result }
{
    if var >= known {
        return Err(StepFault::Unknown(var));
    }
    let Some(a) = stack.pop() else {
        return Err(StepFault::NoStep);
    };
    let made = into_weakened(a.into_made(alloc)?, var);
    stack.push(Operand::Made(made))?;
    Ok(())
}

/// Carries an operation out on a stack, over the constraints given before, whose variables are those below `known`.
fn take_op<'a>(
    alloc: Global,
    given: &'a [Constraint],
    known: u64,
    stack: &mut Stack<'a>,
    op: Op,
) -> Result<(), StepFault>
    requires writable { IsWritable op }
    requires known { KnowsBelow given.now known }
    ensures { StepLeaves (judge_op (context_over given.now) stack.old (Some op)) stack.new result }
{
    match op {
        Op::Id(id) => push_given(given, stack, id),
        Op::Axiom(lit) => push_axiom(alloc, given, known, stack, lit),
        Op::Add => add_top(alloc, stack),
        Op::Times(factor) => multiply_top(alloc, stack, factor),
        Op::Divide(divisor) => divide_top(alloc, stack, divisor),
        Op::Saturate => saturate_top(alloc, stack),
        Op::Weaken(var) => weaken_top(alloc, given, known, stack, var),
    }
}

/// Carries out what a word says.
pub(crate) fn take_word<'a>(
    alloc: Global,
    given: &'a [Constraint],
    known: u64,
    stack: &mut Stack<'a>,
    word: &[u8],
) -> Result<(), StepFault>
    requires few { known ≤ 2 ^ 62 }
    requires known { KnowsBelow given.now known }
    ensures { StepLeaves (judge_op (context_over given.now) stack.old (op_of word.now)) stack.new result }
{
    let Ok(text) = std::str::from_utf8(word) else {
        return Err(StepFault::NoStep);
    };
    match read_op(text) {
        None => Err(StepFault::NoStep),
        Some(WordOp::FarAxiom { var, .. }) => Err(StepFault::Unknown(var)),
        Some(WordOp::Operation(op)) => take_op(alloc, given, known, stack, op),
    }
}
