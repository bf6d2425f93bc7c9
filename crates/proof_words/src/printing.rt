//! Prints operations and lines. Each line is built apart and appended in one step, so that want of memory leaves what
//! was there.

ghost use Rattle.std.specs.Prelude.{◌≡◌, ◌∷◌, ◌++◌, decimal, IfOk, OnOk, OnErr};
ghost use Rattle.pb_rules.specs.declared.Op.TheVariants.{Axiom};
ghost use Rattle.proof_words.specs.Words.{op_text};
ghost use Rattle.proof_words.specs.Lines.{derivation_text, cover_text};

use line_words::put_whole;
use pb_rules::{Lit, Op};
use std::alloc::{AllocError, Global};

/// Appends a byte and a number.
fn put_marked(alloc: Global, text: &mut Vec<u8>, mark: u8, number: u64) -> Result<(), AllocError>
    ensures { OnOk result (text.new.items ≡ text.old.items ++ mark ∷ decimal number) }
{
    text.push(mark)?;
    put_whole(alloc, text, number)
}

/// Appends the word of a literal.
fn put_axiom(alloc: Global, text: &mut Vec<u8>, lit: Lit) -> Result<(), AllocError>
    ensures { OnOk result (text.new.items ≡ text.old.items ++ op_text (Axiom lit)) }
{
    if lit.is_yes() {
        return put_marked(alloc, text, b'x', lit.var());
    }
    text.push(b'~')?;
    put_marked(alloc, text, b'x', lit.var())
}

/// Appends the word of an operation.
fn put_op_text(alloc: Global, text: &mut Vec<u8>, op: Op) -> Result<(), AllocError>
    ensures { OnOk result (text.new.items ≡ text.old.items ++ op_text op) }
{
    match op {
        Op::Id(id) => put_whole(alloc, text, id),
        Op::Axiom(lit) => put_axiom(alloc, text, lit),
        Op::Add => text.extend_from_slice(b"+"),
        Op::Times(number) => put_marked(alloc, text, b'*', number),
        Op::Divide(number) => put_marked(alloc, text, b'/', number),
        Op::Saturate => text.extend_from_slice(b"s"),
        Op::Weaken(var) => put_marked(alloc, text, b'w', var),
    }
}

/// Appends a space and the word of an operation.
fn put_word(alloc: Global, text: &mut Vec<u8>, op: Op) -> Result<(), AllocError>
    ensures { OnOk result (text.new.items ≡ text.old.items ++ 32 ∷ op_text op) }
{
    text.push(b' ')?;
    put_op_text(alloc, text, op)
}

/// Appends a space and the word of an operation.
///
/// Where memory runs out, `out` is as before.
pub fn put_op(alloc: Global, out: &mut Vec<u8>, op: &Op) -> Result<(), AllocError>
    ensures ok { OnOk result (out.new.items ≡ out.old.items ++ 32 ∷ op_text op.now) }
    ensures err { OnErr result (out.new.items ≡ out.old.items) }
{
    let mut text = Vec::new(alloc);
    put_word(alloc, &mut text, *op)?;
    out.extend_from_slice(&text)
}

fn derivation_of(alloc: Global, ops: &[Op]) -> Result<Vec<u8>, AllocError>
    ensures { IfOk result (λ text. text.items ≡ derivation_text ops.now) }
{
    let mut text = Vec::new(alloc);
    text.push(b'p')?;
    for op in ops {
        put_word(alloc, &mut text, *op)?;
    }
    text.push(b'\n')?;
    Ok(text)
}

/// Appends the line of a derived constraint: `p`, and a word for each operation.
///
/// Where memory runs out, `out` is as before.
pub fn put_derivation(alloc: Global, out: &mut Vec<u8>, ops: &[Op]) -> Result<(), AllocError>
    ensures ok { OnOk result (out.new.items ≡ out.old.items ++ derivation_text ops.now) }
    ensures err { OnErr result (out.new.items ≡ out.old.items) }
{
    let text = derivation_of(alloc, ops)?;
    out.extend_from_slice(&text)
}

fn cover_of(alloc: Global, v: &[u64]) -> Result<Vec<u8>, AllocError>
    ensures { IfOk result (λ text. text.items ≡ cover_text v.now) }
{
    let mut text = Vec::new(alloc);
    text.push(b'c')?;
    for number in v {
        put_marked(alloc, &mut text, b' ', *number)?;
    }
    text.push(b'\n')?;
    Ok(text)
}

/// Appends the line of a cover: `c`, and its numbers.
///
/// Where memory runs out, `out` is as before.
pub fn put_cover(alloc: Global, out: &mut Vec<u8>, v: &[u64]) -> Result<(), AllocError>
    ensures ok { OnOk result (out.new.items ≡ out.old.items ++ cover_text v.now) }
    ensures err { OnErr result (out.new.items ≡ out.old.items) }
{
    let text = cover_of(alloc, v)?;
    out.extend_from_slice(&text)
}
