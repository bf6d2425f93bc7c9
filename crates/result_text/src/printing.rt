//! Writes a design and a vector in their one spelling.

ghost use Rattle.std.specs.Prelude.{◌≡◌, ℕ, ◌<◌, ◌∷◌, ◌++◌, length, decimal, IfOk, OnOk, OnErr};
ghost use Rattle.spec_model.specs.Spec.{bits_of, design_variables};
ghost use Rattle.spelled_lines.specs.Lines.{spelled};
ghost use Rattle.result_text.specs.Spelling.{bind_words, use_words, alloc_words, wire_words, item_words, vector_words, item_text, items_text, implementation_text};

use impl_rules::Design;
use line_words::put_whole;
use spec_graph::{ArcNo, LinkNo, MsgNo, OptNo, ResNo, Spec};
use std::alloc::{AllocError, Global};

/// Appends a space and a word.
pub(crate) fn put_word(text: &mut Vec<u8>, word: &str) -> Result<(), AllocError>
    ensures { OnOk result (text.new.items ≡ text.old.items ++ 32 ∷ word.now) }
{
    text.push(b' ')?;
    text.extend_from_slice(word.as_bytes())
}

/// Appends a space and a number.
pub(crate) fn put_number(alloc: Global, text: &mut Vec<u8>, number: u64) -> Result<(), AllocError>
    ensures { OnOk result (text.new.items ≡ text.old.items ++ 32 ∷ decimal number) }
{
    text.push(b' ')?;
    put_whole(alloc, text, number)
}

fn put_bind(alloc: Global, spec: &Spec, o: OptNo, text: &mut Vec<u8>) -> Result<(), AllocError>
    requires { o.0 < length spec.now.options }
    ensures { OnOk result (text.new.items ≡ text.old.items ++ spelled (bind_words spec.now o.0)) }
{
    let option = spec.option(o);
    text.extend_from_slice(b"bind")?;
    put_word(text, spec.task_name(option.task))?;
    put_word(text, spec.resource_name(option.resource))?;
    put_number(alloc, text, o.0 as u64)?;
    text.push(b'\n')?;
    Ok(())
}

fn put_use(spec: &Spec, m: MsgNo, a: ArcNo, text: &mut Vec<u8>) -> Result<(), AllocError>
    requires message { m.0 < length spec.now.messages }
    requires arc { a.0 < length spec.now.arcs }
    ensures { OnOk result (text.new.items ≡ text.old.items ++ spelled (use_words spec.now m.0 a.0)) }
{
    let arc = spec.arc(a);
    text.extend_from_slice(b"use")?;
    put_word(text, spec.message_name(m))?;
    put_word(text, spec.link_name(arc.link))?;
    put_word(text, spec.resource_name(arc.tail))?;
    put_word(text, spec.resource_name(arc.head))?;
    text.push(b'\n')?;
    Ok(())
}

fn put_alloc(spec: &Spec, r: ResNo, text: &mut Vec<u8>) -> Result<(), AllocError>
    requires { r.0 < length spec.now.resources }
    ensures { OnOk result (text.new.items ≡ text.old.items ++ spelled (alloc_words spec.now r.0)) }
{
    text.extend_from_slice(b"alloc")?;
    put_word(text, spec.resource_name(r))?;
    text.push(b'\n')?;
    Ok(())
}

fn put_wire(spec: &Spec, l: LinkNo, text: &mut Vec<u8>) -> Result<(), AllocError>
    requires { l.0 < length spec.now.links }
    ensures { OnOk result (text.new.items ≡ text.old.items ++ spelled (wire_words spec.now l.0)) }
{
    text.extend_from_slice(b"wire")?;
    put_word(text, spec.link_name(l))?;
    text.push(b'\n')?;
    Ok(())
}

/// Appends the line of a design variable.
fn put_item(alloc: Global, spec: &Spec, v: u64, text: &mut Vec<u8>) -> Result<(), AllocError>
    requires { v < design_variables spec.now }
    ensures { OnOk result (text.new.items ≡ text.old.items ++ spelled (item_words spec.now v)) }
{
    spec.facts();
    let options = spec.options() as u64;
    if v < options {
        return put_bind(alloc, spec, OptNo(v as u32), text);
    }
    let after = v - options;
    let arcs = spec.arcs() as u64;
    let uses = spec.messages() as u64 * arcs;
    if after < uses {
        return put_use(
            spec,
            MsgNo((after / arcs) as u32),
            ArcNo((after % arcs) as u32),
            text,
        );
    }
    let after = after - uses;
    let resources = spec.resources() as u64;
    if after < resources {
        return put_alloc(spec, ResNo(after as u32), text);
    }
    put_wire(spec, LinkNo((after - resources) as u32), text)
}

/// Appends the line of a design variable where it is true.
fn put_if_true(
    alloc: Global,
    spec: &Spec,
    design: &Design,
    v: u64,
    text: &mut Vec<u8>,
) -> Result<(), AllocError>
    requires bits { length design.now ≡ design_variables spec.now }
    requires there { v < design_variables spec.now }
    ensures { OnOk result (text.new.items ≡ text.old.items ++ item_text spec.now (bits_of design.now) v) }
{
    if !design.get(v) {
        return Ok(());
    }
    put_item(alloc, spec, v, text)
}

/// Appends the lines of the true design variables.
#[tactic(auto, using(spec_model::proofs::Those::those_steps))]
pub(crate) fn put_items(
    alloc: Global,
    spec: &Spec,
    design: &Design,
    text: &mut Vec<u8>,
) -> Result<(), AllocError>
    requires { length design.now ≡ design_variables spec.now }
    ensures { OnOk result (text.new.items ≡ text.old.items ++ items_text spec.now (bits_of design.now) (design_variables spec.now)) }
{
    for v in 0..spec.design_variables() {
        put_if_true(alloc, spec, design, v, text)?;
    }
    Ok(())
}

/// Appends the line of a vector.
pub(crate) fn put_vector(
    alloc: Global,
    vector: &[u64],
    text: &mut Vec<u8>,
) -> Result<(), AllocError>
    ensures { OnOk result (text.new.items ≡ text.old.items ++ spelled (vector_words vector.now)) }
{
    text.extend_from_slice(b"vector")?;
    for number in vector {
        put_number(alloc, text, *number)?;
    }
    text.push(b'\n')?;
    Ok(())
}

fn text_of(
    alloc: Global,
    spec: &Spec,
    design: &Design,
    vector: &[u64],
) -> Result<Vec<u8>, AllocError>
    requires { length design.now ≡ design_variables spec.now }
    ensures { IfOk result (λ text. text.items ≡ implementation_text spec.now (bits_of design.now) vector.now) }
{
    let mut text = Vec::new(alloc);
    put_items(alloc, spec, design, &mut text)?;
    put_vector(alloc, vector, &mut text)?;
    Ok(text)
}

/// Appends the text of a design and a vector: a line for each true design variable by rising number, and the line of
/// the vector.
///
/// Where memory runs out, `out` is as before.
pub fn print_design(
    alloc: Global,
    spec: &Spec,
    design: &Design,
    vector: &[u64],
    out: &mut Vec<u8>,
) -> Result<(), AllocError>
    requires { length design.now ≡ design_variables spec.now }
    ensures ok { OnOk result (out.new.items ≡ out.old.items ++ implementation_text spec.now (bits_of design.now) vector.now) }
    ensures err { OnErr result (out.new.items ≡ out.old.items) }
{
    let text = text_of(alloc, spec, design, vector)?;
    out.extend_from_slice(&text)
}
