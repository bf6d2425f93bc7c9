//! The model of a valid design, its bits in the order of the variables.

ghost use Rattle.std.specs.Prelude.{◌≡◌, ◌<◌, ◌++◌, length, map, take, IfOk, OnOk};
ghost use Rattle.std.specs.List.{flat_map};
ghost use Rattle.spec_model.specs.Spec.{below, bits_of, design_variables, all_variables};
ghost use Rattle.spec_model.specs.Rules.{IsValid};
ghost use Rattle.encode_model.specs.Encoding.{encoding};
ghost use Rattle.encode_laws.specs.Exactness.{IsOnlyModel};
ghost use Rattle.encode_laws.specs.ModelBits.{message_bits};
ghost use Rattle.encode_views.specs.Reached.{bits_at, is_in};

use crate::reached::{Row, rows_of};
use impl_rules::Design;
use spec_graph::{MsgNo, Spec};
use std::alloc::{AllocError, Global};

/// Adds the bits of a resource, row by row.
fn add_bits(rows: &[Row], r: usize, model: &mut Vec<bool>) -> Result<(), AllocError>
    ensures { OnOk result (model.new.items ≡ model.old.items ++ bits_at rows.now r) }
{
    for row in rows {
        model.push(row.has(r))?;
    }
    Ok(())
}

/// Adds the bits of each resource, row by row.
#[tactic(auto, using(spec_model::proofs::Those::those_steps))]
fn add_steps(rows: &[Row], resources: usize, model: &mut Vec<bool>) -> Result<(), AllocError>
    ensures { OnOk result (model.new.items ≡ model.old.items ++ flat_map (bits_at rows.now) (below resources)) }
{
    for r in 0..resources {
        add_bits(rows, r, model)?;
    }
    Ok(())
}

/// Whether a resource is in one of the rows.
fn is_in(rows: &[Row], r: usize) -> bool
    ensures { result ≡ is_in rows.now r }
{
    rows.iter().any(|row| row.has(r))
}

/// Adds for each resource whether it is in one of the rows.
#[tactic(auto, using(spec_model::proofs::Those::map_steps))]
fn add_covers(rows: &[Row], resources: usize, model: &mut Vec<bool>) -> Result<(), AllocError>
    ensures { OnOk result (model.new.items ≡ model.old.items ++ map (is_in rows.now) (below resources)) }
{
    for r in 0..resources {
        model.push(is_in(rows, r))?;
    }
    Ok(())
}

/// Adds the further variables of a message.
fn add_message(
    alloc: Global,
    spec: &Spec,
    design: &Design,
    m: MsgNo,
    model: &mut Vec<bool>,
) -> Result<(), AllocError>
    requires bits { length design.now ≡ design_variables spec.now }
    requires message { m.0 < length spec.now.messages }
    ensures { OnOk result (model.new.items ≡ model.old.items ++ message_bits spec.now (bits_of design.now) m.0) }
{
    let rows = rows_of(alloc, spec, design, m)?;
    add_steps(&rows, spec.resources(), model)?;
    add_covers(&rows, spec.resources(), model)?;
    Ok(())
}

/// Adds the further variables of each message.
#[tactic(auto, using(spec_model::proofs::Those::those_steps))]
fn add_messages(
    alloc: Global,
    spec: &Spec,
    design: &Design,
    model: &mut Vec<bool>,
) -> Result<(), AllocError>
    requires { length design.now ≡ design_variables spec.now }
    ensures { OnOk result (model.new.items ≡ model.old.items ++ flat_map (message_bits spec.now (bits_of design.now)) (below (length spec.now.messages))) }
{
    for m in 0..spec.messages() as u32 {
        add_message(alloc, spec, design, MsgNo(m), model)?;
    }
    Ok(())
}

/// The bits of the design.
fn design_bits(alloc: Global, spec: &Spec, design: &Design) -> Result<Vec<bool>, AllocError>
    requires { length design.now ≡ design_variables spec.now }
    ensures { IfOk result (λ bits. bits.items ≡ map (bits_of design.now) (below (design_variables spec.now))) }
{
    (0..spec.design_variables())
        .map(|v| design.get(v))
        .collect(alloc)
}

/// The one model of a specification's encoding whose design part is the valid design: a bit for each variable, by its
/// number.
pub fn model_of(alloc: Global, spec: &Spec, design: &Design) -> Result<Vec<bool>, AllocError>
    requires bits { length design.now ≡ design_variables spec.now }
    requires valid { IsValid spec.now (bits_of design.now) }
    ensures variables { IfOk result (λ model. length model.items ≡ all_variables spec.now) }
    ensures design { IfOk result (λ model. take (design_variables spec.now) model.items ≡ design.now) }
    ensures only { IfOk result (λ model. IsOnlyModel spec.now (encoding spec.now) (bits_of design.now) (bits_of model.items)) }
{
    spec.facts();
    let mut model = design_bits(alloc, spec, design)?;
    add_messages(alloc, spec, design, &mut model)?;
    Ok(model)
}
