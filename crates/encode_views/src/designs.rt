//! The design part of a model.

ghost use Rattle.std.specs.Prelude.{◌≡◌, ◌≤◌, length, take, IfOk};
ghost use Rattle.pb_rules.specs.Linear.{IsModel};
ghost use Rattle.spec_model.specs.Spec.{bits_of, design_variables, all_variables};
ghost use Rattle.spec_model.specs.Rules.{IsValid};
ghost use Rattle.encode_model.specs.Encoding.{encoding};

use impl_rules::Design;
use spec_graph::Spec;
use std::alloc::{AllocError, Global};

/// The design part of a model of a specification's encoding, which is a valid design. The model may have further
/// variables behind the encoding's.
pub fn design_of(alloc: Global, spec: &Spec, model: &[bool]) -> Result<Design, AllocError>
    requires variables { all_variables spec.now ≤ length model.now }
    requires model { IsModel (encoding spec.now) (bits_of model.now) }
    ensures variables { IfOk result (λ design. length design ≡ design_variables spec.now) }
    ensures part { IfOk result (λ design. design ≡ take (design_variables spec.now) model.now) }
    ensures valid { IfOk result (λ design. IsValid spec.now (bits_of design)) }
{
    spec.facts();
    let mut design = Design::empty(alloc, spec)?;
    for v in 0..spec.design_variables() {
        design.set(v, model[v as usize]);
    }
    Ok(design)
}
