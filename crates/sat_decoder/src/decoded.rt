//! What a decoder answers, and how it stands for what the solver answered.

ghost use Rattle.std.specs.Prelude.{IfOk};
ghost use Rattle.sat_decoder.specs.Models.{MayHaveModel, StandsFor};

use encode_views::design_of;
use impl_rules::Design;
use ordered_solver::Answer;
use spec_graph::Spec;
use std::alloc::{AllocError, Global};

/// The first valid design; or that no design is valid; or that the budget of lines is used up.
#[derive(Drop)]
pub enum Decoded {
    /// The first valid design.
    First(Design),
    /// No design is valid.
    Nothing,
    /// As many lines were derived as the budget has, and neither a valid design nor `0 >= 1` was found.
    Budget,
}

/// The design part of a model, and else the answer of the same name.
pub(crate) fn decoded_from(
    alloc: Global,
    spec: &Spec,
    answer: Answer,
) -> Result<Decoded, AllocError>
    requires { MayHaveModel spec.now answer }
    ensures { IfOk result (StandsFor spec.now answer) }
{
    match answer {
        Answer::Model(values) => {
            let design = design_of(alloc, spec, &values)?;
            Ok(Decoded::First(design))
        }
        Answer::Nothing => Ok(Decoded::Nothing),
        Answer::Budget => Ok(Decoded::Budget),
    }
}
