//! What the definitions imply, as functions that do nothing: what is said in each frame of a specification is said in
//! some frame.

ghost use Rattle.std.specs.Prelude.{All};
ghost use Rattle.spec_model.specs.Spec.{SpecValue};
ghost use Rattle.spec_model.specs.WellFormed.{IsWellFormed};
ghost use Rattle.pb_rules.specs.Linear.{IsNormal};
ghost use Rattle.encode_model.specs.Encoding.{encoding};
ghost use Rattle.encode_model.specs.Block.{cover_frame};
ghost use Rattle.sat_decoder.specs.Decoder.{IsFrameOf};

/// The constraints of an encoding are in normal form, so that with the blocks of covers they are a frame.
pub fn law_of_frames()
    ensures normal { (s : SpecValue) → IsWellFormed s → All (λ c. IsNormal c.terms c.degree) (encoding s) }
    ensures frame { (s : SpecValue) → IsWellFormed s → IsFrameOf s (cover_frame s) }
{}
