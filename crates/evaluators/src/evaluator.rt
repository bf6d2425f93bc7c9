//! The promise of a tool that measures designs.

ghost use Rattle.std.specs.Prelude.{◌≡◌, ℕ, ◌+◌, ◌^◌, ◌<◌, List, length, IfOk, OnOk, OnErr};
ghost use Rattle.spec_model.specs.Spec.{SpecValue, Bits, bits_of, design_variables};
ghost use Rattle.spec_model.specs.Rules.{IsValid};

use impl_rules::Design;
use spec_graph::Spec;
use std::alloc::{AllocError, Global};

/// A tool that measures valid designs: its name, how often it was called, and the value that it has of a design.
pub trait Evaluator: Drop {
    ghost text: { Self → List ℕ };

    ghost calls: { Self → ℕ };

    ghost value: { Self → SpecValue → Bits → ℕ };

    /// The name of what is measured. It takes no memory.
    fn tag(&self) -> &str
        ensures { result.now ≡ text self.now };

    /// The value of a valid design. Where there is no memory the tool is as before.
    fn measure(&mut self, alloc: Global, spec: &Spec, design: &Design) -> Result<u64, AllocError>
        requires bits { length design.now ≡ design_variables spec.now }
        requires valid { IsValid spec.now (bits_of design.now) }
        requires room { calls self.old < 2 ^ 63 }
        ensures answer { IfOk result (λ v. v ≡ value self.old spec.now (bits_of design.now)) }
        ensures counted { OnOk result (calls self.new ≡ calls self.old + 1) }
        ensures uncounted { OnErr result (calls self.new ≡ calls self.old) }
        ensures same_tag { text self.new ≡ text self.old }
        ensures same_value { (s : SpecValue) (f : Bits) → value self.new s f ≡ value self.old s f };
}
