//! Which variable of the encoding stands for what.

ghost use Rattle.std.specs.Prelude.{◌≡◌, ◌<◌, ◌≤◌, length};
ghost use Rattle.spec_model.specs.Spec.{base, message_at, step_var, covered_var};

use spec_graph::{MsgNo, ResNo, Spec};
use std::marker::Model;

/// The numbering of the variables of a specification's encoding. It is seen as the specification, and takes no memory.
#[derive(Drop)]
pub struct Numbering<'a> {
    spec: &'a Spec,
}

impl<'a> Model for Numbering<'a> {
    ghost use Rattle.spec_model.specs.Spec.{SpecValue};

    ghost Value = { SpecValue };

    ghost view = { λ n. n.spec.now };
}

/// Where the further variables of a message begin.
#[tactic(auto, using(spec_model::proofs::Numbers::numbers))]
fn base(spec: &Spec, m: MsgNo) -> u64
    requires { m.0 < length spec.now.messages }
    ensures { result ≡ base spec.now m.0 }
{
    spec.facts();
    let mut at = spec.design_variables();
    for i in 0..m.0 {
        at += spec.resources() as u64 * (spec.hop_limit(MsgNo(i)) + 2);
    }
    at
}

impl<'a> Numbering<'a> {
    /// The numbering of a specification.
    pub fn of(spec: &'a Spec) -> Numbering<'a>
        ensures { result ≡ spec.now }
    {
        Numbering { spec }
    }

    /// The variable that says that a message reaches a resource at a step. It adds up the hop limits of the messages
    /// before.
    #[tactic(auto, using(spec_model::proofs::Numbers::numbers))]
    pub fn step(&self, m: MsgNo, r: ResNo, t: u64) -> u64
        requires message { m.0 < length self.now.messages }
        requires resource { r.0 < length self.now.resources }
        requires step { t ≤ (message_at self.now m.0).limit }
        ensures { result ≡ step_var self.now m.0 r.0 t }
    {
        let spec = self.spec;
        spec.facts();
        base(spec, m) + r.0 as u64 * (spec.hop_limit(m) + 1) + t
    }

    /// The variable that says that a message covers a resource. It adds up the hop limits of the messages before.
    #[tactic(auto, using(spec_model::proofs::Numbers::numbers))]
    pub fn covered(&self, m: MsgNo, r: ResNo) -> u64
        requires message { m.0 < length self.now.messages }
        requires resource { r.0 < length self.now.resources }
        ensures { result ≡ covered_var self.now m.0 r.0 }
    {
        let spec = self.spec;
        spec.facts();
        base(spec, m) + spec.resources() as u64 * (spec.hop_limit(m) + 1) + r.0 as u64
    }
}
