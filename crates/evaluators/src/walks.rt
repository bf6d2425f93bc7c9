//! The walk of a message to a resource, followed from its end: at most one used arc goes into each resource.

ghost use Rattle.std.specs.Prelude.{◌≡◌, ◌<◌, ◌↔◌, IsTrue, length};
ghost use Rattle.spec_model.specs.Spec.{bits_of, design_variables};
ghost use Rattle.spec_model.specs.Rules.{IsValid, BoundOnce, IsOn, Uses, EntersAt, sender_of};
ghost use Rattle.spec_model.specs.Schedule.{walk_length as length_of};
ghost use Rattle.spec_model.specs.Limits.{most_resources};
ghost use Rattle.impl_rules.specs.Least.{IsFirst};
ghost use Rattle.impl_rules.specs.Routes.{EntersNot};

use impl_rules::Design;
use spec_graph::{ArcNo, MsgNo, ResNo, Spec};

/// Whether a message uses an arc.
fn uses(spec: &Spec, design: &Design, m: MsgNo, a: ArcNo) -> bool
    requires bits { length design.now ≡ design_variables spec.now }
    requires message { m.0 < length spec.now.messages }
    requires arc { a.0 < length spec.now.arcs }
    ensures { IsTrue result ↔ Uses spec.now (bits_of design.now) m.0 a.0 }
{
    design.get(spec.arc_variable(m, a))
}

/// The first used arc of a message into a resource.
fn arc_into(spec: &Spec, design: &Design, m: MsgNo, r: ResNo) -> Option<u32>
    requires bits { length design.now ≡ design_variables spec.now }
    requires message { m.0 < length spec.now.messages }
    ensures { IsFirst (EntersAt spec.now (bits_of design.now) m.0 r.0) (EntersNot spec.now (bits_of design.now) m.0 r.0) (length spec.now.arcs) result }
{
    for a in 0..spec.arcs() as u32 {
        if spec.arc(ArcNo(a)).head == r && uses(spec, design, m, ArcNo(a)) {
            return Some(a);
        }
    }
    None
}

/// The length of the walk from the sender's resource, `source`, to a resource; 0 where there is none.
pub(crate) fn walk_length(spec: &Spec, design: &Design, m: MsgNo, source: ResNo, to: ResNo) -> u64
    requires bits { length design.now ≡ design_variables spec.now }
    requires valid { IsValid spec.now (bits_of design.now) }
    requires message { m.0 < length spec.now.messages }
    requires once { BoundOnce spec.now (bits_of design.now) (sender_of spec.now m.0) }
    requires source { IsOn spec.now (bits_of design.now) (sender_of spec.now m.0) source.0 }
    requires to { to.0 < length spec.now.resources }
    ensures length { result ≡ length_of spec.now (bits_of design.now) m.0 to.0 }
    ensures small { result < most_resources }
{
    let mut at = to;
    for hops in 0..spec.hop_limit(m) + 1 {
        if at == source {
            return hops;
        }
        match arc_into(spec, design, m, at) {
            None => return 0,
            Some(a) => at = spec.arc(ArcNo(a)).tail,
        }
    }
    0
}
