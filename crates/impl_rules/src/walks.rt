//! The used arcs of one message, and the walks along them.
//!
//! A walk is looked for backwards, from its end: where at most one used arc goes into each resource, the arcs to take
//! are settled, and no set of visited resources is needed.

ghost use Rattle.std.specs.Prelude.{◌≡◌, ℕ, ◌<◌, ◌≤◌, ◌↔◌, IsTrue, Contains, length};
ghost use Rattle.spec_model.specs.Spec.{bits_of, message_at, arc_at, design_variables};
ghost use Rattle.spec_model.specs.Rules.{BoundOnce, IsOn, Uses, WalkBelow, EntersAt, LeavesFrom, HasReceiver, GoesOnFrom, uses_into, sender_of};
ghost use Rattle.impl_rules.specs.Least.{AllBelow, IsFirst};
ghost use Rattle.impl_rules.specs.Routes.{MeetsAt, IsReached, EntersNot};
ghost use Rattle.impl_rules.specs.declared.routes.RouteRule.TheVariants.{OneArcInto, ShortWalk};

use crate::Design;
use spec_graph::{ArcNo, MsgNo, OptNo, ResNo, Spec, TaskNo};

/// Whether a message uses an arc.
pub(crate) fn uses(spec: &Spec, design: &Design, m: MsgNo, a: ArcNo) -> bool
    requires bits { length design.now ≡ design_variables spec.now }
    requires message { m.0 < length spec.now.messages }
    requires arc { a.0 < length spec.now.arcs }
    ensures { IsTrue result ↔ Uses spec.now (bits_of design.now) m.0 a.0 }
{
    design.get(spec.arc_variable(m, a))
}

/// The first used arc of a message into a resource.
fn arc_into(spec: &Spec, design: &Design, m: MsgNo, r: ResNo) -> Option<u32>
    requires bits { length design.now ≡ design_variables spec.now }
    requires message { m.0 < length spec.now.messages }
    ensures { IsFirst (EntersAt spec.now (bits_of design.now) m.0 r.0) (EntersNot spec.now (bits_of design.now) m.0 r.0) (length spec.now.arcs) result }
{
    for a in 0..spec.arcs() as u32 {
        if spec.arc(ArcNo(a)).head == r && uses(spec, design, m, ArcNo(a)) {
            return Some(a);
        }
    }
    None
}

/// How many used arcs of a message go into a resource.
#[tactic(auto, using(spec_model::proofs::Those::those_steps), unfolding(spec_model::specs::Rules::uses_into, spec_model::specs::Rules::goes_into, spec_model::specs::Rules::arc_bit))]
pub(crate) fn arcs_into(spec: &Spec, design: &Design, m: MsgNo, r: ResNo) -> u32
    requires bits { length design.now ≡ design_variables spec.now }
    requires message { m.0 < length spec.now.messages }
    ensures { result ≡ uses_into spec.now (bits_of design.now) m.0 r.0 }
{
    let mut used = 0;
    for a in 0..spec.arcs() as u32 {
        if spec.arc(ArcNo(a)).head == r && design.get(spec.arc_variable(m, ArcNo(a))) {
            used += 1;
        }
    }
    used
}

/// Whether a walk of fewer hops than the limit leads from the sender's resource, `source`, to a resource.
pub(crate) fn has_walk(spec: &Spec, design: &Design, m: MsgNo, source: ResNo, to: ResNo) -> bool
    requires bits { length design.now ≡ design_variables spec.now }
    requires message { m.0 < length spec.now.messages }
    requires source { IsOn spec.now (bits_of design.now) (sender_of spec.now m.0) source.0 }
    requires once { BoundOnce spec.now (bits_of design.now) (sender_of spec.now m.0) }
    requires to { to.0 < length spec.now.resources }
    requires one_into { AllBelow (MeetsAt spec.now (bits_of design.now) OneArcInto m.0) (length spec.now.resources) }
    ensures { IsTrue result ↔ WalkBelow spec.now (bits_of design.now) m.0 to.0 (message_at spec.now m.0).limit }
{
    let mut at = to;
    for _hop in 0..spec.hop_limit(m) {
        if at == source {
            return true;
        }
        match arc_into(spec, design, m, at) {
            None => return false,
            Some(a) => at = spec.arc(ArcNo(a)).tail,
        }
    }
    false
}

/// Whether a walk leads from the sender's resource, `source`, to a resource. Each used arc is known to have one to its
/// tail.
pub(crate) fn is_reached(spec: &Spec, design: &Design, m: MsgNo, source: ResNo, to: ResNo) -> bool
    requires bits { length design.now ≡ design_variables spec.now }
    requires message { m.0 < length spec.now.messages }
    requires source { IsOn spec.now (bits_of design.now) (sender_of spec.now m.0) source.0 }
    requires once { BoundOnce spec.now (bits_of design.now) (sender_of spec.now m.0) }
    requires walks { AllBelow (MeetsAt spec.now (bits_of design.now) ShortWalk m.0) (length spec.now.arcs) }
    ensures { IsTrue result ↔ IsReached spec.now (bits_of design.now) m.0 to.0 }
{
    if to == source {
        return true;
    }
    arc_into(spec, design, m, to).is_some()
}

/// Whether a task is a receiver of a message.
pub(crate) fn is_receiver(spec: &Spec, m: MsgNo, t: TaskNo) -> bool
    requires { m.0 < length spec.now.messages }
    ensures { IsTrue result ↔ Contains (message_at spec.now m.0).receivers t.0 }
{
    spec.receivers(m).contains(&t)
}

/// Whether a used arc of a message leaves a resource.
fn leaves_from(spec: &Spec, design: &Design, m: MsgNo, r: ResNo) -> bool
    requires bits { length design.now ≡ design_variables spec.now }
    requires message { m.0 < length spec.now.messages }
    ensures { IsTrue result ↔ LeavesFrom spec.now (bits_of design.now) m.0 r.0 }
{
    for a in 0..spec.arcs() as u32 {
        if spec.arc(ArcNo(a)).tail == r && uses(spec, design, m, ArcNo(a)) {
            return true;
        }
    }
    false
}

/// Whether a receiver of a message is on a resource.
fn has_receiver(spec: &Spec, design: &Design, m: MsgNo, r: ResNo) -> bool
    requires bits { length design.now ≡ design_variables spec.now }
    requires message { m.0 < length spec.now.messages }
    ensures { IsTrue result ↔ HasReceiver spec.now (bits_of design.now) m.0 r.0 }
{
    for o in 0..spec.options() as u32 {
        let option = spec.option(OptNo(o));
        if option.resource == r && design.get(o as u64) && is_receiver(spec, m, option.task) {
            return true;
        }
    }
    false
}

/// Whether a message goes on from a resource, or has a receiver on it.
pub(crate) fn goes_on(spec: &Spec, design: &Design, m: MsgNo, r: ResNo) -> bool
    requires bits { length design.now ≡ design_variables spec.now }
    requires message { m.0 < length spec.now.messages }
    ensures { IsTrue result ↔ GoesOnFrom spec.now (bits_of design.now) m.0 r.0 }
{
    if leaves_from(spec, design, m, r) {
        return true;
    }
    has_receiver(spec, design, m, r)
}
