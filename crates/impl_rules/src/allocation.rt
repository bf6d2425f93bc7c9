//! The allocation rules: a resource or a link is allocated exactly where something needs it.

ghost use Rattle.std.specs.Prelude.{◌≡◌, ℕ, ◌<◌, ◌↔◌, IsTrue, length};
ghost use Rattle.spec_model.specs.Spec.{bits_of, design_variables};
ghost use Rattle.spec_model.specs.Rules.{HoldsTask, CarriesMessage, IsResourceNeeded, IsLinkNeeded, IsMisused, IsMiswired};
ghost use Rattle.impl_rules.specs.Least.{IsFirst};
ghost use Rattle.impl_rules.specs.Allocation.{IsCarried, IsUsedRightly, IsWiredRightly};

use crate::Design;
use crate::walks::uses;
use spec_graph::{ArcNo, LinkNo, MsgNo, OptNo, ResNo, Spec};

/// Whether a task is on a resource.
fn holds_task(spec: &Spec, design: &Design, r: ResNo) -> bool
    requires { length design.now ≡ design_variables spec.now }
    ensures { IsTrue result ↔ HoldsTask spec.now (bits_of design.now) r.0 }
{
    for o in 0..spec.options() as u32 {
        if spec.option(OptNo(o)).resource == r && design.get(o as u64) {
            return true;
        }
    }
    false
}

/// Whether some message uses an arc.
fn is_carried(spec: &Spec, design: &Design, a: ArcNo) -> bool
    requires bits { length design.now ≡ design_variables spec.now }
    requires arc { a.0 < length spec.now.arcs }
    ensures { IsTrue result ↔ IsCarried spec.now (bits_of design.now) a.0 }
{
    for m in 0..spec.messages() as u32 {
        if uses(spec, design, MsgNo(m), a) {
            return true;
        }
    }
    false
}

/// Whether a message passes a resource.
fn carries_message(spec: &Spec, design: &Design, r: ResNo) -> bool
    requires { length design.now ≡ design_variables spec.now }
    ensures { IsTrue result ↔ CarriesMessage spec.now (bits_of design.now) r.0 }
{
    for a in 0..spec.arcs() as u32 {
        let arc = spec.arc(ArcNo(a));
        if (arc.tail == r || arc.head == r) && is_carried(spec, design, ArcNo(a)) {
            return true;
        }
    }
    false
}

/// Whether a task is on a resource, or a message passes it.
fn is_resource_needed(spec: &Spec, design: &Design, r: ResNo) -> bool
    requires { length design.now ≡ design_variables spec.now }
    ensures { IsTrue result ↔ IsResourceNeeded spec.now (bits_of design.now) r.0 }
{
    if holds_task(spec, design, r) {
        return true;
    }
    carries_message(spec, design, r)
}

/// The first resource that is allocated and not needed, or the contrary.
pub(crate) fn misused_resource(spec: &Spec, design: &Design) -> Option<u32>
    requires { length design.now ≡ design_variables spec.now }
    ensures { IsFirst (IsMisused spec.now (bits_of design.now)) (IsUsedRightly spec.now (bits_of design.now)) (length spec.now.resources) result }
{
    for r in 0..spec.resources() as u32 {
        if design.get(spec.resource_variable(ResNo(r)))
            != is_resource_needed(spec, design, ResNo(r))
        {
            return Some(r);
        }
    }
    None
}

/// Whether a message uses an arc of a link.
fn is_link_needed(spec: &Spec, design: &Design, l: LinkNo) -> bool
    requires { length design.now ≡ design_variables spec.now }
    ensures { IsTrue result ↔ IsLinkNeeded spec.now (bits_of design.now) l.0 }
{
    for a in 0..spec.arcs() as u32 {
        if spec.arc(ArcNo(a)).link == l && is_carried(spec, design, ArcNo(a)) {
            return true;
        }
    }
    false
}

/// The first link that is allocated and not needed, or the contrary.
pub(crate) fn miswired_link(spec: &Spec, design: &Design) -> Option<u32>
    requires { length design.now ≡ design_variables spec.now }
    ensures { IsFirst (IsMiswired spec.now (bits_of design.now)) (IsWiredRightly spec.now (bits_of design.now)) (length spec.now.links) result }
{
    for l in 0..spec.links() as u32 {
        if design.get(spec.link_variable(LinkNo(l))) != is_link_needed(spec, design, LinkNo(l)) {
            return Some(l);
        }
    }
    None
}
