//! The rules of a valid design, and the first one that a design breaks.

ghost use Rattle.std.specs.Prelude.{◌≡◌, length, IsNone, IfSome, ◌↔◌};
ghost use Rattle.spec_model.specs.Spec.{bits_of, design_variables};
ghost use Rattle.spec_model.specs.Rules.{IsValid};
ghost use Rattle.impl_rules.specs.Broken.{rule_number, IsFirstBroken};

use crate::Design;
use crate::allocation::{misused_resource, miswired_link};
use crate::binding::unbound_task;
use crate::routes::{RouteRule, first_message};
use spec_graph::{ArcNo, LinkNo, MsgNo, ResNo, Spec, TaskNo};

/// A rule of a valid design, broken at a place.
#[derive(Clone, Copy, Debug, PartialEq, Eq)]
pub enum Rule {
    /// The chosen options of the task aren't exactly one.
    NotBoundOnce(TaskNo),
    /// The message uses an arc into its sender's resource.
    ArcIntoSender(MsgNo, ArcNo),
    /// The message uses two arcs into the resource.
    TwoArcsInto(MsgNo, ResNo),
    /// The message uses the arc, and no walk of fewer hops than its limit leads from the sender's resource to its tail.
    NoWalk(MsgNo, ArcNo),
    /// No walk leads to the resource of the receiver.
    NotReached(MsgNo, TaskNo),
    /// The message uses the arc, and neither goes on from its head nor has a receiver there.
    Dangling(MsgNo, ArcNo),
    /// The resource is allocated, and no task is on it and no message passes it; or the contrary.
    ResourceUse(ResNo),
    /// The link is allocated, and no message uses an arc of it; or the contrary.
    LinkUse(LinkNo),
}

impl Rule {
    /// The number of the rule, from 1 to 8.
    pub fn number(&self) -> u64
        ensures { result ≡ rule_number self.now }
    {
        match self {
            Rule::NotBoundOnce(_) => 1,
            Rule::ArcIntoSender(_, _) => 2,
            Rule::TwoArcsInto(_, _) => 3,
            Rule::NoWalk(_, _) => 4,
            Rule::NotReached(_, _) => 5,
            Rule::Dangling(_, _) => 6,
            Rule::ResourceUse(_) => 7,
            Rule::LinkUse(_) => 8,
        }
    }
}

/// The first rule that a design breaks: the lowest rule, at its lowest message, then at the lowest number of its task,
/// arc, resource or link. `None` exactly where the design is valid. It takes no memory.
pub fn first_broken(spec: &Spec, design: &Design) -> Option<Rule>
    requires { length design.now ≡ design_variables spec.now }
    ensures valid { IsNone result ↔ IsValid spec.now (bits_of design.now) }
    ensures first { IfSome result (IsFirstBroken spec.now (bits_of design.now)) }
{
    spec.facts();
    if let Some(t) = unbound_task(spec, design) {
        return Some(Rule::NotBoundOnce(TaskNo(t)));
    }
    if let Some((m, a)) = first_message(spec, design, RouteRule::NoArcIntoSender) {
        return Some(Rule::ArcIntoSender(MsgNo(m), ArcNo(a)));
    }
    if let Some((m, r)) = first_message(spec, design, RouteRule::OneArcInto) {
        return Some(Rule::TwoArcsInto(MsgNo(m), ResNo(r)));
    }
    if let Some((m, a)) = first_message(spec, design, RouteRule::ShortWalk) {
        return Some(Rule::NoWalk(MsgNo(m), ArcNo(a)));
    }
    if let Some((m, t)) = first_message(spec, design, RouteRule::Reached) {
        return Some(Rule::NotReached(MsgNo(m), TaskNo(t)));
    }
    if let Some((m, a)) = first_message(spec, design, RouteRule::GoesOn) {
        return Some(Rule::Dangling(MsgNo(m), ArcNo(a)));
    }
    if let Some(r) = misused_resource(spec, design) {
        return Some(Rule::ResourceUse(ResNo(r)));
    }
    if let Some(l) = miswired_link(spec, design) {
        return Some(Rule::LinkUse(LinkNo(l)));
    }
    None
}
