//! The routing rules, tested message by message: the used arcs are a tree from the sender's resource that reaches each
//! receiver, with no walk that is too long and no branch that leads nowhere.

ghost use Rattle.std.specs.Prelude.{◌≡◌, ℕ, ◌<◌, length};
ghost use Rattle.std.specs.Bool.{OnTrue, OnFalse};
ghost use Rattle.spec_model.specs.Spec.{bits_of, design_variables};
ghost use Rattle.spec_model.specs.Rules.{BoundOnce, IsOn, EntersSender, IsStray, IsUnreached, IsDangling, sender_of};
ghost use Rattle.impl_rules.specs.Least.{IsFirst, IsFirstPair, AllBelow};
ghost use Rattle.impl_rules.specs.Routes.{AllBoundOnce, BreaksAt, MeetsAt, IsReady, places};
ghost use Rattle.impl_rules.specs.declared.routes.RouteRule.TheVariants.{OneArcInto, ShortWalk, Reached, GoesOn};

use crate::Design;
use crate::binding::resource_of;
use crate::walks::{arcs_into, goes_on, has_walk, is_reached, is_receiver, uses};
use spec_graph::{ArcNo, MsgNo, ResNo, Spec, TaskNo};

/// A rule on the used arcs of a message, looked at arc by arc, resource by resource or task by task.
#[derive(Clone, Copy)]
pub(crate) enum RouteRule {
    NoArcIntoSender,
    OneArcInto,
    ShortWalk,
    Reached,
    GoesOn,
}

/// Whether a used arc of a message goes into its sender's resource, `source`.
fn enters_source(spec: &Spec, design: &Design, m: MsgNo, source: ResNo, a: ArcNo) -> bool
    requires bits { length design.now ≡ design_variables spec.now }
    requires message { m.0 < length spec.now.messages }
    requires arc { a.0 < length spec.now.arcs }
    requires source { IsOn spec.now (bits_of design.now) (sender_of spec.now m.0) source.0 }
    requires once { BoundOnce spec.now (bits_of design.now) (sender_of spec.now m.0) }
    ensures broken { OnTrue result (EntersSender spec.now (bits_of design.now) m.0 a.0) }
    ensures met { OnFalse result (¬ EntersSender spec.now (bits_of design.now) m.0 a.0) }
{
    if spec.arc(a).head != source {
        return false;
    }
    uses(spec, design, m, a)
}

/// Whether a message uses an arc to whose tail no walk is short enough.
fn is_stray(spec: &Spec, design: &Design, m: MsgNo, source: ResNo, a: ArcNo) -> bool
    requires bits { length design.now ≡ design_variables spec.now }
    requires message { m.0 < length spec.now.messages }
    requires arc { a.0 < length spec.now.arcs }
    requires source { IsOn spec.now (bits_of design.now) (sender_of spec.now m.0) source.0 }
    requires once { BoundOnce spec.now (bits_of design.now) (sender_of spec.now m.0) }
    requires one_into { AllBelow (MeetsAt spec.now (bits_of design.now) OneArcInto m.0) (length spec.now.resources) }
    ensures broken { OnTrue result (IsStray spec.now (bits_of design.now) m.0 a.0) }
    ensures met { OnFalse result (MeetsAt spec.now (bits_of design.now) ShortWalk m.0 a.0) }
{
    if !uses(spec, design, m, a) {
        return false;
    }
    !has_walk(spec, design, m, source, spec.arc(a).tail)
}

/// Whether a task is a receiver of a message to which no walk leads.
fn is_unreached(spec: &Spec, design: &Design, m: MsgNo, source: ResNo, t: TaskNo) -> bool
    requires bits { length design.now ≡ design_variables spec.now }
    requires message { m.0 < length spec.now.messages }
    requires source { IsOn spec.now (bits_of design.now) (sender_of spec.now m.0) source.0 }
    requires once { BoundOnce spec.now (bits_of design.now) (sender_of spec.now m.0) }
    requires bound { BoundOnce spec.now (bits_of design.now) t.0 }
    requires walks { AllBelow (MeetsAt spec.now (bits_of design.now) ShortWalk m.0) (length spec.now.arcs) }
    ensures broken { OnTrue result (IsUnreached spec.now (bits_of design.now) m.0 t.0) }
    ensures met { OnFalse result (MeetsAt spec.now (bits_of design.now) Reached m.0 t.0) }
{
    if !is_receiver(spec, m, t) {
        return false;
    }
    !is_reached(spec, design, m, source, resource_of(spec, design, t))
}

/// Whether a message uses an arc and neither goes on from its head nor has a receiver there.
fn is_dangling(spec: &Spec, design: &Design, m: MsgNo, a: ArcNo) -> bool
    requires bits { length design.now ≡ design_variables spec.now }
    requires message { m.0 < length spec.now.messages }
    requires arc { a.0 < length spec.now.arcs }
    ensures broken { OnTrue result (IsDangling spec.now (bits_of design.now) m.0 a.0) }
    ensures met { OnFalse result (MeetsAt spec.now (bits_of design.now) GoesOn m.0 a.0) }
{
    if !uses(spec, design, m, a) {
        return false;
    }
    !goes_on(spec, design, m, spec.arc(a).head)
}

/// Whether a message, whose sender is on `source`, breaks a rule at a place.
fn breaks_at(
    spec: &Spec,
    design: &Design,
    rule: RouteRule,
    m: MsgNo,
    source: ResNo,
    place: u32,
) -> bool
    requires bits { length design.now ≡ design_variables spec.now }
    requires message { m.0 < length spec.now.messages }
    requires place { place < places spec.now rule }
    requires source { IsOn spec.now (bits_of design.now) (sender_of spec.now m.0) source.0 }
    requires once { BoundOnce spec.now (bits_of design.now) (sender_of spec.now m.0) }
    requires bound { AllBoundOnce spec.now (bits_of design.now) }
    requires ready { IsReady spec.now (bits_of design.now) rule m.0 }
    ensures broken { OnTrue result (BreaksAt spec.now (bits_of design.now) rule m.0 place) }
    ensures met { OnFalse result (MeetsAt spec.now (bits_of design.now) rule m.0 place) }
{
    match rule {
        RouteRule::NoArcIntoSender => enters_source(spec, design, m, source, ArcNo(place)),
        RouteRule::OneArcInto => arcs_into(spec, design, m, ResNo(place)) > 1,
        RouteRule::ShortWalk => is_stray(spec, design, m, source, ArcNo(place)),
        RouteRule::Reached => is_unreached(spec, design, m, source, TaskNo(place)),
        RouteRule::GoesOn => is_dangling(spec, design, m, ArcNo(place)),
    }
}

/// How many arcs, resources or tasks there are for a rule.
fn places_of(spec: &Spec, rule: RouteRule) -> u32
    ensures { result ≡ places spec.now rule }
{
    match rule {
        RouteRule::OneArcInto => spec.resources() as u32,
        RouteRule::Reached => spec.tasks() as u32,
        RouteRule::NoArcIntoSender | RouteRule::ShortWalk | RouteRule::GoesOn => spec.arcs() as u32,
    }
}

/// The first place at which a message breaks a rule.
fn first_place(spec: &Spec, design: &Design, rule: RouteRule, m: MsgNo) -> Option<u32>
    requires bits { length design.now ≡ design_variables spec.now }
    requires message { m.0 < length spec.now.messages }
    requires bound { AllBoundOnce spec.now (bits_of design.now) }
    requires ready { IsReady spec.now (bits_of design.now) rule m.0 }
    ensures { IsFirst (BreaksAt spec.now (bits_of design.now) rule m.0) (MeetsAt spec.now (bits_of design.now) rule m.0) (places spec.now rule) result }
{
    let source = resource_of(spec, design, spec.sender(m));
    for place in 0..places_of(spec, rule) {
        if breaks_at(spec, design, rule, m, source, place) {
            return Some(place);
        }
    }
    None
}

/// The first message that breaks a rule, and the first place at which it does.
pub(crate) fn first_message(spec: &Spec, design: &Design, rule: RouteRule) -> Option<(u32, u32)>
    requires bits { length design.now ≡ design_variables spec.now }
    requires bound { AllBoundOnce spec.now (bits_of design.now) }
    requires ready { AllBelow (IsReady spec.now (bits_of design.now) rule) (length spec.now.messages) }
    ensures { IsFirstPair (BreaksAt spec.now (bits_of design.now) rule) (MeetsAt spec.now (bits_of design.now) rule) (length spec.now.messages) (places spec.now rule) result }
{
    for m in 0..spec.messages() as u32 {
        if let Some(place) = first_place(spec, design, rule, MsgNo(m)) {
            return Some((m, place));
        }
    }
    None
}
