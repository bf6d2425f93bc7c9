//! What deadlines, messages and resources add up to.

ghost use Rattle.std.specs.Prelude.{◌≡◌, ◌<◌, ◌≤◌, ◌^◌, length, count_by};
ghost use Rattle.spec_model.specs.Spec.{bits_of, below, design_variables};
ghost use Rattle.spec_model.specs.Rules.{arc_bit};
ghost use Rattle.spec_model.specs.Schedule.{lateness as lateness_of, schedule, hopsum as hopsum_of, message_traffic, busy_time, peakload as peakload_of};
ghost use Rattle.evaluators.specs.Placed.{AreEnds};

use impl_rules::Design;
use spec_graph::{ArcNo, MsgNo, OptNo, ResNo, Spec};

/// How late a task ends at most, by the ends of all tasks; 0 where each is in time.
#[tactic(auto, using(crate::proofs::Greatest::greatest_steps), unfolding(spec_model::specs::Schedule::lateness))]
pub(crate) fn lateness(spec: &Spec, design: &Design, ends: &[u64]) -> u64
    requires each { length ends.now ≡ length spec.now.tasks }
    requires ends { AreEnds spec.now (schedule spec.now (bits_of design.now)) ends.now }
    ensures { result ≡ lateness_of spec.now (bits_of design.now) }
{
    let mut late = 0;
    for i in 0..spec.deadlines() {
        let (task, time) = spec.deadline(i);
        late = ends[task.0 as usize].saturating_sub(time).max(late);
    }
    late
}

/// How many arcs a message uses.
#[tactic(auto, using(crate::proofs::Adding::adding_steps), unfolding(spec_model::specs::Rules::arc_bit))]
fn used_arcs(spec: &Spec, design: &Design, m: MsgNo) -> u64
    requires bits { length design.now ≡ design_variables spec.now }
    requires message { m.0 < length spec.now.messages }
    ensures count { result ≡ count_by (arc_bit spec.now (bits_of design.now) m.0) (below (length spec.now.arcs)) }
    ensures few { result ≤ 2 ^ 11 }
{
    let mut used = 0;
    for a in 0..spec.arcs() as u32 {
        if design.get(spec.arc_variable(m, ArcNo(a))) {
            used += 1;
        }
    }
    used
}

/// What a message carries, for each arc that it uses.
#[tactic(auto, unfolding(spec_model::specs::Schedule::message_traffic))]
fn traffic(spec: &Spec, design: &Design, m: MsgNo) -> u64
    requires bits { length design.now ≡ design_variables spec.now }
    requires message { m.0 < length spec.now.messages }
    ensures traffic { result ≡ message_traffic spec.now (bits_of design.now) m.0 }
    ensures small { result ≤ 2 ^ 51 }
{
    spec.quantity(m) * used_arcs(spec, design, m)
}

/// What all messages carry over arcs.
#[tactic(auto, using(crate::proofs::Adding::adding_steps), unfolding(spec_model::specs::Schedule::hopsum))]
pub(crate) fn hopsum(spec: &Spec, design: &Design) -> u64
    requires { length design.now ≡ design_variables spec.now }
    ensures { result ≡ hopsum_of spec.now (bits_of design.now) }
{
    let mut sum = 0;
    for m in 0..spec.messages() as u32 {
        sum += traffic(spec, design, MsgNo(m));
    }
    sum
}

/// How long a resource is busy.
#[tactic(auto, using(crate::proofs::Adding::adding_steps), unfolding(spec_model::specs::Schedule::busy_time, spec_model::specs::Schedule::on_resource))]
fn busy(spec: &Spec, design: &Design, r: ResNo) -> u64
    requires { length design.now ≡ design_variables spec.now }
    ensures { result ≡ busy_time spec.now (bits_of design.now) r.0 }
{
    let mut sum = 0;
    for o in 0..spec.options() as u32 {
        let option = spec.option(OptNo(o));
        if option.resource == r && design.get(o as u64) {
            sum += option.time;
        }
    }
    sum
}

/// How long the busiest resource is busy.
#[tactic(auto, using(crate::proofs::Greatest::greatest_steps), unfolding(spec_model::specs::Schedule::peakload))]
pub(crate) fn peakload(spec: &Spec, design: &Design) -> u64
    requires { length design.now ≡ design_variables spec.now }
    ensures { result ≡ peakload_of spec.now (bits_of design.now) }
{
    let mut peak = 0;
    for r in 0..spec.resources() as u32 {
        peak = busy(spec, design, ResNo(r)).max(peak);
    }
    peak
}
