//! The binding rule: each task has exactly one chosen option.

ghost use Rattle.std.specs.Prelude.{◌≡◌, ℕ, ◌<◌, Contains, length, count_by};
ghost use Rattle.spec_model.specs.Spec.{bits_of, design_variables};
ghost use Rattle.spec_model.specs.Rules.{BoundOnce, IsOn, IsUnbound, options_of};
ghost use Rattle.impl_rules.specs.Least.{IsFirst};

use crate::Design;
use spec_graph::{OptNo, ResNo, Spec, TaskNo};

/// How many options of a task are chosen.
#[tactic(auto, using(spec_model::proofs::Those::those_steps), unfolding(spec_model::specs::Rules::of_task))]
fn chosen_options(spec: &Spec, design: &Design, t: TaskNo) -> u32
    requires { length design.now ≡ design_variables spec.now }
    ensures { result ≡ count_by (bits_of design.now) (options_of spec.now t.0) }
{
    let mut chosen = 0;
    for o in 0..spec.options() as u32 {
        if spec.option(OptNo(o)).task == t && design.get(o as u64) {
            chosen += 1;
        }
    }
    chosen
}

/// The number of the first task that has not exactly one chosen option.
pub(crate) fn unbound_task(spec: &Spec, design: &Design) -> Option<u32>
    requires { length design.now ≡ design_variables spec.now }
    ensures { IsFirst (IsUnbound spec.now (bits_of design.now)) (BoundOnce spec.now (bits_of design.now)) (length spec.now.tasks) result }
{
    for t in 0..spec.tasks() as u32 {
        if chosen_options(spec, design, TaskNo(t)) != 1 {
            return Some(t);
        }
    }
    None
}

/// The resource of a task that is bound once.
#[tactic(auto, using(spec_model::proofs::Those::those_steps), unfolding(spec_model::specs::Rules::of_task))]
pub(crate) fn resource_of(spec: &Spec, design: &Design, t: TaskNo) -> ResNo
    requires bits { length design.now ≡ design_variables spec.now }
    requires once { BoundOnce spec.now (bits_of design.now) t.0 }
    ensures { IsOn spec.now (bits_of design.now) t.0 result.0 }
{
    for o in 0..spec.options() as u32 {
        let option = spec.option(OptNo(o));
        if option.task == t && design.get(o as u64) {
            return option.resource;
        }
    }
    ResNo(0)
}
