//! Where the tasks of a design run.

ghost use Rattle.std.specs.Prelude.{◌≡◌, ◌<◌, length};
ghost use Rattle.spec_model.specs.Spec.{bits_of, design_variables};
ghost use Rattle.spec_model.specs.Rules.{BoundOnce, IsOn};
ghost use Rattle.spec_model.specs.Schedule.{chosen_option as option_of, resource_of};

use impl_rules::Design;
use spec_graph::{OptNo, Spec, TaskNo};

/// The option that is chosen for a task.
pub(crate) fn chosen_option(spec: &Spec, design: &Design, t: TaskNo) -> OptNo
    requires bits { length design.now ≡ design_variables spec.now }
    requires once { BoundOnce spec.now (bits_of design.now) t.0 }
    ensures option { result.0 ≡ option_of spec.now (bits_of design.now) t.0 }
    ensures there { result.0 < length spec.now.options }
    ensures on { IsOn spec.now (bits_of design.now) t.0 (resource_of spec.now (bits_of design.now) t.0) }
{
    for o in 0..spec.options() as u32 {
        if spec.option(OptNo(o)).task == t && design.get(o as u64) {
            return OptNo(o);
        }
    }
    OptNo(0)
}
