//! Which tasks a message goes to.

ghost use Rattle.std.specs.Prelude.{◌≡◌, ℕ, ◌<◌, ◌||◌, All, false, length, map, nat_eq, slice_index_or};
ghost use Rattle.std.specs.List.{list_any};
ghost use Rattle.spec_model.specs.Schedule.{goes_to as is_received};
ghost use Rattle.spec_graph.specs.Lists.{task_number};
ghost use Rattle.evaluators.specs.Marks.{IsBelow};

use spec_graph::{MsgNo, Spec, TaskNo};

/// Whether a message goes to a task.
pub(crate) fn goes_to(spec: &Spec, m: MsgNo, t: TaskNo) -> bool
    requires { m.0 < length spec.now.messages }
    ensures { result ≡ is_received spec.now t.0 m.0 }
{
    spec.receivers(m).contains(&t)
}

/// Marks each task of a list.
pub(crate) fn mark_each(marks: &mut [bool], tasks: &[TaskNo])
    requires { All (IsBelow (length marks.old)) (map task_number tasks.now) }
    ensures marked { (t : ℕ) → slice_index_or marks.new t false ≡ (slice_index_or marks.old t false || list_any (nat_eq t) (map task_number tasks.now)) }
    ensures len { length marks.new ≡ length marks.old }
{
    for t in tasks {
        marks[t.0 as usize] = true;
    }
}
