//! What the statements so far have made.

ghost use Rattle.std.specs.Prelude.{◌≡◌, ℕ, ◌<◌, ◌≤◌, length};
ghost use Rattle.spec_model.specs.Limits.{most_number};
ghost use Rattle.spec_join.specs.Joining.{time_at, time_or_0};

use arch_reader::at_scale;
use spec_graph::SpecBuilder;
use std::alloc::Global;
use std::marker::Model;
use tgff_reader::Tgff;

/// The plan so far, and what later statements are read by: the tables, the types of the tasks that
/// stand first, which are those of the graphs, and of each message its type where it is one of the
/// graphs'; the scale of each objective and whether its fractions are cut off, the scale of all
/// times where one is stated, and the hop limit and the delay of later messages.
#[derive(Drop)]
pub(crate) struct Joiner<'a> {
    pub(crate) alloc: Global,
    pub(crate) tgff: &'a Tgff,
    pub(crate) plan: SpecBuilder,
    pub(crate) task_kinds: Vec<u64>,
    pub(crate) message_kinds: Vec<Option<u64>>,
    pub(crate) scales: Vec<u64>,
    pub(crate) floors: Vec<bool>,
    pub(crate) clock: Option<u64>,
    pub(crate) hops: u64,
    pub(crate) delay: u64,
}

impl<'a> Model for Joiner<'a> {
    ghost use Rattle.std.specs.Prelude.{◌≡◌, ◌≤◌, length};
    ghost use Rattle.spec_model.specs.Limits.{most_number};
    ghost use Rattle.spec_join.specs.Joining.{Joining};

    ghost Value = { Joining };

    ghost view = { λ j. record { plan = j.plan; tables = j.tgff.now.tables; task_kinds = j.task_kinds.items; message_kinds = j.message_kinds.items; scales = j.scales.items; floors = j.floors.items; clock = j.clock; hops = j.hops; delay = j.delay } };

    ghost invariant = { λ j. (length j.scales.items ≡ length j.plan.objectives) × (length j.floors.items ≡ length j.plan.objectives) × (length j.message_kinds.items ≡ length j.plan.messages) × (length j.task_kinds.items ≤ length j.plan.tasks) × (j.delay ≤ most_number) };
}

impl Joiner<'_> {
    /// A time at the clock's scale.
    pub(crate) fn time_at(&self, amount: i128) -> u64
        requires { time_at self.now amount ≤ most_number }
        ensures { result ≡ time_at self.now amount }
    {
        let scale = match self.clock {
            Some(scale) => scale,
            None => 0,
        };
        at_scale(scale, amount) as u64
    }

    /// A time at the clock's scale, or 0 where none is written.
    pub(crate) fn time_or_0(&self, time: Option<i128>) -> u64
        requires { time_or_0 self.now time ≤ most_number }
        ensures { result ≡ time_or_0 self.now time }
    {
        match time {
            Some(amount) => self.time_at(amount),
            None => 0,
        }
    }
}
