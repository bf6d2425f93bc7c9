//! The schedule of a design, task by task: each starts once its resource is free and its messages have arrived.

ghost use Rattle.std.specs.Prelude.{◌≡◌, ℕ, ◌<◌, ◌≤◌, ◌+◌, ◌^◌, All, List, [], length, IfOk};
ghost use Rattle.spec_model.specs.Spec.{bits_of, design_variables};
ghost use Rattle.spec_model.specs.Rules.{IsValid};
ghost use Rattle.spec_model.specs.Schedule.{Slot, start_of, place as placed, schedule, makespan, resource_of, arrival as arrival_of};
ghost use Rattle.evaluators.specs.Placed.{AreEnds, ArePlaced, IsSized, IsNoLater, EndsBy};

use crate::binding::chosen_option;
use crate::chains::placing;
use crate::receiving::goes_to;
use crate::walks::walk_length;
use impl_rules::Design;
use spec_graph::{MsgNo, ResNo, Spec, TaskNo};
use std::alloc::{AllocError, Global};

/// When each task ends, from when each resource is free, and when the last task ends, of the tasks that are placed.
#[derive(Drop)]
pub(crate) struct Timetable {
    pub(crate) ends: Vec<u64>,
    pub(crate) free: Vec<u64>,
    pub(crate) last: u64,
}

/// When a message arrives at a resource.
fn arrival(spec: &Spec, design: &Design, ends: &[u64], m: MsgNo, r: ResNo) -> u64
    requires bits { length design.now ≡ design_variables spec.now }
    requires valid { IsValid spec.now (bits_of design.now) }
    requires message { m.0 < length spec.now.messages }
    requires resource { r.0 < length spec.now.resources }
    requires each { length ends.now ≡ length spec.now.tasks }
    requires room { All (IsNoLater (2 ^ 60)) ends.now }
    ensures time { (slots : List Slot) → AreEnds spec.now slots ends.now → result ≡ arrival_of spec.now (bits_of design.now) slots r.0 m.0 }
    ensures small { (time : ℕ) → All (IsNoLater time) ends.now → result ≤ time + 2 ^ 48 }
{
    let sender = spec.sender(m);
    let source = spec.option(chosen_option(spec, design, sender)).resource;
    let hops = walk_length(spec, design, m, source, r);
    ends[sender.0 as usize] + spec.delay(m) * hops
}

/// When a task starts on its resource, `r`.
fn start(spec: &Spec, design: &Design, table: &Timetable, t: TaskNo, r: ResNo) -> u64
    requires bits { length design.now ≡ design_variables spec.now }
    requires valid { IsValid spec.now (bits_of design.now) }
    requires resource { r.0 < length spec.now.resources }
    requires its_own { r.0 ≡ resource_of spec.now (bits_of design.now) t.0 }
    requires sized { IsSized spec.now table.now }
    requires room { EndsBy (2 ^ 60) table.now }
    ensures time { (slots : List Slot) → ArePlaced spec.now slots table.now → result ≡ start_of spec.now (bits_of design.now) slots t.0 }
    ensures small { (time : ℕ) → EndsBy time table.now → result ≤ time + 2 ^ 48 }
{
    let mut start = table.free[r.0 as usize];
    for m in 0..spec.messages() as u32 {
        if goes_to(spec, MsgNo(m), t) {
            start = start.max(arrival(spec, design, &table.ends, MsgNo(m), r));
        }
    }
    start
}

/// Places one more task.
fn place(spec: &Spec, design: &Design, table: &mut Timetable, t: TaskNo)
    requires bits { length design.now ≡ design_variables spec.now }
    requires valid { IsValid spec.now (bits_of design.now) }
    requires task { t.0 < length spec.now.tasks }
    requires sized { IsSized spec.now table.old }
    requires room { EndsBy (2 ^ 60) table.old }
    ensures placed { (slots : List Slot) → ArePlaced spec.now slots table.old → ArePlaced spec.now (placed spec.now (bits_of design.now) slots t.0) table.new }
    ensures small { (time : ℕ) → EndsBy time table.old → EndsBy (time + 2 ^ 49) table.new }
    ensures sized { IsSized spec.now table.new }
{
    let option = spec.option(chosen_option(spec, design, t));
    let finish = start(spec, design, table, t, option.resource) + option.time;
    table.ends[t.0 as usize] = finish;
    table.free[option.resource.0 as usize] = finish;
    table.last = table.last.max(finish);
}

/// A timetable without tasks.
fn empty(alloc: Global, spec: &Spec) -> Result<Timetable, AllocError>
    ensures placed { IfOk result (ArePlaced spec.now []) }
    ensures small { IfOk result (EndsBy 0) }
    ensures sized { IfOk result (IsSized spec.now) }
{
    let ends = vec![in alloc; 0; spec.tasks()]?;
    let free = vec![in alloc; 0; spec.resources()]?;
    Ok(Timetable {
        ends,
        free,
        last: 0,
    })
}

/// The timetable of a valid design.
pub(crate) fn timetable_of(
    alloc: Global,
    spec: &Spec,
    design: &Design,
) -> Result<Timetable, AllocError>
    requires bits { length design.now ≡ design_variables spec.now }
    requires valid { IsValid spec.now (bits_of design.now) }
    ensures placed { IfOk result (ArePlaced spec.now (schedule spec.now (bits_of design.now))) }
    ensures sized { IfOk result (IsSized spec.now) }
{
    spec.facts();
    let order = placing(alloc, spec)?;
    let mut table = empty(alloc, spec)?;
    for i in 0..order.len() {
        place(spec, design, &mut table, TaskNo(order[i]));
    }
    Ok(table)
}
