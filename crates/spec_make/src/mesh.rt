//! The shape of a made specification: which resources are joined, and which tasks messages go to.

ghost use Rattle.std.specs.Prelude.{◌≡◌, ◌≤◌, ◌<◌, ◌++◌, IfOk, OnOk};
ghost use Rattle.spec_make.specs.Mesh.{side_of, resources_of, tasks_of, right_ends, down_ends, ends_at, all_ends, has_message, goes_to_two};

use std::alloc::{AllocError, Global};

/// The two resources that a link joins.
#[derive(Debug, Clone, Copy, PartialEq, Eq)]
pub(crate) struct Ends {
    pub(crate) first: u64,
    pub(crate) second: u64,
}

/// How many resources a side of the mesh has.
pub(crate) fn side_of(number: u64) -> u64
    ensures value { result ≡ side_of number }
    ensures some { 2 ≤ result }
    ensures few { result ≤ 5 }
{
    2 + number % 8 / 2
}

/// How many resources there are.
pub(crate) fn resources_of(side: u64) -> u64
    requires { side ≤ 5 }
    ensures value { result ≡ resources_of side }
    ensures few { result ≤ 25 }
{
    side * side
}

/// How many tasks there are.
pub(crate) fn tasks_of(side: u64) -> u64
    requires some { 2 ≤ side }
    requires few { side ≤ 5 }
    ensures value { result ≡ tasks_of side }
    ensures some { 4 ≤ result }
    ensures few { result ≤ 46 }
{
    2 * (side * side) - 4
}

/// The link of a resource to its neighbour on the right, where it has one.
fn push_right(side: u64, i: u64, all: &mut Vec<Ends>) -> Result<(), AllocError>
    requires some { 2 ≤ side }
    requires few { side ≤ 5 }
    requires there { i < resources_of side }
    ensures { OnOk result (all.new.items ≡ all.old.items ++ right_ends side i) }
{
    if i % side + 1 < side {
        all.push(Ends {
            first: i,
            second: i + 1,
        })?;
    }
    Ok(())
}

/// The link of a resource to its neighbour below, where it has one.
fn push_down(side: u64, i: u64, all: &mut Vec<Ends>) -> Result<(), AllocError>
    requires some { 2 ≤ side }
    requires few { side ≤ 5 }
    requires there { i < resources_of side }
    ensures { OnOk result (all.new.items ≡ all.old.items ++ down_ends side i) }
{
    if i / side + 1 < side {
        all.push(Ends {
            first: i,
            second: i + side,
        })?;
    }
    Ok(())
}

fn push_ends(side: u64, i: u64, all: &mut Vec<Ends>) -> Result<(), AllocError>
    requires some { 2 ≤ side }
    requires few { side ≤ 5 }
    requires there { i < resources_of side }
    ensures { OnOk result (all.new.items ≡ all.old.items ++ ends_at side i) }
{
    push_right(side, i, all)?;
    push_down(side, i, all)
}

/// The links of the mesh.
pub(crate) fn all_ends(alloc: Global, side: u64) -> Result<Vec<Ends>, AllocError>
    requires some { 2 ≤ side }
    requires few { side ≤ 5 }
    ensures { IfOk result (λ all. all.items ≡ all_ends side) }
{
    let mut all = Vec::new(alloc);
    for i in 0..resources_of(side) {
        push_ends(side, i, &mut all)?;
    }
    Ok(all)
}

/// Whether a message is named for a task.
pub(crate) fn has_message(i: u64) -> bool
    ensures { result ≡ has_message i }
{
    i % 3 != 2
}

/// Whether the message that is named for a task goes to the next task too.
pub(crate) fn goes_to_two(tasks: u64, i: u64) -> bool
    requires { i < tasks }
    ensures { result ≡ goes_to_two tasks i }
{
    i % 3 == 1 && i + 1 < tasks
}
