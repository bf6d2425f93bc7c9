//! The encoding of a specification as a set of pseudo-Boolean constraints.
//!
//! [`Numbering`] says which variable stands for what, and [`encode`] gives the constraints in their order: one option a
//! task; for each message the sender's start, receivers covered, covered once, one arc in, arcs carry steps, steps have
//! a cause and no dangling branch; then allocation. The lists of options and arcs that the families ask for are made
//! once (`index`), and each constraint is written with its literals by rising variable (`literals`).
#![tactic(auto)]

ghost use Rattle.std.specs.Prelude.{◌≡◌, ◌<◌, ◌≤◌, length, IfOk, OnOk};
ghost use Rattle.std.specs.List.{flat_map};
ghost use Rattle.spec_model.specs.Spec.{below, all_variables};
ghost use Rattle.spec_model.specs.WellFormed.{size};
ghost use Rattle.encode_model.specs.Encoding.{one_option, options_chosen, message_part, messages_of, encoding};
ghost use Rattle.route_encode.specs.Adding.{Adds, terms_of};

mod allocation;
mod families;
mod index;
mod literals;
mod numbering;

use crate::allocation::add_allocation;
use crate::families::add_message;
use crate::index::Index;
use crate::literals::{add, negatives, positives};
pub use numbering::Numbering;
use pb_constraints::Set;
use spec_graph::Spec;
use std::alloc::{AllocError, Global};

/// One option a task, for one task.
fn add_one_option(alloc: Global, index: &Index, t: u64, out: &mut Set) -> Result<(), AllocError>
    requires task { t < length index.now.tasks }
    requires variables { out.old.variables ≡ all_variables index.now }
    ensures { OnOk result (Adds out.old out.new (one_option index.now t)) }
{
    index.spec().facts();
    let options = index.options_of(t);
    let some = positives(alloc, options)?;
    let not_two = negatives(alloc, options)?;
    add(alloc, out, 1, &some)?;
    add(
        alloc,
        out,
        (options.len() as u64).saturating_sub(1),
        &not_two,
    )?;
    Ok(())
}

/// One option a task.
#[tactic(auto, using(crate::proofs::Adding::adding_steps))]
fn add_tasks(alloc: Global, index: &Index, out: &mut Set) -> Result<(), AllocError>
    requires { out.old.variables ≡ all_variables index.now }
    ensures { OnOk result (Adds out.old out.new (options_chosen index.now)) }
{
    let tasks = index.spec().tasks();
    for t in 0..tasks {
        add_one_option(alloc, index, t as u64, out)?;
    }
    Ok(())
}

/// The families of each message.
#[tactic(auto, using(crate::proofs::Adding::adding_steps))]
fn add_messages(alloc: Global, index: &Index, out: &mut Set) -> Result<(), AllocError>
    requires { out.old.variables ≡ all_variables index.now }
    ensures { OnOk result (Adds out.old out.new (flat_map (message_part index.now) (messages_of index.now))) }
{
    let messages = index.spec().messages();
    for m in 0..messages {
        add_message(alloc, index, m as u64, out)?;
    }
    Ok(())
}

/// The encoding of a specification: its models are the valid designs. It has as many terms as the specification's size
/// says, or fewer.
#[tactic(auto, using(encode_model::proofs::Terms::term_counts), unfolding(encode_model::specs::Encoding::encoding))]
pub fn encode(alloc: Global, spec: &Spec) -> Result<Set, AllocError>
    ensures variables { IfOk result (λ set. set.variables ≡ all_variables spec.now) }
    ensures constraints { IfOk result (λ set. set.constraints ≡ encoding spec.now) }
    ensures terms { IfOk result (λ set. terms_of set.constraints ≤ size spec.now) }
{
    let index = Index::of(alloc, spec)?;
    let mut set = Set::new(alloc, spec.all_variables());
    add_tasks(alloc, &index, &mut set)?;
    add_messages(alloc, &index, &mut set)?;
    add_allocation(alloc, &index, &mut set)?;
    Ok(set)
}
