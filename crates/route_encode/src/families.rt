//! The families of one message, each for all its resources, arcs or receivers.

ghost use Rattle.std.specs.Prelude.{◌≡◌, ℕ, ◌+◌, ◌-◌, ◌<◌, ◌≤◌, [], ◌∷◌, length, map, All, IfOk, OnOk};
ghost use Rattle.std.specs.List.{flat_map, filter};
ghost use Rattle.spec_model.specs.Spec.{below, message_at, arc_at, arc_var, all_variables};
ghost use Rattle.spec_model.specs.Limits.{most_resources};
ghost use Rattle.encode_model.specs.Encoding.{option_on, on_resource, steps_from, arc_vars, step_at, neighbours, receiver_options, sender_start, option_covers, receiver_covered, receivers_covered, covered_once, one_arc_in, carries, arc_carries, has_cause, steps_have_cause, no_dangling, message_part, resources_of};
ghost use Rattle.route_encode.specs.Keys.{is_receiver, is_for};
ghost use Rattle.route_encode.specs.Adding.{Adds};

use crate::index::Index;
use crate::literals::{Signed, add, add_two, negatives, positives, put};
use pb_constraints::Set;
use spec_graph::{ArcNo, MsgNo, OptNo};
use std::alloc::{AllocError, Global};

/// The hop limit of a message.
fn limit_of(index: &Index, m: u64) -> u64
    requires { m < length index.now.messages }
    ensures value { result ≡ (message_at index.now m).limit }
    ensures small { result < most_resources }
{
    let spec = index.spec();
    spec.facts();
    spec.hop_limit(MsgNo(m as u32))
}

/// Those of some options that are on a resource.
fn those_on(alloc: Global, index: &Index, r: u64, options: &[u64]) -> Result<Vec<u64>, AllocError>
    ensures { IfOk result (λ v. v.items ≡ filter (on_resource index.now r) options.now) }
{
    options
        .iter()
        .copied()
        .filter(|o| index.is_on(r, *o))
        .collect(alloc)
}

/// The option of a task on a resource, if there is one.
#[tactic(auto, using(crate::proofs::Rows::filter_steps))]
fn option_on(alloc: Global, index: &Index, t: u64, r: u64) -> Result<Vec<u64>, AllocError>
    requires { t < length index.now.tasks }
    ensures { IfOk result (λ v. v.items ≡ option_on index.now t r) }
{
    let options = index.options_of(t);
    let found = those_on(alloc, index, r, options)?;
    Ok(found)
}

/// The sender's start: a resource is reached at step 0 exactly where the sender is on it.
fn add_sender_start(
    alloc: Global,
    index: &Index,
    m: u64,
    r: u64,
    out: &mut Set,
) -> Result<(), AllocError>
    requires message { m < length index.now.messages }
    requires resource { r < length index.now.resources }
    requires variables { out.old.variables ≡ all_variables index.now }
    ensures { OnOk result (Adds out.old out.new (sender_start index.now m r)) }
{
    let spec = index.spec();
    spec.facts();
    let sender = spec.sender(MsgNo(m as u32));
    let options = option_on(alloc, index, sender.0 as u64, r)?;
    let start = index.step(m, r, 0);
    let mut back = negatives(alloc, &options)?;
    back.push(Signed::positive(start))?;
    let mut onward = positives(alloc, &options)?;
    onward.push(Signed::negative(start))?;
    add(alloc, out, options.len() as u64, &back)?;
    add(alloc, out, 1, &onward)?;
    Ok(())
}

/// The sender's start for each resource.
#[tactic(auto, using(crate::proofs::Adding::adding_steps))]
fn add_starts(alloc: Global, index: &Index, m: u64, out: &mut Set) -> Result<(), AllocError>
    requires message { m < length index.now.messages }
    requires variables { out.old.variables ≡ all_variables index.now }
    ensures { OnOk result (Adds out.old out.new (flat_map (sender_start index.now m) (resources_of index.now))) }
{
    let resources = index.spec().resources();
    for r in 0..resources {
        add_sender_start(alloc, index, m, r as u64, out)?;
    }
    Ok(())
}

/// A chosen option of a receiver covers its resource.
#[tactic(auto, unfolding(encode_model::specs::Encoding::option_covers))]
fn add_option_cover(
    alloc: Global,
    index: &Index,
    m: u64,
    o: u64,
    out: &mut Set,
) -> Result<(), AllocError>
    requires message { m < length index.now.messages }
    requires option { o < length index.now.options }
    requires variables { out.old.variables ≡ all_variables index.now }
    ensures { OnOk result (Adds out.old out.new (option_covers index.now m o ∷ [])) }
{
    let spec = index.spec();
    spec.facts();
    let place = spec.option(OptNo(o as u32)).resource;
    add_two(
        alloc,
        out,
        Signed::negative(o),
        Signed::positive(index.covered(m, place.0 as u64)),
    )
}

/// Receivers covered, for one receiver.
#[tactic(auto, using(crate::proofs::Adding::adding_steps))]
fn add_receiver_covered(
    alloc: Global,
    index: &Index,
    m: u64,
    w: u64,
    out: &mut Set,
) -> Result<(), AllocError>
    requires message { m < length index.now.messages }
    requires receiver { w < length index.now.tasks }
    requires variables { out.old.variables ≡ all_variables index.now }
    ensures { OnOk result (Adds out.old out.new (receiver_covered index.now m w)) }
{
    let options = index.options_of(w);
    for o in options {
        add_option_cover(alloc, index, m, *o, out)?;
    }
    Ok(())
}

/// Receivers covered.
#[tactic(auto, using(crate::proofs::Adding::adding_steps))]
fn add_receivers(alloc: Global, index: &Index, m: u64, out: &mut Set) -> Result<(), AllocError>
    requires message { m < length index.now.messages }
    requires variables { out.old.variables ≡ all_variables index.now }
    ensures { OnOk result (Adds out.old out.new (receivers_covered index.now m)) }
{
    let spec = index.spec();
    spec.facts();
    let receivers = spec.receivers(MsgNo(m as u32));
    for w in receivers {
        add_receiver_covered(alloc, index, m, w.0 as u64, out)?;
    }
    Ok(())
}

/// The step variables of a resource from a step on.
#[tactic(auto, unfolding(encode_model::specs::Encoding::step_after))]
fn steps(alloc: Global, index: &Index, m: u64, r: u64, from: u64) -> Result<Vec<u64>, AllocError>
    requires message { m < length index.now.messages }
    requires resource { r < length index.now.resources }
    requires from { from ≤ 1 }
    ensures { IfOk result (λ v. v.items ≡ steps_from index.now m r from) }
{
    let count = limit_of(index, m) + 1 - from;
    (0..count)
        .map(|t| index.step(m, r, from + t))
        .collect(alloc)
}

/// Covered once, for one resource.
fn add_covered_once(
    alloc: Global,
    index: &Index,
    m: u64,
    r: u64,
    out: &mut Set,
) -> Result<(), AllocError>
    requires message { m < length index.now.messages }
    requires resource { r < length index.now.resources }
    requires variables { out.old.variables ≡ all_variables index.now }
    ensures { OnOk result (Adds out.old out.new (covered_once index.now m r)) }
{
    index.spec().facts();
    let steps = steps(alloc, index, m, r, 0)?;
    let covered = index.covered(m, r);
    let mut one = negatives(alloc, &steps)?;
    one.push(Signed::positive(covered))?;
    let mut some = positives(alloc, &steps)?;
    some.push(Signed::negative(covered))?;
    add(alloc, out, limit_of(index, m) + 1, &one)?;
    add(alloc, out, 1, &some)?;
    Ok(())
}

/// Covered once for each resource.
#[tactic(auto, using(crate::proofs::Adding::adding_steps))]
fn add_covers(alloc: Global, index: &Index, m: u64, out: &mut Set) -> Result<(), AllocError>
    requires message { m < length index.now.messages }
    requires variables { out.old.variables ≡ all_variables index.now }
    ensures { OnOk result (Adds out.old out.new (flat_map (covered_once index.now m) (resources_of index.now))) }
{
    let resources = index.spec().resources();
    for r in 0..resources {
        add_covered_once(alloc, index, m, r as u64, out)?;
    }
    Ok(())
}

/// The variables of some arcs for a message.
#[tactic(auto, using(crate::proofs::Rows::filter_steps))]
pub fn uses(alloc: Global, index: &Index, m: u64, arcs: &[u64]) -> Result<Vec<u64>, AllocError>
    requires message { m < length index.now.messages }
    requires arcs { All (λ a. a < length index.now.arcs) arcs.now }
    ensures { IfOk result (λ v. v.items ≡ arc_vars index.now m arcs.now) }
{
    let mut uses = Vec::new(alloc);
    for a in arcs {
        uses.push(index.use_of(m, *a))?;
    }
    Ok(uses)
}

/// One arc in, for one resource.
fn add_one_arc_in(
    alloc: Global,
    index: &Index,
    m: u64,
    r: u64,
    out: &mut Set,
) -> Result<(), AllocError>
    requires message { m < length index.now.messages }
    requires resource { r < length index.now.resources }
    requires variables { out.old.variables ≡ all_variables index.now }
    ensures { OnOk result (Adds out.old out.new (one_arc_in index.now m r)) }
{
    index.spec().facts();
    let arcs = index.arcs_into(r);
    let used = uses(alloc, index, m, arcs)?;
    let later = steps(alloc, index, m, r, 1)?;
    let mut one = positives(alloc, &used)?;
    one.extend_from_slice(&negatives(alloc, &later)?)?;
    let mut some = negatives(alloc, &used)?;
    some.extend_from_slice(&positives(alloc, &later)?)?;
    add(alloc, out, limit_of(index, m), &one)?;
    add(alloc, out, arcs.len() as u64, &some)?;
    Ok(())
}

/// One arc in for each resource.
#[tactic(auto, using(crate::proofs::Adding::adding_steps))]
fn add_arcs_in(alloc: Global, index: &Index, m: u64, out: &mut Set) -> Result<(), AllocError>
    requires message { m < length index.now.messages }
    requires variables { out.old.variables ≡ all_variables index.now }
    ensures { OnOk result (Adds out.old out.new (flat_map (one_arc_in index.now m) (resources_of index.now))) }
{
    let resources = index.spec().resources();
    for r in 0..resources {
        add_one_arc_in(alloc, index, m, r as u64, out)?;
    }
    Ok(())
}

/// A used arc carries a step of its tail to the next one of its head.
#[tactic(auto, unfolding(encode_model::specs::Encoding::carries))]
fn add_carry(
    alloc: Global,
    index: &Index,
    m: u64,
    a: u64,
    t: u64,
    out: &mut Set,
) -> Result<(), AllocError>
    requires message { m < length index.now.messages }
    requires arc { a < length index.now.arcs }
    requires step { t < (message_at index.now m).limit }
    requires variables { out.old.variables ≡ all_variables index.now }
    ensures { OnOk result (Adds out.old out.new (carries index.now m a t ∷ [])) }
{
    let spec = index.spec();
    spec.facts();
    let arc = spec.arc(ArcNo(a as u32));
    let mut literals = Vec::new(alloc);
    literals.push(Signed::positive(index.step(m, arc.head.0 as u64, t + 1)))?;
    put(
        &mut literals,
        Signed::negative(index.step(m, arc.tail.0 as u64, t)),
    )?;
    put(&mut literals, Signed::negative(index.use_of(m, a)))?;
    add(alloc, out, 1, &literals)
}

/// A used arc carries each step.
#[tactic(auto, using(crate::proofs::Adding::adding_steps))]
fn add_carries(
    alloc: Global,
    index: &Index,
    m: u64,
    a: u64,
    out: &mut Set,
) -> Result<(), AllocError>
    requires message { m < length index.now.messages }
    requires arc { a < length index.now.arcs }
    requires variables { out.old.variables ≡ all_variables index.now }
    ensures { OnOk result (Adds out.old out.new (map (carries index.now m a) (below (message_at index.now m).limit))) }
{
    let limit = limit_of(index, m);
    for t in 0..limit {
        add_carry(alloc, index, m, a, t, out)?;
    }
    Ok(())
}

/// Arcs carry steps, for one arc.
fn add_arc_carries(
    alloc: Global,
    index: &Index,
    m: u64,
    a: u64,
    out: &mut Set,
) -> Result<(), AllocError>
    requires message { m < length index.now.messages }
    requires arc { a < length index.now.arcs }
    requires variables { out.old.variables ≡ all_variables index.now }
    ensures { OnOk result (Adds out.old out.new (arc_carries index.now m a)) }
{
    let spec = index.spec();
    spec.facts();
    let tail = spec.arc(ArcNo(a as u32)).tail.0 as u64;
    let unused = Signed::negative(index.use_of(m, a));
    add_carries(alloc, index, m, a, out)?;
    add_two(alloc, out, unused, Signed::positive(index.covered(m, tail)))?;
    add_two(
        alloc,
        out,
        unused,
        Signed::negative(index.step(m, tail, limit_of(index, m))),
    )?;
    Ok(())
}

/// Arcs carry steps, for each arc.
#[tactic(auto, using(crate::proofs::Adding::adding_steps))]
fn add_carried(alloc: Global, index: &Index, m: u64, out: &mut Set) -> Result<(), AllocError>
    requires message { m < length index.now.messages }
    requires variables { out.old.variables ≡ all_variables index.now }
    ensures { OnOk result (Adds out.old out.new (flat_map (arc_carries index.now m) (below (length index.now.arcs)))) }
{
    let arcs = index.spec().arcs();
    for a in 0..arcs {
        add_arc_carries(alloc, index, m, a as u64, out)?;
    }
    Ok(())
}

/// The variables of the neighbours of a resource at a step.
#[tactic(auto, using(crate::proofs::Rows::filter_steps), unfolding(encode_model::specs::Encoding::step_at))]
fn earlier(
    alloc: Global,
    index: &Index,
    m: u64,
    t: u64,
    places: &[u64],
) -> Result<Vec<u64>, AllocError>
    requires message { m < length index.now.messages }
    requires step { t ≤ (message_at index.now m).limit }
    requires places { All (λ p. p < length index.now.resources) places.now }
    ensures { IfOk result (λ v. v.items ≡ map (step_at index.now m t) places.now) }
{
    let mut steps = Vec::new(alloc);
    for p in places {
        steps.push(index.step(m, *p, t))?;
    }
    Ok(steps)
}

/// A resource is reached at a later step only where a neighbour is reached one step earlier.
#[tactic(auto, unfolding(encode_model::specs::Encoding::has_cause))]
fn add_cause(
    alloc: Global,
    index: &Index,
    m: u64,
    q: u64,
    t: u64,
    out: &mut Set,
) -> Result<(), AllocError>
    requires message { m < length index.now.messages }
    requires resource { q < length index.now.resources }
    requires step { t < (message_at index.now m).limit }
    requires variables { out.old.variables ≡ all_variables index.now }
    ensures { OnOk result (Adds out.old out.new (has_cause index.now m q t ∷ [])) }
{
    index.spec().facts();
    let before = earlier(alloc, index, m, t, index.neighbours(q))?;
    let mut literals = positives(alloc, &before)?;
    put(&mut literals, Signed::negative(index.step(m, q, t + 1)))?;
    add(alloc, out, 1, &literals)
}

/// Steps have a cause, for one resource.
#[tactic(auto, using(crate::proofs::Adding::adding_steps))]
fn add_resource_causes(
    alloc: Global,
    index: &Index,
    m: u64,
    q: u64,
    out: &mut Set,
) -> Result<(), AllocError>
    requires message { m < length index.now.messages }
    requires resource { q < length index.now.resources }
    requires variables { out.old.variables ≡ all_variables index.now }
    ensures { OnOk result (Adds out.old out.new (steps_have_cause index.now m q)) }
{
    let limit = limit_of(index, m);
    for t in 0..limit {
        add_cause(alloc, index, m, q, t, out)?;
    }
    Ok(())
}

/// Steps have a cause for each resource.
#[tactic(auto, using(crate::proofs::Adding::adding_steps))]
fn add_causes(alloc: Global, index: &Index, m: u64, out: &mut Set) -> Result<(), AllocError>
    requires message { m < length index.now.messages }
    requires variables { out.old.variables ≡ all_variables index.now }
    ensures { OnOk result (Adds out.old out.new (flat_map (steps_have_cause index.now m) (resources_of index.now))) }
{
    let resources = index.spec().resources();
    for q in 0..resources {
        add_resource_causes(alloc, index, m, q as u64, out)?;
    }
    Ok(())
}

/// Those of some options that are a receiver's.
fn those_for(
    alloc: Global,
    index: &Index,
    m: u64,
    receivers: &[bool],
    options: &[u64],
) -> Result<Vec<u64>, AllocError>
    requires message { m < length index.now.messages }
    requires receivers { receivers.now ≡ map (is_receiver index.now m) (below (length index.now.tasks)) }
    ensures { IfOk result (λ v. v.items ≡ filter (is_for index.now m) options.now) }
{
    options
        .iter()
        .copied()
        .filter(|o| index.is_for(m, receivers, *o))
        .collect(alloc)
}

/// The options of a message's receivers on a resource.
#[tactic(auto, using(crate::proofs::Rows::filter_steps))]
fn receiver_options(
    alloc: Global,
    index: &Index,
    m: u64,
    receivers: &[bool],
    r: u64,
) -> Result<Vec<u64>, AllocError>
    requires message { m < length index.now.messages }
    requires receivers { receivers.now ≡ map (is_receiver index.now m) (below (length index.now.tasks)) }
    requires resource { r < length index.now.resources }
    ensures { IfOk result (λ v. v.items ≡ receiver_options index.now m r) }
{
    let options = index.options_on(r);
    let found = those_for(alloc, index, m, receivers, options)?;
    Ok(found)
}

/// No dangling branch, for one resource.
fn add_no_dangling(
    alloc: Global,
    index: &Index,
    m: u64,
    receivers: &[bool],
    r: u64,
    out: &mut Set,
) -> Result<(), AllocError>
    requires message { m < length index.now.messages }
    requires receivers { receivers.now ≡ map (is_receiver index.now m) (below (length index.now.tasks)) }
    requires resource { r < length index.now.resources }
    requires variables { out.old.variables ≡ all_variables index.now }
    ensures { OnOk result (Adds out.old out.new (no_dangling index.now m r)) }
{
    index.spec().facts();
    let options = receiver_options(alloc, index, m, receivers, r)?;
    let used = uses(alloc, index, m, index.arcs_from(r))?;
    let mut literals = positives(alloc, &options)?;
    literals.extend_from_slice(&positives(alloc, &used)?)?;
    literals.push(Signed::positive(index.step(m, r, 0)))?;
    literals.push(Signed::negative(index.covered(m, r)))?;
    add(alloc, out, 1, &literals)
}

/// No dangling branch for each resource.
#[tactic(auto, using(crate::proofs::Adding::adding_steps))]
fn add_ends(alloc: Global, index: &Index, m: u64, out: &mut Set) -> Result<(), AllocError>
    requires message { m < length index.now.messages }
    requires variables { out.old.variables ≡ all_variables index.now }
    ensures { OnOk result (Adds out.old out.new (flat_map (no_dangling index.now m) (resources_of index.now))) }
{
    let receivers = index.receivers(alloc, m)?;
    let resources = index.spec().resources();
    for r in 0..resources {
        add_no_dangling(alloc, index, m, &receivers, r as u64, out)?;
    }
    Ok(())
}

/// All families of a message.
pub fn add_message(alloc: Global, index: &Index, m: u64, out: &mut Set) -> Result<(), AllocError>
    requires message { m < length index.now.messages }
    requires variables { out.old.variables ≡ all_variables index.now }
    ensures { OnOk result (Adds out.old out.new (message_part index.now m)) }
{
    add_starts(alloc, index, m, out)?;
    add_receivers(alloc, index, m, out)?;
    add_covers(alloc, index, m, out)?;
    add_arcs_in(alloc, index, m, out)?;
    add_carried(alloc, index, m, out)?;
    add_causes(alloc, index, m, out)?;
    add_ends(alloc, index, m, out)?;
    Ok(())
}
