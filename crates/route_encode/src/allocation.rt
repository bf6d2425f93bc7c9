//! Allocation: what is used is allocated, and what is allocated is used.

ghost use Rattle.std.specs.Prelude.{◌≡◌, ℕ, ◌<◌, ◌≤◌, [], ◌∷◌, length, map, IfOk, OnOk};
ghost use Rattle.std.specs.List.{flat_map};
ghost use Rattle.spec_model.specs.Spec.{below, all_variables};
ghost use Rattle.encode_model.specs.Encoding.{option_allocates, cover_allocates, covers_allocate, cover_of, resource_has_use, arc_allocates, arcs_allocate, link_arcs, link_has_use, allocation, resources_of, messages_of};
ghost use Rattle.route_encode.specs.Adding.{Adds};

use crate::families::uses;
use crate::index::Index;
use crate::literals::{Signed, add, add_two, positives};
use pb_constraints::Set;
use spec_graph::{ArcNo, OptNo};
use std::alloc::{AllocError, Global};

/// A chosen option allocates its resource.
#[tactic(auto, unfolding(encode_model::specs::Encoding::option_allocates))]
fn add_option_allocates(
    alloc: Global,
    index: &Index,
    o: u64,
    out: &mut Set,
) -> Result<(), AllocError>
    requires option { o < length index.now.options }
    requires variables { out.old.variables ≡ all_variables index.now }
    ensures { OnOk result (Adds out.old out.new (option_allocates index.now o ∷ [])) }
{
    let spec = index.spec();
    spec.facts();
    let place = spec.option(OptNo(o as u32)).resource;
    add_two(
        alloc,
        out,
        Signed::negative(o),
        Signed::positive(index.resource(place.0 as u64)),
    )
}

/// Each chosen option allocates its resource.
#[tactic(auto, using(crate::proofs::Adding::adding_steps))]
fn add_options(alloc: Global, index: &Index, out: &mut Set) -> Result<(), AllocError>
    requires { out.old.variables ≡ all_variables index.now }
    ensures { OnOk result (Adds out.old out.new (map (option_allocates index.now) (below (length index.now.options)))) }
{
    let options = index.spec().options();
    for o in 0..options {
        add_option_allocates(alloc, index, o as u64, out)?;
    }
    Ok(())
}

/// A covered resource is allocated.
#[tactic(auto, unfolding(encode_model::specs::Encoding::cover_allocates))]
fn add_cover_allocates(
    alloc: Global,
    index: &Index,
    m: u64,
    r: u64,
    out: &mut Set,
) -> Result<(), AllocError>
    requires message { m < length index.now.messages }
    requires resource { r < length index.now.resources }
    requires variables { out.old.variables ≡ all_variables index.now }
    ensures { OnOk result (Adds out.old out.new (cover_allocates index.now m r ∷ [])) }
{
    index.spec().facts();
    add_two(
        alloc,
        out,
        Signed::positive(index.resource(r)),
        Signed::negative(index.covered(m, r)),
    )
}

/// Each resource that a message covers is allocated.
#[tactic(auto, using(crate::proofs::Adding::adding_steps))]
fn add_message_covers(alloc: Global, index: &Index, m: u64, out: &mut Set) -> Result<(), AllocError>
    requires message { m < length index.now.messages }
    requires variables { out.old.variables ≡ all_variables index.now }
    ensures { OnOk result (Adds out.old out.new (covers_allocate index.now m)) }
{
    let resources = index.spec().resources();
    for r in 0..resources {
        add_cover_allocates(alloc, index, m, r as u64, out)?;
    }
    Ok(())
}

/// Each covered resource is allocated.
#[tactic(auto, using(crate::proofs::Adding::adding_steps))]
fn add_covers(alloc: Global, index: &Index, out: &mut Set) -> Result<(), AllocError>
    requires { out.old.variables ≡ all_variables index.now }
    ensures { OnOk result (Adds out.old out.new (flat_map (covers_allocate index.now) (messages_of index.now))) }
{
    let messages = index.spec().messages();
    for m in 0..messages {
        add_message_covers(alloc, index, m as u64, out)?;
    }
    Ok(())
}

/// The variables that say which messages cover a resource.
#[tactic(auto, unfolding(encode_model::specs::Encoding::cover_of))]
fn covers_of(alloc: Global, index: &Index, r: u64) -> Result<Vec<u64>, AllocError>
    requires { r < length index.now.resources }
    ensures { IfOk result (λ v. v.items ≡ map (cover_of index.now r) (messages_of index.now)) }
{
    let messages = index.spec().messages();
    (0..messages)
        .map(|m| index.covered(m as u64, r))
        .collect(alloc)
}

/// An allocated resource has an option on it or is covered.
#[tactic(auto, unfolding(encode_model::specs::Encoding::resource_has_use))]
fn add_resource_has_use(
    alloc: Global,
    index: &Index,
    r: u64,
    out: &mut Set,
) -> Result<(), AllocError>
    requires resource { r < length index.now.resources }
    requires variables { out.old.variables ≡ all_variables index.now }
    ensures { OnOk result (Adds out.old out.new (resource_has_use index.now r ∷ [])) }
{
    index.spec().facts();
    let mut literals = positives(alloc, index.options_on(r))?;
    literals.push(Signed::negative(index.resource(r)))?;
    literals.extend_from_slice(&positives(alloc, &covers_of(alloc, index, r)?)?)?;
    add(alloc, out, 1, &literals)
}

/// Each allocated resource has a use.
#[tactic(auto, using(crate::proofs::Adding::adding_steps))]
fn add_resources(alloc: Global, index: &Index, out: &mut Set) -> Result<(), AllocError>
    requires { out.old.variables ≡ all_variables index.now }
    ensures { OnOk result (Adds out.old out.new (map (resource_has_use index.now) (resources_of index.now))) }
{
    let resources = index.spec().resources();
    for r in 0..resources {
        add_resource_has_use(alloc, index, r as u64, out)?;
    }
    Ok(())
}

/// A used arc allocates its link.
#[tactic(auto, unfolding(encode_model::specs::Encoding::arc_allocates))]
fn add_arc_allocates(
    alloc: Global,
    index: &Index,
    m: u64,
    a: u64,
    out: &mut Set,
) -> Result<(), AllocError>
    requires message { m < length index.now.messages }
    requires arc { a < length index.now.arcs }
    requires variables { out.old.variables ≡ all_variables index.now }
    ensures { OnOk result (Adds out.old out.new (arc_allocates index.now m a ∷ [])) }
{
    let spec = index.spec();
    spec.facts();
    let link = spec.arc(ArcNo(a as u32)).link;
    add_two(
        alloc,
        out,
        Signed::negative(index.use_of(m, a)),
        Signed::positive(index.link(link.0 as u64)),
    )
}

/// Each arc that a message uses allocates its link.
#[tactic(auto, using(crate::proofs::Adding::adding_steps))]
fn add_message_arcs(alloc: Global, index: &Index, m: u64, out: &mut Set) -> Result<(), AllocError>
    requires message { m < length index.now.messages }
    requires variables { out.old.variables ≡ all_variables index.now }
    ensures { OnOk result (Adds out.old out.new (arcs_allocate index.now m)) }
{
    let arcs = index.spec().arcs();
    for a in 0..arcs {
        add_arc_allocates(alloc, index, m, a as u64, out)?;
    }
    Ok(())
}

/// Each used arc allocates its link.
#[tactic(auto, using(crate::proofs::Adding::adding_steps))]
fn add_arcs(alloc: Global, index: &Index, out: &mut Set) -> Result<(), AllocError>
    requires { out.old.variables ≡ all_variables index.now }
    ensures { OnOk result (Adds out.old out.new (flat_map (arcs_allocate index.now) (messages_of index.now))) }
{
    let messages = index.spec().messages();
    for m in 0..messages {
        add_message_arcs(alloc, index, m as u64, out)?;
    }
    Ok(())
}

/// The variables of a link's arcs for all messages.
#[tactic(auto, using(spec_model::proofs::Those::those_steps), unfolding(encode_model::specs::Encoding::link_arcs))]
fn link_uses(alloc: Global, index: &Index, l: u64) -> Result<Vec<u64>, AllocError>
    requires { l < length index.now.links }
    ensures { IfOk result (λ v. v.items ≡ flat_map (link_arcs index.now l) (messages_of index.now)) }
{
    let arcs = index.arcs_of(l);
    let messages = index.spec().messages();
    let mut all = Vec::new(alloc);
    for m in 0..messages {
        all.extend_from_slice(&uses(alloc, index, m as u64, arcs)?)?;
    }
    Ok(all)
}

/// An allocated link has a used arc.
#[tactic(auto, unfolding(encode_model::specs::Encoding::link_has_use))]
fn add_link_has_use(alloc: Global, index: &Index, l: u64, out: &mut Set) -> Result<(), AllocError>
    requires link { l < length index.now.links }
    requires variables { out.old.variables ≡ all_variables index.now }
    ensures { OnOk result (Adds out.old out.new (link_has_use index.now l ∷ [])) }
{
    index.spec().facts();
    let mut literals = positives(alloc, &link_uses(alloc, index, l)?)?;
    literals.push(Signed::negative(index.link(l)))?;
    add(alloc, out, 1, &literals)
}

/// Each allocated link has a used arc.
#[tactic(auto, using(crate::proofs::Adding::adding_steps))]
fn add_links(alloc: Global, index: &Index, out: &mut Set) -> Result<(), AllocError>
    requires { out.old.variables ≡ all_variables index.now }
    ensures { OnOk result (Adds out.old out.new (map (link_has_use index.now) (below (length index.now.links)))) }
{
    let links = index.spec().links();
    for l in 0..links {
        add_link_has_use(alloc, index, l as u64, out)?;
    }
    Ok(())
}

/// The family allocation.
pub fn add_allocation(alloc: Global, index: &Index, out: &mut Set) -> Result<(), AllocError>
    requires { out.old.variables ≡ all_variables index.now }
    ensures { OnOk result (Adds out.old out.new (allocation index.now)) }
{
    add_options(alloc, index, out)?;
    add_covers(alloc, index, out)?;
    add_resources(alloc, index, out)?;
    add_arcs(alloc, index, out)?;
    add_links(alloc, index, out)?;
    Ok(())
}
