//! A specification with its options and arcs by task, resource and link.
//!
//! The families of the encoding ask for these lists again and again. Each is made once, so that no family scans all
//! options or all arcs.

ghost use Rattle.std.specs.Prelude.{◌≡◌, ◌<◌, length, IfOk, [], map, slice_index_or, ◌≤◌, ◌^◌};
ghost use Rattle.spec_model.specs.Spec.{below, base, message_at, step_var, covered_var, arc_var, resource_var, link_var};
ghost use Rattle.spec_model.specs.Rules.{options_of, arcs_into, arcs_from, arcs_of};
ghost use Rattle.encode_model.specs.Encoding.{on_resource, options_on, neighbours};
ghost use Rattle.route_encode.specs.Keys.{has_key, with_key, has_arc, joined_to, neighbours_by, is_among, is_receiver, is_for, task_of, resource_of, head_of, tail_of, link_of};

use spec_graph::{ArcNo, LinkNo, MsgNo, OptNo, ResNo, Spec, TaskNo};
use std::alloc::{AllocError, Global};
use std::marker::Model;

/// The numbers of options or of arcs, rising.
#[derive(Drop)]
struct Numbers {
    list: Vec<u64>,
}

impl Model for Numbers {
    ghost use Rattle.std.specs.Prelude.{List, ℕ};

    ghost Value = { List ℕ };

    ghost view = { λ n. n.list.items };
}

/// The key at a place, 0 past the end of the list.
fn key_at(keys: &[u64], i: u64) -> u64
    ensures { result ≡ slice_index_or keys.now i 0 }
{
    match keys.get(i as usize) {
        Some(key) => *key,
        None => 0,
    }
}

/// Whether a list of keys has a key at a place.
fn has_key(keys: &[u64], key: u64, i: u64) -> bool
    ensures { result ≡ has_key keys.now key i }
{
    key_at(keys, i) == key
}

/// The places at which a list of keys has a key.
fn places(alloc: Global, keys: &[u64], key: u64) -> Result<Numbers, AllocError>
    ensures { IfOk result (λ n. n ≡ with_key keys.now key) }
{
    let list = (0..keys.len() as u64)
        .filter(|i| has_key(keys, key, *i))
        .collect(alloc)?;
    Ok(Numbers { list })
}

/// The places of each key below `n`.
#[tactic(auto, using(spec_model::proofs::Those::map_steps))]
fn by_key(alloc: Global, keys: &[u64], n: usize) -> Result<Vec<Numbers>, AllocError>
    ensures { IfOk result (λ rows. rows.items ≡ map (with_key keys.now) (below n)) }
{
    let mut rows = Vec::new(alloc);
    for k in 0..n {
        rows.push(places(alloc, keys, k as u64)?)?;
    }
    Ok(rows)
}

/// The tasks of the options.
fn option_tasks(alloc: Global, spec: &Spec) -> Result<Vec<u64>, AllocError>
    ensures { IfOk result (λ v. v.items ≡ map (task_of spec.now) (below (length spec.now.options))) }
{
    (0..spec.options())
        .map(|o| spec.option(OptNo(o as u32)).task.0 as u64)
        .collect(alloc)
}

/// The resources of the options.
fn option_resources(alloc: Global, spec: &Spec) -> Result<Vec<u64>, AllocError>
    ensures { IfOk result (λ v. v.items ≡ map (resource_of spec.now) (below (length spec.now.options))) }
{
    (0..spec.options())
        .map(|o| spec.option(OptNo(o as u32)).resource.0 as u64)
        .collect(alloc)
}

/// The heads of the arcs.
fn arc_heads(alloc: Global, spec: &Spec) -> Result<Vec<u64>, AllocError>
    ensures { IfOk result (λ v. v.items ≡ map (head_of spec.now) (below (length spec.now.arcs))) }
{
    (0..spec.arcs())
        .map(|a| spec.arc(ArcNo(a as u32)).head.0 as u64)
        .collect(alloc)
}

/// The tails of the arcs.
fn arc_tails(alloc: Global, spec: &Spec) -> Result<Vec<u64>, AllocError>
    ensures { IfOk result (λ v. v.items ≡ map (tail_of spec.now) (below (length spec.now.arcs))) }
{
    (0..spec.arcs())
        .map(|a| spec.arc(ArcNo(a as u32)).tail.0 as u64)
        .collect(alloc)
}

/// The links of the arcs.
fn arc_links(alloc: Global, spec: &Spec) -> Result<Vec<u64>, AllocError>
    ensures { IfOk result (λ v. v.items ≡ map (link_of spec.now) (below (length spec.now.arcs))) }
{
    (0..spec.arcs())
        .map(|a| spec.arc(ArcNo(a as u32)).link.0 as u64)
        .collect(alloc)
}

/// Whether one of some arcs has a tail.
fn has_arc(tails: &[u64], arcs: &[u64], p: u64) -> bool
    ensures { result ≡ has_arc tails.now arcs.now p }
{
    arcs.iter().any(|a| has_key(tails, p, *a))
}

/// The tails of some arcs among the resources below `n`, each once.
fn tails_of(alloc: Global, tails: &[u64], arcs: &[u64], n: usize) -> Result<Numbers, AllocError>
    ensures { IfOk result (λ list. list ≡ joined_to tails.now arcs.now n) }
{
    let list = (0..n as u64)
        .filter(|p| has_arc(tails, arcs, *p))
        .collect(alloc)?;
    Ok(Numbers { list })
}

/// For each resource the resources with an arc to it.
#[tactic(auto, using(spec_model::proofs::Those::map_steps))]
fn neighbours(
    alloc: Global,
    tails: &[u64],
    heads: &[u64],
    n: usize,
) -> Result<Vec<Numbers>, AllocError>
    ensures { IfOk result (λ rows. rows.items ≡ map (neighbours_by tails.now heads.now n) (below n)) }
{
    let mut rows = Vec::new(alloc);
    for q in 0..n {
        let arcs = places(alloc, heads, q as u64)?;
        rows.push(tails_of(alloc, tails, arcs.list.as_slice(), n)?)?;
    }
    Ok(rows)
}

/// Whether a task is among some.
fn is_among(tasks: &[TaskNo], t: u64) -> bool
    ensures { result ≡ is_among tasks.now t }
{
    tasks.iter().any(|w| w.0 as u64 == t)
}

/// For each task below `n` whether it is among some.
fn among(alloc: Global, tasks: &[TaskNo], n: usize) -> Result<Vec<bool>, AllocError>
    ensures { IfOk result (λ v. v.items ≡ map (is_among tasks.now) (below n)) }
{
    (0..n).map(|t| is_among(tasks, t as u64)).collect(alloc)
}

/// Where the further variables of each message begin: each base is the one before it and what that message takes.
#[tactic(auto, using(spec_model::proofs::Those::map_steps, spec_model::proofs::Numbers::numbers))]
fn bases(alloc: Global, spec: &Spec) -> Result<Vec<u64>, AllocError>
    ensures { IfOk result (λ v. v.items ≡ map (base spec.now) (below (length spec.now.messages))) }
{
    spec.facts();
    let mut bases = Vec::new(alloc);
    let mut at = spec.design_variables();
    for m in 0..spec.messages() {
        bases.push(at)?;
        at += spec.resources() as u64 * (spec.hop_limit(MsgNo(m as u32)) + 2);
    }
    Ok(bases)
}

/// A specification with its lists of options and arcs. It is seen as the specification.
#[derive(Drop)]
pub struct Index<'a> {
    spec: &'a Spec,
    of_task: Vec<Numbers>,
    on_resource: Vec<Numbers>,
    into: Vec<Numbers>,
    from: Vec<Numbers>,
    of_link: Vec<Numbers>,
    neighbours: Vec<Numbers>,
    bases: Vec<u64>,
    option_tasks: Vec<u64>,
    option_resources: Vec<u64>,
}

impl<'a> Model for Index<'a> {
    ghost use Rattle.spec_model.specs.Spec.{SpecValue};

    ghost Value = { SpecValue };

    ghost view = { λ i. i.spec.now };

    ghost use Rattle.route_encode.specs.Index.{HoldsIndex};

    ghost invariant = { HoldsIndex };
}

/// The list at a place of a list of lists.
fn row(rows: &[Numbers], k: u64) -> &[u64]
    requires { k < length rows.now }
    ensures { result.now ≡ slice_index_or rows.now k [] }
{
    let row = &rows[k as usize];
    row.list.as_slice()
}

impl<'a> Index<'a> {
    /// Makes the lists.
    #[tactic(auto, using(crate::proofs::Rows::key_steps))]
    pub fn of(alloc: Global, spec: &'a Spec) -> Result<Index<'a>, AllocError>
        ensures { IfOk result (λ i. i ≡ spec.now) }
    {
        let tasks = option_tasks(alloc, spec)?;
        let places = option_resources(alloc, spec)?;
        let heads = arc_heads(alloc, spec)?;
        let tails = arc_tails(alloc, spec)?;
        let links = arc_links(alloc, spec)?;
        let resources = spec.resources();
        Ok(Index {
            spec,
            of_task: by_key(alloc, &tasks, spec.tasks())?,
            on_resource: by_key(alloc, &places, resources)?,
            into: by_key(alloc, &heads, resources)?,
            from: by_key(alloc, &tails, resources)?,
            of_link: by_key(alloc, &links, spec.links())?,
            neighbours: neighbours(alloc, &tails, &heads, resources)?,
            bases: bases(alloc, spec)?,
            option_tasks: tasks,
            option_resources: places,
        })
    }

    /// The specification.
    pub fn spec(&self) -> &'a Spec
        ensures { result.now ≡ self.now }
    {
        self.spec
    }

    /// The options of a task.
    #[tactic(auto, using(crate::proofs::Rows::row_steps))]
    pub fn options_of(&self, t: u64) -> &[u64]
        requires { t < length self.now.tasks }
        ensures { result.now ≡ options_of self.now t }
    {
        row(&self.of_task, t)
    }

    /// The options on a resource.
    #[tactic(auto, using(crate::proofs::Rows::row_steps))]
    pub fn options_on(&self, r: u64) -> &[u64]
        requires { r < length self.now.resources }
        ensures { result.now ≡ options_on self.now r }
    {
        row(&self.on_resource, r)
    }

    /// The arcs into a resource.
    #[tactic(auto, using(crate::proofs::Rows::row_steps))]
    pub fn arcs_into(&self, r: u64) -> &[u64]
        requires { r < length self.now.resources }
        ensures { result.now ≡ arcs_into self.now r }
    {
        row(&self.into, r)
    }

    /// The arcs from a resource.
    #[tactic(auto, using(crate::proofs::Rows::row_steps))]
    pub fn arcs_from(&self, r: u64) -> &[u64]
        requires { r < length self.now.resources }
        ensures { result.now ≡ arcs_from self.now r }
    {
        row(&self.from, r)
    }

    /// The arcs of a link.
    #[tactic(auto, using(crate::proofs::Rows::row_steps))]
    pub fn arcs_of(&self, l: u64) -> &[u64]
        requires { l < length self.now.links }
        ensures { result.now ≡ arcs_of self.now l }
    {
        row(&self.of_link, l)
    }

    /// The resources with an arc to a resource, each once.
    #[tactic(auto, using(crate::proofs::Rows::row_steps))]
    pub fn neighbours(&self, q: u64) -> &[u64]
        requires { q < length self.now.resources }
        ensures { result.now ≡ neighbours self.now q }
    {
        row(&self.neighbours, q)
    }

    /// Whether an option is on a resource.
    #[tactic(auto, using(crate::proofs::Rows::test_steps))]
    pub fn is_on(&self, r: u64, o: u64) -> bool
        ensures { result ≡ on_resource self.now r o }
    {
        has_key(&self.option_resources, r, o)
    }

    /// For each task whether it is a receiver of a message.
    #[tactic(auto, using(crate::proofs::Rows::test_steps))]
    pub fn receivers(&self, alloc: Global, m: u64) -> Result<Vec<bool>, AllocError>
        requires { m < length self.now.messages }
        ensures { IfOk result (λ v. v.items ≡ map (is_receiver self.now m) (below (length self.now.tasks))) }
    {
        let spec = self.spec;
        spec.facts();
        among(alloc, spec.receivers(MsgNo(m as u32)), spec.tasks())
    }

    /// Whether an option is one of a message's receivers, of which a list says for each task whether it is one.
    #[tactic(auto, using(crate::proofs::Rows::test_steps))]
    pub fn is_for(&self, m: u64, receivers: &[bool], o: u64) -> bool
        requires message { m < length self.now.messages }
        requires receivers { receivers.now ≡ map (is_receiver self.now m) (below (length self.now.tasks)) }
        ensures { result ≡ is_for self.now m o }
    {
        let spec = self.spec;
        spec.facts();
        let task = key_at(&self.option_tasks, o);
        match receivers.get(task as usize) {
            Some(is_receiver) => *is_receiver,
            None => false,
        }
    }

    /// Where the further variables of a message begin.
    #[tactic(auto, using(crate::proofs::Rows::number_steps))]
    fn base(&self, m: u64) -> u64
        requires { m < length self.now.messages }
        ensures { result ≡ base self.now m }
    {
        self.bases[m as usize]
    }

    /// The variable that says that a message reaches a resource at a step.
    #[tactic(auto, using(spec_model::proofs::Numbers::numbers))]
    pub fn step(&self, m: u64, r: u64, t: u64) -> u64
        requires message { m < length self.now.messages }
        requires resource { r < length self.now.resources }
        requires step { t ≤ (message_at self.now m).limit }
        ensures { result ≡ step_var self.now m r t }
    {
        let spec = self.spec;
        spec.facts();
        self.base(m) + r * (spec.hop_limit(MsgNo(m as u32)) + 1) + t
    }

    /// The variable that says that a message covers a resource.
    #[tactic(auto, using(spec_model::proofs::Numbers::numbers))]
    pub fn covered(&self, m: u64, r: u64) -> u64
        requires message { m < length self.now.messages }
        requires resource { r < length self.now.resources }
        ensures { result ≡ covered_var self.now m r }
    {
        let spec = self.spec;
        spec.facts();
        self.base(m) + spec.resources() as u64 * (spec.hop_limit(MsgNo(m as u32)) + 1) + r
    }

    /// The variable that says that a message uses an arc.
    pub fn use_of(&self, m: u64, a: u64) -> u64
        requires message { m < length self.now.messages }
        requires arc { a < length self.now.arcs }
        ensures { result ≡ arc_var self.now m a }
    {
        let spec = self.spec;
        spec.facts();
        spec.arc_variable(MsgNo(m as u32), ArcNo(a as u32))
    }

    /// The variable that says that a resource is allocated.
    pub fn resource(&self, r: u64) -> u64
        requires { r < length self.now.resources }
        ensures { result ≡ resource_var self.now r }
    {
        let spec = self.spec;
        spec.facts();
        spec.resource_variable(ResNo(r as u32))
    }

    /// The variable that says that a link is allocated.
    pub fn link(&self, l: u64) -> u64
        requires { l < length self.now.links }
        ensures { result ≡ link_var self.now l }
    {
        let spec = self.spec;
        spec.facts();
        spec.link_variable(LinkNo(l as u32))
    }
}
