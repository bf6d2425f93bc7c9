//! The call of a builder that adds a link and its arcs.

ghost use Rattle.std.specs.Prelude.{◌≡◌, ◌<◌, ◌≤◌, ◌+◌, ◌++◌, length, map, Contains, MatchOption, IfOk, OnOk, IfErr, OnErr};
ghost use Rattle.std.specs.Vec.{vec_len, vec_capacity};
ghost use Rattle.spec_model.specs.Limits.{most_links};
ghost use Rattle.names.specs.Names.{IsName};
ghost use Rattle.spec_graph.specs.Held.{held_spec};
ghost use Rattle.spec_graph.specs.Lists.{arc_value};
ghost use Rattle.spec_graph.specs.Plan.{arcs_of_link, with_link};
ghost use Rattle.spec_graph.specs.Refusals.{IsLinkRefused, IsLinkAccepted};

use crate::builder::SpecBuilder;
use crate::faults::BuildFault;
use crate::held::Held;
use crate::numbers::{Arc, LinkNo, ResNo};
use crate::rows::{Weights, has_big};
use line_words::What;
use spec_model::MOST_LINKS;
use std::alloc::{AllocError, Global};

/// Adds the arcs of a link: from its first to its second resource, and where it is two-way the arc back.
fn push_arcs(arcs: &mut Vec<Arc>, link: LinkNo, a: ResNo, b: ResNo, two_way: bool)
    requires { vec_len arcs.old + 2 ≤ vec_capacity arcs.old }
    ensures { map arc_value arcs.new.items ≡ map arc_value arcs.old.items ++ arcs_of_link link.0 a.0 b.0 two_way }
{
    arcs.push_reserved(Arc {
        link,
        tail: a,
        head: b,
    });
    if two_way {
        arcs.push_reserved(Arc {
            link,
            tail: b,
            head: a,
        });
    }
}

impl Held {
    /// Adds a link of a new name with its arcs, its weights and its traffic weights.
    fn add_link(
        &mut self,
        alloc: Global,
        name: &str,
        a: ResNo,
        b: ResNo,
        two_way: bool,
        weights: &[u64],
        traffic: &[u64],
    ) -> Result<LinkNo, AllocError>
        requires named { IsName name.now }
        requires new { Contains self.old.links name.now → ⊥ }
        requires few { length self.old.links ≤ most_links }
        ensures number { IfOk result (λ l. l.0 ≡ length self.old.links) }
        ensures added { OnOk result (held_spec self.new ≡ with_link (held_spec self.old) name.now a.0 b.0 two_way weights.now traffic.now) }
        ensures err { OnErr result (held_spec self.new ≡ held_spec self.old) }
    {
        self.arcs.reserve(2)?;
        self.link_weights.reserve(1)?;
        self.traffic_weights.reserve(1)?;
        let weights = Weights::of(alloc, weights)?;
        let traffic = Weights::of(alloc, traffic)?;
        let number = LinkNo(self.links.add(alloc, name)? as u32);
        push_arcs(&mut self.arcs, number, a, b, two_way);
        self.link_weights.push_reserved(weights);
        self.traffic_weights.push_reserved(traffic);
        Ok(number)
    }
}

impl SpecBuilder {
    /// What a link is refused for, if for anything.
    fn link_fault(
        &self,
        name: &str,
        a: ResNo,
        b: ResNo,
        weights: &[u64],
        traffic: &[u64],
    ) -> Option<BuildFault>
        ensures { MatchOption result (IsLinkAccepted self.now name.now a.0 b.0 weights.now traffic.now) (IsLinkRefused self.now name.now a.0 b.0 weights.now traffic.now) }
    {
        if self.held.links.contains(name) {
            return Some(BuildFault::Repeated);
        }
        if a.0 == b.0 {
            return Some(BuildFault::SelfLink);
        }
        if has_big(weights) {
            return Some(BuildFault::TooBig);
        }
        if has_big(traffic) {
            return Some(BuildFault::TooBig);
        }
        if self.held.links.len() >= MOST_LINKS {
            return Some(BuildFault::Limit(What::Links));
        }
        None
    }

    /// Adds a link between two resources, with its weights and its traffic weights, one for each objective. A two-way
    /// link has the arc from `a` to `b` and then the arc back, a one-way link the first alone.
    ///
    /// Refused as `Repeated` where its name is declared, as `SelfLink` where both ends are one resource, as `TooBig`
    /// where a weight or traffic weight is above 2^40, and as `Limit` where there are 1,024 links.
    pub fn link(
        &mut self,
        name: &str,
        a: ResNo,
        b: ResNo,
        two_way: bool,
        weights: &[u64],
        traffic: &[u64],
    ) -> Result<LinkNo, BuildFault>
        requires named { IsName name.now }
        requires a_there { a.0 < length self.old.resources }
        requires b_there { b.0 < length self.old.resources }
        requires one_each { length weights.now ≡ length self.old.objectives }
        requires traffic_one_each { length traffic.now ≡ length self.old.objectives }
        ensures number { IfOk result (λ l. l.0 ≡ length self.old.links) }
        ensures added { OnOk result (self.new ≡ with_link self.old name.now a.0 b.0 two_way weights.now traffic.now) }
        ensures accepted { OnOk result (IsLinkAccepted self.old name.now a.0 b.0 weights.now traffic.now) }
        ensures refused { IfErr result (IsLinkRefused self.old name.now a.0 b.0 weights.now traffic.now) }
        ensures err { OnErr result (self.new ≡ self.old) }
    {
        if let Some(fault) = self.link_fault(name, a, b, weights, traffic) {
            return Err(fault);
        }
        Ok(
            self.held
                .add_link(self.alloc, name, a, b, two_way, weights, traffic)?,
        )
    }
}
