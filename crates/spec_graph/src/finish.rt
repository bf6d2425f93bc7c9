//! The end of a plan: what is tested of the whole, and the specification that it becomes.

ghost use Rattle.std.specs.Prelude.{◌≡◌, ◌<◌, ◌↔◌, IsTrue, Err, IfOk, OnOk, IfErr};
ghost use Rattle.spec_model.specs.Spec.{all_variables};
ghost use Rattle.spec_model.specs.WellFormed.{most_hops, size};
ghost use Rattle.spec_model.specs.Limits.{most_resources};
ghost use Rattle.spec_graph.specs.Plan.{finished};
ghost use Rattle.spec_graph.specs.Refusals.{HasBigProduct, IsFinishRefused, IsFinishAccepted};

use crate::builder::SpecBuilder;
use crate::faults::BuildFault;
use crate::messages::{Change, apply_to_all};
use crate::products::has_big_message;
use crate::spec::Spec;
use crate::sums::{option_counts, sum_further, sum_terms};
use line_words::What;
use spec_model::{MOST_TERMS, MOST_VARIABLES};
use std::alloc::AllocError;

/// How many variables and terms an encoding has.
#[derive(Clone, Copy)]
struct Sizes {
    variables: u64,
    terms: u64,
}

impl SpecBuilder {
    /// The greatest hop limit that makes a difference: one less than the number of resources.
    fn most_hops(&self) -> u64
        ensures most { result ≡ most_hops self.now }
        ensures small { result < most_resources }
    {
        let resources = self.held.resources.len() as u64;
        if resources == 0 {
            return 0;
        }
        resources - 1
    }

    /// Whether the traffic weight of an arc's link times what a message carries is too big.
    fn has_big_product(&self) -> bool
        ensures { IsTrue result ↔ HasBigProduct self.now }
    {
        has_big_message(
            &self.held.messages,
            &self.held.arcs,
            &self.held.traffic_weights,
        )
    }

    /// How many variables the encoding of the finished plan has.
    fn finished_variables(&self) -> u64
        ensures { result ≡ all_variables (finished self.now) }
    {
        let uses = self.messages() as u64 * self.arcs() as u64;
        let resources = self.resources() as u64;
        let design = self.options() as u64 + uses + resources + self.links() as u64;
        design + sum_further(&self.held.messages, resources, self.most_hops())
    }

    /// How many terms the encoding of the finished plan has, at most.
    fn finished_terms(&self) -> Result<u128, AllocError>
        ensures { IfOk result (λ terms. terms ≡ size (finished self.now)) }
    {
        let counts = option_counts(self.alloc, self.held.options.list(), self.tasks())?;
        let resources = self.resources() as u64;
        let arcs = self.arcs() as u64;
        let terms = 5 * self.options() as u64 + resources + self.links() as u64;
        Ok(
            terms as u128
                + sum_terms(
                    &self.held.messages,
                    &counts,
                    resources,
                    arcs,
                    self.most_hops(),
                ),
        )
    }

    /// How large the encoding of the finished plan is, where it is small enough.
    fn sizes(&self) -> Result<Sizes, BuildFault>
        ensures variables { IfOk result (λ sizes. sizes.variables ≡ all_variables (finished self.now)) }
        ensures terms { IfOk result (λ sizes. sizes.terms ≡ size (finished self.now)) }
        ensures accepted { OnOk result (IsFinishAccepted self.now) }
        ensures refused { IfErr result (IsFinishRefused self.now) }
    {
        if self.has_big_product() {
            return Err(BuildFault::TooBig);
        }
        let variables = self.finished_variables();
        if variables > MOST_VARIABLES {
            return Err(BuildFault::Limit(What::Variables));
        }
        let terms = self.finished_terms()?;
        if terms > MOST_TERMS as u128 {
            return Err(BuildFault::Limit(What::Terms));
        }
        Ok(Sizes {
            variables,
            terms: terms as u64,
        })
    }

    /// The specification that the plan becomes, with its sizes.
    fn into_spec(self, sizes: Sizes) -> Spec
        requires accepted { IsFinishAccepted self }
        requires all_variables { sizes.variables ≡ all_variables (finished self) }
        requires all_terms { sizes.terms ≡ size (finished self) }
        ensures { result ≡ finished self }
    {
        let most = self.most_hops();
        let SpecBuilder {
            alloc: _,
            order: _,
            mut held,
        } = self;
        apply_to_all(&mut held.messages, Change::AtMost(most));
        Spec {
            held,
            variables: sizes.variables,
            terms: sizes.terms,
        }
    }

    /// The refusal of the plan, which is let go.
    fn refused(self, fault: BuildFault) -> Result<Spec, BuildFault>
        ensures { result ≡ Err fault }
    {
        Err(fault)
    }

    /// The specification that the plan becomes: each hop limit is the stated one, or one less than the number of
    /// resources where that is less.
    ///
    /// Refused as `TooBig` where the traffic weight of an arc's link times what a message carries is above 2^40, then
    /// as `Limit` of `Variables` above 2^20 and of `Terms` above 2^23. The builder is spent.
    pub fn finish(self) -> Result<Spec, BuildFault>
        ensures finished { IfOk result (λ spec. spec ≡ finished self) }
        ensures accepted { OnOk result (IsFinishAccepted self) }
        ensures refused { IfErr result (IsFinishRefused self) }
    {
        match self.sizes() {
            Ok(sizes) => Ok(self.into_spec(sizes)),
            Err(fault) => self.refused(fault),
        }
    }
}
