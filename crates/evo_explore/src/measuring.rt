//! Chosen tools of a list, each called once for a design.

ghost use Rattle.std.specs.Prelude.{◌≡◌, ◌+◌, ◌^◌, ◌<◌, All, length, vec_len, map, slice_index, slice_set, IfOk, OnOk, OnErr};
ghost use Rattle.spec_model.specs.Spec.{SpecValue, Bits, bits_of, design_variables};
ghost use Rattle.spec_model.specs.Rules.{IsValid};
ghost use Rattle.evo_explore.specs.Counts.{RoseBy, RoseAtMost, HasRoom, picked};

use evaluators::Evaluator;
use impl_rules::Design;
use spec_graph::Spec;
use std::alloc::{AllocError, Global};

/// What a tool measures of a design.
fn measure_one(
    alloc: Global,
    tool: &mut Box<dyn Evaluator>,
    spec: &Spec,
    design: &Design,
) -> Result<u64, AllocError>
    requires bits { length design.now ≡ design_variables spec.now }
    requires valid { IsValid spec.now (bits_of design.now) }
    requires room { calls tool.old < 2 ^ 63 }
    ensures answer { IfOk result (λ v. v ≡ value tool.old spec.now (bits_of design.now)) }
    ensures counted { OnOk result (calls tool.new ≡ calls tool.old + 1) }
    ensures uncounted { OnErr result (calls tool.new ≡ calls tool.old) }
    ensures same_tag { text tool.new ≡ text tool.old }
    ensures same_value { (s : SpecValue) (f : Bits) → value tool.new s f ≡ value tool.old s f }
{
    tool.measure(alloc, spec, design)
}

/// What the tool at a place measures.
fn measure_at(
    alloc: Global,
    tools: &mut Vec<Box<dyn Evaluator>>,
    place: usize,
    spec: &Spec,
    design: &Design,
) -> Result<u64, AllocError>
    requires bits { length design.now ≡ design_variables spec.now }
    requires valid { IsValid spec.now (bits_of design.now) }
    requires within { place < vec_len tools.old }
    requires room { slice_index (map calls tools.old.items) place < 2 ^ 63 }
    ensures answer { IfOk result (λ v. v ≡ slice_index (map (λ t. value t spec.now (bits_of design.now)) tools.old.items) place) }
    ensures counted { OnOk result (map calls tools.new.items ≡ slice_set (map calls tools.old.items) place (slice_index (map calls tools.old.items) place + 1)) }
    ensures uncounted { OnErr result (map calls tools.new.items ≡ map calls tools.old.items) }
    ensures len { vec_len tools.new ≡ vec_len tools.old }
    ensures tags { map text tools.new.items ≡ map text tools.old.items }
    ensures values { (s : SpecValue) (f : Bits) → map (λ t. value t s f) tools.new.items ≡ map (λ t. value t s f) tools.old.items }
{
    measure_one(alloc, &mut tools[place], spec, design)
}

/// What each chosen tool measures, in the order in which they are chosen.
pub(crate) fn measure_chosen(
    alloc: Global,
    tools: &mut Vec<Box<dyn Evaluator>>,
    chosen: &[usize],
    spec: &Spec,
    design: &Design,
) -> Result<Vec<u64>, AllocError>
    requires bits { length design.now ≡ design_variables spec.now }
    requires valid { IsValid spec.now (bits_of design.now) }
    requires within { All (λ p. p < vec_len tools.old) chosen.now }
    requires room { HasRoom 1 chosen.now (map calls tools.old.items) }
    ensures measured { IfOk result (λ v. v.items ≡ picked (map (λ t. value t spec.now (bits_of design.now)) tools.old.items) chosen.now) }
    ensures counted { OnOk result (RoseBy 1 chosen.now (map calls tools.old.items) (map calls tools.new.items)) }
    ensures at_most { RoseAtMost 1 chosen.now (map calls tools.old.items) (map calls tools.new.items) }
    ensures len { vec_len tools.new ≡ vec_len tools.old }
    ensures tags { map text tools.new.items ≡ map text tools.old.items }
    ensures values { (s : SpecValue) (f : Bits) → map (λ t. value t s f) tools.new.items ≡ map (λ t. value t s f) tools.old.items }
{
    let mut measured = Vec::new(alloc);
    for place in chosen {
        let number = measure_at(alloc, tools, *place, spec, design)?;
        measured.push(number)?;
    }
    Ok(measured)
}
