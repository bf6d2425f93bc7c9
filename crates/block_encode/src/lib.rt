//! The block of a cover: the constraints that rule out each design whose vector the cover's vector covers.
//!
//! A block has a variable of its own for each objective. At least one of them is true, and one that is true keeps its
//! objective below the cover's number: [`block`] gives the constraints in the definition's order, and [`weight_sum`] the
//! most that an objective can come to. [`laws`] says what one block or several mean for designs, and that the encoding and
//! the blocks are a frame for proof lines, with which variables. Which vectors are covered, and in what order, is for the crates above.
#![tactic(auto)]

ghost use Rattle.std.specs.Prelude.{◌≡◌, ◌<◌, ◌≤◌, ◌^◌, length, All, IfOk};
ghost use Rattle.pb_constraints.specs.Sets.{IsBelow};
ghost use Rattle.encode_model.specs.Block.{IsWithinWeights, block_of};
ghost use Rattle.block_encode.specs.Laws.{variables_to};

mod bounds;
pub mod laws;
mod weights;

use crate::bounds::{below_number, below_somewhere};
use pb_constraints::Constraint;
use spec_graph::Spec;
use std::alloc::{AllocError, Global};
pub use weights::weight_sum;

/// The block of a cover, by its number from 1 and its vector. It is refused only for want of memory.
pub fn block(
    alloc: Global,
    spec: &Spec,
    cover_no: u64,
    v: &[u64],
) -> Result<Vec<Constraint>, AllocError>
    requires one_each { length v.now ≡ length spec.now.objectives }
    requires within { IsWithinWeights spec.now v.now }
    requires from_one { 1 ≤ cover_no }
    requires few { cover_no < 2 ^ 58 }
    ensures value { IfOk result (λ block. block.items ≡ block_of spec.now cover_no v.now) }
    ensures in_range { IfOk result (λ block. All (IsBelow (variables_to spec.now cover_no)) block.items) }
{
    let mut block = Vec::new(alloc);
    block.push(below_somewhere(alloc, spec, cover_no)?)?;
    for j in 0..v.len() {
        block.push(below_number(alloc, spec, cover_no, j, v[j])?)?;
    }
    Ok(block)
}
