//! What is offered.

use genotype::Genotype;
use impl_rules::Design;
use result_text::Vector;

/// A design, the genotype that led to it, and its vector.
#[derive(Drop)]
pub struct Member {
    pub genotype: Genotype,
    pub design: Design,
    pub vector: Vector,
}
