//! What the definitions imply, as a function that does nothing: the rules of cutting planes rest on this law.

ghost use Rattle.pb_constraints.specs.Adding.{SumsAreNormalForms};

/// The sum of two constraints, which `pb_rules` defines by merging their terms, is the normal form of the terms of both
/// and the sum of their degrees: opposite literals cancel, and nothing else does.
pub fn law_of_sums()
    ensures { SumsAreNormalForms }
{}
