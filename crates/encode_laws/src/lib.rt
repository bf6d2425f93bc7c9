//! Encoding exactness: the models of a specification's encoding are its valid designs.
//!
//! The laws stand over the definitions alone and come in two halves. Without the family receivers covered, the views
//! of the models are the designs that meet every rule but the one on receivers. Under such a model the constraints of
//! a receiver hold exactly where a walk leads to it. Together they are the whole theorem.
#![tactic(auto)]

ghost use Rattle.encode_laws.specs.Exactness.{ModelsAreRouted, RoutedAreModels, CoveredAreReached, ModelsAreValid, ValidAreModels};

/// Without the family receivers covered: the view of each model meets every rule but the one on receivers.
pub fn law_of_models()
    ensures { ModelsAreRouted }
{}

/// Each design that meets every rule but the one on receivers is the view of exactly one such model.
pub fn law_of_designs()
    ensures { RoutedAreModels }
{}

/// Under such a model the constraints of a message's receiver hold exactly where a walk leads to the receiver.
pub fn law_of_receivers()
    ensures { CoveredAreReached }
{}

/// The view of each model of the encoding is a valid design.
pub fn law_of_encoding()
    ensures { ModelsAreValid }
{}

/// Each valid design is the view of exactly one model of the encoding.
pub fn law_of_valid_designs()
    ensures { ValidAreModels }
{}
