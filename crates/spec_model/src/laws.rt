//! What the definitions imply, as functions that do nothing.

ghost use Rattle.spec_model.specs.Laws.{SameDesignSameVector, SameDesignValid, AtMostItself, AtMostThrough, AtMostBoth, AtMostOrNot};

/// Whether a design is valid, and its vector, depend on its design variables alone.
pub fn law_of_designs()
    ensures vector { SameDesignSameVector }
    ensures valid { SameDesignValid }
{}

/// "At most in each place" is an order of vectors of one length, and each two are in it or not.
pub fn law_of_vectors()
    ensures itself { AtMostItself }
    ensures through { AtMostThrough }
    ensures both { AtMostBoth }
    ensures or_not { AtMostOrNot }
{}
