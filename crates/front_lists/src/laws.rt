//! What the definitions imply, as functions that do nothing.

ghost use Rattle.front_lists.specs.Laws.{FirstModelIsNext, NoModelIsWhole, NextIsFound, FoundAreFew, FoundAreShaped, FoundIsOne, WholeIsLongest, FoundHaveBelow, UndominatedAreClaim, UndominatedIsOne, WholeIsFront, UndominatedRefute, TextsAreAccepted};

/// What a search finds: the first model of the encoding and the blocks is of the next found design, and where there is
/// none the found list is whole. A found list has at most as many entries as valid designs have vectors.
pub fn law_of_searches()
    ensures next { FirstModelIsNext }
    ensures whole { NoModelIsWhole }
    ensures found { NextIsFound }
    ensures few { FoundAreFew }
    ensures shaped { FoundAreShaped }
{}

/// There is one found list: of two the shorter one is the beginning of the longer one, and none is longer than a whole one.
pub fn law_of_found_lists()
    ensures one { FoundIsOne }
    ensures longest { WholeIsLongest }
{}

/// What of a found list no other vector of it dominates: there is one such list, each found vector has one of it at most
/// itself, it is a front that a proof may be checked against, and that of the specification where the found list is whole.
pub fn law_of_undominated()
    ensures below { FoundHaveBelow }
    ensures claim { UndominatedAreClaim }
    ensures one { UndominatedIsOne }
    ensures front { WholeIsFront }
{}

/// Lines that refute all but what a found list covers: they refute all but what its undominated entries cover, and the two
/// texts are accepted together.
pub fn law_of_refutations()
    ensures refute { UndominatedRefute }
    ensures accepted { TextsAreAccepted }
{}
