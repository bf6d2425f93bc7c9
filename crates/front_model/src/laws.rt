//! What the definitions imply, as functions that do nothing.

ghost use Rattle.front_model.specs.Laws.{ClaimIsFront, AcceptedIsFront, AcceptedTextIsFront, JudgedExactly, CutIsPieces, EndedAreFirst, ReachedIsFront, ReachesOn, BeginsReached, RefusalStays, BeginsKnown, StaysKnown};

/// A front holds exactly the vectors of valid designs that no other dominates, each once and with a valid design, where it
/// may be checked and each valid design's vector has one of it at most itself; and where it is accepted with a proof.
pub fn law_of_fronts()
    ensures claims { ClaimIsFront }
    ensures values { AcceptedIsFront }
    ensures texts { AcceptedTextIsFront }
{}

/// Lines that are judged one by one are accepted exactly where their text proves the front; and lines that are handed
/// over one by one are the lines of their text.
pub fn law_of_judging()
    ensures judged { JudgedExactly }
    ensures cut { CutIsPieces }
    ensures ended { EndedAreFirst }
{}

/// How far a proof was taken, by some pieces: so it is at the start and after each further piece, a refusal stays, and
/// where it is accepted the front is that of the specification.
pub fn law_of_taking()
    ensures begins { BeginsReached }
    ensures goes_on { ReachesOn }
    ensures stays { RefusalStays }
    ensures exact { ReachedIsFront }
{}

/// The variables that are there for a line are those below a number: the encoding's, and those of each block so far. So
/// it is at the start and after each further piece.
pub fn law_of_known()
    ensures begins { BeginsKnown }
    ensures stays { StaysKnown }
{}
