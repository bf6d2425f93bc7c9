//! What the definitions imply, as functions that do nothing: the layers above rest on these laws.

ghost use Rattle.evo_explore.specs.Laws.{RunIsOne, DecodingsStayShown, ChosenOnce, OthersNever, RoomForRising};

use genotype::Words;

/// There is one run: the specification, what the tools measure, the words and the number of rounds determine what it
/// finds, how it ends and which words it leaves.
pub fn law_of_runs<W: Words>(words: &W)
    ensures { RunIsOne W.gives W.after }
{
    let _ = words;
}

/// In each frame of the specification the whole log of a run shows of each round's design that it is the first.
pub fn law_of_logs()
    ensures { DecodingsStayShown }
{}

/// Each place of a rising list is chosen once and no other place is, so there is room for rounds where the count of each
/// chosen tool and the rounds are at most 2^63 together.
pub fn law_of_counts()
    ensures once { ChosenOnce }
    ensures never { OthersNever }
    ensures room { RoomForRising }
{}
