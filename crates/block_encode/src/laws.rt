//! What the definitions imply, as functions that do nothing.

ghost use Rattle.block_encode.specs.Laws.{UncoveredExtend, ModelsAreUncovered, BlocksAreFresh, BlocksAreInRange, BlocksMakeFrame, AllExtend, FramesKnow};

/// A block rules out the covered designs and no others: an assignment can be made a model of a block, by the block's own
/// variables alone, exactly where the cover's vector doesn't cover the assignment's. The variables of the blocks differ.
pub fn law_of_blocks()
    ensures extend { UncoveredExtend }
    ensures uncovered { ModelsAreUncovered }
    ensures fresh { BlocksAreFresh }
    ensures in_range { BlocksAreInRange }
{}

/// A model of the encoding whose vector none of some covers covers can be made a model of all their blocks, by the
/// variables of the blocks alone.
pub fn law_of_several_blocks()
    ensures { AllExtend }
{}

/// The encoding of a specification and the blocks of covers are a frame. The variables that are there over it are those
/// below a number, which grows with each cover.
pub fn law_of_frames()
    ensures frame { BlocksMakeFrame }
    ensures variables { FramesKnow }
{}
