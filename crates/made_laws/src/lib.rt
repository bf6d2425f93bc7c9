//! Laws of made specifications: what their texts are read as.
//!
//! It stands above the crate that makes a text, the reader of architecture files and the crate that joins what one
//! states. A text that is spelled line by line is read as its words where no line breaks a rule; and no line of a made
//! text does. What it so states is joined to no task graphs, and is refused nowhere: it is a specification, for every
//! number.
//!
//! `Lines` and `Parts` have what each kind of line and each part declares to the reader. `Made` has what the lines so
//! far have made, and what each kind adds to it; `Accepted` that the next line isn't refused; `Carried` and `Carrying`
//! go over all lines so; `Ended` has the end, and `Joined` the whole.
#![tactic(auto)]

ghost use Rattle.made_laws.specs.Reading.{SpelledIsRead};
ghost use Rattle.made_laws.specs.Unbroken.{MadeLinesBreakNone, MadeTextIsShort, MadeTextIsReadBack};
ghost use Rattle.made_laws.specs.Joined.{NoBytesAreNoGraphs, MadeTextIsRead, MadeTextIsAccepted, MadeTextIsJoined};

/// Lines that are spelled, of which none breaks a rule of a file that may have comments, are read as their words, and the
/// file breaks no rule.
pub fn law_of_spelled_lines()
    ensures { SpelledIsRead }
{}

/// The lines of a made specification break no rule of the architecture file, on a mesh of each side and whatever is drawn.
pub fn law_of_made_lines()
    ensures { MadeLinesBreakNone }
{}

/// The text that is made of a number isn't too long for a file, is read as the words of its lines, and breaks no rule of
/// the architecture file.
pub fn law_of_made_text()
    ensures short { MadeTextIsShort }
    ensures read { MadeTextIsReadBack }
{}

/// Reading the text of a number gives a specification, unless memory runs out: the reader of architecture files doesn't
/// refuse it, and joining what it states to no task graphs, as which no bytes are read, refuses neither a statement nor
/// the whole.
pub fn law_of_made_specification()
    ensures empty { NoBytesAreNoGraphs }
    ensures read { MadeTextIsRead }
    ensures accepted { MadeTextIsAccepted }
    ensures joined { MadeTextIsJoined }
{}
