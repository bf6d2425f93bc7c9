//! The first words of the lines of a task graph that are known.

ghost use Rattle.std.specs.Prelude.{◌≡◌};
ghost use Rattle.tgff_reader.specs.Lines.{keyword_of};

use file_bricks::keyword_in;

/// What a line of a task graph states, by its first word.
#[derive(Clone, Copy, Debug)]
pub enum Keyword {
    Period,
    Task,
    Arc,
    HardDeadline,
    SoftDeadline,
}

/// The keyword that a word is.
pub(crate) fn keyword_of(word: &str) -> Option<Keyword>
    ensures { result ≡ keyword_of word.now }
{
    keyword_in(
        &[
            ("PERIOD", Keyword::Period),
            ("TASK", Keyword::Task),
            ("ARC", Keyword::Arc),
            ("HARD_DEADLINE", Keyword::HardDeadline),
            ("SOFT_DEADLINE", Keyword::SoftDeadline),
        ],
        word,
    )
}
