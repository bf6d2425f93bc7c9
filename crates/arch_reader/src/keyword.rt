//! The first words of statements.

ghost use Rattle.std.specs.Prelude.{◌≡◌};
ghost use Rattle.arch_reader.specs.Shapes.{keyword_of};

use file_bricks::keyword_in;

/// What a statement is, by its first word.
#[derive(Clone, Copy, Debug)]
pub enum Keyword {
    Objective,
    Clock,
    Resource,
    Link,
    Traffic,
    Task,
    Message,
    Merge,
    Map,
    Table,
    Quantity,
    Hops,
    Delay,
    Deadline,
}

/// The keyword that a word is.
#[tactic(auto, unfolding(crate::specs::Shapes::keyword_of))]
pub(crate) fn keyword_of(word: &str) -> Option<Keyword>
    ensures { result ≡ keyword_of word.now }
{
    let table = [
        ("objective", Keyword::Objective),
        ("clock", Keyword::Clock),
        ("resource", Keyword::Resource),
        ("link", Keyword::Link),
        ("traffic", Keyword::Traffic),
        ("task", Keyword::Task),
        ("message", Keyword::Message),
        ("merge", Keyword::Merge),
        ("map", Keyword::Map),
        ("table", Keyword::Table),
        ("quantity", Keyword::Quantity),
        ("hops", Keyword::Hops),
        ("delay", Keyword::Delay),
        ("deadline", Keyword::Deadline),
    ];
    keyword_in(&table, word)
}
