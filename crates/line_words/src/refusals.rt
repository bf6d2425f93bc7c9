ghost use Rattle.std.specs.Prelude.{◌≡◌};
ghost use Rattle.line_words.specs.Refused.{refusal_number, what_place, place_of, rank, name_of, what_name, fault_at};

use std::alloc::{AllocError, AllocFailed};
use thiserror::Error;

/// Why a line of a file is refused. Of the refusals of one line the one that stands first here
/// counts, and of limits the one with the lowest place.
#[derive(Clone, Copy, Debug, PartialEq, Eq)]
pub enum Why {
    /// A byte that may not stand in such a file.
    BadByte,
    /// A line with more than 65,536 bytes.
    LongLine,
    /// The first statement isn't the file's header.
    NoHeader,
    /// A line has none of the forms.
    BadStatement,
    /// A word in a number's place isn't one.
    BadNumber,
    /// A name isn't declared, or a number names nothing.
    UnknownName,
    /// A name, pair or key is declared twice.
    RepeatedName,
    /// A link has one resource at both ends.
    SelfLink,
    /// A block isn't closed, or a result text ends too early.
    Unclosed,
    /// `}` stands outside a block.
    StrayClose,
    /// A needed row or column isn't in the table.
    NoRow,
    /// A weight has a fraction where it may have none.
    NotWhole,
    /// A number passes its bound.
    TooBig,
    /// A message closes a cycle of tasks.
    Cyclic,
    /// A count would pass its limit.
    Limit(What),
    /// An option or arc in a result isn't the named one.
    WrongBinding,
    /// A line doesn't come after the one before.
    NotInOrder,
}

/// What has a limit.
#[derive(Clone, Copy, Debug, PartialEq, Eq)]
pub enum What {
    /// At most 16,777,216 bytes of a file.
    FileBytes,
    /// At most 64 bytes of a name.
    NameBytes,
    /// At most 1,024 tasks.
    Tasks,
    /// At most 2,048 messages.
    Messages,
    /// At most 256 resources.
    Resources,
    /// At most 1,024 links.
    Links,
    /// At most 16,384 options.
    Options,
    /// At most 8 objectives.
    Objectives,
    /// At most 1,048,576 variables.
    Variables,
    /// At most 8,388,608 terms.
    Terms,
}

/// The places of limits lie below it.
const PLACES: u64 = 1000;

impl Why {
    /// The place in the order of all refusals: by the number, and of limits by the limit's place.
    pub fn rank(&self) -> u64
        ensures { result ≡ rank self.now }
    {
        PLACES * self.number() + self.place()
    }

    /// The place of a limit among limits, or 0 for another refusal.
    fn place(&self) -> u64
        ensures { result ≡ place_of self.now }
    {
        match self {
            Why::Limit(what) => what.place(),
            _ => 0,
        }
    }

    /// The number under which the refusal is said, from 1 to 17.
    pub fn number(&self) -> u64
        ensures { result ≡ refusal_number self.now }
    {
        match self {
            Why::BadByte => 1,
            Why::LongLine => 2,
            Why::NoHeader => 3,
            Why::BadStatement => 4,
            Why::BadNumber => 5,
            Why::UnknownName => 6,
            Why::RepeatedName => 7,
            Why::SelfLink => 8,
            Why::Unclosed => 9,
            Why::StrayClose => 10,
            Why::NoRow => 11,
            Why::NotWhole => 12,
            Why::TooBig => 13,
            Why::Cyclic => 14,
            Why::Limit(_) => 15,
            Why::WrongBinding => 16,
            Why::NotInOrder => 17,
        }
    }

    /// The name under which the refusal is said; that of its `What` isn't part of it.
    pub fn name(&self) -> &'static str
        ensures { result.now ≡ name_of self.now }
    {
        match self {
            Why::BadByte => "BadByte",
            Why::LongLine => "LongLine",
            Why::NoHeader => "NoHeader",
            Why::BadStatement => "BadStatement",
            Why::BadNumber => "BadNumber",
            Why::UnknownName => "UnknownName",
            Why::RepeatedName => "RepeatedName",
            Why::SelfLink => "SelfLink",
            Why::Unclosed => "Unclosed",
            Why::StrayClose => "StrayClose",
            Why::NoRow => "NoRow",
            Why::NotWhole => "NotWhole",
            Why::TooBig => "TooBig",
            Why::Cyclic => "Cyclic",
            Why::Limit(_) => "Limit",
            Why::WrongBinding => "WrongBinding",
            Why::NotInOrder => "NotInOrder",
        }
    }
}

impl What {
    /// The place of a limit among the limits of one line: the length of a name first.
    fn place(&self) -> u64
        ensures { result ≡ what_place self.now }
    {
        match self {
            What::NameBytes => 0,
            What::FileBytes => 1,
            What::Tasks => 2,
            What::Messages => 3,
            What::Resources => 4,
            What::Links => 5,
            What::Options => 6,
            What::Objectives => 7,
            What::Variables => 8,
            What::Terms => 9,
        }
    }

    /// The name under which the limit is said.
    pub fn name(&self) -> &'static str
        ensures { result.now ≡ what_name self.now }
    {
        match self {
            What::FileBytes => "FileBytes",
            What::NameBytes => "NameBytes",
            What::Tasks => "Tasks",
            What::Messages => "Messages",
            What::Resources => "Resources",
            What::Links => "Links",
            What::Options => "Options",
            What::Objectives => "Objectives",
            What::Variables => "Variables",
            What::Terms => "Terms",
        }
    }
}

/// A line that is refused, by its number from 1.
#[derive(Clone, Copy, Debug, PartialEq, Eq, Error)]
#[error("line {line} is refused")]
pub struct Refusal1 {
    pub line: u64,
    pub why: Why,
}

/// The kind of a file.
#[derive(Clone, Copy, Debug, PartialEq, Eq)]
pub enum FileTag {
    /// A file of task graphs and tables.
    Tgff,
    /// An architecture file.
    Arch,
    /// A genotype file.
    Genotype,
    /// A front file.
    Front,
    /// A script of edits.
    Script,
    /// A file of pseudo-Boolean constraints.
    Opb,
}

/// A line of a file that is refused. Line 0 stands for the file as a whole.
#[derive(Clone, Copy, Debug, PartialEq, Eq, Error)]
#[error("line {line} is refused")]
pub struct Refusal {
    pub file: FileTag,
    pub line: u64,
    pub why: Why,
}

impl Refusal1 {
    /// The refusal, with the file that has the line.
    pub fn of_file(self, file: FileTag) -> Refusal
        ensures { result ≡ record { file = file; line = self.line; why = self.why } }
    {
        Refusal {
            file,
            line: self.line,
            why: self.why,
        }
    }
}

/// Why a file can't be read.
#[derive(Clone, Copy, Debug, PartialEq, Eq, Error)]
pub enum ReadFault {
    #[error(transparent)]
    Refused(Refusal),
    #[error("out of memory")]
    NoMemory,
}

impl From<AllocError> for ReadFault {
    ghost use Rattle.std.specs.Prelude.{◌≡◌};
    ghost use Rattle.line_words.specs.declared.refusals.ReadFault.TheVariants.{NoMemory};

    ghost from_gives = { λ _ e. e ≡ NoMemory };

    fn from(_error: AllocError) -> ReadFault {
        ReadFault::NoMemory
    }
}

impl<T: Drop> From<AllocFailed<T>> for ReadFault {
    ghost use Rattle.std.specs.Prelude.{◌≡◌};
    ghost use Rattle.line_words.specs.declared.refusals.ReadFault.TheVariants.{NoMemory};

    ghost from_gives = { λ _ e. e ≡ NoMemory };

    fn from(_error: AllocFailed<T>) -> ReadFault {
        ReadFault::NoMemory
    }
}

/// Why a reader can't take a statement: a rule is broken, or there is no memory.
#[derive(Clone, Copy, Debug, PartialEq, Eq)]
pub enum Stop {
    Broken(Why),
    NoMemory,
}

impl Stop {
    /// What a reader answers that stops at a line of a file.
    pub fn at_line(self, file: FileTag, line: u64) -> ReadFault
        ensures { result ≡ fault_at file line self }
    {
        match self {
            Stop::Broken(why) => ReadFault::Refused(Refusal { file, line, why }),
            Stop::NoMemory => ReadFault::NoMemory,
        }
    }
}

impl From<AllocError> for Stop {
    ghost use Rattle.std.specs.Prelude.{◌≡◌};
    ghost use Rattle.line_words.specs.declared.refusals.Stop.TheVariants.{NoMemory};

    ghost from_gives = { λ _ e. e ≡ NoMemory };

    fn from(_error: AllocError) -> Stop {
        Stop::NoMemory
    }
}

impl<T: Drop> From<AllocFailed<T>> for Stop {
    ghost use Rattle.std.specs.Prelude.{◌≡◌};
    ghost use Rattle.line_words.specs.declared.refusals.Stop.TheVariants.{NoMemory};

    ghost from_gives = { λ _ e. e ≡ NoMemory };

    fn from(_error: AllocFailed<T>) -> Stop {
        Stop::NoMemory
    }
}
