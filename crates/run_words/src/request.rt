//! The request of a line, by its first word.

ghost use Rattle.std.specs.Prelude.{◌≡◌, ◌∷◌, ◌++◌, IfOk, OnOk, OnErr, map, option_map, string_bytes};
ghost use Rattle.run_words.specs.Requests.{request, usage_text};
ghost use Rattle.run_words.specs.Values.{request_value};

use crate::check::{put_check_usage, read_check};
use crate::decode::{put_decode_usage, read_decode};
use crate::explore::{put_explore_usage, read_explore};
use crate::front::{put_front_usage, read_front};
use crate::make::{put_make_usage, read_make};
use std::alloc::{AllocError, Global};

/// What a command line asks for.
#[derive(Debug, Drop)]
pub enum Request {
    /// `decode TGFF ARCH GENO [--budget N] [--proof FILE]`: the first valid implementation of a file of task graphs and
    /// tables and an architecture file, in the order of a genotype file, or in the natural order where that is `-`.
    Decode {
        /// The file of task graphs and tables, or `-` for no graphs and no tables.
        tgff: String,
        /// The architecture file.
        arch: String,
        /// The genotype file, or `-`.
        geno: String,
        /// How many lines the search may derive, at least 1, where it is given; it stands only beside a proof file.
        budget: Option<u64>,
        /// The file that the proof is written to, where one is given: none of the others.
        proof_file: Option<String>,
    },
    /// `explore TGFF ARCH --rounds N --seed S [--measure LIST] [--proof FILE]`: an exploration of the specification of
    /// a file of task graphs and tables and an architecture file.
    Explore {
        /// The file of task graphs and tables, or `-` for no graphs and no tables.
        tgff: String,
        /// The architecture file.
        arch: String,
        /// How many rounds there are, at most 65,536.
        rounds: u64,
        /// The number from which the words of the draws are made.
        seed: u64,
        /// The places of the tools that measure, rising; none where no list of tags is given.
        chosen: Vec<usize>,
        /// The file that the proof of all decodings is written to, where one is given: none of the others.
        proof_file: Option<String>,
    },
    /// `front TGFF ARCH --front FILE --proof FILE [--budget N]`: the front of the specification of a file of task graphs
    /// and tables and an architecture file, written to a file, with its proof in another.
    Front {
        /// The file of task graphs and tables, or `-` for no graphs and no tables.
        tgff: String,
        /// The architecture file.
        arch: String,
        /// The file that the front is written to: none of the others.
        front_file: String,
        /// The file that the proof is written to: none of the others.
        proof_file: String,
        /// How many lines the search may derive, at least 1, where it is given.
        budget: Option<u64>,
    },
    /// `check TGFF ARCH FRONT PROOF`: whether a front file is accepted with a proof file for the specification of a
    /// file of task graphs and tables and an architecture file.
    Check {
        /// The file of task graphs and tables, or `-` for no graphs and no tables.
        tgff: String,
        /// The architecture file.
        arch: String,
        /// The front file.
        front_file: String,
        /// The proof file.
        proof_file: String,
    },
    /// `make N --arch FILE [--rounds K]`: the specification that is made from a number, written to a file, and explored
    /// where rounds are given.
    Make {
        /// The number.
        number: u64,
        /// The file that the text of the specification is written to.
        arch: String,
        /// How many rounds it is explored, at most 65,536, where that is given.
        rounds: Option<u64>,
    },
}

/// The request of the words after a first one.
fn read_named(
    alloc: Global,
    name: &str,
    words: &[String],
    tags: &[String],
) -> Result<Option<Request>, AllocError>
    ensures { IfOk result (λ r. option_map request_value r ≡ request (map string_bytes tags.now) (name.now ∷ map string_bytes words.now)) }
{
    if name == "decode" {
        return read_decode(alloc, words);
    }
    if name == "explore" {
        return read_explore(alloc, words, tags);
    }
    if name == "front" {
        return read_front(alloc, words);
    }
    if name == "check" {
        return read_check(alloc, words);
    }
    if name == "make" {
        return read_make(alloc, words);
    }
    Ok(None)
}

/// The request of the words of a command line, without the program's name, or `None` exactly where there is none. A
/// line names tools by their tags, which are handed over in the order of the tools.
pub fn read_words(
    alloc: Global,
    words: &[String],
    tags: &[String],
) -> Result<Option<Request>, AllocError>
    ensures { IfOk result (λ r. option_map request_value r ≡ request (map string_bytes tags.now) (map string_bytes words.now)) }
{
    match words {
        [] => Ok(None),
        [first, rest @ ..] => read_named(alloc, first.as_str(), rest, tags),
    }
}

/// The lines of usage of all commands.
fn usage_of(alloc: Global) -> Result<Vec<u8>, AllocError>
    ensures { IfOk result (λ text. text.items ≡ usage_text) }
{
    let mut text = Vec::new(alloc);
    put_decode_usage(&mut text)?;
    put_explore_usage(&mut text)?;
    put_front_usage(&mut text)?;
    put_check_usage(&mut text)?;
    put_make_usage(&mut text)?;
    Ok(text)
}

/// Appends the lines of usage of all commands.
///
/// Where memory runs out, `out` is as before.
pub fn put_usage(alloc: Global, out: &mut Vec<u8>) -> Result<(), AllocError>
    ensures ok { OnOk result (out.new.items ≡ out.old.items ++ usage_text) }
    ensures err { OnErr result (out.new.items ≡ out.old.items) }
{
    let text = usage_of(alloc)?;
    out.extend_from_slice(&text)
}
