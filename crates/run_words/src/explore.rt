//! The line of `explore`.

ghost use Rattle.std.specs.Prelude.{◌≡◌, ◌++◌, IfOk, OnOk, map, option_map, string_bytes};
ghost use Rattle.form_words.specs.Reads.{Reads};
ghost use Rattle.form_words.specs.Table.{form_of};
ghost use Rattle.run_words.specs.Exploring.{are_explored, explore_named, explore_request, explore_table, explore_usage, explore_with, numbers_of};
ghost use Rattle.run_words.specs.Values.{explore, request_value};

use crate::names::{is_apart, is_file, is_file_if_named, is_name, owned};
use crate::numbers::{MOST_ROUNDS, number_from, number_up_to};
use crate::request::Request;
use crate::tools::chosen_if_given;
use clap::ArgMatches;
use form_words::read_line;
use std::alloc::{AllocError, Global};

/// Whether these are names of what is read, and the proof, where it is given, has a file of its own.
fn are_explored(tgff: &str, arch: &str, proof: Option<&str>) -> bool
    ensures { result ≡ are_explored tgff.now arch.now (option_map (λ s. s.now) proof.entry) }
{
    if !is_name(tgff) {
        return false;
    }
    if !is_file(arch) {
        return false;
    }
    if !is_file_if_named(proof) {
        return false;
    }
    is_apart(proof, &[tgff, arch])
}

/// The rounds and the seed; `None` where a word writes none.
fn numbers_of(rounds: &str, seed: &str) -> Option<(u64, u64)>
    ensures { result ≡ numbers_of rounds.now seed.now }
{
    match number_up_to(MOST_ROUNDS, rounds) {
        None => None,
        Some(rounds) => match number_from(0, seed) {
            None => None,
            Some(seed) => Some((rounds, seed)),
        },
    }
}

/// The request of these names, with the numbers and the places of the tools.
fn explore_named(
    alloc: Global,
    tgff: &str,
    arch: &str,
    proof: Option<&str>,
    numbers: Option<(u64, u64)>,
    chosen: Option<Vec<usize>>,
) -> Result<Option<Request>, AllocError>
    ensures { IfOk result (λ r. option_map request_value r ≡ option_map explore (explore_named tgff.now arch.now (option_map (λ s. s.now) proof.entry) numbers (option_map (λ v. v.items) chosen))) }
{
    let Some((rounds, seed)) = numbers else {
        return Ok(None);
    };
    let Some(chosen) = chosen else {
        return Ok(None);
    };
    if !are_explored(tgff, arch, proof) {
        return Ok(None);
    }
    let tgff = String::from_str(alloc, tgff)?;
    let arch = String::from_str(alloc, arch)?;
    let proof_file = owned(alloc, proof)?;
    Ok(Some(Request::Explore {
        tgff,
        arch,
        rounds,
        seed,
        chosen,
        proof_file,
    }))
}

/// The words of the options.
#[derive(Clone, Copy, Debug)]
struct Options<'a> {
    rounds: Option<&'a str>,
    seed: Option<&'a str>,
    measure: Option<&'a str>,
    proof: Option<&'a str>,
}

/// The request of the words at the places and of those of the options.
fn explore_with(
    alloc: Global,
    tags: &[String],
    tgff: Option<&str>,
    arch: Option<&str>,
    options: Options<'_>,
) -> Result<Option<Request>, AllocError>
    ensures { IfOk result (λ r. option_map request_value r ≡ option_map explore (explore_with (map string_bytes tags.now) (option_map (λ s. s.now) tgff.entry) (option_map (λ s. s.now) arch.entry) (option_map (λ s. s.now) options.entry.rounds) (option_map (λ s. s.now) options.entry.seed) (option_map (λ s. s.now) options.entry.measure) (option_map (λ s. s.now) options.entry.proof))) }
{
    let Some(tgff) = tgff else {
        return Ok(None);
    };
    let Some(arch) = arch else {
        return Ok(None);
    };
    let Some(rounds) = options.rounds else {
        return Ok(None);
    };
    let Some(seed) = options.seed else {
        return Ok(None);
    };
    let chosen = chosen_if_given(alloc, tags, options.measure)?;
    let numbers = numbers_of(rounds, seed);
    explore_named(alloc, tgff, arch, options.proof, numbers, chosen)
}

/// What the words give the places and options, or `None` where they are no line of the table.
fn explore_line<'a>(
    alloc: Global,
    words: &'a [String],
) -> Result<Option<ArgMatches<'a>>, AllocError>
    ensures { IfOk result (Reads (form_of explore_table) (map string_bytes words.entry.now)) }
{
    read_line(
        alloc,
        "explore",
        &["tgff", "arch"],
        &[
            ("rounds", true),
            ("seed", true),
            ("measure", false),
            ("proof", false),
        ],
        words,
    )
}

/// The request of the words after `explore`, of tools with these tags.
pub(crate) fn read_explore(
    alloc: Global,
    words: &[String],
    tags: &[String],
) -> Result<Option<Request>, AllocError>
    ensures { IfOk result (λ r. option_map request_value r ≡ option_map explore (explore_request (map string_bytes tags.now) (map string_bytes words.now))) }
{
    let Some(matches) = explore_line(alloc, words)? else {
        return Ok(None);
    };
    let options = Options {
        rounds: matches.get_str("rounds"),
        seed: matches.get_str("seed"),
        measure: matches.get_str("measure"),
        proof: matches.get_str("proof"),
    };
    explore_with(
        alloc,
        tags,
        matches.get_str("tgff"),
        matches.get_str("arch"),
        options,
    )
}

/// Appends the line of usage.
pub(crate) fn put_explore_usage(out: &mut Vec<u8>) -> Result<(), AllocError>
    ensures { OnOk result (out.new.items ≡ out.old.items ++ explore_usage) }
{
    out.extend_from_slice(
        b"usage: dse explore TGFF ARCH --rounds N --seed S [--measure LIST] [--proof FILE]\n",
    )
}
