//! The line of `make`.

ghost use Rattle.std.specs.Prelude.{◌≡◌, ◌++◌, IfOk, OnOk, map, option_map, string_bytes};
ghost use Rattle.form_words.specs.Reads.{Reads};
ghost use Rattle.form_words.specs.Table.{form_of};
ghost use Rattle.run_words.specs.Making.{make_numbered, make_request, make_table, make_usage, make_with, rounds_if_given};
ghost use Rattle.run_words.specs.Values.{make, request_value};

use crate::names::is_file;
use crate::numbers::{MOST_ROUNDS, number_from, number_up_to};
use crate::request::Request;
use clap::ArgMatches;
use form_words::read_line;
use std::alloc::{AllocError, Global};

/// The rounds, which may not be given; `None` where their word writes no such number.
fn rounds_if_given(text: Option<&str>) -> Option<Option<u64>>
    ensures { result ≡ rounds_if_given (option_map (λ s. s.now) text.entry) }
{
    match text {
        None => Some(None),
        Some(text) => match number_up_to(MOST_ROUNDS, text) {
            None => None,
            Some(rounds) => Some(Some(rounds)),
        },
    }
}

/// The request of a number and rounds, with the name of the file.
fn make_numbered(
    alloc: Global,
    arch: &str,
    number: Option<u64>,
    rounds: Option<Option<u64>>,
) -> Result<Option<Request>, AllocError>
    ensures { IfOk result (λ r. option_map request_value r ≡ option_map make (make_numbered arch.now number rounds)) }
{
    let Some(number) = number else {
        return Ok(None);
    };
    let Some(rounds) = rounds else {
        return Ok(None);
    };
    if !is_file(arch) {
        return Ok(None);
    }
    let arch = String::from_str(alloc, arch)?;
    Ok(Some(Request::Make {
        number,
        arch,
        rounds,
    }))
}

/// The request of the word at the place and of those of the options.
fn make_with(
    alloc: Global,
    number: Option<&str>,
    arch: Option<&str>,
    rounds: Option<&str>,
) -> Result<Option<Request>, AllocError>
    ensures { IfOk result (λ r. option_map request_value r ≡ option_map make (make_with (option_map (λ s. s.now) number.entry) (option_map (λ s. s.now) arch.entry) (option_map (λ s. s.now) rounds.entry))) }
{
    let Some(number) = number else {
        return Ok(None);
    };
    let Some(arch) = arch else {
        return Ok(None);
    };
    make_numbered(alloc, arch, number_from(0, number), rounds_if_given(rounds))
}

/// What the words give the place and the options, or `None` where they are no line of the table.
fn make_line<'a>(alloc: Global, words: &'a [String]) -> Result<Option<ArgMatches<'a>>, AllocError>
    ensures { IfOk result (Reads (form_of make_table) (map string_bytes words.entry.now)) }
{
    read_line(
        alloc,
        "make",
        &["number"],
        &[("arch", true), ("rounds", false)],
        words,
    )
}

/// The request of the words after `make`.
pub(crate) fn read_make(alloc: Global, words: &[String]) -> Result<Option<Request>, AllocError>
    ensures { IfOk result (λ r. option_map request_value r ≡ option_map make (make_request (map string_bytes words.now))) }
{
    let Some(matches) = make_line(alloc, words)? else {
        return Ok(None);
    };
    make_with(
        alloc,
        matches.get_str("number"),
        matches.get_str("arch"),
        matches.get_str("rounds"),
    )
}

/// Appends the line of usage.
pub(crate) fn put_make_usage(out: &mut Vec<u8>) -> Result<(), AllocError>
    ensures { OnOk result (out.new.items ≡ out.old.items ++ make_usage) }
{
    out.extend_from_slice(b"usage: dse make N --arch FILE [--rounds K]\n")
}
