//! The line of `front`.

ghost use Rattle.std.specs.Prelude.{◌≡◌, ◌++◌, IfOk, OnOk, Some, map, option_map, string_bytes};
ghost use Rattle.form_words.specs.Reads.{Reads};
ghost use Rattle.form_words.specs.Table.{form_of};
ghost use Rattle.run_words.specs.Fronting.{are_read, are_written, front_named, front_request, front_table, front_usage, front_with};
ghost use Rattle.run_words.specs.Values.{front, request_value};

use crate::names::{is_apart, is_file, is_name};
use crate::numbers::number_if_given;
use crate::request::Request;
use clap::ArgMatches;
use form_words::read_line;
use std::alloc::{AllocError, Global};

/// Whether these are names of what is read.
fn are_read(tgff: &str, arch: &str) -> bool
    ensures { result ≡ are_read tgff.now arch.now }
{
    if !is_name(tgff) {
        return false;
    }
    is_file(arch)
}

/// Whether the front and the proof have files of their own.
fn are_written(tgff: &str, arch: &str, front: &str, proof: &str) -> bool
    ensures { result ≡ are_written tgff.now arch.now front.now proof.now }
{
    if !is_file(front) {
        return false;
    }
    if !is_apart(Some(front), &[tgff, arch]) {
        return false;
    }
    if !is_file(proof) {
        return false;
    }
    is_apart(Some(proof), &[tgff, arch, front])
}

/// The request of these names, with the budget.
fn front_named(
    alloc: Global,
    tgff: &str,
    arch: &str,
    front_file: &str,
    proof_file: &str,
    budget: Option<Option<u64>>,
) -> Result<Option<Request>, AllocError>
    ensures { IfOk result (λ r. option_map request_value r ≡ option_map front (front_named tgff.now arch.now front_file.now proof_file.now budget)) }
{
    if !are_read(tgff, arch) {
        return Ok(None);
    }
    if !are_written(tgff, arch, front_file, proof_file) {
        return Ok(None);
    }
    let Some(budget) = budget else {
        return Ok(None);
    };
    let tgff = String::from_str(alloc, tgff)?;
    let arch = String::from_str(alloc, arch)?;
    let front_file = String::from_str(alloc, front_file)?;
    let proof_file = String::from_str(alloc, proof_file)?;
    Ok(Some(Request::Front {
        tgff,
        arch,
        front_file,
        proof_file,
        budget,
    }))
}

/// The request of the words at the places and of those of the options.
fn front_with(
    alloc: Global,
    tgff: Option<&str>,
    arch: Option<&str>,
    front_file: Option<&str>,
    proof_file: Option<&str>,
    budget: Option<&str>,
) -> Result<Option<Request>, AllocError>
    ensures { IfOk result (λ r. option_map request_value r ≡ option_map front (front_with (option_map (λ s. s.now) tgff.entry) (option_map (λ s. s.now) arch.entry) (option_map (λ s. s.now) front_file.entry) (option_map (λ s. s.now) proof_file.entry) (option_map (λ s. s.now) budget.entry))) }
{
    let Some(tgff) = tgff else {
        return Ok(None);
    };
    let Some(arch) = arch else {
        return Ok(None);
    };
    let Some(front_file) = front_file else {
        return Ok(None);
    };
    let Some(proof_file) = proof_file else {
        return Ok(None);
    };
    front_named(
        alloc,
        tgff,
        arch,
        front_file,
        proof_file,
        number_if_given(1, budget),
    )
}

/// What the words give the places and options, or `None` where they are no line of the table.
fn front_line<'a>(alloc: Global, words: &'a [String]) -> Result<Option<ArgMatches<'a>>, AllocError>
    ensures { IfOk result (Reads (form_of front_table) (map string_bytes words.entry.now)) }
{
    read_line(
        alloc,
        "front",
        &["tgff", "arch"],
        &[("front", true), ("proof", true), ("budget", false)],
        words,
    )
}

/// The request of the words after `front`.
pub(crate) fn read_front(alloc: Global, words: &[String]) -> Result<Option<Request>, AllocError>
    ensures { IfOk result (λ r. option_map request_value r ≡ option_map front (front_request (map string_bytes words.now))) }
{
    let Some(matches) = front_line(alloc, words)? else {
        return Ok(None);
    };
    front_with(
        alloc,
        matches.get_str("tgff"),
        matches.get_str("arch"),
        matches.get_str("front"),
        matches.get_str("proof"),
        matches.get_str("budget"),
    )
}

/// Appends the line of usage.
pub(crate) fn put_front_usage(out: &mut Vec<u8>) -> Result<(), AllocError>
    ensures { OnOk result (out.new.items ≡ out.old.items ++ front_usage) }
{
    out.extend_from_slice(b"usage: dse front TGFF ARCH --front FILE --proof FILE [--budget N]\n")
}
