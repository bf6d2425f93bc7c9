//! The line of `check`.

ghost use Rattle.std.specs.Prelude.{◌≡◌, ◌++◌, IfOk, OnOk, Some, map, option_map, string_bytes};
ghost use Rattle.form_words.specs.Reads.{Reads};
ghost use Rattle.form_words.specs.Table.{form_of};
ghost use Rattle.run_words.specs.Checking.{are_checked, check_request, check_table, check_usage, check_with};
ghost use Rattle.run_words.specs.Values.{check, request_value};

use crate::names::{is_file, is_name};
use crate::request::Request;
use clap::ArgMatches;
use form_words::read_line;
use std::alloc::{AllocError, Global};

fn are_checked(tgff: &str, arch: &str, front: &str, proof: &str) -> bool
    ensures { result ≡ are_checked tgff.now arch.now front.now proof.now }
{
    if !is_name(tgff) {
        return false;
    }
    if !is_file(arch) {
        return false;
    }
    if !is_file(front) {
        return false;
    }
    is_file(proof)
}

/// The request of these names.
fn check_named(
    alloc: Global,
    tgff: &str,
    arch: &str,
    front: &str,
    proof: &str,
) -> Result<Option<Request>, AllocError>
    ensures { IfOk result (λ r. option_map request_value r ≡ option_map check (check_with (Some tgff.now) (Some arch.now) (Some front.now) (Some proof.now))) }
{
    if !are_checked(tgff, arch, front, proof) {
        return Ok(None);
    }
    let tgff = String::from_str(alloc, tgff)?;
    let arch = String::from_str(alloc, arch)?;
    let front_file = String::from_str(alloc, front)?;
    let proof_file = String::from_str(alloc, proof)?;
    Ok(Some(Request::Check {
        tgff,
        arch,
        front_file,
        proof_file,
    }))
}

/// The request of the names at the places.
fn check_with(
    alloc: Global,
    tgff: Option<&str>,
    arch: Option<&str>,
    front: Option<&str>,
    proof: Option<&str>,
) -> Result<Option<Request>, AllocError>
    ensures { IfOk result (λ r. option_map request_value r ≡ option_map check (check_with (option_map (λ s. s.now) tgff.entry) (option_map (λ s. s.now) arch.entry) (option_map (λ s. s.now) front.entry) (option_map (λ s. s.now) proof.entry))) }
{
    let Some(tgff) = tgff else {
        return Ok(None);
    };
    let Some(arch) = arch else {
        return Ok(None);
    };
    let Some(front) = front else {
        return Ok(None);
    };
    let Some(proof) = proof else {
        return Ok(None);
    };
    check_named(alloc, tgff, arch, front, proof)
}

/// What the words give the places, or `None` where they are no line of the table.
fn check_line<'a>(alloc: Global, words: &'a [String]) -> Result<Option<ArgMatches<'a>>, AllocError>
    ensures { IfOk result (Reads (form_of check_table) (map string_bytes words.entry.now)) }
{
    read_line(
        alloc,
        "check",
        &["tgff", "arch", "front", "proof"],
        &[],
        words,
    )
}

/// The request of the words after `check`.
pub(crate) fn read_check(alloc: Global, words: &[String]) -> Result<Option<Request>, AllocError>
    ensures { IfOk result (λ r. option_map request_value r ≡ option_map check (check_request (map string_bytes words.now))) }
{
    let Some(matches) = check_line(alloc, words)? else {
        return Ok(None);
    };
    check_with(
        alloc,
        matches.get_str("tgff"),
        matches.get_str("arch"),
        matches.get_str("front"),
        matches.get_str("proof"),
    )
}

/// Appends the line of usage.
pub(crate) fn put_check_usage(out: &mut Vec<u8>) -> Result<(), AllocError>
    ensures { OnOk result (out.new.items ≡ out.old.items ++ check_usage) }
{
    out.extend_from_slice(b"usage: dse check TGFF ARCH FRONT PROOF\n")
}
