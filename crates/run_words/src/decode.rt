//! The line of `decode`.

ghost use Rattle.std.specs.Prelude.{◌≡◌, ◌++◌, IfOk, OnOk, map, option_map, string_bytes};
ghost use Rattle.form_words.specs.Reads.{Reads};
ghost use Rattle.form_words.specs.Table.{form_of};
ghost use Rattle.run_words.specs.Decoding.{are_taken, budget_with, decode_named, decode_request, decode_table, decode_usage, decode_with, is_written};
ghost use Rattle.run_words.specs.Values.{decode, request_value};

use crate::names::{is_apart, is_file, is_file_if_named, is_name, owned};
use crate::numbers::number_if_given;
use crate::request::Request;
use clap::ArgMatches;
use form_words::read_line;
use std::alloc::{AllocError, Global};

/// Whether these are names of what is read.
fn are_taken(tgff: &str, arch: &str, geno: &str) -> bool
    ensures { result ≡ are_taken tgff.now arch.now geno.now }
{
    if !is_name(tgff) {
        return false;
    }
    if !is_file(arch) {
        return false;
    }
    is_name(geno)
}

/// Whether the proof, where it is given, has a file of its own.
fn is_written(tgff: &str, arch: &str, geno: &str, proof: Option<&str>) -> bool
    ensures { result ≡ is_written tgff.now arch.now geno.now (option_map (λ s. s.now) proof.entry) }
{
    if !is_file_if_named(proof) {
        return false;
    }
    is_apart(proof, &[tgff, arch, geno])
}

/// The budget, from 1 on; `None` where it writes none, or stands without a proof.
fn budget_with(budget: Option<&str>, proof: Option<&str>) -> Option<Option<u64>>
    ensures { result ≡ budget_with (option_map (λ s. s.now) budget.entry) (option_map (λ s. s.now) proof.entry) }
{
    match proof {
        None => { if budget.is_some() { None } else { Some(None) } }
        Some(_) => number_if_given(1, budget),
    }
}

/// The request of these names, with the budget.
fn decode_named(
    alloc: Global,
    tgff: &str,
    arch: &str,
    geno: &str,
    proof: Option<&str>,
    budget: Option<Option<u64>>,
) -> Result<Option<Request>, AllocError>
    ensures { IfOk result (λ r. option_map request_value r ≡ option_map decode (decode_named tgff.now arch.now geno.now (option_map (λ s. s.now) proof.entry) budget)) }
{
    if !are_taken(tgff, arch, geno) {
        return Ok(None);
    }
    if !is_written(tgff, arch, geno, proof) {
        return Ok(None);
    }
    let Some(budget) = budget else {
        return Ok(None);
    };
    let tgff = String::from_str(alloc, tgff)?;
    let arch = String::from_str(alloc, arch)?;
    let geno = String::from_str(alloc, geno)?;
    let proof_file = owned(alloc, proof)?;
    Ok(Some(Request::Decode {
        tgff,
        arch,
        geno,
        budget,
        proof_file,
    }))
}

/// The request of the words at the places and of those of the options.
fn decode_with(
    alloc: Global,
    tgff: Option<&str>,
    arch: Option<&str>,
    geno: Option<&str>,
    budget: Option<&str>,
    proof: Option<&str>,
) -> Result<Option<Request>, AllocError>
    ensures { IfOk result (λ r. option_map request_value r ≡ option_map decode (decode_with (option_map (λ s. s.now) tgff.entry) (option_map (λ s. s.now) arch.entry) (option_map (λ s. s.now) geno.entry) (option_map (λ s. s.now) budget.entry) (option_map (λ s. s.now) proof.entry))) }
{
    let Some(tgff) = tgff else {
        return Ok(None);
    };
    let Some(arch) = arch else {
        return Ok(None);
    };
    let Some(geno) = geno else {
        return Ok(None);
    };
    decode_named(alloc, tgff, arch, geno, proof, budget_with(budget, proof))
}

/// What the words give the places and options, or `None` where they are no line of the table.
fn decode_line<'a>(alloc: Global, words: &'a [String]) -> Result<Option<ArgMatches<'a>>, AllocError>
    ensures { IfOk result (Reads (form_of decode_table) (map string_bytes words.entry.now)) }
{
    read_line(
        alloc,
        "decode",
        &["tgff", "arch", "geno"],
        &[("budget", false), ("proof", false)],
        words,
    )
}

/// The request of the words after `decode`.
pub(crate) fn read_decode(alloc: Global, words: &[String]) -> Result<Option<Request>, AllocError>
    ensures { IfOk result (λ r. option_map request_value r ≡ option_map decode (decode_request (map string_bytes words.now))) }
{
    let Some(matches) = decode_line(alloc, words)? else {
        return Ok(None);
    };
    decode_with(
        alloc,
        matches.get_str("tgff"),
        matches.get_str("arch"),
        matches.get_str("geno"),
        matches.get_str("budget"),
        matches.get_str("proof"),
    )
}

/// Appends the line of usage.
pub(crate) fn put_decode_usage(out: &mut Vec<u8>) -> Result<(), AllocError>
    ensures { OnOk result (out.new.items ≡ out.old.items ++ decode_usage) }
{
    out.extend_from_slice(b"usage: dse decode TGFF ARCH GENO [--budget N] [--proof FILE]\n")
}
