//! What `check` says.

ghost use Rattle.std.specs.Prelude.{◌≡◌, ◌++◌, OnOk};
ghost use Rattle.check_run.specs.Texts.{accepted_text, front_place_text, front_reason_text, front_refused_text, front_why_text, not_dominated_text, number_text, numbers_text, proof_place_text, proof_reason_text, proof_refused_text, proof_why_text};

use front_model::{FrontRefused, FrontWhy, ProofWhy, Refused};
use itoa::Buffer;
use line_words::put_whole;
use std::alloc::{AllocError, Global};

/// Appends a space and a number.
fn put_number(alloc: Global, number: u64, out: &mut Vec<u8>) -> Result<(), AllocError>
    ensures { OnOk result (out.new.items ≡ out.old.items ++ number_text number) }
{
    out.extend_from_slice(b" ")?;
    put_whole(alloc, out, number)
}

/// The same of a number of up to 128 bits.
fn put_wide(number: u128, out: &mut Vec<u8>) -> Result<(), AllocError>
    ensures { OnOk result (out.new.items ≡ out.old.items ++ number_text number) }
{
    let mut buffer = Buffer::new();
    out.extend_from_slice(b" ")?;
    out.extend_from_slice(buffer.format(number).as_bytes())
}

/// Appends numbers, each after a space.
fn put_numbers(alloc: Global, numbers: &[u64], out: &mut Vec<u8>) -> Result<(), AllocError>
    ensures { OnOk result (out.new.items ≡ out.old.items ++ numbers_text numbers.now) }
{
    for number in numbers {
        put_number(alloc, *number, out)?;
    }
    Ok(())
}

/// Appends why an entry of a front is refused.
fn put_front_why(alloc: Global, why: FrontWhy, out: &mut Vec<u8>) -> Result<(), AllocError>
    ensures { OnOk result (out.new.items ≡ out.old.items ++ front_why_text why) }
{
    match why {
        FrontWhy::Invalid(rule) => {
            out.extend_from_slice(b"Invalid")?;
            put_number(alloc, rule.number(), out)
        }
        FrontWhy::VectorDiffers(place) => {
            out.extend_from_slice(b"VectorDiffers")?;
            put_number(alloc, place as u64, out)
        }
        FrontWhy::NotRising => out.extend_from_slice(b"NotRising"),
        FrontWhy::CoveredBy(entry) => {
            out.extend_from_slice(b"CoveredBy")?;
            put_number(alloc, entry, out)
        }
        FrontWhy::Open => out.extend_from_slice(b"Open"),
    }
}

/// Appends that a cover isn't dominated.
fn put_not_dominated(alloc: Global, cover: &[u64], out: &mut Vec<u8>) -> Result<(), AllocError>
    ensures { OnOk result (out.new.items ≡ out.old.items ++ not_dominated_text cover.now) }
{
    out.extend_from_slice(b"CoverNotDominated")?;
    put_numbers(alloc, cover, out)?;
    Ok(())
}

/// Appends why a proof is refused at a line.
fn put_proof_why(alloc: Global, why: &ProofWhy, out: &mut Vec<u8>) -> Result<(), AllocError>
    ensures { OnOk result (out.new.items ≡ out.old.items ++ proof_why_text why.now) }
{
    match why {
        ProofWhy::BadStep => out.extend_from_slice(b"BadStep"),
        ProofWhy::UnknownId(number) => {
            out.extend_from_slice(b"UnknownId")?;
            put_number(alloc, *number, out)
        }
        ProofWhy::ZeroDivisor => out.extend_from_slice(b"ZeroDivisor"),
        ProofWhy::TooLarge(number) => {
            out.extend_from_slice(b"TooLarge")?;
            put_wide(*number, out)
        }
        ProofWhy::CoverAboveWeight(place) => {
            out.extend_from_slice(b"CoverAboveWeight")?;
            put_number(alloc, *place as u64, out)
        }
        ProofWhy::CoverNotDominated(cover) => put_not_dominated(alloc, cover.numbers(), out),
        ProofWhy::NoContradiction => {
            out.extend_from_slice(b"NoContradiction")?;
            Ok(())
        }
    }
}

/// Appends that a front of so many entries is accepted.
pub(crate) fn put_accepted(alloc: Global, entries: u64, out: &mut Vec<u8>) -> Result<(), AllocError>
    ensures { OnOk result (out.new.items ≡ out.old.items ++ accepted_text entries) }
{
    out.extend_from_slice(b"accepted")?;
    put_number(alloc, entries, out)?;
    out.extend_from_slice(b"\n")
}

fn put_front_place(alloc: Global, entry: u64, out: &mut Vec<u8>) -> Result<(), AllocError>
    ensures { OnOk result (out.new.items ≡ out.old.items ++ front_place_text entry) }
{
    out.extend_from_slice(b"refused front")?;
    put_number(alloc, entry, out)
}

fn put_front_reason(alloc: Global, why: FrontWhy, out: &mut Vec<u8>) -> Result<(), AllocError>
    ensures { OnOk result (out.new.items ≡ out.old.items ++ front_reason_text why) }
{
    out.extend_from_slice(b" ")?;
    put_front_why(alloc, why, out)?;
    out.extend_from_slice(b"\n")
}

/// Appends the line that refuses a front.
pub(crate) fn put_front_refused(
    alloc: Global,
    refused: FrontRefused,
    out: &mut Vec<u8>,
) -> Result<(), AllocError>
    ensures { OnOk result (out.new.items ≡ out.old.items ++ front_refused_text refused) }
{
    put_front_place(alloc, refused.entry, out)?;
    put_front_reason(alloc, refused.why, out)
}

fn put_proof_place(alloc: Global, line: u64, out: &mut Vec<u8>) -> Result<(), AllocError>
    ensures { OnOk result (out.new.items ≡ out.old.items ++ proof_place_text line) }
{
    out.extend_from_slice(b"refused proof")?;
    put_number(alloc, line, out)
}

fn put_proof_reason(alloc: Global, why: &ProofWhy, out: &mut Vec<u8>) -> Result<(), AllocError>
    ensures { OnOk result (out.new.items ≡ out.old.items ++ proof_reason_text why.now) }
{
    out.extend_from_slice(b" ")?;
    put_proof_why(alloc, why, out)?;
    out.extend_from_slice(b"\n")
}

/// Appends the line that refuses a proof.
pub(crate) fn put_proof_refused(
    alloc: Global,
    refused: &Refused,
    out: &mut Vec<u8>,
) -> Result<(), AllocError>
    ensures { OnOk result (out.new.items ≡ out.old.items ++ proof_refused_text refused.now) }
{
    put_proof_place(alloc, refused.line, out)?;
    put_proof_reason(alloc, &refused.why, out)
}
