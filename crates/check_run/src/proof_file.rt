//! A proof file, read in pieces of a fixed size.

ghost use Rattle.std.specs.Prelude.{◌≡◌, ◌+◌, ◌≤◌, length, IfOk, IfSome};
ghost use Rattle.desk_io.specs.Files.{content};
ghost use Rattle.desk_io.specs.Causes.{HasCause};
ghost use Rattle.front_model.specs.Judging.{verdict_of};
ghost use Rattle.check_run.specs.Checking.{OfContent};
ghost use Rattle.check_run.specs.Taking.{HasNoLf, TakesPart, led};

use crate::proof_lines::ProofLines;
use desk_io::{Desk, DeskError};
use front_model::{Refused, Verdict};
use proof_checker::{Checker, LineFault};
use std::alloc::Global;

/// How many bytes of a proof file are read at once.
const PIECE_BYTES: u64 = 65_536;

/// Takes so many bytes of a file from a place on, or answers the refusal of a line that ends within them.
fn take_part<D: Desk>(
    alloc: Global,
    desk: &mut D,
    name: &str,
    at: u64,
    count: u64,
    lines: &mut ProofLines<'_>,
) -> Result<Option<Refused>, DeskError>
    requires there { IfSome (D.files desk.old) (λ all. at + count ≤ length (content all name.now)) }
    requires held { HasNoLf lines.old.held.items }
    requires few { count ≤ 65536 }
    ensures taken { IfOk result (TakesPart (D.files desk.old) name.now at count lines.old lines.new) }
    ensures files { D.files desk.new ≡ D.files desk.old }
    ensures said { D.said desk.new ≡ D.said desk.old }
    ensures cause { HasCause (D.faults desk.old) (D.faults desk.new) result }
{
    let mut bytes = vec![in alloc; 0u8; count as usize]?;
    desk.fill(name, at, &mut bytes)?;
    match lines.take_bytes(&bytes) {
        Ok(()) => Ok(None),
        Err(LineFault::Refused(refused)) => Ok(Some(refused)),
        Err(LineFault::NoMemory) => Err(DeskError::NoMemory),
    }
}

/// What a checker says of a proof file. Nothing is read of it after the piece that has a refused line.
pub(crate) fn read_proof<D: Desk>(
    alloc: Global,
    desk: &mut D,
    name: &str,
    checker: Checker<'_>,
) -> Result<Verdict, DeskError>
    ensures verdict { IfOk result (λ verdict. OfContent (D.files desk.old) name.now (λ proof. verdict ≡ verdict_of (led checker.entry proof))) }
    ensures files { D.files desk.new ≡ D.files desk.old }
    ensures said { D.said desk.new ≡ D.said desk.old }
    ensures cause { HasCause (D.faults desk.old) (D.faults desk.new) result }
{
    let len = desk.length(name)?;
    let mut lines = ProofLines::of(alloc, checker);
    let mut at = 0;
    while at < len {
        let count = (len - at).min(PIECE_BYTES);
        if let Some(refused) = take_part(alloc, desk, name, at, count, &mut lines)? {
            return Ok(Verdict::Refused(refused));
        }
        at += count;
    }
    let verdict = lines.end()?;
    Ok(verdict)
}
