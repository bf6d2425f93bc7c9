//! A proof file, written in pieces: the text of a log is never whole in memory.

ghost use Rattle.std.specs.Prelude.{◌≡◌, ◌++◌, OnOk, OnErr};
ghost use Rattle.desk_io.specs.Causes.{HasCause};
ghost use Rattle.desk_io.specs.Files.{Appends, AppendsPrefix};
ghost use Rattle.proof_log.specs.Text.{header, proof_text};
ghost use Rattle.file_writes.specs.Writes.{Leaves, Rewrites};

use desk_io::{Desk, DeskError};
use proof_log::Log;
use std::alloc::{AllocError, Global};

/// A piece is written once it has so many bytes.
const PIECE_BYTES: usize = 65_536;

/// Appends the first line of a proof file.
fn put_header(piece: &mut Vec<u8>) -> Result<(), AllocError>
    ensures { OnOk result (piece.new.items ≡ piece.old.items ++ header) }
{
    piece.extend_from_slice(b"proof 1\n")
}

/// Adds to a file the proof file that the lines of a log become: its first line, and the text of each line, in order.
pub(crate) fn put_proof<D: Desk>(
    alloc: Global,
    desk: &mut D,
    name: &str,
    log: &Log,
) -> Result<(), DeskError>
    ensures ok { OnOk result (Leaves (D.files desk.old) (D.files desk.new) (Rewrites name.now (Appends (proof_text log.now.lines)))) }
    ensures err { OnErr result (Leaves (D.files desk.old) (D.files desk.new) (Rewrites name.now (AppendsPrefix (proof_text log.now.lines)))) }
    ensures said { D.said desk.new ≡ D.said desk.old }
    ensures cause { HasCause (D.faults desk.old) (D.faults desk.new) result }
{
    let mut piece = Vec::new(alloc);
    put_header(&mut piece)?;
    for i in 0..log.steps() {
        log.step_text(alloc, i, &mut piece)?;
        if piece.len() >= PIECE_BYTES {
            desk.append(name, &piece)?;
            piece.clear();
        }
    }
    desk.append(name, &piece)
}
