//! The proof file of decodings, and what it is worth.
//!
//! `specs/Proving.antt` says what the lines of such a file show: that a design is the first, that none is valid, or that the
//! work of a budget was done. A command that decodes writes the log of its decoder as it is.
#![tactic(auto)]

ghost use Rattle.std.specs.Prelude.{◌≡◌, IfOk, option_map};
ghost use Rattle.proof_files.specs.Writing.{files_of};

use file_writes::{Content, Writes};
use proof_log::Log;
use std::alloc::{AllocError, Global};

/// The file that a log is written to, if one is named.
pub fn writes_of(alloc: Global, name: Option<&str>, log: Log) -> Result<Writes, AllocError>
    ensures { IfOk result (λ writes. writes ≡ files_of (option_map (λ s. s.now) name.entry) log) }
{
    let mut writes = Writes::none(alloc);
    if let Some(name) = name {
        writes.add(alloc, name, Content::Proof(log))?;
    }
    Ok(writes)
}
