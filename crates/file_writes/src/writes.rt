//! The files that a command writes, in order, with what is written into each.

ghost use Rattle.std.specs.Prelude.{◌≡◌, ◌∷◌, ◌++◌, [], None, IfOk, OnOk, OnErr};
ghost use Rattle.desk_io.specs.Causes.{HasCause};
ghost use Rattle.desk_io.specs.Files.{file_at};
ghost use Rattle.file_writes.specs.Writes.{bytes_of, AreWritten, ArePartlyWritten, Becomes, KeepsOrBecomesPart, Leaves, Rewrites};

use crate::pieces::put_proof;
use desk_io::{Desk, DeskError};
use proof_log::Log;
use std::alloc::{AllocError, Global};
use std::marker::Model;

/// What is written into a file.
#[derive(Drop)]
pub enum Content {
    /// These bytes.
    Text(Vec<u8>),
    /// The proof file that the lines of a log become.
    Proof(Log),
}

/// A file that is written.
#[derive(Drop)]
pub struct Write {
    /// Its name.
    pub name: String,
    /// What is written into it.
    pub content: Content,
}

/// The files that a command writes, in order, no two of the same name. A contract sees each as its name and its bytes.
#[derive(Drop)]
pub struct Writes {
    list: Vec<Write>,
}

impl Model for Writes {
    ghost use Rattle.std.specs.Prelude.{map};
    ghost use Rattle.desk_io.specs.Files.{Files, HasDistinctNames};
    ghost use Rattle.file_writes.specs.Writes.{file_of};

    ghost Value = { Files };

    ghost view = { λ writes. map file_of writes.list.items };

    ghost invariant = { λ writes. HasDistinctNames (map file_of writes.list.items) };
}

/// Writes one file anew.
fn write_file<D: Desk>(
    alloc: Global,
    desk: &mut D,
    name: &str,
    content: &Content,
) -> Result<(), DeskError>
    ensures ok { OnOk result (Leaves (D.files desk.old) (D.files desk.new) (Rewrites name.now (Becomes (bytes_of content.now)))) }
    ensures err { OnErr result (Leaves (D.files desk.old) (D.files desk.new) (Rewrites name.now (KeepsOrBecomesPart (bytes_of content.now)))) }
    ensures said { D.said desk.new ≡ D.said desk.old }
    ensures cause { HasCause (D.faults desk.old) (D.faults desk.new) result }
{
    desk.start(name)?;
    match content {
        Content::Text(bytes) => desk.append(name, bytes),
        Content::Proof(log) => put_proof(alloc, desk, name, log),
    }
}

impl Writes {
    /// No file.
    pub fn none(alloc: Global) -> Writes
        ensures { result ≡ [] }
    {
        Writes {
            list: Vec::new(alloc),
        }
    }

    /// Adds a file behind the others, none of which has its name.
    pub fn add(&mut self, alloc: Global, name: &str, content: Content) -> Result<(), AllocError>
        requires { file_at self.old name.now ≡ None }
        ensures ok { OnOk result (self.new ≡ self.old ++ (name.now, bytes_of content) ∷ []) }
        ensures err { OnErr result (self.new ≡ self.old) }
    {
        let name = String::from_str(alloc, name)?;
        self.list.push(Write { name, content })?;
        Ok(())
    }

    /// Writes all files, in order. Where it gives up, those before a place are whole, and the one at this place has what
    /// it had or a first part of its bytes.
    pub fn write<D: Desk>(&self, alloc: Global, desk: &mut D) -> Result<(), DeskError>
        ensures ok { OnOk result (Leaves (D.files desk.old) (D.files desk.new) (AreWritten self.now)) }
        ensures err { OnErr result (Leaves (D.files desk.old) (D.files desk.new) (ArePartlyWritten self.now)) }
        ensures said { D.said desk.new ≡ D.said desk.old }
        ensures cause { HasCause (D.faults desk.old) (D.faults desk.new) result }
    {
        for write in &self.list {
            write_file(alloc, desk, write.name.as_str(), &write.content)?;
        }
        Ok(())
    }
}
