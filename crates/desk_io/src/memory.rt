ghost use Rattle.std.specs.Prelude.{◌≡◌, ◌+◌, ◌≤◌, ◌<◌, ◌^◌, ◌++◌, ◌↔◌, ◌||◌, [], IsTrue, is_none, length, take, drop, option_map, if◌then◌else◌, IfOk, OnOk, OnErr, IsOkUnless};
ghost use Rattle.desk_io.specs.Files.{HasDistinctNames, content, file_at, Written, Edits, Says, Empties, KeepsOrEmpties, Appends, AppendsPrefix};

use crate::held::{HeldFiles, clear, copy_part, extend, find};
use crate::{Desk, DeskError};
use std::alloc::Global;
use std::marker::Model;

/// Files and said bytes in memory, with calls that fail by their number.
///
/// Its calls are counted from 1, over all five kinds. A call answers `Failed`, and the count of
/// faults rises, exactly where its number is one of `failing` or where it asks for the length or the
/// bytes of a file that isn't there. A call that fails changes no file and says nothing.
#[derive(Drop)]
pub struct MemoryDesk {
    alloc: Global,
    files: HeldFiles,
    said: Vec<u8>,
    failing: Vec<u64>,
    calls: u64,
    faults: u64,
}

impl Model for MemoryDesk {
    ghost use Rattle.desk_io.specs.Files.{HasDistinctNames};
    ghost use Rattle.desk_io.specs.MemoryState.{MemoryState, entries};

    ghost Value = { MemoryState };

    ghost view = { λ desk. record { files = entries desk.files.items; said = desk.said.items; failing = desk.failing.items; calls = desk.calls; faults = desk.faults } };

    ghost invariant = { λ desk. HasDistinctNames (entries desk.files.items) };
}

impl MemoryDesk {
    ghost use Rattle.desk_io.specs.Causes.{counted};
    ghost use Rattle.desk_io.specs.MemoryState.{entries, fails_next};

    /// A desk with these files, that has said nothing and counted nothing yet.
    pub fn new(alloc: Global, files: Vec<(String, Vec<u8>)>, failing: Vec<u64>) -> MemoryDesk
        requires { HasDistinctNames (entries files.items) }
        ensures { result ≡ record { files = entries files.items; said = []; failing = failing.items; calls = 0; faults = 0 } }
    {
        MemoryDesk {
            alloc,
            files,
            said: Vec::new(alloc),
            failing,
            calls: 0,
            faults: 0,
        }
    }

    /// The bytes of the file, `None` exactly where there is no such file.
    pub fn content(&self, name: &str) -> Option<&[u8]>
        ensures { option_map (λ bytes. bytes.now) result ≡ file_at self.now.files name.now }
    {
        find(&self.files, name)
    }

    /// The bytes said so far.
    pub fn said(&self) -> &[u8]
        ensures { result.now ≡ self.now.said }
    {
        &self.said
    }

    /// Counts a call, and says whether it fails by its number.
    fn turn(&mut self) -> bool
        ensures fails { result ≡ fails_next self.old }
        ensures after { self.new ≡ record self.old { calls = counted self.old.calls; faults = (if result then counted self.old.faults else self.old.faults) } }
        ensures distinct { HasDistinctNames self.new.files }
        ensures was_in_range { self.old.faults < 2 ^ 64 }
        ensures in_range { self.new.faults < 2 ^ 64 }
    {
        let _files = &self.files;
        let before = self.faults;
        self.calls = self.calls.saturating_add(1);
        let fails = self.failing.contains(&self.calls);
        if fails {
            self.faults = before.saturating_add(1);
        }
        fails
    }
}

impl Desk for MemoryDesk {
    ghost use Rattle.desk_io.specs.Causes.{HasCause};
    ghost use Rattle.desk_io.specs.MemoryState.{fails_next, TakesTurn};
    ghost use Rattle.std.specs.Prelude.{Some};

    ghost files = { λ desk. Some desk.files };

    ghost said = { λ desk. Some desk.said };

    ghost faults = { λ desk. desk.faults };

    fn length(&mut self, name: &str) -> Result<u64, DeskError>
        ensures turn { TakesTurn self.old self.new (fails_next self.old || is_none (file_at self.old.files name.now)) result }
        ensures only_failed { IsOkUnless result DeskError.Failed }
        ensures answer { IfOk result (λ n. n ≡ length (content self.old.files name.now)) }
        ensures files_kept { self.new.files ≡ self.old.files }
        ensures said_kept { self.new.said ≡ self.old.said }
        ensures in_range { self.new.faults < 2 ^ 64 }
        ensures cause { HasCause self.old.faults self.new.faults result }
    {
        if self.turn() {
            return Err(DeskError::Failed);
        }
        match find(&self.files, name) {
            Some(bytes) => Ok(bytes.len() as u64),
            None => {
                self.faults = self.faults.saturating_add(1);
                Err(DeskError::Failed)
            }
        }
    }

    fn fill(&mut self, name: &str, at: u64, buf: &mut [u8]) -> Result<(), DeskError>
        requires { at + length buf.old ≤ length (content self.old.files name.now) }
        ensures turn { TakesTurn self.old self.new (fails_next self.old || is_none (file_at self.old.files name.now)) result }
        ensures only_failed { IsOkUnless result DeskError.Failed }
        ensures answer { OnOk result (buf.new ≡ take (length buf.old) (drop at (content self.old.files name.now))) }
        ensures files_kept { self.new.files ≡ self.old.files }
        ensures said_kept { self.new.said ≡ self.old.said }
        ensures in_range { self.new.faults < 2 ^ 64 }
        ensures cause { HasCause self.old.faults self.new.faults result }
    {
        if self.turn() {
            return Err(DeskError::Failed);
        }
        match find(&self.files, name) {
            Some(bytes) => {
                copy_part(bytes, at, buf);
                Ok(())
            }
            None => {
                self.faults = self.faults.saturating_add(1);
                Err(DeskError::Failed)
            }
        }
    }

    fn start(&mut self, name: &str) -> Result<(), DeskError>
        ensures turn { TakesTurn self.old self.new (fails_next self.old) result }
        ensures written { OnOk result (Written self.old.files self.new.files name.now []) }
        ensures unchanged { OnErr result (self.new.files ≡ self.old.files) }
        ensures err { OnErr result (Edits (Some self.old.files) (Some self.new.files) name.now KeepsOrEmpties) }
        ensures said_kept { self.new.said ≡ self.old.said }
        ensures in_range { self.new.faults < 2 ^ 64 }
        ensures cause { HasCause self.old.faults self.new.faults result }
    {
        if self.turn() {
            return Err(DeskError::Failed);
        }
        clear(self.alloc, &mut self.files, name)?;
        Ok(())
    }

    fn append(&mut self, name: &str, bytes: &[u8]) -> Result<(), DeskError>
        ensures turn { TakesTurn self.old self.new (fails_next self.old) result }
        ensures written { OnOk result (Written self.old.files self.new.files name.now (content self.old.files name.now ++ bytes.now)) }
        ensures unchanged { OnErr result (self.new.files ≡ self.old.files) }
        ensures err { OnErr result (Edits (Some self.old.files) (Some self.new.files) name.now (AppendsPrefix bytes.now)) }
        ensures said_kept { self.new.said ≡ self.old.said }
        ensures in_range { self.new.faults < 2 ^ 64 }
        ensures cause { HasCause self.old.faults self.new.faults result }
    {
        if self.turn() {
            return Err(DeskError::Failed);
        }
        extend(self.alloc, &mut self.files, name, bytes)?;
        Ok(())
    }

    fn say(&mut self, bytes: &[u8]) -> Result<(), DeskError>
        ensures turn { TakesTurn self.old self.new (fails_next self.old) result }
        ensures ok { OnOk result (self.new.said ≡ self.old.said ++ bytes.now) }
        ensures unchanged { OnErr result (self.new.said ≡ self.old.said) }
        ensures err { OnErr result (Says (Some self.old.said) (Some self.new.said) (AppendsPrefix bytes.now)) }
        ensures files_kept { self.new.files ≡ self.old.files }
        ensures in_range { self.new.faults < 2 ^ 64 }
        ensures cause { HasCause self.old.faults self.new.faults result }
    {
        if self.turn() {
            return Err(DeskError::Failed);
        }
        self.said.extend_from_slice(bytes)?;
        Ok(())
    }
}
