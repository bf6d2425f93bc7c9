ghost use Rattle.std.specs.Prelude.{◌≡◌, ◌+◌, ◌≤◌, ◌++◌, [], length, take, drop, option_map, OnOk, OnErr, IsOk, IsOkUnless};
ghost use Rattle.desk_io.specs.Files.{HasDistinctNames, content, file_at, Written, Edits, Says, KeepsOrEmpties, AppendsPrefix};

use crate::held::{HeldFiles, clear, copy_part, extend, find};
use crate::{Desk, DeskError};
use std::alloc::Global;
use std::marker::Model;

/// Files and said bytes in memory, with calls that never fail: want of memory alone stops them.
///
/// A file that isn't there reads as an empty one, and its count of faults is always 0.
#[derive(Drop)]
pub struct SureDesk {
    alloc: Global,
    files: HeldFiles,
    said: Vec<u8>,
}

impl Model for SureDesk {
    ghost use Rattle.desk_io.specs.Files.{HasDistinctNames};
    ghost use Rattle.desk_io.specs.MemoryState.{SureState, entries};

    ghost Value = { SureState };

    ghost view = { λ desk. record { files = entries desk.files.items; said = desk.said.items } };

    ghost invariant = { λ desk. HasDistinctNames (entries desk.files.items) };
}

impl SureDesk {
    ghost use Rattle.desk_io.specs.MemoryState.{entries};

    /// A desk with these files that has said nothing yet.
    pub fn new(alloc: Global, files: Vec<(String, Vec<u8>)>) -> SureDesk
        requires { HasDistinctNames (entries files.items) }
        ensures { result ≡ record { files = entries files.items; said = [] } }
    {
        SureDesk {
            alloc,
            files,
            said: Vec::new(alloc),
        }
    }

    /// The bytes of the file, `None` exactly where there is no such file.
    pub fn content(&self, name: &str) -> Option<&[u8]>
        ensures { option_map (λ bytes. bytes.now) result ≡ file_at self.now.files name.now }
    {
        find(&self.files, name)
    }

    /// The bytes said so far.
    pub fn said(&self) -> &[u8]
        ensures { result.now ≡ self.now.said }
    {
        &self.said
    }
}

impl Desk for SureDesk {
    ghost use Rattle.std.specs.Prelude.{Some};

    ghost files = { λ desk. Some desk.files };

    ghost said = { λ desk. Some desk.said };

    ghost faults = { λ _. 0 };

    fn length(&mut self, name: &str) -> Result<u64, DeskError>
        ensures exact { result ≡ Ok (length (content self.old.files name.now)) }
        ensures unchanged { self.new ≡ self.old }
    {
        match find(&self.files, name) {
            Some(bytes) => Ok(bytes.len() as u64),
            None => Ok(0),
        }
    }

    fn fill(&mut self, name: &str, at: u64, buf: &mut [u8]) -> Result<(), DeskError>
        requires { at + length buf.old ≤ length (content self.old.files name.now) }
        ensures filled { IsOk result }
        ensures bytes { buf.new ≡ take (length buf.old) (drop at (content self.old.files name.now)) }
        ensures unchanged { self.new ≡ self.old }
    {
        // By the condition nothing is asked of a file that isn't there.
        if let Some(bytes) = find(&self.files, name) {
            copy_part(bytes, at, buf);
        }
        Ok(())
    }

    fn start(&mut self, name: &str) -> Result<(), DeskError>
        ensures only_memory { IsOkUnless result DeskError.NoMemory }
        ensures written { OnOk result (Written self.old.files self.new.files name.now []) }
        ensures unchanged { OnErr result (self.new ≡ self.old) }
        ensures err { OnErr result (Edits (Some self.old.files) (Some self.new.files) name.now KeepsOrEmpties) }
        ensures said_kept { self.new.said ≡ self.old.said }
    {
        clear(self.alloc, &mut self.files, name)?;
        Ok(())
    }

    fn append(&mut self, name: &str, bytes: &[u8]) -> Result<(), DeskError>
        ensures only_memory { IsOkUnless result DeskError.NoMemory }
        ensures written { OnOk result (Written self.old.files self.new.files name.now (content self.old.files name.now ++ bytes.now)) }
        ensures unchanged { OnErr result (self.new ≡ self.old) }
        ensures err { OnErr result (Edits (Some self.old.files) (Some self.new.files) name.now (AppendsPrefix bytes.now)) }
        ensures said_kept { self.new.said ≡ self.old.said }
    {
        extend(self.alloc, &mut self.files, name, bytes)?;
        Ok(())
    }

    fn say(&mut self, bytes: &[u8]) -> Result<(), DeskError>
        ensures only_memory { IsOkUnless result DeskError.NoMemory }
        ensures ok { OnOk result (self.new.said ≡ self.old.said ++ bytes.now) }
        ensures unchanged { OnErr result (self.new ≡ self.old) }
        ensures err { OnErr result (Says (Some self.old.said) (Some self.new.said) (AppendsPrefix bytes.now)) }
        ensures files_kept { self.new.files ≡ self.old.files }
    {
        self.said.extend_from_slice(bytes)?;
        Ok(())
    }
}
