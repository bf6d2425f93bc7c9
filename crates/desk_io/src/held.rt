//! Files held in a `Vec`, each name once, and the edits of one of them.
ghost use Rattle.std.specs.Prelude.{◌≡◌, ◌++◌, ◌↔◌, [], IsTrue, ◌+◌, ◌≤◌, length, position, option_map, take, drop, OnOk, OnErr};
ghost use Rattle.desk_io.specs.Files.{HasDistinctNames, content, file_at, Written};
ghost use Rattle.desk_io.specs.MemoryState.{has_name, entries};

use std::alloc::{AllocError, Global};

pub type HeldFiles = Vec<(String, Vec<u8>)>;

/// Whether no two of these files have the same name, as the desks in memory ask of theirs.
pub fn names_are_distinct(files: &[(String, Vec<u8>)]) -> bool
    ensures { IsTrue result ↔ HasDistinctNames (entries files.now) }
{
    match files {
        [] => true,
        [file, rest @ ..] => place(rest, file.0.as_str()).is_none() && names_are_distinct(rest),
    }
}

fn place(files: &[(String, Vec<u8>)], name: &str) -> Option<usize>
    ensures { result ≡ position (has_name name.now) files.now }
{
    files.iter().position(|file| name == file.0.as_str())
}

/// The bytes of the file of that name, if there is one.
pub fn find<'a>(files: &'a [(String, Vec<u8>)], name: &str) -> Option<&'a [u8]>
    ensures { option_map (λ bytes. bytes.now) result ≡ file_at (entries files.now) name.now }
{
    match place(files, name) {
        Some(i) => Some(&files[i].1),
        None => None,
    }
}

/// Fills `buf` with the bytes from `at` on.
pub fn copy_part(bytes: &[u8], at: u64, buf: &mut [u8])
    requires { at + length buf.old ≤ length bytes.now }
    ensures { buf.new ≡ take (length buf.old) (drop at bytes.now) }
{
    let from = at as usize;
    let end = from + buf.len();
    buf.copy_from_slice(&bytes[from..end]);
}

/// Makes the file of that name empty; a new one where there is none.
pub fn clear(alloc: Global, files: &mut HeldFiles, name: &str) -> Result<(), AllocError>
    requires { HasDistinctNames (entries files.old.items) }
    ensures ok { OnOk result (Written (entries files.old.items) (entries files.new.items) name.now []) }
    ensures err { OnErr result (entries files.new.items ≡ entries files.old.items) }
{
    match place(files, name) {
        Some(i) => {
            let file = &mut files[i];
            file.1.clear();
            Ok(())
        }
        None => {
            let name = String::from_str(alloc, name)?;
            files.push((name, Vec::new(alloc)))?;
            Ok(())
        }
    }
}

/// Adds bytes at the end of the file of that name; a new one where there is none.
pub fn extend(
    alloc: Global,
    files: &mut HeldFiles,
    name: &str,
    bytes: &[u8],
) -> Result<(), AllocError>
    requires { HasDistinctNames (entries files.old.items) }
    ensures ok { OnOk result (Written (entries files.old.items) (entries files.new.items) name.now (content (entries files.old.items) name.now ++ bytes.now)) }
    ensures err { OnErr result (entries files.new.items ≡ entries files.old.items) }
{
    match place(files, name) {
        Some(i) => {
            let file = &mut files[i];
            file.1.extend_from_slice(bytes)?;
            Ok(())
        }
        None => {
            let name = String::from_str(alloc, name)?;
            let bytes = Vec::from_slice(alloc, bytes)?;
            files.push((name, bytes))?;
            Ok(())
        }
    }
}
