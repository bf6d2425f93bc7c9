ghost use Rattle.std.specs.Prelude.{◌≡◌, ◌<◌, ◌^◌, None, OnOk, OnErr, IsOkUnless};
ghost use Rattle.desk_io.specs.Causes.{HasCause};

use crate::{Desk, DeskError};
use std::fs::OpenOptions;
use std::io::{ErrorKind, Read, Seek, SeekFrom, Write};
use std::marker::Model;
use std::rt::Files;
use std::{fs, io};

/// The real files and the standard output: the trusted edge.
///
/// No contract can say what a file gives or keeps, so this desk tells neither its files nor what was
/// said. It keeps a count of faults, which it raises at each error. A file that is read has to be a plain one.
#[derive(Drop)]
pub struct RealDesk<'a, R> {
    rt: &'a R,
    faults: u64,
}

impl<'a, R> Model for RealDesk<'a, R> {
    ghost use Rattle.std.specs.Prelude.{ℕ};

    ghost Value = { ℕ };

    ghost view = { λ desk. desk.faults };
}

impl<'a, R: Files + Print + Alloc> RealDesk<'a, R> {
    /// The desk of this runtime, with a count of faults of 0.
    pub fn new(rt: &'a R) -> RealDesk<'a, R>
        ensures { result ≡ 0 }
    {
        RealDesk { rt, faults: 0 }
    }

    /// The answer of a call to the outside; an error is counted.
    fn told<T: Drop>(&mut self, answer: io::Result<T>) -> Result<T, DeskError>
        ensures only_failed { IsOkUnless result DeskError.Failed }
        ensures in_range { self.new < 2 ^ 64 }
        ensures cause { HasCause self.old self.new result }
    {
        let _before = self.faults;
        match answer {
            Ok(value) => Ok(value),
            Err(_) => {
                self.faults = self.faults.saturating_add(1);
                Err(DeskError::Failed)
            }
        }
    }
}

// What isn't a plain file has no length to go by, and opening a named pipe would wait for who opens its other end.
fn length_of(rt: &impl Files, name: &str) -> io::Result<u64> {
    let file = fs::metadata(rt, name)?;
    if !file.is_file() {
        return Err(ErrorKind::InvalidInput.into());
    }
    Ok(file.len())
}

// The length is asked for before the file is opened, so that only a plain one is. `read_exact` makes a file that ends
// too early an error.
fn fill_from(rt: &impl Files, name: &str, at: u64, buf: &mut [u8]) -> io::Result<()> {
    length_of(rt, name)?;
    let mut file = fs::open(rt, name)?;
    file.seek(SeekFrom::Start(at))?;
    file.read_exact(buf)
}

fn start_at(rt: &impl Files, name: &str) -> io::Result<()> {
    fs::create(rt, name)?;
    Ok(())
}

fn append_to(rt: &impl Files, name: &str, bytes: &[u8]) -> io::Result<()> {
    let mut options = OpenOptions::new();
    options.append(true);
    options.create(true);
    let mut file = options.open(rt, name)?;
    file.write_all(bytes)
}

impl<'a, R: Files + Print + Alloc> Desk for RealDesk<'a, R> {
    ghost files = { λ _. None };

    ghost said = { λ _. None };

    ghost faults = { λ desk. desk };

    fn length(&mut self, name: &str) -> Result<u64, DeskError> {
        let answer = length_of(self.rt, name);
        self.told(answer)
    }

    fn fill(&mut self, name: &str, at: u64, buf: &mut [u8]) -> Result<(), DeskError> {
        let answer = fill_from(self.rt, name, at, buf);
        self.told(answer)
    }

    fn start(&mut self, name: &str) -> Result<(), DeskError> {
        let answer = start_at(self.rt, name);
        self.told(answer)
    }

    fn append(&mut self, name: &str, bytes: &[u8]) -> Result<(), DeskError> {
        let answer = append_to(self.rt, name, bytes);
        self.told(answer)
    }

    fn say(&mut self, bytes: &[u8]) -> Result<(), DeskError> {
        let answer = self.rt.write_all(bytes);
        self.told(answer)
    }
}
