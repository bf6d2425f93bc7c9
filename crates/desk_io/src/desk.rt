ghost use Rattle.std.specs.Prelude.{◌≡◌, ◌+◌, ◌<◌, ◌^◌, ◌≤◌, List, ℕ, Option, length, take, drop, OnOk, OnErr, IfOk, IfSome};
ghost use Rattle.desk_io.specs.Files.{Files, content, Edits, Says, Empties, KeepsOrEmpties, Appends, AppendsPrefix};
ghost use Rattle.desk_io.specs.Causes.{HasCause};

use std::alloc::AllocError;
use thiserror::Error;

/// Why a call of a [`Desk`] gave up.
#[derive(Clone, Copy, Debug, PartialEq, Eq, Error)]
pub enum DeskError {
    /// The outside didn't do what was asked, and the count of faults rose.
    #[error("a call to the outside failed")]
    Failed,
    /// There was no memory for it.
    #[error("out of memory")]
    NoMemory,
}

impl From<AllocError> for DeskError {
    ghost use Rattle.std.specs.Prelude.{◌≡◌};
    ghost use Rattle.desk_io.specs.declared.desk.DeskError.TheVariants.{NoMemory};

    ghost from_gives = { λ _ e. e ≡ NoMemory };

    fn from(_error: AllocError) -> DeskError {
        DeskError::NoMemory
    }
}

/// Files by name, a place to say bytes, and a count of faults.
///
/// A file that isn't there has no bytes. Each call may fail; it answers `Failed` only where the
/// count of faults rose in that call (or stands at its end, 2^64 - 1), and `Ok` only where the count
/// is as it was. A call changes no file but the one that it names. A desk needn't tell its files
/// or what was said, as the real ones can't; one that told them goes on to tell them.
pub trait Desk {
    /// The files, where they are told.
    ghost files: { Self → Option Files };

    /// The bytes said so far, where they are told.
    ghost said: { Self → Option (List ℕ) };

    /// How often a call has failed: a count that never falls, below 2^64.
    ghost faults: { Self → ℕ };

    /// How many bytes the file has.
    fn length(&mut self, name: &str) -> Result<u64, DeskError>
        ensures answer { IfOk result (λ n. IfSome (files self.old) (λ all. n ≡ length (content all name.now))) }
        ensures files_kept { files self.new ≡ files self.old }
        ensures said_kept { said self.new ≡ said self.old }
        ensures in_range { faults self.new < 2 ^ 64 }
        ensures cause { HasCause (faults self.old) (faults self.new) result };

    /// Fills `buf` with the bytes of the file from `at` on. After an error `buf` may hold anything.
    fn fill(&mut self, name: &str, at: u64, buf: &mut [u8]) -> Result<(), DeskError>
        requires { IfSome (files self.old) (λ all. at + length buf.old ≤ length (content all name.now)) }
        ensures answer { OnOk result (IfSome (files self.old) (λ all. buf.new ≡ take (length buf.old) (drop at (content all name.now)))) }
        ensures files_kept { files self.new ≡ files self.old }
        ensures said_kept { said self.new ≡ said self.old }
        ensures in_range { faults self.new < 2 ^ 64 }
        ensures cause { HasCause (faults self.old) (faults self.new) result };

    /// Makes the file empty. After an error it is as before, or empty.
    fn start(&mut self, name: &str) -> Result<(), DeskError>
        ensures ok { OnOk result (Edits (files self.old) (files self.new) name.now Empties) }
        ensures err { OnErr result (Edits (files self.old) (files self.new) name.now KeepsOrEmpties) }
        ensures said_kept { said self.new ≡ said self.old }
        ensures in_range { faults self.new < 2 ^ 64 }
        ensures cause { HasCause (faults self.old) (faults self.new) result };

    /// Adds the bytes at the end of the file. After an error it has gained some first part of them.
    fn append(&mut self, name: &str, bytes: &[u8]) -> Result<(), DeskError>
        ensures ok { OnOk result (Edits (files self.old) (files self.new) name.now (Appends bytes.now)) }
        ensures err { OnErr result (Edits (files self.old) (files self.new) name.now (AppendsPrefix bytes.now)) }
        ensures said_kept { said self.new ≡ said self.old }
        ensures in_range { faults self.new < 2 ^ 64 }
        ensures cause { HasCause (faults self.old) (faults self.new) result };

    /// Says the bytes. After an error some first part of them may have been said.
    fn say(&mut self, bytes: &[u8]) -> Result<(), DeskError>
        ensures ok { OnOk result (Says (said self.old) (said self.new) (Appends bytes.now)) }
        ensures err { OnErr result (Says (said self.old) (said self.new) (AppendsPrefix bytes.now)) }
        ensures files_kept { files self.new ≡ files self.old }
        ensures in_range { faults self.new < 2 ^ 64 }
        ensures cause { HasCause (faults self.old) (faults self.new) result };
}
