//! A file that is loaded whole, unless it is too long.

ghost use Rattle.std.specs.Prelude.{◌≡◌, length, IfOk, IfSome};
ghost use Rattle.desk_io.specs.Files.{content};
ghost use Rattle.desk_io.specs.Causes.{HasCause};
ghost use Rattle.run_base.specs.Loading.{IsLoaded};

use desk_io::{Desk, DeskError};
use line_words::MOST_FILE_BYTES;
use std::alloc::Global;

/// What was loaded of a file.
#[derive(Debug, Drop)]
pub enum Loaded {
    /// Nothing, since the file has more than 16,777,216 bytes.
    TooLong,
    /// All of its bytes.
    Bytes(Vec<u8>),
}

/// The whole content of a file of this length.
fn fill_whole<D: Desk>(
    alloc: Global,
    desk: &mut D,
    name: &str,
    len: u64,
) -> Result<Vec<u8>, DeskError>
    requires { IfSome (D.files desk.old) (λ all. len ≡ length (content all name.now)) }
    ensures loaded { IfOk result (λ bytes. IfSome (D.files desk.old) (λ all. bytes.items ≡ content all name.now)) }
    ensures files { D.files desk.new ≡ D.files desk.old }
    ensures said { D.said desk.new ≡ D.said desk.old }
    ensures cause { HasCause (D.faults desk.old) (D.faults desk.new) result }
{
    let mut bytes = vec![in alloc; 0u8; len as usize]?;
    desk.fill(name, 0, &mut bytes)?;
    Ok(bytes)
}

/// Loads a file. One that is too long isn't filled.
pub fn load<D: Desk>(alloc: Global, desk: &mut D, name: &str) -> Result<Loaded, DeskError>
    ensures loaded { IfOk result (λ loaded. IfSome (D.files desk.old) (λ all. IsLoaded loaded (content all name.now))) }
    ensures files { D.files desk.new ≡ D.files desk.old }
    ensures said { D.said desk.new ≡ D.said desk.old }
    ensures cause { HasCause (D.faults desk.old) (D.faults desk.new) result }
{
    let len = desk.length(name)?;
    if len > MOST_FILE_BYTES {
        return Ok(Loaded::TooLong);
    }
    let bytes = fill_whole(alloc, desk, name, len)?;
    Ok(Loaded::Bytes(bytes))
}
