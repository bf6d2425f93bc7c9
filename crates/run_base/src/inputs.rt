//! The files that a line names, loaded.

ghost use Rattle.std.specs.Prelude.{◌≡◌, IfOk, IfSome};
ghost use Rattle.desk_io.specs.Causes.{HasCause};
ghost use Rattle.run_base.specs.Loading.{IsLoadedIfNamed};
ghost use Rattle.run_base.specs.Worlds.{AreLoadedFrom, content_if_named, names_value};

use crate::loading::{Loaded, load};
use desk_io::{Desk, DeskError};
use std::alloc::Global;

/// The words of the files that a command reads whole.
#[derive(Clone, Copy, Debug)]
pub struct Names<'a> {
    /// The file of task graphs and tables, or `-` for none.
    pub tgff: &'a str,
    /// The architecture file.
    pub arch: &'a str,
    /// The third file, as a genotype, or `-` for none.
    pub third: &'a str,
}

/// What was loaded of each file; nothing of one that isn't named.
#[derive(Debug, Drop)]
pub struct Inputs {
    /// The file of task graphs and tables.
    pub tgff: Option<Loaded>,
    /// The architecture file.
    pub arch: Loaded,
    /// The third file, as a genotype.
    pub third: Option<Loaded>,
}

/// Loads a file, if one is named.
fn load_named<D: Desk>(alloc: Global, desk: &mut D, name: &str) -> Result<Option<Loaded>, DeskError>
    ensures loaded { IfOk result (λ found. IfSome (D.files desk.old) (λ all. IsLoadedIfNamed found (content_if_named all name.now))) }
    ensures files { D.files desk.new ≡ D.files desk.old }
    ensures said { D.said desk.new ≡ D.said desk.old }
    ensures cause { HasCause (D.faults desk.old) (D.faults desk.new) result }
{
    if name == "-" {
        return Ok(None);
    }
    let loaded = load(alloc, desk, name)?;
    Ok(Some(loaded))
}

/// Loads all files, in the order of the line. None is refused before all are loaded.
pub fn load_inputs<D: Desk>(
    alloc: Global,
    desk: &mut D,
    names: &Names<'_>,
) -> Result<Inputs, DeskError>
    ensures loaded { IfOk result (AreLoadedFrom (D.files desk.old) (names_value names.now)) }
    ensures files { D.files desk.new ≡ D.files desk.old }
    ensures said { D.said desk.new ≡ D.said desk.old }
    ensures cause { HasCause (D.faults desk.old) (D.faults desk.new) result }
{
    let tgff = load_named(alloc, desk, names.tgff)?;
    let arch = load(alloc, desk, names.arch)?;
    let third = load_named(alloc, desk, names.third)?;
    Ok(Inputs { tgff, arch, third })
}
