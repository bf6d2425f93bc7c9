//! The front of a loaded file.

ghost use Rattle.std.specs.Prelude.{◌≤◌, ℕ, List, Option, length, All, IfOk};
ghost use Rattle.line_words.specs.Limits.{most_file_bytes};
ghost use Rattle.result_text.specs.Fronts.{IsShaped};
ghost use Rattle.run_base.specs.Loading.{IsLoaded, IsLoadedIfNamed};
ghost use Rattle.check_run.specs.Fronts.{ReadsFront, front_bytes};

use line_words::{FileTag, ReadFault};
use result_text::{Front, read_front};
use run_base::{Loaded, short_bytes};
use spec_graph::Spec;
use std::alloc::Global;

/// The front of a file that isn't too long.
fn read_short(alloc: Global, spec: &Spec, bytes: &[u8]) -> Result<Front, ReadFault>
    requires { length bytes.now ≤ most_file_bytes }
    ensures reads { ReadsFront spec.now bytes.now result }
    ensures shaped { IfOk result (λ front. All (IsShaped spec.now) front.entries) }
{
    read_front(alloc, spec, bytes)
}

/// The front of a loaded file.
fn read_loaded(alloc: Global, spec: &Spec, loaded: &Loaded) -> Result<Front, ReadFault>
    ensures reads { (bytes : List ℕ) → IsLoaded loaded.now bytes → ReadsFront spec.now bytes result }
    ensures shaped { IfOk result (λ front. All (IsShaped spec.now) front.entries) }
{
    let bytes = short_bytes(loaded, FileTag::Front)?;
    read_short(alloc, spec, bytes)
}

/// The front of a loaded file for a specification; without a file that of no bytes, which is refused.
pub(crate) fn read_named_front(
    alloc: Global,
    spec: &Spec,
    file: &Option<Loaded>,
) -> Result<Front, ReadFault>
    ensures reads { (named : Option (List ℕ)) → IsLoadedIfNamed file.now named → ReadsFront spec.now (front_bytes named) result }
    ensures shaped { IfOk result (λ front. All (IsShaped spec.now) front.entries) }
{
    match file {
        Some(loaded) => read_loaded(alloc, spec, loaded),
        None => read_short(alloc, spec, &[]),
    }
}
