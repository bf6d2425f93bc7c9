//! What `check` comes to: a front is accepted with a proof, or refused for the first fault of both.

ghost use Rattle.std.specs.Prelude.{◌≡◌, ◌⊎◌, ℕ, List, All, IfOk, IsOkAnd};
ghost use Rattle.desk_io.specs.Causes.{HasCause};
ghost use Rattle.result_text.specs.Fronts.{IsShaped, front_of};
ghost use Rattle.front_model.specs.Fronts.{IsClaim};
ghost use Rattle.front_model.specs.Faults.{IsFirstFault};
ghost use Rattle.run_base.specs.Loading.{IsLoadedIfNamed};
ghost use Rattle.run_base.specs.After.{GoesOn};
ghost use Rattle.run_base.specs.Worlds.{World, AreLoaded};
ghost use Rattle.check_run.specs.Checking.{ChecksFile, ChecksFront, ChecksSpec, OfContent};
ghost use Rattle.check_run.specs.Judging.{Judges, verdict_on};
ghost use Rattle.check_run.specs.Calls.{NoneFailed, IsClaimRead, HasClaim, MayBeChecked};

use crate::fronts::read_named_front;
use crate::proof_file::read_proof;
use crate::texts::{put_accepted, put_front_refused, put_proof_refused};
use desk_io::{Desk, DeskError};
use front_model::laws::{law_of_fronts, law_of_judging};
use front_model::{FrontRefused, Verdict};
use line_words::ReadFault;
use proof_checker::{Checker, StartFault};
use result_text::Front;
use run_base::{Ending, Inputs, Outcome, read_spec};
use spec_graph::Spec;
use std::alloc::{AllocError, Global};

/// What a front comes to whose proof was judged.
fn end_by(
    alloc: Global,
    spec: &Spec,
    front: &Front,
    verdict: &Verdict,
) -> Result<Outcome, AllocError>
    requires { IsClaim spec.now (front_of front.now) }
    ensures { IfOk result (λ outcome. (proof : List ℕ) → verdict.now ≡ verdict_on spec.now (front_of front.now) proof → Judges spec.now (front_of front.now) proof outcome) }
{
    spec.facts();
    law_of_fronts();
    law_of_judging();
    let mut text = Vec::new(alloc);
    match verdict {
        Verdict::Accepted => {
            put_accepted(alloc, front.entries.list().len() as u64, &mut text)?;
            Ok(Outcome::said(alloc, Ending::Done, text))
        }
        Verdict::Refused(refused) => {
            put_proof_refused(alloc, refused, &mut text)?;
            Ok(Outcome::said(alloc, Ending::No, text))
        }
    }
}

/// What a front comes to that has a fault.
fn refuse_front(
    alloc: Global,
    spec: &Spec,
    front: &Front,
    refused: FrontRefused,
) -> Result<Outcome, AllocError>
    requires { IsFirstFault spec.now (front_of front.now) refused }
    ensures { IfOk result (λ outcome. (proof : List ℕ) → Judges spec.now (front_of front.now) proof outcome) }
{
    let _ = spec;
    let _ = front;
    let mut text = Vec::new(alloc);
    put_front_refused(alloc, refused, &mut text)?;
    Ok(Outcome::said(alloc, Ending::No, text))
}

/// What a front comes to with a proof file, of which nothing is read where the front has a fault.
fn judge<D: Desk>(
    alloc: Global,
    desk: &mut D,
    spec: &Spec,
    front: &Front,
    name: &str,
) -> Result<Outcome, DeskError>
    requires { All (IsShaped spec.now) front.now.entries }
    ensures judged { IfOk result (λ outcome. OfContent (D.files desk.old) name.now (λ proof. Judges spec.now (front_of front.now) proof outcome)) }
    ensures files { D.files desk.new ≡ D.files desk.old }
    ensures said { D.said desk.new ≡ D.said desk.old }
    ensures cause { HasCause (D.faults desk.old) (D.faults desk.new) result }
    ensures late { IsClaim spec.now (front_of front.now) ⊎ NoneFailed (D.faults desk.old) (D.faults desk.new) result }
{
    match Checker::new(alloc, spec, front) {
        Ok(checker) => {
            let verdict = read_proof(alloc, desk, name, checker)?;
            let outcome = end_by(alloc, spec, front, &verdict)?;
            Ok(outcome)
        }
        Err(StartFault::Refused(refused)) => {
            let outcome = refuse_front(alloc, spec, front, refused)?;
            Ok(outcome)
        }
        Err(StartFault::NoMemory) => Err(DeskError::NoMemory),
    }
}

/// What a front file comes to that was read or refused.
fn check_front<D: Desk>(
    alloc: Global,
    desk: &mut D,
    spec: &Spec,
    read: Result<Front, ReadFault>,
    name: &str,
) -> Result<Result<Outcome, ReadFault>, DeskError>
    requires { IfOk read (λ front. All (IsShaped spec.now) front.entries) }
    ensures checked { IfOk result (λ tried. OfContent (D.files desk.old) name.now (λ proof. GoesOn read (ChecksFront spec.now proof) tried)) }
    ensures files { D.files desk.new ≡ D.files desk.old }
    ensures said { D.said desk.new ≡ D.said desk.old }
    ensures cause { HasCause (D.faults desk.old) (D.faults desk.new) result }
    ensures late { IsClaimRead spec.now read ⊎ NoneFailed (D.faults desk.old) (D.faults desk.new) result }
{
    match read {
        Ok(front) => {
            let outcome = judge(alloc, desk, spec, &front, name)?;
            Ok(Ok(outcome))
        }
        Err(fault) => Ok(Err(fault)),
    }
}

/// What a specification comes to with the front file and the proof file.
fn check_with<D: Desk>(
    alloc: Global,
    desk: &mut D,
    spec: &Spec,
    inputs: &Inputs,
    name: &str,
) -> Result<Result<Outcome, ReadFault>, DeskError>
    ensures checked { IfOk result (λ tried. (world : World) → IsLoadedIfNamed inputs.now.third world.third → OfContent (D.files desk.old) name.now (λ proof. ChecksSpec world proof spec.now tried)) }
    ensures files { D.files desk.new ≡ D.files desk.old }
    ensures said { D.said desk.new ≡ D.said desk.old }
    ensures cause { HasCause (D.faults desk.old) (D.faults desk.new) result }
    ensures late { (world : World) → IsLoadedIfNamed inputs.now.third world.third → HasClaim world spec.now ⊎ NoneFailed (D.faults desk.old) (D.faults desk.new) result }
{
    let read = read_named_front(alloc, spec, &inputs.third);
    check_front(alloc, desk, spec, read, name)
}

/// What a specification comes to that was read or refused.
fn check_spec<D: Desk>(
    alloc: Global,
    desk: &mut D,
    read: Result<Spec, ReadFault>,
    inputs: &Inputs,
    name: &str,
) -> Result<Result<Outcome, ReadFault>, DeskError>
    ensures checked { IfOk result (λ tried. (world : World) → IsLoadedIfNamed inputs.now.third world.third → OfContent (D.files desk.old) name.now (λ proof. GoesOn read (ChecksSpec world proof) tried)) }
    ensures files { D.files desk.new ≡ D.files desk.old }
    ensures said { D.said desk.new ≡ D.said desk.old }
    ensures cause { HasCause (D.faults desk.old) (D.faults desk.new) result }
    ensures late { (world : World) → IsLoadedIfNamed inputs.now.third world.third → IsOkAnd read (HasClaim world) ⊎ NoneFailed (D.faults desk.old) (D.faults desk.new) result }
{
    match read {
        Ok(spec) => check_with(alloc, desk, &spec, inputs, name),
        Err(fault) => Ok(Err(fault)),
    }
}

/// What the files come to, and the proof file of this name: whether the front file is accepted with it for the
/// specification, or the refusal of a file.
///
/// A front that has a fault is refused before any call on the proof file: a call fails only where the front may be
/// checked against. The proof file is read no further than the piece of 65,536 bytes that has its first refused line.
pub fn check<D: Desk>(
    alloc: Global,
    desk: &mut D,
    inputs: &Inputs,
    name: &str,
) -> Result<Result<Outcome, ReadFault>, DeskError>
    ensures checked { IfOk result (λ tried. (world : World) → AreLoaded inputs.now world → ChecksFile (D.files desk.old) name.now world tried) }
    ensures files { D.files desk.new ≡ D.files desk.old }
    ensures said { D.said desk.new ≡ D.said desk.old }
    ensures cause { HasCause (D.faults desk.old) (D.faults desk.new) result }
    ensures late { (world : World) → AreLoaded inputs.now world → MayBeChecked world ⊎ NoneFailed (D.faults desk.old) (D.faults desk.new) result }
{
    let read = read_spec(alloc, &inputs.tgff, &inputs.arch);
    check_spec(alloc, desk, read, inputs, name)
}
