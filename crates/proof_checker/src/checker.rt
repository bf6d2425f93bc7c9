//! The checker: a front that may be checked against, and how far a proof was taken.

ghost use Rattle.std.specs.Prelude.{◌≡◌, ◌+◌, ◌<◌, ◌≤◌, ◌^◌, length, All, IfOk, OnOk, IfErr};
ghost use Rattle.encode_model.specs.Encoding.{encoding};
ghost use Rattle.result_text.specs.Fronts.{front_of};
ghost use Rattle.front_model.specs.Fronts.{vectors_of, IsClaim, IsFrontOf};
ghost use Rattle.front_model.specs.Judging.{begun, judge_next, refusal_at, verdict_of};
ghost use Rattle.front_model.specs.Laws.{IsPiece};
ghost use Rattle.proof_checker.specs.Checkers.{with_line, Takes, AreShaped, StartsWith};
ghost use Rattle.proof_checker.specs.Takings.{GivesTaken};

use crate::faults::{Halt, LineFault, StartFault};
use crate::fronts::first_fault;
use crate::lines::{Taken, is_clash, judge_next};
use front_model::{ProofWhy, Refused, Verdict};
use pb_constraints::Constraint;
use result_text::Front;
use route_encode::encode;
use spec_graph::Spec;
use std::alloc::{AllocError, Global};
use std::marker::Model;

/// A specification, a front of it that may be checked against, and what the lines of a proof gave so far.
#[derive(Drop)]
pub struct Checker<'a> {
    spec: &'a Spec,
    front: &'a Front,
    constraints: Vec<Constraint>,
    covers: u64,
    lines: u64,
    closed: bool,
    refused: Option<Refused>,
}

impl<'a> Model for Checker<'a> {
    ghost use Rattle.result_text.specs.Fronts.{front_of};
    ghost use Rattle.proof_checker.specs.Checkers.{CheckerValue, IsChecker, progress_of};

    ghost Value = { CheckerValue };

    ghost view = { λ c. record { spec = c.spec.now; front = front_of c.front.now; progress = progress_of c.constraints.items c.covers c.lines c.closed c.refused } };

    ghost invariant = { λ c. IsChecker c.spec.now (front_of c.front.now) (progress_of c.constraints.items c.covers c.lines c.closed c.refused) };
}

/// The constraints of the encoding.
fn encoding_of(alloc: Global, spec: &Spec) -> Result<Vec<Constraint>, AllocError>
    ensures { IfOk result (λ v. v.items ≡ encoding spec.now) }
{
    Ok(encode(alloc, spec)?.into_constraints())
}

/// The refusal of the line after so many.
fn refused_after(lines: u64, why: ProofWhy) -> Refused
    requires { lines + 1 < 2 ^ 64 }
    ensures { result ≡ refusal_at (lines + 1) why }
{
    Refused {
        line: lines + 1,
        why,
    }
}

impl<'a> Checker<'a> {
    /// A checker of a front, before the first line. It is refused for the first fault of the front's lowest entry with
    /// one, and where the front isn't said to be complete.
    pub fn new(alloc: Global, spec: &'a Spec, front: &'a Front) -> Result<Checker<'a>, StartFault>
        requires { AreShaped spec.now (front_of front.now) }
        ensures made { IfOk result (λ c. c ≡ record { spec = spec.now; front = front_of front.now; progress = begun spec.now }) }
        ensures claim { OnOk result (IsClaim spec.now (front_of front.now)) }
        ensures refused { IfErr result (StartsWith spec.now (front_of front.now)) }
    {
        spec.facts();
        if let Some(fault) = first_fault(spec, front) {
            return Err(StartFault::Refused(fault));
        }
        let constraints = encoding_of(alloc, spec)?;
        Ok(Checker {
            spec,
            front,
            constraints,
            covers: 0,
            lines: 0,
            closed: false,
            refused: None,
        })
    }

    /// Judges a line after those that were taken.
    fn judge(&self, alloc: Global, bytes: &[u8]) -> Result<Taken, Halt>
        requires { self.now.progress.given.covers + 1 < 2 ^ 58 }
        ensures { GivesTaken self.now.progress.given (judge_next self.now.spec (vectors_of self.now.front) self.now.progress.lines self.now.progress.given bytes.now) result }
    {
        judge_next(
            alloc,
            self.spec,
            self.front,
            &self.constraints,
            self.covers,
            self.lines,
            bytes,
        )
    }

    /// Takes a line with its LF, or the last one without. It is refused for its first fault, and for that of an earlier
    /// line. Where there is no memory nothing changes.
    pub fn line(&mut self, bytes: &[u8]) -> Result<(), LineFault>
        requires { IsPiece bytes.now }
        ensures { Takes self.old bytes.now self.new result }
    {
        let alloc = *self.constraints.allocator();
        if let Some(refused) = &self.refused {
            return Err(LineFault::Refused(refused.copy(alloc)?));
        }
        if self.lines >= u64::MAX - 1 || self.covers == (1 << 58) - 1 {
            return Err(LineFault::NoMemory);
        }
        match self.judge(alloc, bytes) {
            Ok(Taken::Header) => {
                self.lines += 1;
                self.closed = false;
                Ok(())
            }
            Ok(Taken::Derived(constraint)) => {
                let closed = is_clash(&constraint);
                self.constraints.push(constraint)?;
                self.lines += 1;
                self.closed = closed;
                Ok(())
            }
            Ok(Taken::Block(mut block)) => {
                self.constraints.append(&mut block)?;
                self.covers += 1;
                self.lines += 1;
                self.closed = false;
                Ok(())
            }
            Err(Halt::Why(why)) => {
                let refused = refused_after(self.lines, why);
                let answer = refused.copy(alloc)?;
                self.refused = Some(refused);
                Err(LineFault::Refused(answer))
            }
            Err(Halt::NoMemory) => Err(LineFault::NoMemory),
        }
    }

    /// What is said of the whole proof: its first refusal, or that the last line derives no clash, or that it is accepted.
    /// It takes no memory.
    pub fn end(self) -> Verdict
        ensures verdict { result ≡ verdict_of self.entry.progress }
        ensures exact { result ≡ Verdict.Accepted → IsFrontOf self.entry.spec self.entry.front }
    {
        self.spec.facts();
        let Checker {
            lines,
            closed,
            refused,
            ..
        } = self;
        if let Some(refused) = refused {
            return Verdict::Refused(refused);
        }
        if lines == 0 {
            return Verdict::Refused(Refused {
                line: 1,
                why: ProofWhy::BadStep,
            });
        }
        if closed {
            return Verdict::Accepted;
        }
        Verdict::Refused(Refused {
            line: lines + 1,
            why: ProofWhy::NoContradiction,
        })
    }
}
