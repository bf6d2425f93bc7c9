//! The first fault of a front.

ghost use Rattle.std.specs.Prelude.{◌≡◌, ◌<◌, ◌+◌, length, IfSome, IfNone, IsTrue, ◌↔◌, MatchOption};
ghost use Rattle.spec_model.specs.Spec.{bits_of, design_variables};
ghost use Rattle.spec_model.specs.Vectors.{vector_of, IsAtMost};
ghost use Rattle.result_text.specs.Answers.{as_seen};
ghost use Rattle.result_text.specs.Fronts.{front_of, IsShaped};
ghost use Rattle.front_model.specs.Fronts.{StandsBefore, IsClaim};
ghost use Rattle.front_model.specs.Faults.{DifferFirst, StandsAfter, CoversFirst, IsFine, HasFault, IsFirstFault};
ghost use Rattle.proof_checker.specs.Answers.{AllLong};
ghost use Rattle.proof_checker.specs.Checkers.{AreShaped, IsApart, vectors_in};

use front_model::{FrontRefused, FrontWhy};
use impl_rules::{Design, first_broken, vector_at};
use result_text::{Entry, Front};
use spec_graph::Spec;

/// The first place at which a vector isn't the design's.
fn first_difference(spec: &Spec, design: &Design, vector: &[u64]) -> Option<usize>
    requires bits { length design.now ≡ design_variables spec.now }
    requires one_each { length vector.now ≡ length spec.now.objectives }
    ensures { MatchOption result (vector_of spec.now (bits_of design.now) ≡ vector.now) (DifferFirst (vector_of spec.now (bits_of design.now)) vector.now) }
{
    for j in 0..vector.len() {
        if vector_at(spec, design, j) != vector[j] {
            return Some(j);
        }
    }
    None
}

/// Whether a vector stands before another.
fn stands_before(u: &[u64], v: &[u64]) -> bool
    requires { length u.now ≡ length v.now }
    ensures { IsTrue result ↔ StandsBefore u.now v.now }
{
    for j in 0..u.len() {
        if u[j] != v[j] {
            return u[j] < v[j];
        }
    }
    false
}

/// Whether a vector is at most another in each place.
fn is_at_most(u: &[u64], v: &[u64]) -> bool
    requires { length u.now ≡ length v.now }
    ensures { IsTrue result ↔ IsAtMost u.now v.now }
{
    for j in 0..u.len() {
        if u[j] > v[j] {
            return false;
        }
    }
    true
}

/// Whether the vector of an entry stands after that of the last entry before it, if there is one.
fn comes_after(before: &[Entry], entry: &Entry) -> bool
    requires { AllLong (length entry.now.vector) (vectors_in before.now) }
    ensures { IsTrue result ↔ StandsAfter (vectors_in before.now) entry.now.vector }
{
    if before.is_empty() {
        return true;
    }
    let last = &before[before.len() - 1];
    stands_before(last.vector.numbers(), entry.vector.numbers())
}

/// The first entry whose vector is at most that of a later one.
fn first_cover(before: &[Entry], entry: &Entry) -> Option<usize>
    requires { AllLong (length entry.now.vector) (vectors_in before.now) }
    ensures first { MatchOption result (IsApart (vectors_in before.now) entry.now.vector) (λ k. CoversFirst (vectors_in before.now) entry.now.vector (k + 1)) }
    ensures within { IfSome result (λ k. k < length before.now) }
{
    for k in 0..before.len() {
        let earlier = &before[k];
        if is_at_most(earlier.vector.numbers(), entry.vector.numbers()) {
            return Some(k);
        }
    }
    None
}

/// The fault of an entry, after those before it.
fn entry_fault(spec: &Spec, before: &[Entry], entry: &Entry) -> Option<FrontWhy>
    requires shaped { IsShaped spec.now (as_seen entry.now) }
    requires long { AllLong (length spec.now.objectives) (vectors_in before.now) }
    ensures { MatchOption result (IsFine spec.now (vectors_in before.now) (as_seen entry.now)) (HasFault spec.now (vectors_in before.now) (as_seen entry.now)) }
{
    if let Some(rule) = first_broken(spec, &entry.design) {
        return Some(FrontWhy::Invalid(rule));
    }
    if let Some(j) = first_difference(spec, &entry.design, entry.vector.numbers()) {
        return Some(FrontWhy::VectorDiffers(j));
    }
    if !comes_after(before, entry) {
        return Some(FrontWhy::NotRising);
    }
    match first_cover(before, entry) {
        Some(k) => Some(FrontWhy::CoveredBy(k as u64 + 1)),
        None => None,
    }
}

/// The first fault of a front: that of the lowest entry with one, or else that the front isn't said to be complete.
pub(crate) fn first_fault(spec: &Spec, front: &Front) -> Option<FrontRefused>
    requires { AreShaped spec.now (front_of front.now) }
    ensures claim { IfNone result (IsClaim spec.now (front_of front.now)) }
    ensures fault { IfSome result (IsFirstFault spec.now (front_of front.now)) }
{
    let entries = front.entries.list();
    for i in 0..entries.len() {
        if let Some(why) = entry_fault(spec, &entries[..i], &entries[i]) {
            return Some(FrontRefused {
                entry: i as u64 + 1,
                why,
            });
        }
    }
    if !front.complete {
        return Some(FrontRefused {
            entry: 0,
            why: FrontWhy::Open,
        });
    }
    None
}
