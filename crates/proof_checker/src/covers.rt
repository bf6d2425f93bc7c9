//! A cover: its numbers, and what it is refused for.

ghost use Rattle.std.specs.Prelude.{◌≡◌, ◌<◌, ◌≤◌, ◌^◌, length, map, option_map, IfOk};
ghost use Rattle.std.specs.List.{list_any};
ghost use Rattle.proof_words.specs.Words.{numeral_number};
ghost use Rattle.result_text.specs.Fronts.{front_of};
ghost use Rattle.front_model.specs.Fronts.{vectors_of};
ghost use Rattle.front_model.specs.Judging.{numbers_of, first_above, is_at_most, judge_numbers, judge_cover};
ghost use Rattle.proof_checker.specs.Answers.{GivesList, Leaves, AllLong};

use crate::faults::Halt;
use block_encode::weight_sum;
use front_model::ProofWhy;
use line_words::plain_whole;
use result_text::{Front, Vector};
use spec_graph::Spec;
use std::alloc::{AllocError, Global};

/// The number that a word writes, where it is a numeral.
fn number_of(word: &[u8]) -> Option<u64>
    ensures { result ≡ numeral_number word.now }
{
    match std::str::from_utf8(word) {
        Ok(text) => plain_whole(text).ok(),
        Err(_) => None,
    }
}

/// The numbers that words write, where each is a numeral.
fn numbers_of(alloc: Global, words: &[&[u8]]) -> Result<Option<Vec<u64>>, AllocError>
    ensures { IfOk result (λ o. option_map (λ v. v.items) o ≡ numbers_of (map (λ w. w.now) words.now)) }
{
    let mut numbers = Vec::new(alloc);
    for word in words {
        match number_of(word) {
            None => return Ok(None),
            Some(number) => numbers.push(number)?,
        }
    }
    Ok(Some(numbers))
}

/// The first place at which a number is above its objective's weights, or how many numbers there are.
fn first_above(spec: &Spec, v: &[u64]) -> usize
    requires { length v.now ≡ length spec.now.objectives }
    ensures { result ≡ first_above spec.now v.now }
{
    for j in 0..v.len() {
        if weight_sum(spec, j) < v[j] {
            return j;
        }
    }
    v.len()
}

/// Whether a vector is at most another in each place.
fn is_at_most(u: &[u64], v: &[u64]) -> bool
    requires { length u.now ≡ length v.now }
    ensures { result ≡ is_at_most v.now u.now }
{
    for j in 0..u.len() {
        if u[j] > v[j] {
            return false;
        }
    }
    true
}

/// Whether some vector of the front is at most a cover.
fn has_below(front: &Front, v: &[u64]) -> bool
    requires { AllLong (length v.now) (vectors_of (front_of front.now)) }
    ensures { result ≡ list_any (is_at_most v.now) (vectors_of (front_of front.now)) }
{
    let entries = front.entries.list();
    for entry in entries {
        if is_at_most(entry.vector.numbers(), v) {
            return true;
        }
    }
    false
}

/// What a cover of numbers is refused for.
fn judge(alloc: Global, spec: &Spec, front: &Front, v: &[u64]) -> Result<(), Halt>
    requires { AllLong (length spec.now.objectives) (vectors_of (front_of front.now)) }
    ensures { Leaves (judge_numbers spec.now (vectors_of (front_of front.now)) v.now) v.now result }
{
    if v.len() != spec.objectives() {
        return Err(Halt::Why(ProofWhy::BadStep));
    }
    let above = first_above(spec, v);
    if above < v.len() {
        return Err(Halt::Why(ProofWhy::CoverAboveWeight(above)));
    }
    if !has_below(front, v) {
        let cover = Vector::of(alloc, v)?;
        return Err(Halt::Why(ProofWhy::CoverNotDominated(cover)));
    }
    Ok(())
}

/// The numbers of a cover's words, or what the line is refused for.
pub(crate) fn cover_of(
    alloc: Global,
    spec: &Spec,
    front: &Front,
    words: &[&[u8]],
) -> Result<Vec<u64>, Halt>
    requires { AllLong (length spec.now.objectives) (vectors_of (front_of front.now)) }
    ensures { GivesList (judge_cover spec.now (vectors_of (front_of front.now)) (numbers_of (map (λ w. w.now) words.now))) result }
{
    match numbers_of(alloc, words)? {
        None => Err(Halt::Why(ProofWhy::BadStep)),
        Some(numbers) => {
            match judge(alloc, spec, front, &numbers) {
                Ok(()) => Ok(numbers),
                Err(fault) => Err(fault),
            }
        }
    }
}
