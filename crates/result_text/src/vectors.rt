//! The numbers of a vector's line.

ghost use Rattle.std.specs.Prelude.{◌≡◌, None, map, IfOk, MatchResult};
ghost use Rattle.std.specs.List.{list_any};
ghost use Rattle.line_words.specs.Rules.{first_broken};
ghost use Rattle.line_words.specs.Reads.{Stops};
ghost use Rattle.result_text.specs.Stating.{no_number, too_big, number_in, vector_tests};

use crate::Vector;
use line_words::{NumberFault, Stop, Why, plain_whole};
use spec_graph::Spec;
use std::alloc::{AllocError, Global};

fn is_no_number(word: &str) -> bool
    ensures { result ≡ no_number word.now }
{
    match plain_whole(word) {
        Err(NumberFault::BadNumber) => true,
        _ => false,
    }
}

fn is_too_big(word: &str) -> bool
    ensures { result ≡ too_big word.now }
{
    match plain_whole(word) {
        Err(NumberFault::TooBig) => true,
        _ => false,
    }
}

fn number_in(word: &str) -> u64
    ensures { result ≡ number_in word.now }
{
    match plain_whole(word) {
        Ok(number) => number,
        Err(_) => 0,
    }
}

fn any_no_number(words: &[&str]) -> bool
    ensures { result ≡ list_any (λ w. no_number w.now) words.now }
{
    words.iter().any(|word| is_no_number(word))
}

fn has_no_number(words: &[&str]) -> bool
    ensures { result ≡ list_any no_number (map (λ w. w.now) words.now) }
{
    any_no_number(words)
}

fn any_too_big(words: &[&str]) -> bool
    ensures { result ≡ list_any (λ w. too_big w.now) words.now }
{
    words.iter().any(|word| is_too_big(word))
}

fn has_too_big(words: &[&str]) -> bool
    ensures { result ≡ list_any too_big (map (λ w. w.now) words.now) }
{
    any_too_big(words)
}

fn numbers_in(alloc: Global, words: &[&str]) -> Result<Vec<u64>, AllocError>
    ensures { IfOk result (λ v. v.items ≡ map number_in (map (λ w. w.now) words.now)) }
{
    let mut numbers = Vec::new(alloc);
    for word in words {
        numbers.push(number_in(word))?;
    }
    Ok(numbers)
}

/// The vector that the words after `vector` say, or what the line is refused for.
pub(crate) fn vector_of(alloc: Global, spec: &Spec, words: &[&str]) -> Result<Vector, Stop>
    ensures { MatchResult result
        (λ v. (first_broken (vector_tests spec.now (map (λ w. w.now) words.now)) ≡ None) × (v ≡ map number_in (map (λ w. w.now) words.now)))
        (λ stop. Stops stop (first_broken (vector_tests spec.now (map (λ w. w.now) words.now)))) }
{
    if words.len() != spec.objectives() {
        return Err(Stop::Broken(Why::BadStatement));
    }
    if has_no_number(words) {
        return Err(Stop::Broken(Why::BadNumber));
    }
    if has_too_big(words) {
        return Err(Stop::Broken(Why::TooBig));
    }
    let numbers = numbers_in(alloc, words)?;
    Ok(Vector { numbers })
}
