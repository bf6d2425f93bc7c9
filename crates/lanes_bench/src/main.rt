//! Looks for the first vector that is at most another, round after round: by `Columns`, or by a plain loop over vectors that
//! are kept one by one. The program of `bench/lanes`.
//!
//! The only such vector is the last one, so each round compares all of them. What is said are the places that were found,
//! added up, which both ways say alike.
#![tactic(auto)]

ghost use Rattle.std.specs.Prelude.{◌≡◌, ◌<◌, length, vec_len, IfOk};

use dominance_lanes::Columns;
use std::alloc::{AllocError, Global};
use std::env;
use std::process::ExitCode;
use std::rt::Env;

/// What is asked for: so many vectors, each of so many numbers, compared so often.
#[derive(Drop)]
struct Task {
    width: usize,
    len: usize,
    rounds: u64,
}

/// A number from 1 to 1000, in no order.
fn number(place: u64, column: u64) -> u64 {
    place
        .wrapping_mul(2_654_435_761)
        .wrapping_add(column.wrapping_mul(40_503))
        % 1000
        + 1
}

/// The vector at a place, of which each number is at least 1, or the last one, of zeros.
fn vector(alloc: Global, place: usize, task: &Task) -> Result<Vec<u64>, AllocError>
    ensures { IfOk result (λ v. vec_len v ≡ task.now.width) }
{
    let mut numbers = Vec::new(alloc);
    for column in 0..task.width {
        let is_last = place.checked_add(1) == Some(task.len);
        numbers.push(if is_last {
            0
        } else {
            number(place as u64, column as u64)
        })?;
    }
    Ok(numbers)
}

/// Changes what is compared with for a round: its last number stays 0, so that only a vector that has a 0 there too is at
/// most it.
fn ask(numbers: &mut [u64], round: u64) {
    let last = numbers.len().saturating_sub(1);
    for column in 0..last {
        numbers[column] = number(round, column as u64);
    }
}

/// A vector of zeros.
fn zeros(alloc: Global, width: usize) -> Result<Vec<u64>, AllocError>
    ensures { IfOk result (λ v. vec_len v ≡ width) }
{
    let mut numbers = Vec::new(alloc);
    for _ in 0..width {
        numbers.push(0)?;
    }
    Ok(numbers)
}

/// The places that are found by `Columns`, added up.
fn found_by_lanes(alloc: Global, task: &Task) -> Result<u64, AllocError> {
    let mut columns = Columns::new(alloc, task.width);
    for place in 0..task.len {
        columns.push(&vector(alloc, place, task)?)?;
    }
    let mut asked = zeros(alloc, task.width)?;
    let mut total: u64 = 0;
    for round in 0..task.rounds {
        ask(&mut asked, round);
        if let Some(place) = columns.first_below(&asked) {
            total = total.wrapping_add(place as u64);
        }
    }
    Ok(total)
}

/// Whether a vector is at most another in each number.
fn is_at_most(first: &[u64], second: &[u64]) -> bool {
    for (number, bound) in first.iter().zip(second) {
        if number > bound {
            return false;
        }
    }
    true
}

/// The first vector that is at most another.
fn first_below(vectors: &[Vec<u64>], asked: &[u64]) -> Option<usize> {
    for (place, vector) in vectors.iter().enumerate() {
        if is_at_most(vector, asked) {
            return Some(place);
        }
    }
    None
}

/// The places that are found by a plain loop, added up.
fn found_one_by_one(alloc: Global, task: &Task) -> Result<u64, AllocError> {
    let mut vectors = Vec::new(alloc);
    for place in 0..task.len {
        vectors.push(vector(alloc, place, task)?)?;
    }
    let mut asked = zeros(alloc, task.width)?;
    let mut total: u64 = 0;
    for round in 0..task.rounds {
        ask(&mut asked, round);
        if let Some(place) = first_below(&vectors, &asked) {
            total = total.wrapping_add(place as u64);
        }
    }
    Ok(total)
}

/// What the words `WAY WIDTH LENGTH ROUNDS` ask for, where WAY is `lanes` or `plain`; `None` where they ask for nothing, or
/// memory is wanted.
fn answer(alloc: Global, words: &[String]) -> Option<u64> {
    let [way, width, len, rounds] = words else {
        return None;
    };
    let task = Task {
        width: width.parse().ok()?,
        len: len.parse().ok()?,
        rounds: rounds.parse().ok()?,
    };
    match way.as_str() {
        "lanes" => found_by_lanes(alloc, &task).ok(),
        "plain" => found_one_by_one(alloc, &task).ok(),
        _ => None,
    }
}

/// The words of the command line after the program's name.
fn words(rt: &(impl Env + AllocGlobal)) -> Option<Vec<String>> {
    let Ok(arguments) = env::args(rt) else {
        return None;
    };
    let mut words = Vec::new(rt.alloc());
    for word in arguments.skip(1) {
        if words.push(word).is_err() {
            return None;
        }
    }
    Some(words)
}

fn main(rt: HostRuntime) -> ExitCode {
    let Some(words) = words(&rt) else {
        return ExitCode::from(1);
    };
    let Some(total) = answer(rt.alloc(), &words) else {
        return ExitCode::from(1);
    };
    match println!(rt; "{total}") {
        Ok(()) => ExitCode::from(0),
        Err(_) => ExitCode::from(1),
    }
}
