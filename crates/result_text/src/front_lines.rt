//! Takes the lines of a front text, one by one.

ghost use Rattle.std.specs.Prelude.{◌≡◌, ◌<◌, ◌+◌, ◌^◌, ◌∷◌, ◌++◌, [], None, false, length, map, MatchResult, IfOk, OnOk};
ghost use Rattle.std.specs.List.{list_any};
ghost use Rattle.line_words.specs.Rules.{first_broken};
ghost use Rattle.line_words.specs.Reads.{Stops};
ghost use Rattle.line_words.specs.declared.refusals.Why.TheVariants.{BadStatement};
ghost use Rattle.spec_model.specs.Spec.{design_variables};
ghost use Rattle.spelled_lines.specs.Lines.{is_bad, words_of};
ghost use Rattle.result_text.specs.Answers.{state_of};
ghost use Rattle.result_text.specs.FrontLines.{front_nothing, is_loose, header_tests, objectives_tests, number_tests, last_tests, between_tests, byte_tests, tests_in, front_tests, next_number, at_place, after_words, after_between, next_in, front_with_line};
ghost use Rattle.result_text.specs.FrontAnswers.{front_state};
ghost use Rattle.result_text.specs.declared.places.Place.TheVariants.{Objectives, Between, Inside};

use crate::Entry;
use crate::front_printing::objectives_line;
use crate::places::Place;
use crate::reading::{Seen, starts_with, take_words};
use line_words::{NumberFault, Stop, Why, plain_whole};
use spec_graph::Spec;
use spelled_lines::{body_of, has_bad_byte, has_empty, lacks_lf, words_of};
use std::alloc::{AllocError, Global};

/// What the lines so far state: where the next one stands, the entries that are done, what was read within an entry, and
/// whether the front is said to be whole.
#[derive(Drop)]
pub(crate) struct FrontSeen {
    pub(crate) place: Place,
    pub(crate) entries: Vec<Entry>,
    pub(crate) current: Seen,
    pub(crate) complete: bool,
}

impl FrontSeen {
    pub(crate) fn nothing(alloc: Global, spec: &Spec) -> Result<FrontSeen, AllocError>
        ensures { IfOk result (λ seen. front_state seen ≡ front_nothing spec.now) }
    {
        Ok(FrontSeen {
            place: Place::Header,
            entries: Vec::new(alloc),
            current: Seen::nothing(alloc, spec)?,
            complete: false,
        })
    }
}

/// What the first line is refused for.
fn header_fault(piece: &[u8]) -> Option<Why>
    ensures { result ≡ first_broken (header_tests piece.now) }
{
    if body_of(piece) != b"front 1".as_slice() {
        return Some(Why::NoHeader);
    }
    if lacks_lf(piece) {
        return Some(Why::BadStatement);
    }
    None
}

/// Whether the line of the objectives is that of the specification, or what it is refused for.
fn check_objectives(alloc: Global, spec: &Spec, piece: &[u8]) -> Result<(), Stop>
    requires { list_any is_bad piece.now ≡ false }
    ensures { MatchResult result
        (λ _. first_broken (objectives_tests spec.now piece.now) ≡ None)
        (λ stop. Stops stop (first_broken (objectives_tests spec.now piece.now))) }
{
    if lacks_lf(piece) {
        return Err(Stop::Broken(Why::BadStatement));
    }
    let words = words_of(alloc, piece)?;
    if has_empty(&words) {
        return Err(Stop::Broken(Why::BadStatement));
    }
    if !starts_with(&words, "objectives") {
        return Err(Stop::Broken(Why::BadStatement));
    }
    let line = objectives_line(alloc, spec)?;
    if piece != line.as_slice() {
        return Err(Stop::Broken(Why::UnknownName));
    }
    Ok(())
}

/// What the number of an entry is refused for.
fn number_fault(word: &str, next: u64) -> Option<Why>
    ensures { result ≡ first_broken (number_tests next word.now) }
{
    match plain_whole(word) {
        Err(NumberFault::BadNumber) => Some(Why::BadNumber),
        Err(NumberFault::TooBig) => Some(Why::TooBig),
        Ok(number) => {
            if number == next {
                None
            } else {
                Some(Why::NotInOrder)
            }
        }
    }
}

/// What a line of one word between entries is refused for.
fn last_fault(word: &str) -> Option<Why>
    ensures { result ≡ first_broken (last_tests word.now) }
{
    if word == "complete" || word == "open" {
        None
    } else {
        Some(Why::BadStatement)
    }
}

/// What a line of two words between entries is refused for.
fn entry_fault(keyword: &str, number: &str, next: u64) -> Option<Why>
    ensures { result ≡ first_broken (between_tests next (keyword.now ∷ number.now ∷ [])) }
{
    if keyword == "entry" {
        return number_fault(number, next);
    }
    Some(Why::BadStatement)
}

/// What the words of a line between entries are refused for.
#[tactic(auto, using(crate::proofs::FrontGoing::between_other, std::proofs::lemmas::Grind::common_steps))]
fn between_fault(words: &[&str], next: u64) -> Option<Why>
    ensures { result ≡ first_broken (between_tests next (map (λ w. w.now) words.now)) }
{
    match words {
        [word] => last_fault(word),
        [keyword, number] => entry_fault(keyword, number, next),
        _ => Some(Why::BadStatement),
    }
}

/// Begins an entry, or ends the front.
fn begin_or_end(seen: &mut FrontSeen, words: &[&str])
    ensures { front_state seen.new ≡ after_between (front_state seen.old) (map (λ w. w.now) words.now) }
{
    if starts_with(words, "entry") {
        seen.place = Place::Inside;
        return;
    }
    seen.complete = starts_with(words, "complete");
    seen.place = Place::Closed;
}

/// Takes a line between entries, or says what it is refused for.
fn take_between(alloc: Global, seen: &mut FrontSeen, piece: &[u8]) -> Result<(), Stop>
    requires { list_any is_bad piece.now ≡ false }
    ensures { let tests = (BadStatement, is_loose piece.now) ∷ between_tests (next_number (front_state seen.old)) (words_of piece.now) in
        MatchResult result
        (λ _. (first_broken tests ≡ None) × (front_state seen.new ≡ after_between (front_state seen.old) (words_of piece.now)))
        (λ stop. Stops stop (first_broken tests)) }
{
    if lacks_lf(piece) {
        return Err(Stop::Broken(Why::BadStatement));
    }
    let words = words_of(alloc, piece)?;
    if has_empty(&words) {
        return Err(Stop::Broken(Why::BadStatement));
    }
    if let Some(why) = between_fault(&words, seen.entries.len() as u64 + 1) {
        return Err(Stop::Broken(why));
    }
    begin_or_end(seen, &words);
    Ok(())
}

/// Ends an entry whose vector was read.
fn close_entry(alloc: Global, spec: &Spec, seen: &mut FrontSeen) -> Result<(), AllocError>
    ensures { OnOk result (front_state seen.new ≡ after_words spec.now (front_state seen.old) (state_of seen.old.current)) }
{
    if seen.current.vector.is_none() {
        return Ok(());
    }
    let fresh = Seen::nothing(alloc, spec)?;
    let Seen { design, vector, .. } = std::mem::replace(&mut seen.current, fresh);
    let Some(vector) = vector else {
        return Ok(());
    };
    seen.entries.push(Entry { design, vector })?;
    seen.place = Place::Between;
    Ok(())
}

/// Takes a line within an entry, or says what it is refused for.
fn take_inside(alloc: Global, spec: &Spec, seen: &mut FrontSeen, piece: &[u8]) -> Result<(), Stop>
    requires good { list_any is_bad piece.now ≡ false }
    requires bits { length seen.old.current.design ≡ design_variables spec.now }
    ensures { let tests = tests_in spec.now (front_state seen.old) piece.now Inside in
        MatchResult result
        (λ _. (first_broken tests ≡ None) × (front_state seen.new ≡ next_in spec.now (front_state seen.old) (words_of piece.now) Inside))
        (λ stop. Stops stop (first_broken tests)) }
{
    if lacks_lf(piece) {
        return Err(Stop::Broken(Why::BadStatement));
    }
    let words = words_of(alloc, piece)?;
    take_words(alloc, spec, &mut seen.current, &words)?;
    close_entry(alloc, spec, seen)?;
    Ok(())
}

/// Takes the first line, or says what it is refused for.
fn take_header(seen: &mut FrontSeen, piece: &[u8]) -> Result<(), Stop>
    ensures { MatchResult result
        (λ _. (first_broken (header_tests piece.now) ≡ None) × (front_state seen.new ≡ at_place Objectives (front_state seen.old)))
        (λ stop. Stops stop (first_broken (header_tests piece.now))) }
{
    if let Some(why) = header_fault(piece) {
        return Err(Stop::Broken(why));
    }
    seen.place = Place::Objectives;
    Ok(())
}

/// Takes the line of the objectives, or says what it is refused for.
fn take_objectives(
    alloc: Global,
    spec: &Spec,
    seen: &mut FrontSeen,
    piece: &[u8],
) -> Result<(), Stop>
    requires { list_any is_bad piece.now ≡ false }
    ensures { let tests = objectives_tests spec.now piece.now in
        MatchResult result
        (λ _. (first_broken tests ≡ None) × (front_state seen.new ≡ at_place Between (front_state seen.old)))
        (λ stop. Stops stop (first_broken tests)) }
{
    check_objectives(alloc, spec, piece)?;
    seen.place = Place::Between;
    Ok(())
}

/// Takes a line by its place, or says what it is refused for.
fn take_in_place(alloc: Global, spec: &Spec, seen: &mut FrontSeen, piece: &[u8]) -> Result<(), Stop>
    requires good { list_any is_bad piece.now ≡ false }
    requires bits { length seen.old.current.design ≡ design_variables spec.now }
    ensures { let tests = front_tests spec.now (front_state seen.old) piece.now in
        MatchResult result
        (λ _. (first_broken tests ≡ None) × (front_state seen.new ≡ front_with_line spec.now (front_state seen.old) piece.now))
        (λ stop. Stops stop (first_broken tests)) }
{
    match seen.place {
        Place::Header => take_header(seen, piece),
        Place::Objectives => take_objectives(alloc, spec, seen, piece),
        Place::Between => take_between(alloc, seen, piece),
        Place::Inside => take_inside(alloc, spec, seen, piece),
        Place::Closed => Err(Stop::Broken(Why::BadStatement)),
    }
}

/// Takes a line, or says what it is refused for.
pub(crate) fn take_line(
    alloc: Global,
    spec: &Spec,
    seen: &mut FrontSeen,
    piece: &[u8],
) -> Result<(), Stop>
    requires { length seen.old.current.design ≡ design_variables spec.now }
    ensures { let tests = byte_tests piece.now ++ front_tests spec.now (front_state seen.old) piece.now in
        MatchResult result
        (λ _. (first_broken tests ≡ None) × (front_state seen.new ≡ front_with_line spec.now (front_state seen.old) piece.now))
        (λ stop. Stops stop (first_broken tests)) }
{
    if has_bad_byte(piece) {
        return Err(Stop::Broken(Why::BadByte));
    }
    take_in_place(alloc, spec, seen, piece)
}
