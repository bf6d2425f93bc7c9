//! A line of a proof: the first one, a derived one or a cover.

ghost use Rattle.std.specs.Prelude.{◌≡◌, ◌<◌, ◌≤◌, ◌+◌, ◌^◌, [], ◌∷◌, length, map, IfOk};
ghost use Rattle.std.specs.Str.{bytes_eq};
ghost use Rattle.std.specs.List.{list_any, position_or_len};
ghost use Rattle.line_words.specs.Front.{is_lf};
ghost use Rattle.spelled_lines.specs.Lines.{lacks_lf, words_of, is_empty};
ghost use Rattle.block_encode.specs.Laws.{variables_to, KnowsBelow};
ghost use Rattle.result_text.specs.Fronts.{front_of};
ghost use Rattle.front_model.specs.Fronts.{vectors_of};
ghost use Rattle.proof_log.specs.Files.{is_misshapen};
ghost use Rattle.front_model.specs.Judging.{is_clash, judge_derivation, after_derived, judge_line, judge_piece, judge_next};
ghost use Rattle.proof_checker.specs.Answers.{AllLong, context_over};
ghost use Rattle.proof_checker.specs.Takings.{given_of, GivesTaken, GivesBlock};

use crate::covers::cover_of;
use crate::derivations::derive;
use crate::faults::Halt;
use block_encode::block;
use front_model::ProofWhy;
use pb_constraints::Constraint;
use result_text::Front;
use spec_graph::Spec;
use spelled_lines::{body_of, lacks_lf};
use std::alloc::{AllocError, Global};

/// What a line gives.
#[derive(Drop)]
pub(crate) enum Taken {
    Header,
    Derived(Constraint),
    Block(Vec<Constraint>),
}

/// The words of a line, each between two spaces or an end.
fn words_of(alloc: Global, piece: &[u8]) -> Result<Vec<&[u8]>, AllocError>
    ensures { IfOk result (λ v. map (λ w. w.now) v.items ≡ words_of piece.now) }
{
    body_of(piece).split(|byte| *byte == b' ').collect(alloc)
}

/// Whether a word is one letter.
fn is_letter(word: &[u8], letter: u8) -> bool
    ensures { result ≡ bytes_eq word.now (letter ∷ []) }
{
    word.len() == 1 && word[0] == letter
}

fn any_empty(words: &[&[u8]]) -> bool
    ensures { result ≡ list_any is_empty (map (λ w. w.now) words.now) }
{
    for word in words {
        if word.is_empty() {
            return true;
        }
    }
    false
}

/// Whether a constraint can't hold.
pub(crate) fn is_clash(c: &Constraint) -> bool
    ensures { result ≡ is_clash c.now }
{
    c.terms().is_empty() && c.degree() > 0
}

/// The block of the next cover.
fn next_block(
    alloc: Global,
    spec: &Spec,
    front: &Front,
    covers: u64,
    words: &[&[u8]],
) -> Result<Vec<Constraint>, Halt>
    requires long { AllLong (length spec.now.objectives) (vectors_of (front_of front.now)) }
    requires few { covers + 1 < 2 ^ 58 }
    ensures { GivesBlock spec.now (vectors_of (front_of front.now)) covers (map (λ w. w.now) words.now) result }
{
    let cover = cover_of(alloc, spec, front, words)?;
    Ok(block(alloc, spec, covers + 1, &cover)?)
}

/// What a derived line gives.
fn next_constraint(
    alloc: Global,
    spec: &Spec,
    given: &[Constraint],
    covers: u64,
    words: &[&[u8]],
) -> Result<Taken, Halt>
    requires few { covers + 1 < 2 ^ 58 }
    requires known { KnowsBelow given.now (variables_to spec.now covers) }
    ensures { GivesTaken (given_of given.now covers) (after_derived (given_of given.now covers) (judge_derivation (context_over given.now) (map (λ w. w.now) words.now))) result }
{
    let known = spec.all_variables() + covers * spec.objectives() as u64;
    match derive(alloc, given, known, words) {
        Ok(constraint) => Ok(Taken::Derived(constraint)),
        Err(fault) => Err(Halt::from(fault)),
    }
}

/// What the words of a line give.
fn judge_line(
    alloc: Global,
    spec: &Spec,
    front: &Front,
    given: &[Constraint],
    covers: u64,
    words: &[&[u8]],
) -> Result<Taken, Halt>
    requires long { AllLong (length spec.now.objectives) (vectors_of (front_of front.now)) }
    requires few { covers + 1 < 2 ^ 58 }
    requires known { KnowsBelow given.now (variables_to spec.now covers) }
    ensures { GivesTaken (given_of given.now covers) (judge_line spec.now (vectors_of (front_of front.now)) (given_of given.now covers) (map (λ w. w.now) words.now)) result }
{
    if words.is_empty() {
        return Err(Halt::Why(ProofWhy::BadStep));
    }
    if is_letter(words[0], b'p') {
        return next_constraint(alloc, spec, given, covers, &words[1..]);
    }
    if is_letter(words[0], b'c') {
        let block = next_block(alloc, spec, front, covers, &words[1..])?;
        return Ok(Taken::Block(block));
    }
    Err(Halt::Why(ProofWhy::BadStep))
}

/// What a line gives that isn't the first.
fn judge_piece(
    alloc: Global,
    spec: &Spec,
    front: &Front,
    given: &[Constraint],
    covers: u64,
    piece: &[u8],
) -> Result<Taken, Halt>
    requires long { AllLong (length spec.now.objectives) (vectors_of (front_of front.now)) }
    requires few { covers + 1 < 2 ^ 58 }
    requires known { KnowsBelow given.now (variables_to spec.now covers) }
    ensures { GivesTaken (given_of given.now covers) (judge_piece spec.now (vectors_of (front_of front.now)) (given_of given.now covers) piece.now) result }
{
    if lacks_lf(piece) {
        return Err(Halt::Why(ProofWhy::BadStep));
    }
    let words = words_of(alloc, piece)?;
    if any_empty(&words) {
        return Err(Halt::Why(ProofWhy::BadStep));
    }
    judge_line(alloc, spec, front, given, covers, &words)
}

/// What the next line gives, after so many.
pub(crate) fn judge_next(
    alloc: Global,
    spec: &Spec,
    front: &Front,
    given: &[Constraint],
    covers: u64,
    lines: u64,
    piece: &[u8],
) -> Result<Taken, Halt>
    requires long { AllLong (length spec.now.objectives) (vectors_of (front_of front.now)) }
    requires few { covers + 1 < 2 ^ 58 }
    requires known { KnowsBelow given.now (variables_to spec.now covers) }
    ensures { GivesTaken (given_of given.now covers) (judge_next spec.now (vectors_of (front_of front.now)) lines (given_of given.now covers) piece.now) result }
{
    if lines > 0 {
        return judge_piece(alloc, spec, front, given, covers, piece);
    }
    if piece == b"proof 1\n".as_slice() {
        Ok(Taken::Header)
    } else {
        Err(Halt::Why(ProofWhy::BadStep))
    }
}
