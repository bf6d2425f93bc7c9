//! Reads a front text line by line, and stops at the first rule that is broken.

ghost use Rattle.std.specs.Prelude.{◌≡◌, ◌<◌, ◌^◌, [], length, IfOk};
ghost use Rattle.line_words.specs.Rules.{first_broken};
ghost use Rattle.line_words.specs.Run.{run};
ghost use Rattle.line_words.specs.Reads.{Reads, Agrees};
ghost use Rattle.spelled_lines.specs.Lines.{pieces};
ghost use Rattle.result_text.specs.Fronts.{FrontValue, IsFrontText, front_of};
ghost use Rattle.result_text.specs.FrontLines.{end_tests_in, front_rules, front_in};
ghost use Rattle.result_text.specs.FrontAnswers.{GivesFront, IsFrontAtEnd, front_state};

use crate::front_lines::{FrontSeen, take_line};
use crate::places::Place;
use crate::{Entries, Front};
use line_words::{FileTag, ReadFault, Stop, Why};
use spec_graph::Spec;
use spelled_lines::first_piece;
use std::alloc::Global;

/// What the end of a text is refused for.
fn end_fault(place: Place) -> Option<Why>
    ensures { result ≡ first_broken (end_tests_in place) }
{
    match place {
        Place::Closed => None,
        Place::Header => Some(Why::NoHeader),
        _ => Some(Why::Unclosed),
    }
}

/// What the lines of a whole text state, or what its end is refused for.
fn front_at_end(seen: FrontSeen, end_line: u64) -> Result<Front, ReadFault>
    ensures { IsFrontAtEnd (front_state seen) end_line result }
{
    if let Some(why) = end_fault(seen.place) {
        return Err(Stop::Broken(why).at_line(FileTag::Front, end_line));
    }
    Ok(Front {
        entries: Entries::of(seen.entries),
        complete: seen.complete,
    })
}

/// A text in memory has fewer than 2^63 bytes.
fn is_short(bytes: &[u8])
    ensures { length bytes.now < 2 ^ 63 }
{
    let _ = bytes.len();
}

fn read_all(alloc: Global, spec: &Spec, bytes: &[u8]) -> Result<Front, ReadFault>
    ensures { Agrees FileTag.Front front_of (front_in spec.now) (run (front_rules spec.now) 1 [] (pieces bytes.now)) result }
{
    let mut seen = FrontSeen::nothing(alloc, spec)?;
    let mut rest = bytes;
    let mut number = 1;
    while !rest.is_empty() {
        let (piece, more) = first_piece(rest);
        if let Err(stop) = take_line(alloc, spec, &mut seen, piece) {
            return Err(stop.at_line(FileTag::Front, number));
        }
        rest = more;
        number += 1;
    }
    front_at_end(seen, number)
}

/// The front that a text states, or the text's least refusal.
///
/// The text is `front 1` (else `NoHeader`), `objectives` and the specification's names in order (else `UnknownName`),
/// for each entry `entry I` with I from 1 (a word that is no number is `BadNumber`, another number `NotInOrder`) and its
/// lines, as `read_implementation` takes them, and last `complete` or `open`. A text that ends before is `Unclosed` at
/// its end line, a line after it and any other deviation `BadStatement`. There is no limit on a line or a text, and
/// whether the entries are valid, and a front, isn't asked.
///
/// What is read is exactly what `print_front` writes, and it is read as what was printed.
pub fn read_front(alloc: Global, spec: &Spec, bytes: &[u8]) -> Result<Front, ReadFault>
    ensures reads { Reads FileTag.Front (front_rules spec.now) front_of (front_in spec.now) (pieces bytes.now) result }
    ensures printed { IfOk result (λ front. IsFrontText spec.now bytes.now (front_of front)) }
    ensures back { (front : FrontValue) → IsFrontText spec.now bytes.now front → GivesFront front result }
{
    spec.facts();
    spec.facts_of_names();
    is_short(bytes);
    read_all(alloc, spec, bytes)
}
