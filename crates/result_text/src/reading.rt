//! Reads an implementation text line by line, and stops at the first rule that is broken.

ghost use Rattle.std.specs.Prelude.{◌≡◌, ◌++◌, None, [], length, map, MatchResult, IfOk};
ghost use Rattle.line_words.specs.Rules.{first_broken};
ghost use Rattle.line_words.specs.Run.{run};
ghost use Rattle.line_words.specs.Reads.{Reads, Agrees, Stops};
ghost use Rattle.spec_model.specs.Spec.{design_variables};
ghost use Rattle.spelled_lines.specs.Lines.{pieces, words_of};
ghost use Rattle.result_text.specs.Lines.{piece_tests};
ghost use Rattle.result_text.specs.Stating.{starts_with, is_vector};
ghost use Rattle.result_text.specs.Statements.{words_tests, with_line, nothing, result_rules};
ghost use Rattle.result_text.specs.Answers.{EntryValue, IsEntryOf, state_of, as_seen, entry_of};
ghost use Rattle.result_text.specs.Printed.{IsTextOf, GivesBack};

use crate::items::item_of;
use crate::vectors::vector_of;
use crate::{Entry, Vector};
use impl_rules::Design;
use line_words::{FileTag, ReadFault, Stop, Why};
use spec_graph::Spec;
use spelled_lines::{first_piece, has_bad_byte, has_empty, lacks_lf, words_of};
use std::alloc::{AllocError, Global};

/// What the lines so far state: the design, the least variable whose line may follow, and the vector once its line was
/// read.
#[derive(Drop)]
pub(crate) struct Seen {
    pub(crate) design: Design,
    pub(crate) least: u64,
    pub(crate) vector: Option<Vector>,
}

impl Seen {
    pub(crate) fn nothing(alloc: Global, spec: &Spec) -> Result<Seen, AllocError>
        ensures { IfOk result (λ seen. state_of seen ≡ nothing spec.now) }
    {
        Ok(Seen {
            design: Design::empty(alloc, spec)?,
            least: 0,
            vector: None,
        })
    }
}

/// Whether the first word is this one.
pub(crate) fn starts_with(words: &[&str], keyword: &str) -> bool
    ensures { result ≡ starts_with keyword.now (map (λ w. w.now) words.now) }
{
    match words {
        [word, ..] => *word == keyword,
        [] => false,
    }
}

fn is_vector(words: &[&str]) -> bool
    ensures { result ≡ is_vector (map (λ w. w.now) words.now) }
{
    starts_with(words, "vector")
}

/// Takes the words of a line, or says what they are refused for.
pub(crate) fn take_words(
    alloc: Global,
    spec: &Spec,
    seen: &mut Seen,
    words: &[&str],
) -> Result<(), Stop>
    requires { length seen.old.design ≡ design_variables spec.now }
    ensures { let ws = map (λ w. w.now) words.now in
        MatchResult result
        (λ _. (first_broken (words_tests spec.now (state_of seen.old) ws) ≡ None) × (state_of seen.new ≡ with_line spec.now (state_of seen.old) ws))
        (λ stop. Stops stop (first_broken (words_tests spec.now (state_of seen.old) ws))) }
{
    spec.facts();
    if seen.vector.is_some() || has_empty(words) {
        return Err(Stop::Broken(Why::BadStatement));
    }
    if is_vector(words) {
        seen.vector = Some(vector_of(alloc, spec, &words[1..])?);
        return Ok(());
    }
    let variable = match item_of(spec, words) {
        Ok(variable) => variable,
        Err(why) => return Err(Stop::Broken(why)),
    };
    if variable < seen.least {
        return Err(Stop::Broken(Why::NotInOrder));
    }
    seen.design.set(variable, true);
    seen.least = variable + 1;
    Ok(())
}

/// Takes a line, or says what it is refused for.
fn take_piece(alloc: Global, spec: &Spec, seen: &mut Seen, piece: &[u8]) -> Result<(), Stop>
    requires { length seen.old.design ≡ design_variables spec.now }
    ensures { let tests = piece_tests piece.now ++ words_tests spec.now (state_of seen.old) (words_of piece.now) in
        MatchResult result
        (λ _. (first_broken tests ≡ None) × (state_of seen.new ≡ with_line spec.now (state_of seen.old) (words_of piece.now)))
        (λ stop. Stops stop (first_broken tests)) }
{
    if has_bad_byte(piece) {
        return Err(Stop::Broken(Why::BadByte));
    }
    if lacks_lf(piece) {
        return Err(Stop::Broken(Why::BadStatement));
    }
    let words = words_of(alloc, piece)?;
    take_words(alloc, spec, seen, &words)
}

/// What the lines of a whole text state, or that the vector is missing.
fn entry_of(seen: Seen, end_line: u64) -> Result<Entry, ReadFault>
    ensures { IsEntryOf (state_of seen) end_line result }
{
    let Seen { design, vector, .. } = seen;
    match vector {
        Some(vector) => Ok(Entry { design, vector }),
        None => Err(Stop::Broken(Why::Unclosed).at_line(FileTag::Front, end_line)),
    }
}

fn read_all(alloc: Global, spec: &Spec, bytes: &[u8]) -> Result<Entry, ReadFault>
    ensures { Agrees FileTag.Front as_seen (entry_of spec.now) (run (result_rules spec.now) 1 [] (pieces bytes.now)) result }
{
    let mut seen = Seen::nothing(alloc, spec)?;
    let mut rest = bytes;
    let mut number = 1;
    while !rest.is_empty() {
        let (piece, more) = first_piece(rest);
        if let Err(stop) = take_piece(alloc, spec, &mut seen, piece) {
            return Err(stop.at_line(FileTag::Front, number));
        }
        rest = more;
        number += 1;
    }
    entry_of(seen, number)
}

/// The design and the vector that a text states, or the text's least refusal.
///
/// A line is `bind TASK RESOURCE OPTION`, `use MESSAGE LINK TAIL HEAD`, `alloc RESOURCE`, `wire LINK`, or last `vector`
/// with a number for each objective, in the one spelling, else `BadByte` or `BadStatement`. A name or an option's
/// number that isn't there is `UnknownName`, an option or arc that isn't the named one `WrongBinding`, a line whose
/// variable isn't after the one before `NotInOrder`, and a text without its vector `Unclosed` at its end line. Whether
/// the design is valid isn't asked.
///
/// What is read is exactly what `print_design` writes, and it is read as what was printed.
pub fn read_implementation(alloc: Global, spec: &Spec, bytes: &[u8]) -> Result<Entry, ReadFault>
    ensures reads { Reads FileTag.Front (result_rules spec.now) as_seen (entry_of spec.now) (pieces bytes.now) result }
    ensures printed { IfOk result (λ e. IsTextOf spec.now bytes.now (as_seen e)) }
    ensures back { (e : EntryValue) → IsTextOf spec.now bytes.now e → GivesBack e result }
{
    spec.facts();
    spec.facts_of_names();
    read_all(alloc, spec, bytes)
}
