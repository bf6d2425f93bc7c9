//! Reads a TGFF file, once from left to right.

ghost use Rattle.std.specs.Prelude.{◌≡◌, ◌≤◌, length, OnOk, IfErr};
ghost use Rattle.line_words.specs.Text.{lines};
ghost use Rattle.line_words.specs.Limits.{most_file_bytes};
ghost use Rattle.line_words.specs.Reads.{Reads, Agrees};
ghost use Rattle.line_words.specs.declared.refusals.FileTag.TheVariants as files;
ghost use Rattle.tgff_reader.specs.After.{start};
ghost use Rattle.tgff_reader.specs.Tgff.{tgff_rules, graphs_stated, as_seen};
ghost use Rattle.tgff_reader.specs.Taking.{HasRoom, TakesLine, StopsLine, TakesAll, IsRefused, reading_of};

use crate::file::Tgff;
use crate::state::State;
use crate::taking::take;
use file_bricks::words_of;
use line_words::{FileTag, Line, Lines, ReadFault, Stop, Why};
use std::alloc::Global;

/// Takes a line that is given, or refuses the file there.
fn take_line(alloc: Global, state: &mut State, line: &Line) -> Result<(), ReadFault>
    requires { HasRoom state.old.current state.old.blocks }
    ensures takes { OnOk result (TakesLine state.old state.new line.now) }
    ensures stops { IfErr result (StopsLine state.old line.now) }
{
    let words = match words_of(alloc, line) {
        Ok(words) => words,
        Err(_) => return Err(ReadFault::NoMemory),
    };
    match take(alloc, state, &words) {
        Ok(()) => Ok(()),
        Err(stop) => Err(stop.at_line(FileTag::Tgff, line.number())),
    }
}

/// Takes all lines, or refuses the file at the first line at which a rule is broken.
fn take_all(alloc: Global, lines: &mut Lines, state: &mut State) -> Result<(), ReadFault>
    requires { state.old ≡ start }
    ensures takes { OnOk result (TakesAll lines.old state.new) }
    ensures refused { IfErr result (IsRefused (reading_of lines.old)) }
{
    'lines: while let Some(next) = lines.next() {
        let line = match next {
            Ok(line) => line,
            Err(refusal) => return Err(ReadFault::Refused(refusal.of_file(FileTag::Tgff))),
        };
        match take_line(alloc, state, &line) {
            Ok(()) => {}
            Err(fault) => return Err(fault),
        }
    }
    if state.is_open() {
        return Err(Stop::Broken(Why::Unclosed).at_line(FileTag::Tgff, lines.end_line()));
    }
    Ok(())
}

fn read_all(alloc: Global, mut lines: Lines) -> Result<Tgff, ReadFault>
    ensures { Agrees files.Tgff as_seen graphs_stated (reading_of lines.entry) result }
{
    let mut state = State::start(alloc);
    match take_all(alloc, &mut lines, &mut state) {
        Ok(()) => Ok(state.into_file()),
        Err(fault) => Err(fault),
    }
}

/// Reads a TGFF file of at most 16,777,216 bytes.
///
/// A file that is read breaks no rule, and its graphs and tables are those that its lines state, in
/// their order. Another one is refused at the lowest line at which a rule is broken, for the lowest
/// rule broken there.
pub fn read_tgff(alloc: Global, bytes: &[u8]) -> Result<Tgff, ReadFault>
    requires { length bytes.now ≤ most_file_bytes }
    ensures { Reads files.Tgff tgff_rules as_seen graphs_stated (lines bytes.now) result }
{
    read_all(alloc, Lines::new(bytes))
}
