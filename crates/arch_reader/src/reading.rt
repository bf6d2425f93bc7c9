//! Reads an architecture file, once from left to right.

ghost use Rattle.std.specs.Prelude.{◌≡◌, ◌≤◌, ◌+◌, [], length, Some, None, IfOk, OnOk, IfErr};
ghost use Rattle.line_words.specs.Text.{lines};
ghost use Rattle.line_words.specs.Refused.{fault_at};
ghost use Rattle.line_words.specs.Rules.{first_broken, said};
ghost use Rattle.line_words.specs.Reads.{Reads, Agrees, Stops};
ghost use Rattle.line_words.specs.Limits.{most_file_bytes};
ghost use Rattle.line_words.specs.declared.refusals.FileTag.TheVariants.{Arch};
ghost use Rattle.line_words.specs.declared.refusals.Why.TheVariants.{NoHeader};
ghost use Rattle.arch_reader.specs.Shapes.{plain, form_of};
ghost use Rattle.arch_reader.specs.Tests.{tests};
ghost use Rattle.arch_reader.specs.Arch.{arch_stated, arch_rules, lines_in, AllPass};
ghost use Rattle.arch_reader.specs.Seen.{seen};
ghost use Rattle.arch_reader.specs.Taking.{Begins, Keeps, Takes, TakesLine, TakesAll, StopsLine, IsRefused, broken_by, reading_of};

use crate::file::ArchFile;
use crate::form::Form;
use crate::rules::fault;
use crate::seen::Seen;
use crate::shapes::form_of;
use crate::statement::{ArchLine, Statement};
use file_bricks::{Items, is_headed, words_of};
use line_words::{FileTag, Line, Lines, ReadFault, Refusal, Stop, Why};
use std::alloc::{AllocError, Global};

fn no_header(line: u64) -> ReadFault
    ensures { result ≡ fault_at Arch line (Stop.Broken NoHeader) }
{
    ReadFault::Refused(Refusal {
        file: FileTag::Arch,
        line,
        why: Why::NoHeader,
    })
}

/// Reads the header, or refuses the file there.
fn read_header(alloc: Global, lines: &mut Lines) -> Result<(), ReadFault>
    ensures begins { OnOk result (Begins lines.old lines.new) }
    ensures refused { IfErr result (IsRefused (reading_of lines.old)) }
{
    let header = match lines.next() {
        None => return Err(no_header(lines.end_line())),
        Some(Err(refusal)) => return Err(ReadFault::Refused(refusal.of_file(FileTag::Arch))),
        Some(Ok(line)) => line,
    };
    let words = words_of(alloc, &header)?;
    if is_headed(&words, "arch", "1") {
        Ok(())
    } else {
        Err(no_header(header.number()))
    }
}

/// The statement of a form, where it breaks no rule after what was seen.
fn accepted(seen: &Seen, form: Form) -> Result<Statement, Why>
    ensures fine { OnOk result (first_broken (tests seen.now (Some form)) ≡ None) }
    ensures plain { IfOk result (λ statement. form ≡ plain statement) }
    ensures broken { IfErr result (λ why. first_broken (tests seen.now (Some form)) ≡ Some why) }
{
    match fault(seen, &form) {
        Some(why) => Err(why),
        None => Ok(form.statement),
    }
}

/// The statement of a line's words, after what the statements before it declare.
fn statement_of(alloc: Global, seen: &Seen, words: &[&str]) -> Result<Statement, Stop>
    ensures fine { OnOk result (broken_by seen.now (said words.now) ≡ None) }
    ensures plain { IfOk result (λ statement. form_of (said words.now) ≡ Some (plain statement)) }
    ensures stops { IfErr result (λ stop. Stops stop (broken_by seen.now (said words.now))) }
{
    match form_of(alloc, words)? {
        None => Err(Stop::Broken(Why::BadStatement)),
        Some(form) => match accepted(seen, form) {
            Ok(statement) => Ok(statement),
            Err(why) => Err(Stop::Broken(why)),
        },
    }
}

/// The statements that were read, and what they declare.
#[derive(Drop)]
pub struct Taken {
    /// What the statements declare.
    pub seen: Seen,
    /// The statements, each with the number of its line.
    pub lines: Items<ArchLine>,
}

impl Taken {
    fn none(alloc: Global) -> Taken
        ensures seen { result.seen ≡ seen [] }
        ensures lines { result.lines ≡ [] }
    {
        Taken {
            seen: Seen::none(alloc),
            lines: Items::of(Vec::new(alloc)),
        }
    }

    /// Keeps a statement behind the others.
    fn keep(&mut self, alloc: Global, line: u64, statement: Statement) -> Result<(), AllocError>
        ensures { OnOk result (Keeps self.old self.new line statement) }
    {
        self.seen.add(alloc, &statement)?;
        self.lines.push(ArchLine { line, statement })
    }

    /// Takes the statement of a line that breaks no rule.
    fn take(&mut self, alloc: Global, line: u64, words: &[&str]) -> Result<(), Stop>
        ensures takes { OnOk result (Takes self.old self.new line (said words.now)) }
        ensures stops { IfErr result (λ stop. Stops stop (broken_by self.old.seen (said words.now))) }
    {
        let statement = statement_of(alloc, &self.seen, words)?;
        self.keep(alloc, line, statement)?;
        Ok(())
    }

    /// Takes the statement of a line, or refuses the file there.
    fn take_line(&mut self, alloc: Global, line: &Line) -> Result<(), ReadFault>
        ensures takes { OnOk result (TakesLine self.old self.new line.now) }
        ensures stops { IfErr result (StopsLine self.old.seen line.now) }
    {
        let words = match words_of(alloc, line) {
            Ok(words) => words,
            Err(_) => return Err(ReadFault::NoMemory),
        };
        match self.take(alloc, line.number(), &words) {
            Ok(()) => Ok(()),
            Err(stop) => Err(stop.at_line(FileTag::Arch, line.number())),
        }
    }

    /// The file of these statements.
    fn into_file(self, end_line: u64) -> ArchFile
        requires { AllPass [] self.lines }
        ensures lines { result.lines ≡ self.lines }
        ensures end_line { result.end_line ≡ end_line }
    {
        let Taken { seen: _, lines } = self;
        ArchFile { lines, end_line }
    }
}

/// Takes all statements, or refuses the file at the first line at which a rule is broken.
fn take_all(alloc: Global, lines: &mut Lines, taken: &mut Taken) -> Result<(), ReadFault>
    requires seen { taken.old.seen ≡ seen [] }
    requires lines { taken.old.lines ≡ [] }
    ensures takes { OnOk result (TakesAll lines.old taken.new.lines) }
    ensures count { OnOk result (lines.new.number + length lines.new.lines ≡ lines.old.number + length lines.old.lines) }
    ensures refused { IfErr result (IsRefused (reading_of lines.old)) }
{
    read_header(alloc, lines)?;
    'lines: while let Some(next) = lines.next() {
        let line = match next {
            Ok(line) => line,
            Err(refusal) => return Err(ReadFault::Refused(refusal.of_file(FileTag::Arch))),
        };
        match taken.take_line(alloc, &line) {
            Ok(()) => {}
            Err(fault) => return Err(fault),
        }
    }
    Ok(())
}

fn read_all(alloc: Global, mut lines: Lines) -> Result<ArchFile, ReadFault>
    ensures agrees { Agrees Arch lines_in arch_stated (reading_of lines.entry) result }
    ensures end_line { IfOk result (λ file. file.end_line ≡ lines.entry.number + length lines.entry.lines) }
{
    let mut taken = Taken::none(alloc);
    match take_all(alloc, &mut lines, &mut taken) {
        Ok(()) => Ok(taken.into_file(lines.end_line())),
        Err(fault) => Err(fault),
    }
}

/// Reads an architecture file of at most 16,777,216 bytes.
///
/// A file that is read breaks no rule, and its statements are those that its lines state after the
/// header, in their order. Another one is refused at the lowest line at which a rule is broken,
/// for the lowest rule broken there. What needs the tables, or the names of tasks and messages,
/// isn't tested here.
pub fn read_arch(alloc: Global, bytes: &[u8]) -> Result<ArchFile, ReadFault>
    requires { length bytes.now ≤ most_file_bytes }
    ensures reads { Reads Arch arch_rules lines_in arch_stated (lines bytes.now) result }
    ensures end_line { IfOk result (λ file. file.end_line ≡ 1 + length (lines bytes.now)) }
{
    read_all(alloc, Lines::new(bytes))
}
