//! The lines of a proof file whose bytes come in pieces, handed to the checker one by one.

ghost use Rattle.std.specs.Prelude.{◌≡◌, ◌≤◌, ◌∷◌, ◌++◌, [], length, option_map, IfOk};
ghost use Rattle.std.specs.List.{position_or_len};
ghost use Rattle.line_words.specs.Front.{is_lf};
ghost use Rattle.front_model.specs.Judging.{verdict_of};
ghost use Rattle.check_run.specs.Taking.{CutsFirst, HasNoLf, TakesBytes, left_to};

use front_model::Verdict;
use front_model::laws::{law_of_judging, law_of_taking};
use proof_checker::{Checker, LineFault};
use std::alloc::{AllocError, Global};

/// A checker, and what is held of a line that isn't whole yet.
#[derive(Drop)]
pub(crate) struct ProofLines<'a> {
    pub(crate) checker: Checker<'a>,
    pub(crate) held: Vec<u8>,
}

/// How many bytes stand in front of the first LF.
fn len_before_lf(bytes: &[u8]) -> usize
    ensures value { result ≡ position_or_len is_lf bytes.now }
    ensures within { result ≤ length bytes.now }
{
    bytes.iter().take_while(|byte| **byte != b'\n').count()
}

/// The first line of some bytes without its LF, and what follows this; `None` exactly where no line ends within them.
fn cut_line(bytes: &[u8]) -> Option<(&[u8], &[u8])>
    ensures { CutsFirst bytes.now (option_map (λ cut. (cut.0.now, cut.1.now)) result) }
{
    let len = len_before_lf(bytes);
    if len == bytes.len() {
        return None;
    }
    Some((&bytes[..len], &bytes[len + 1..]))
}

impl<'a> ProofLines<'a> {
    /// A checker before any of its bytes.
    pub(crate) fn of(alloc: Global, checker: Checker<'a>) -> ProofLines<'a>
        ensures checker { result.checker ≡ checker.entry }
        ensures held { result.held.items ≡ [] }
    {
        ProofLines {
            checker,
            held: Vec::new(alloc),
        }
    }

    /// Takes a line whose end, without its LF, follows what is held.
    fn take_line(&mut self, body: &[u8]) -> Result<(), LineFault>
        requires held { HasNoLf self.old.held.items }
        requires body { HasNoLf body.now }
        ensures { TakesBytes self.old self.new (body.now ++ 10 ∷ []) result }
    {
        law_of_judging();
        law_of_taking();
        self.held.extend_from_slice(body)?;
        self.held.push(b'\n')?;
        match self.checker.line(&self.held) {
            Ok(()) => {
                self.held.clear();
                Ok(())
            }
            Err(fault) => Err(fault),
        }
    }

    /// Takes the lines that end within some bytes, and holds what follows the last of them.
    pub(crate) fn take_bytes(&mut self, bytes: &[u8]) -> Result<(), LineFault>
        requires { HasNoLf self.old.held.items }
        ensures { TakesBytes self.old self.new bytes.now result }
    {
        let mut rest = bytes;
        while let Some((body, more)) = cut_line(rest) {
            if let Err(fault) = self.take_line(body) {
                return Err(fault);
            }
            rest = more;
        }
        self.held.extend_from_slice(rest)?;
        Ok(())
    }

    /// What is said at the end of the file, of which the last line may have no LF.
    pub(crate) fn end(self) -> Result<Verdict, AllocError>
        requires { HasNoLf self.held.items }
        ensures { IfOk result (λ verdict. verdict ≡ verdict_of (left_to self.entry [])) }
    {
        let ProofLines { mut checker, held } = self;
        if held.is_empty() {
            return Ok(checker.end());
        }
        match checker.line(&held) {
            Ok(()) => Ok(checker.end()),
            Err(LineFault::Refused(_)) => Ok(checker.end()),
            Err(LineFault::NoMemory) => Err(AllocError),
        }
    }
}
