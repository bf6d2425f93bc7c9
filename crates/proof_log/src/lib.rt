//! The log of a proof: the derived lines and the covers that a search writes, in order, and the ids that they give.
//!
//! A log stands over a frame: base constraints, whose ids lie below the log's first one, and a block of constraints for
//! each cover. It holds no constraint itself. `pb_rules` says which constraints a frame and the lines give together,
//! and where a line is legal; the log only counts their ids. Each derived line gives one constraint, and each cover one
//! more than it has numbers, under the ids that follow.
#![tactic(auto)]

ghost use Rattle.std.specs.Prelude.{ℕ, List, true, ◌≡◌, ◌<◌, ◌≤◌, ◌+◌, ◌^◌, ◌++◌, [], ◌∷◌, length, IfOk, OnOk, OnErr, Ok, Some};
ghost use Rattle.std.specs.List.{list_all};
ghost use Rattle.pb_rules.specs.declared.Op.{Op};
ghost use Rattle.pb_rules.specs.Linear.{Linear, AreAmong};
ghost use Rattle.pb_rules.specs.Clauses.{IsClause};
ghost use Rattle.pb_rules.specs.Operations.{line_gives, small_number};
ghost use Rattle.pb_rules.specs.Honest.{IsUnabsorbed};
ghost use Rattle.pb_rules.specs.Frames.{Line, derived, cover, derived_count, Frame, IsFrame, FitsFrom, Given, context_of, given_from, given_by, derived_from, blocks_by};
ghost use Rattle.proof_log.specs.Log.{LogValue, next_id};
ghost use Rattle.proof_words.specs.Lines.{line_text};
ghost use Rattle.proof_log.specs.HonestLog.{AreHonestLines, EndsASolve, AreHonestSolves};
ghost use Rattle.proof_log.specs.Text.{line_at, TextBegins, TextGoesOn};
ghost use Rattle.proof_log.specs.Files.{ReadExactly, LegalReadBack, HonestCarries, ShownCarries};

pub use pb_rules::Op;
use proof_words::{put_cover, put_derivation};
use std::alloc::{AllocError, Global};
use std::marker::Model;

/// The greatest id that a line may give.
const LAST_ID: u64 = (1 << 63) - 1;

/// A line as the log keeps it.
#[derive(Drop, Debug)]
enum Step {
    Derived(Vec<Op>),
    Cover(Vec<u64>),
}

/// The lines of a proof. A contract sees the first id that they give, and the lines.
#[derive(Drop, Debug)]
pub struct Log {
    first: u64,
    next: u64,
    learned: u64,
    steps: Vec<Step>,
}

impl Model for Log {
    ghost use Rattle.proof_log.specs.Log.{LogValue, IsLog, lines_of};

    ghost Value = { LogValue };

    ghost view = { λ l. record { first = l.first; lines = lines_of l.steps.items } };

    ghost invariant = { λ l. IsLog l.first l.next l.learned l.steps.items };
}

/// In a frame that fits a log and in which its lines are legal, the next line's first constraint stands right behind
/// those that are given.
pub fn law_of_next_id()
    ensures { (f : Frame) (log : LogValue) (g : Given) → IsFrame f → FitsFrom f log.first → given_by f log.lines ≡ Some g → next_id log ≡ length g.constraints + 1 }
{}

/// Honest lines: no lines are honest; one derived line more, which gives a clause that the base and the clauses so far do
/// not absorb, leaves lines honest; and what is honest over a list is honest over a part of it.
pub fn law_of_honest()
    ensures none { (f : Frame) (g : Given) (base : List Linear) → AreHonestLines f g base [] }
    ensures one_more { (f : Frame) (g h : Given) (base : List Linear) (ls : List Line) (ops : List Op) (c : Linear) → AreHonestLines f g base ls → given_from f g ls ≡ Some h → line_gives (context_of h) ops ≡ Ok c → IsClause c → IsUnabsorbed (base ++ derived_from f g ls) c → AreHonestLines f g base (ls ++ derived ops ∷ []) }
    ensures part { (f : Frame) (g : Given) (cs ds : List Linear) (ls : List Line) → AreAmong cs ds → AreHonestLines f g ds ls → AreHonestLines f g cs ls }
{}

/// The solves of a log: no lines are honest solves, and they stay so by a cover of small numbers, and where a solve begins
/// by lines that are honest over the base and the blocks of the covers before.
pub fn law_of_solves()
    ensures begins { (f : Frame) → AreHonestSolves f [] }
    ensures cover { (f : Frame) (ls : List Line) (v : List ℕ) → list_all small_number v ≡ true → AreHonestSolves f ls → AreHonestSolves f (ls ++ cover v ∷ []) }
    ensures solve { (f : Frame) (ls new : List Line) (before : Given) → AreHonestSolves f ls → EndsASolve ls → given_by f ls ≡ Some before → AreHonestLines f before (f.base ++ blocks_by f ls) new → AreHonestSolves f (ls ++ new) }
{}

/// The text of a proof file is its first line and the texts of the log's lines, one after another.
pub fn law_of_text()
    ensures begins { TextBegins }
    ensures goes_on { TextGoesOn }
{}

/// A line has one text, and the text of a legal line is read as that line. So a log's lines are those of the file that
/// it becomes: the file is honest where the log is, and shows what the log shows.
pub fn law_of_files()
    ensures read { ReadExactly }
    ensures legal { LegalReadBack }
    ensures honest { HonestCarries }
    ensures shown { ShownCarries }
{}

impl Log {
    /// A log without lines over the constraints below an id.
    pub fn new(alloc: Global, first_id: u64) -> Log
        requires from_one { 1 ≤ first_id }
        requires small { first_id < 2 ^ 62 }
        ensures { result ≡ record { first = first_id; lines = [] } }
    {
        Log {
            first: first_id,
            next: first_id,
            learned: 0,
            steps: Vec::new(alloc),
        }
    }

    /// Adds a derived line, and answers the id that it gives. It is refused for want of memory, and where no id below
    /// 2^63 would be left for the next line; then the log is as before.
    pub fn derive(&mut self, ops: &[Op]) -> Result<u64, AllocError>
        ensures id { IfOk result (λ id. id ≡ next_id self.old) }
        ensures in_range { IfOk result (λ id. id < 2 ^ 63) }
        ensures ok { OnOk result (self.new ≡ record self.old { lines = self.old.lines ++ derived ops.now ∷ [] }) }
        ensures err { OnErr result (self.new ≡ self.old) }
    {
        let id = self.next;
        if id == LAST_ID {
            return Err(AllocError);
        }
        let ops = Vec::from_slice(*self.steps.allocator(), ops)?;
        self.steps.push(Step::Derived(ops))?;
        self.next = id + 1;
        self.learned += 1;
        Ok(id)
    }

    /// Adds a cover, and answers the first id of its block, which has one constraint more than the cover has numbers. All
    /// ids of the block are below 2^63. It is refused for want of memory, and where no id below 2^63 would be left for the
    /// next line; then the log is as before.
    pub fn cover(&mut self, v: &[u64]) -> Result<u64, AllocError>
        ensures id { IfOk result (λ id. id ≡ next_id self.old) }
        ensures in_range { IfOk result (λ id. id < 2 ^ 63) }
        ensures ok { OnOk result (self.new ≡ record self.old { lines = self.old.lines ++ cover v.now ∷ [] }) }
        ensures room { OnOk result (next_id self.new < 2 ^ 63) }
        ensures err { OnErr result (self.new ≡ self.old) }
    {
        let id = self.next;
        let numbers = v.len() as u64;
        if numbers >= LAST_ID - id {
            return Err(AllocError);
        }
        let v = Vec::from_slice(*self.steps.allocator(), v)?;
        self.steps.push(Step::Cover(v))?;
        self.next = id + (numbers + 1);
        Ok(id)
    }

    /// How many derived lines there are, always fewer than 2^63.
    pub fn learned(&self) -> u64
        ensures value { result ≡ derived_count self.now.lines }
        ensures small { result < 2 ^ 63 }
    {
        self.learned
    }

    /// How many lines there are.
    pub fn steps(&self) -> usize
        ensures { result ≡ length self.now.lines }
    {
        self.steps.len()
    }

    /// Appends the text of the line at place `i`, from 0, with its LF. It is refused only for want of memory; then `out` is
    /// as before.
    pub fn step_text(&self, alloc: Global, i: usize, out: &mut Vec<u8>) -> Result<(), AllocError>
        requires { i < length self.now.lines }
        ensures ok { OnOk result (out.new.items ≡ out.old.items ++ line_text (line_at self.now.lines i)) }
        ensures err { OnErr result (out.new.items ≡ out.old.items) }
    {
        match &self.steps[i] {
            Step::Derived(ops) => put_derivation(alloc, out, ops),
            Step::Cover(v) => put_cover(alloc, out, v),
        }
    }
}
