//! What the definitions imply, as functions that do nothing: how a trail's word bounds the conflicts, and which frames
//! agree with a solver after each of its calls.

ghost use Rattle.std.specs.Prelude.{ℕ, Bool, List, Some, true, false, ◌≡◌, ◌+◌, ◌<◌, ◌≤◌, ◌^◌, ◌++◌, ◌∷◌, [], length};
ghost use Rattle.std.specs.List.{list_all};
ghost use Rattle.pb_rules.specs.Linear.{Linear};
ghost use Rattle.pb_rules.specs.Operations.{small_number};
ghost use Rattle.pb_rules.specs.Frames.{Frame, IsFrame, context_of, cover};
ghost use Rattle.constraint_store.specs.Live.{Content};
ghost use Rattle.ordered_solver.specs.Marks.{word};
ghost use Rattle.ordered_solver.specs.Solver.{SolverValue, Agrees, StandsIn, numbered};

/// A trail's word never falls by appending, rises by a jump back and a push, and has a bound.
pub fn law_of_words()
    ensures append { (n : ℕ) (ms ns : List Bool) → word n ms ≤ word n (ms ++ ns) }
    ensures jump { (n : ℕ) (kept dropped : List Bool) → length kept < n → word n (kept ++ false ∷ dropped) < word n (kept ++ true ∷ []) }
    ensures bound { (n : ℕ) (ms : List Bool) → word n ms < 2 ^ n }
{}

/// A frame whose base are a new solver's constraints agrees with it. It goes on agreeing when variables are added, when a
/// constraint is that stands under its id, and when a cover of small numbers is.
pub fn law_of_agreement()
    ensures new { (f : Frame) (variables : ℕ) (spent : Bool) → IsFrame f → length f.base + 1 < 2 ^ 62 → Agrees f (record { variables = variables; given = numbered 1 f.base; kept = []; log = record { first = length f.base + 1; lines = [] }; spent = spent }) }
    ensures variables { (f : Frame) (s : SolverValue) (variables : ℕ) → Agrees f s → Agrees f (record s { variables = variables }) }
    ensures constraint { (f : Frame) (s : SolverValue) (c : Content) (a : Agrees f s) → StandsIn (context_of a.given) c → Agrees f (record s { given = s.given ++ c ∷ [] }) }
    ensures cover { (f : Frame) (s : SolverValue) (v : List ℕ) → Agrees f s → list_all small_number v ≡ true → Agrees f (record s { log = record s.log { lines = s.log.lines ++ cover v ∷ [] } }) }
{}
