//! What the definitions imply, as functions that do nothing: the solver and the checker rest on these laws.
//! Each is proved once, here, from the definitions alone.

ghost use Rattle.std.specs.Prelude.{ℕ, Bool, List, Option, Some, None, ◌≡◌};
ghost use Rattle.pb_rules.specs.Literal.{Literal};
ghost use Rattle.pb_rules.specs.Linear.{Linear, Holds, IsModel, AreAmong};
ghost use Rattle.pb_rules.specs.Partial.{Forces, IsClosed, IsClosedFor, GoesOn, whole};
ghost use Rattle.pb_rules.specs.Clauses.{IsClause, contradiction};
ghost use Rattle.pb_rules.specs.Honest.{IsAbsorbed, IsUnabsorbed, IsPropagated};
ghost use Rattle.pb_rules.specs.Laws.{LinesAreSound, LinesAreNormal, IdsAreCounted, LineGivesOne, LineDerivesOne, GivenKnowsLive, LinesAreKnown, LineKeepsVariables, VariablesAreOfCovers};

/// Lines are sound: where the base and the blocks of the covers hold, all that legal lines give holds. Legal lines
/// that follow a frame in normal form give constraints in normal form.
pub fn law_of_lines()
    ensures sound { LinesAreSound }
    ensures normal { LinesAreNormal }
{}

/// Ids count on: after lines there are the base's constraints and one for each id that the lines take. One derived line
/// more gives one constraint more, under the next id.
pub fn law_of_ids()
    ensures counted { IdsAreCounted }
    ensures one_more { LineGivesOne }
    ensures one_derived { LineDerivesOne }
{}

/// A legal line gives a constraint whose variables were there before, so that the same variables are there after it. Only
/// covers bring new ones: after legal lines exactly the variables of the base and of the blocks are there.
pub fn law_of_variables()
    ensures live { GivenKnowsLive }
    ensures known { LinesAreKnown }
    ensures kept { LineKeepsVariables }
    ensures of_covers { VariablesAreOfCovers }
{}

/// Closed partial assignments: what a smaller assignment forces, a closed one takes; a model is a closed one; closed for
/// a list is closed for a part of it.
pub fn law_of_closed()
    ensures takes { (p a : ℕ → Option Bool) (c : Linear) (l : Literal) → Forces p c l → GoesOn p a → IsClosed a c → a l.var ≡ Some l.yes }
    ensures model { (cs : List Linear) (v : ℕ → Bool) → IsModel cs v → IsClosedFor cs (whole v) }
    ensures part { (cs ds : List Linear) (p : ℕ → Option Bool) → AreAmong cs ds → IsClosedFor ds p → IsClosedFor cs p }
{}

/// Absorbed clauses: what a list absorbs, a longer one absorbs, so what it does not absorb, no part of it absorbs;
/// nothing is both; and `0 >= 1` is absorbed by every list.
pub fn law_of_absorbed()
    ensures stays { (cs ds : List Linear) (c : Linear) → AreAmong cs ds → IsAbsorbed cs c → IsAbsorbed ds c }
    ensures part { (cs ds : List Linear) (c : Linear) → AreAmong cs ds → IsUnabsorbed ds c → IsUnabsorbed cs c }
    ensures not_both { (cs : List Linear) (c : Linear) → IsUnabsorbed cs c → IsAbsorbed cs c → ⊥ }
    ensures contradiction { (cs : List Linear) → IsAbsorbed cs contradiction }
{}

/// Propagated clauses: every model of the list satisfies one, and what a list propagates, a longer one propagates.
pub fn law_of_propagated()
    ensures follows { (cs : List Linear) (c : Linear) (v : ℕ → Bool) → IsClause c → IsPropagated cs c → IsModel cs v → Holds v c }
    ensures stays { (cs ds : List Linear) (c : Linear) → AreAmong cs ds → IsPropagated cs c → IsPropagated ds c }
{}
