//! The part of a store's list of terms that each constraint has, and how the parts are moved together.

ghost use Rattle.std.specs.Prelude.{ℕ, List, Some, None, ◌≡◌, ◌+◌, ◌≤◌, take, drop, length, IsSome, IfOk, slice_index_or};
ghost use Rattle.pb_rules.specs.declared.Term.{Term};
ghost use Rattle.constraint_store.specs.Spans.{live_from, Follow, renumbered, ranks, part};

use pb_constraints::{ConId, Term};
use std::alloc::{AllocError, Global};

/// Where a constraint's terms begin in the list and how many they are, its degree, and the id that the proof has for it.
#[derive(Clone, Copy, Debug)]
pub(crate) struct Span {
    pub start: usize,
    pub count: usize,
    pub degree: u64,
    pub proof_id: u64,
}

/// The part under an id that has one.
pub(crate) fn span_at(spans: &[Option<Span>], c: ConId) -> Span
    requires { IsSome (slice_index_or spans.now c.0 None) }
    ensures { slice_index_or spans.now c.0 None ≡ Some result }
{
    match spans[c.0 as usize] {
        Some(span) => span,
        None => unreachable!(),
    }
}

/// The terms of a part.
pub(crate) fn terms_of(terms: &[Term], span: Span) -> &[Term]
    requires { span.start + span.count ≤ length terms.now }
    ensures { result.now ≡ part terms.now span }
{
    &terms[span.start..span.start + span.count]
}

/// Takes off the ids at the end that have no part, and answers where the terms of the others end.
pub(crate) fn drop_empty(spans: &mut Vec<Option<Span>>, end: usize) -> usize
    requires { Follow 0 end spans.old.items }
    ensures live { (ts : List Term) → live_from ts 0 spans.new.items ≡ live_from ts 0 spans.old.items }
    ensures follow { Follow 0 result spans.new.items }
    ensures within { result ≤ end }
{
    let mut filled = spans.len();
    while filled > 0 {
        if let Some(span) = spans[filled - 1] {
            spans.truncate(filled);
            return span.start + span.count;
        }
        filled -= 1;
    }
    spans.clear();
    0
}

/// The new id of each part once those that are left follow without a gap: how many are before it.
pub(crate) fn new_ids(
    alloc: Global,
    spans: &[Option<Span>],
) -> Result<Vec<Option<ConId>>, AllocError>
    ensures { IfOk result (λ ids. ids.items ≡ ranks 0 spans.now) }
{
    let mut ids = Vec::new(alloc);
    let mut next = 0u64;
    for span in spans {
        if span.is_some() {
            ids.push(Some(ConId(next)))?;
            next += 1;
        } else {
            ids.push(None)?;
        }
    }
    Ok(ids)
}

/// Moves the terms of a part to a place at or before it, and answers the part that they are then.
fn move_down(terms: &mut Vec<Term>, span: Span, to: usize) -> Span
    requires before { to ≤ span.start }
    requires within { span.start + span.count ≤ length terms.old.items }
    ensures start { result.start ≡ to }
    ensures count { result.count ≡ span.count }
    ensures degree { result.degree ≡ span.degree }
    ensures proof_id { result.proof_id ≡ span.proof_id }
    ensures moved { part terms.new.items result ≡ part terms.old.items span }
    ensures below { take to terms.new.items ≡ take to terms.old.items }
    ensures behind { drop (span.start + span.count) terms.new.items ≡ drop (span.start + span.count) terms.old.items }
    ensures as_long { length terms.new.items ≡ length terms.old.items }
{
    terms.copy_within(span.start..span.start + span.count, to);
    Span {
        start: to,
        count: span.count,
        degree: span.degree,
        proof_id: span.proof_id,
    }
}

/// Moves all parts to the front, in their order and under the ids from 0 on, and drops the terms that are no part's.
pub(crate) fn close_up(terms: &mut Vec<Term>, spans: &mut Vec<Option<Span>>)
    requires { Follow 0 (length terms.old.items) spans.old.items }
    ensures live { live_from terms.new.items 0 spans.new.items ≡ renumbered 0 (live_from terms.old.items 0 spans.old.items) }
    ensures follow { Follow 0 (length terms.new.items) spans.new.items }
{
    let mut used = 0;
    let mut end = 0;
    for place in 0..spans.len() {
        if let Some(span) = spans[place] {
            spans[used] = Some(move_down(terms, span, end));
            end += span.count;
            used += 1;
        }
    }
    spans.truncate(used);
    terms.truncate(end);
}
