//! What a search ends with, and what one solve of it leads to.

ghost use Rattle.std.specs.Prelude.{◌≡◌};
ghost use Rattle.front_search.specs.Searches.{is_complete};

use proof_log::Log;
use result_text::{Entries, Entry, Front};

/// How a search ended.
#[derive(Clone, Copy, Debug, PartialEq, Eq)]
pub enum SearchEnd {
    /// Each valid design's vector is covered by a found one.
    Complete,
    /// The log has as many derived lines as the budget has.
    Budget,
}

impl SearchEnd {
    /// Whether all was found.
    pub(crate) fn is_complete(self) -> bool
        ensures { result ≡ is_complete self }
    {
        match self {
            SearchEnd::Complete => true,
            SearchEnd::Budget => false,
        }
    }
}

/// What one solve led to.
#[derive(Drop)]
pub(crate) enum Turn {
    /// The next found entry.
    Found(Entry),
    /// The end.
    Ended(SearchEnd),
}

/// What a search found, in order; the front of it, the log, and how it ended.
#[derive(Drop)]
pub struct Search {
    pub found: Entries,
    pub front: Front,
    pub log: Log,
    pub end: SearchEnd,
}
