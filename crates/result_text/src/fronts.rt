//! A front: entries in order, and whether they are all.

ghost use Rattle.std.specs.Prelude.{◌≡◌, map};
ghost use Rattle.result_text.specs.Answers.{as_seen};

use crate::Entry;
use std::marker::Model;

/// The entries of a front, in order; number `I` of a text, from 1, stands at place `I - 1`.
#[derive(Drop)]
pub struct Entries {
    list: Vec<Entry>,
}

impl Model for Entries {
    ghost use Rattle.std.specs.Prelude.{List, map};
    ghost use Rattle.result_text.specs.Answers.{EntryValue, as_seen};

    ghost Value = { List EntryValue };

    ghost view = { λ e. map as_seen e.list.items };
}

impl Entries {
    /// The entries of a list.
    pub fn of(list: Vec<Entry>) -> Entries
        ensures { result ≡ map as_seen list.items }
    {
        Entries { list }
    }

    /// The list of the entries.
    pub fn list(&self) -> &[Entry]
        ensures { map as_seen result.now ≡ self.now }
    {
        &self.list
    }
}

/// Entries, and whether they are said to be all of the front.
#[derive(Drop)]
pub struct Front {
    pub entries: Entries,
    pub complete: bool,
}
