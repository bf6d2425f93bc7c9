//! The tables of a file, and what finds one by its name and its index.

ghost use Rattle.std.specs.Prelude.{◌≡◌, ◌++◌, ◌∷◌, [], map, string_bytes, OnOk, OnErr, IfOk, MatchOption};
ghost use Rattle.std.specs.List.{list_any};
ghost use Rattle.names.specs.Names.{IsNumberOf};
ghost use Rattle.tgff_reader.specs.Looking.{is_table, IsTableAt, HasNoTable};
ghost use Rattle.tgff_reader.specs.Places.{HasAtMost};

use crate::file::Table;
use indexmap::{IndexMap, IndexSet};
use std::alloc::{AllocError, Global};
use std::marker::Model;

/// Tables in the order of the file, seen as their list. Each name has a number, and a name's number with an index tells
/// where the table stands, so that no search goes through all tables.
#[derive(Debug, Drop)]
pub struct Tables {
    list: Vec<Table>,
    names: IndexSet<String>,
    places: IndexMap<(usize, u64), usize>,
}

impl Model for Tables {
    ghost use Rattle.std.specs.Prelude.{List, map, string_bytes};
    ghost use Rattle.tgff_reader.specs.Places.{place_in, AreFound};
    ghost use Rattle.tgff_reader.specs.declared.file.Table.{Table};

    ghost Value = { List Table };

    ghost view = { λ t. t.list.items };

    ghost invariant = { λ t. AreFound (map string_bytes t.names.keys) (place_in t.places) t.list.items };
}

/// The number of a name, which is added behind the others where it is new.
fn number_of(alloc: Global, names: &mut IndexSet<String>, name: &str) -> Result<usize, AllocError>
    ensures number { IfOk result (IsNumberOf (map string_bytes names.new.keys) name.now) }
    ensures names { HasAtMost (map string_bytes names.old.keys) name.now (map string_bytes names.new.keys) }
{
    if let Some(number) = names.get_index_of(name) {
        return Ok(number);
    }
    let number = names.len();
    let text = String::from_str(alloc, name)?;
    names.insert_full(text)?;
    Ok(number)
}

impl Tables {
    /// No tables. It takes no memory.
    pub(crate) fn none(alloc: Global) -> Tables
        ensures { result ≡ [] }
    {
        Tables {
            list: Vec::new(alloc),
            names: IndexSet::new(alloc),
            places: IndexMap::new(alloc),
        }
    }

    /// All tables, in the order of the file.
    pub fn list(&self) -> &[Table]
        ensures { result.now ≡ self.now }
    {
        &self.list
    }

    /// Where a table of a name and an index stands.
    pub(crate) fn find(&self, name: &str, index: u64) -> Option<usize>
        ensures { MatchOption result (HasNoTable self.now name.now index) (IsTableAt self.now name.now index) }
    {
        let Some(number) = self.names.get_index_of(name) else {
            return None;
        };
        match self.places.get(&(number, index)) {
            Some(place) => Some(*place),
            None => None,
        }
    }

    /// Whether there is a table of a name and an index.
    pub(crate) fn has(&self, name: &str, index: u64) -> bool
        ensures { result ≡ list_any (is_table name.now index) self.now }
    {
        self.find(name, index).is_some()
    }

    /// Puts one more table at the end.
    pub(crate) fn push(&mut self, alloc: Global, table: Table) -> Result<(), AllocError>
        ensures pushed { OnOk result (self.new ≡ self.old ++ table ∷ []) }
        ensures err { OnErr result (self.new ≡ self.old) }
    {
        self.list.reserve(1)?;
        let number = number_of(alloc, &mut self.names, table.name.list())?;
        self.places.insert((number, table.index), self.list.len())?;
        self.list.push_reserved(table);
        Ok(())
    }
}
