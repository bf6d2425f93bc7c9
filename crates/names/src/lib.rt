//! Names in the order in which they were declared, each with the number of its place.
#![tactic(auto)]

ghost use Rattle.std.specs.Prelude.{◌≡◌, ◌<◌, ◌↔◌, ◌++◌, ◌∷◌, [], IsTrue, length, Contains, MatchOption, All, IfOk, OnOk, OnErr};
ghost use Rattle.spec_model.specs.Spec.{name_at};
ghost use Rattle.names.specs.Names.{IsName, IsNumberOf};

use indexmap::IndexSet;
use std::alloc::{AllocError, Global};
use std::marker::Model;

/// Names in the order in which they were declared, seen as the list of their bytes. Each is one word of a text.
#[derive(Drop)]
pub struct Names {
    set: IndexSet<String>,
}

impl Model for Names {
    ghost use Rattle.std.specs.Prelude.{List, map, All};
    ghost use Rattle.std.specs.String.{string_bytes};
    ghost use Rattle.spec_model.specs.Spec.{Name};
    ghost use Rattle.names.specs.Names.{IsName};

    ghost Value = { List Name };

    ghost view = { λ n. map string_bytes n.set.keys };

    ghost invariant = { λ n. All IsName (map string_bytes n.set.keys) };
}

impl Names {
    /// No names. It takes no memory.
    pub fn new(alloc: Global) -> Names
        ensures { result ≡ [] }
    {
        Names {
            set: IndexSet::new(alloc),
        }
    }

    /// What holds of each name.
    pub fn facts(&self)
        ensures { All IsName self.now }
    {
        let _ = &self.set;
    }

    /// How many names there are.
    pub fn len(&self) -> usize
        ensures { result ≡ length self.now }
    {
        self.set.len()
    }

    /// The number of a name, or `None` where it isn't there.
    pub fn find(&self, name: &str) -> Option<usize>
        ensures { MatchOption result (Contains self.now name.now → ⊥) (IsNumberOf self.now name.now) }
    {
        self.set.get_index_of(name)
    }

    /// Whether a name is there.
    pub fn contains(&self, name: &str) -> bool
        ensures { IsTrue result ↔ Contains self.now name.now }
    {
        self.find(name).is_some()
    }

    /// The name at a place.
    pub fn at(&self, i: usize) -> &str
        requires { i < length self.now }
        ensures { result.now ≡ name_at self.now i }
    {
        match self.set.get_index(i) {
            Some(name) => name.as_str(),
            None => unreachable!(),
        }
    }

    /// Adds a name that isn't there yet, behind the others, and gives its number.
    pub fn add(&mut self, alloc: Global, name: &str) -> Result<usize, AllocError>
        requires named { IsName name.now }
        requires new { Contains self.old name.now → ⊥ }
        ensures number { IfOk result (λ n. n ≡ length self.old) }
        ensures added { OnOk result (self.new ≡ self.old ++ name.now ∷ []) }
        ensures err { OnErr result (self.new ≡ self.old) }
    {
        let number = self.set.len();
        let text = String::from_str(alloc, name)?;
        self.set.insert_full(text)?;
        Ok(number)
    }
}
