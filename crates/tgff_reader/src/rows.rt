//! The rows of a table, and what finds one by its type.

ghost use Rattle.std.specs.Prelude.{◌≡◌, ◌++◌, ◌∷◌, [], IfOk, OnOk, OnErr, MatchOption};
ghost use Rattle.std.specs.Prelude.{nat_lt, true, false};
ghost use Rattle.std.specs.List.Sorted.{IsNonDecreasingBy, IsPartitionPoint};
ghost use Rattle.tgff_reader.specs.Words.{first};
ghost use Rattle.tgff_reader.specs.Rows.{kind_in, entry_of, kinds_from, order_of, is_of_kind, AreKinds, IsFirstIn, HasNoneIn};

use crate::file::Row;
use line_words::whole;
use std::alloc::{AllocError, Global};
use std::marker::Model;

/// The type that the first word of a row reads as, and where the row stands.
#[derive(Clone, Copy, Debug)]
pub struct RowKind {
    pub kind: u64,
    pub place: usize,
}

/// Rows in the order of the file, seen as their list. Once their block is closed their types stand beside them, by type
/// and then by place, so that a row is found without a look at all rows.
#[derive(Debug, Drop)]
pub struct Rows {
    list: Vec<Row>,
    kinds: Option<Vec<RowKind>>,
}

impl Model for Rows {
    ghost use Rattle.std.specs.Prelude.{List};
    ghost use Rattle.std.specs.Option.{IfSome};
    ghost use Rattle.tgff_reader.specs.Rows.{AreKinds};
    ghost use Rattle.tgff_reader.specs.declared.file.Row.{Row};

    ghost Value = { List Row };

    ghost view = { λ r. r.list.items };

    ghost invariant = { λ r. IfSome r.kinds (λ kinds. AreKinds kinds.items r.list.items) };
}

/// The first word of a row.
fn first_word(row: &Row) -> &str
    ensures { result.now ≡ first row.now.words }
{
    match row.words.list().first() {
        Some(word) => word.list(),
        None => "",
    }
}

/// The type that the first word of a row reads as.
fn kind_in(row: &Row) -> Option<u64>
    ensures { result ≡ kind_in row.now }
{
    match whole(first_word(row)) {
        Ok(kind) => Some(kind),
        Err(_) => None,
    }
}

/// Whether the first word of a row reads as a type.
fn is_of_kind(row: &Row, kind: u64) -> bool
    ensures { result ≡ is_of_kind kind row.now }
{
    match whole(first_word(row)) {
        Ok(number) => number == kind,
        Err(_) => false,
    }
}

/// Where an entry stands among others: by its type, and then by its place.
fn order_of(kind: u64, place: usize) -> u128
    ensures { result ≡ order_of (record { kind = kind; place = place }) }
{
    u128::from(kind) * 0x1_0000_0000_0000_0000 + place as u128
}

/// Adds the entry of a row, where it has a type.
fn put_kind(kinds: &mut Vec<RowKind>, place: usize, row: &Row) -> Result<(), AllocError>
    ensures { OnOk result (kinds.new.items ≡ kinds.old.items ++ entry_of place (kind_in row.now)) }
{
    let Some(kind) = kind_in(row) else {
        return Ok(());
    };
    kinds.push(RowKind { kind, place })?;
    Ok(())
}

/// The entries of rows, by place.
fn kinds_by_place(alloc: Global, rows: &[Row]) -> Result<Vec<RowKind>, AllocError>
    ensures { IfOk result (λ kinds. kinds.items ≡ kinds_from 0 rows.now) }
{
    let mut kinds = Vec::new(alloc);
    for (place, row) in rows.iter().enumerate() {
        put_kind(&mut kinds, place, row)?;
    }
    Ok(kinds)
}

/// The entries of rows, in their order.
fn kinds_of(alloc: Global, rows: &[Row]) -> Result<Vec<RowKind>, AllocError>
    ensures { IfOk result (λ kinds. AreKinds kinds.items rows.now) }
{
    let mut kinds = kinds_by_place(alloc, rows)?;
    kinds.sort_by_key(|entry| order_of(entry.kind, entry.place))?;
    Ok(kinds)
}

/// How many entries stand before those of a type from a place on.
fn entries_before(kinds: &[RowKind], from: usize, kind: u64) -> usize
    requires { IsNonDecreasingBy order_of kinds.now }
    ensures { IsPartitionPoint (λ k. nat_lt (order_of k) (order_of (record { kind = kind; place = from })) ≡ true) (λ k. nat_lt (order_of k) (order_of (record { kind = kind; place = from })) ≡ false) kinds.now result }
{
    let least = order_of(kind, from);
    kinds.partition_point(|entry| order_of(entry.kind, entry.place) < least)
}

/// The first row of a type from a place on, by the entries of the rows.
fn find_by_kind(rows: &[Row], kinds: &[RowKind], from: usize, kind: u64) -> Option<usize>
    requires { AreKinds kinds.now rows.now }
    ensures { MatchOption result (HasNoneIn rows.now from kind) (IsFirstIn rows.now from kind) }
{
    if from >= rows.len() {
        return None;
    }
    let at = entries_before(kinds, from, kind);
    if at >= kinds.len() {
        return None;
    }
    if kinds[at].kind != kind {
        return None;
    }
    Some(kinds[at].place)
}

/// The first row of a type from a place on, by a look at each row.
fn find_by_place(rows: &[Row], from: usize, kind: u64) -> Option<usize>
    ensures { MatchOption result (HasNoneIn rows.now from kind) (IsFirstIn rows.now from kind) }
{
    let mut place = from;
    'rows: while place < rows.len() {
        if is_of_kind(&rows[place], kind) {
            return Some(place);
        }
        place += 1;
    }
    None
}

impl Rows {
    /// No rows. It takes no memory.
    pub(crate) fn none(alloc: Global) -> Rows
        ensures { result ≡ [] }
    {
        Rows {
            list: Vec::new(alloc),
            kinds: None,
        }
    }

    /// All rows, in the order of the file.
    pub fn list(&self) -> &[Row]
        ensures { result.now ≡ self.now }
    {
        &self.list
    }

    /// Puts one more row at the end.
    pub(crate) fn push(&mut self, row: Row) -> Result<(), AllocError>
        ensures pushed { OnOk result (self.new ≡ self.old ++ row ∷ []) }
        ensures err { OnErr result (self.new ≡ self.old) }
    {
        self.list.push(row)?;
        self.kinds = None;
        Ok(())
    }

    /// The same rows, with their types beside them.
    pub(crate) fn close(self, alloc: Global) -> Result<Rows, AllocError>
        ensures { IfOk result (λ rows. rows ≡ self) }
    {
        let kinds = kinds_of(alloc, &self.list)?;
        Ok(Rows {
            list: self.list,
            kinds: Some(kinds),
        })
    }

    /// The first row of a type from a place on.
    pub(crate) fn find(&self, from: usize, kind: u64) -> Option<usize>
        ensures { MatchOption result (HasNoneIn self.now from kind) (IsFirstIn self.now from kind) }
    {
        match &self.kinds {
            Some(kinds) => find_by_kind(&self.list, kinds, from, kind),
            None => find_by_place(&self.list, from, kind),
        }
    }
}
