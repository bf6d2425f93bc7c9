//! The numbers of a line. A word that is no number counts as 0, and that it is none is kept beside.

ghost use Rattle.std.specs.Prelude.{◌≡◌, ◌<◌, nat_lt, IfOk};
ghost use Rattle.file_bricks.specs.Numbers.{whole_in, decimal_in};
ghost use Rattle.line_words.specs.Rules.{said};
ghost use Rattle.arch_reader.specs.Numbers.{fine, both, misread_for, whole_misread, decimal_misread, key_amount, amount_misread, amounts, key_column, column_misread, columns, is_negative, units_in, unit_at, at_scale, fraction_at};

use crate::statement::{KeyAmount, KeyColumn};
use crate::words::cut;
use file_bricks::{Items, text_of};
use line_words::{NumberFault, decimal, whole};
use std::alloc::{AllocError, Global};

/// What of a line's numbers can't be read: a word is no number, or is too big a one.
#[derive(Clone, Copy, Debug)]
pub struct Misread {
    pub bad: bool,
    pub big: bool,
}

impl Misread {
    /// Every word is a number.
    pub(crate) fn none() -> Misread
        ensures { result ≡ fine }
    {
        Misread {
            bad: false,
            big: false,
        }
    }

    /// What is misread here or there.
    pub(crate) fn or(self, other: Misread) -> Misread
        ensures { result ≡ both self other }
    {
        Misread {
            bad: self.bad || other.bad,
            big: self.big || other.big,
        }
    }
}

/// What a fault of a number says.
fn misread_by(fault: NumberFault) -> Misread
    ensures { result ≡ misread_for fault }
{
    match fault {
        NumberFault::BadNumber => Misread {
            bad: true,
            big: false,
        },
        NumberFault::TooBig => Misread {
            bad: false,
            big: true,
        },
    }
}

/// A whole number, 0 where the word is none.
pub(crate) fn read_whole(word: &str) -> (u64, Misread)
    ensures value { result.0 ≡ whole_in word.now }
    ensures misread { result.1 ≡ whole_misread word.now }
{
    match whole(word) {
        Ok(value) => (value, Misread::none()),
        Err(fault) => (0, misread_by(fault)),
    }
}

/// A decimal in units of 10 ^ -12, 0 where the word is none.
pub(crate) fn read_decimal(word: &str) -> (i128, Misread)
    ensures value { result.0 ≡ decimal_in word.now }
    ensures misread { result.1 ≡ decimal_misread word.now }
{
    match decimal(word) {
        Ok(value) => (value, Misread::none()),
        Err(fault) => (0, misread_by(fault)),
    }
}

/// Reads a word `OBJ=D`.
fn read_amount(alloc: Global, word: &str) -> Result<(KeyAmount, Misread), AllocError>
    ensures item { IfOk result (λ one. one.0 ≡ key_amount word.now) }
    ensures misread { IfOk result (λ one. one.1 ≡ amount_misread word.now) }
{
    let (key, value) = cut(word, '=');
    let (amount, misread) = read_decimal(value);
    let key = text_of(alloc, key)?;
    Ok((KeyAmount { key, amount }, misread))
}

/// Words `OBJ=D`, and what of them is misread.
#[derive(Debug, Drop)]
pub struct Amounts {
    pub items: Items<KeyAmount>,
    pub misread: Misread,
}

/// Reads words that are all cut at `=` as objectives and amounts.
#[tactic(auto, unfolding(crate::specs::Numbers::amounts))]
pub(crate) fn read_amounts(alloc: Global, words: &[&str]) -> Result<Amounts, AllocError>
    ensures { IfOk result (λ read. read ≡ amounts (said words.now)) }
{
    let mut items = Vec::new(alloc);
    let mut misread = Misread::none();
    for word in words {
        let one = read_amount(alloc, word)?;
        items.push(one.0)?;
        misread = misread.or(one.1);
    }
    Ok(Amounts {
        items: Items::of(items),
        misread,
    })
}

/// Reads a word `KEY=N` or `OBJ@N`, by its mark.
fn read_column(alloc: Global, mark: char, word: &str) -> Result<(KeyColumn, Misread), AllocError>
    requires { mark < 128 }
    ensures item { IfOk result (λ one. one.0 ≡ key_column mark word.now) }
    ensures misread { IfOk result (λ one. one.1 ≡ column_misread mark word.now) }
{
    let (key, value) = cut(word, mark);
    let (column, misread) = read_whole(value);
    let key = text_of(alloc, key)?;
    Ok((KeyColumn { key, column }, misread))
}

/// Words `KEY=N` or `OBJ@N`, and what of them is misread.
#[derive(Debug, Drop)]
pub struct Columns {
    pub items: Items<KeyColumn>,
    pub misread: Misread,
}

/// Reads words that are all cut at a mark as keys and columns.
#[tactic(auto, unfolding(crate::specs::Numbers::columns))]
pub(crate) fn read_columns(alloc: Global, mark: char, words: &[&str]) -> Result<Columns, AllocError>
    requires { mark < 128 }
    ensures { IfOk result (λ read. read ≡ columns mark (said words.now)) }
{
    let mut items = Vec::new(alloc);
    let mut misread = Misread::none();
    for word in words {
        let one = read_column(alloc, mark, word)?;
        items.push(one.0)?;
        misread = misread.or(one.1);
    }
    Ok(Columns {
        items: Items::of(items),
        misread,
    })
}

/// Whether an amount is below zero.
pub(crate) fn is_negative(amount: i128) -> bool
    ensures { result ≡ is_negative amount }
{
    amount < 0
}

/// An amount in units; one below zero counts as 0.
fn units_in(amount: i128) -> u128
    ensures { result ≡ units_in amount }
{
    if amount < 0 { 0 } else { amount as u128 }
}

/// One at a scale, in units.
fn unit_at(scale: u64) -> u128
    ensures value { result ≡ unit_at scale }
    ensures positive { 0 < result }
{
    10u128.pow(12u64.saturating_sub(scale) as u32)
}

/// An amount at a scale, cut to a whole number. The amount is in units of 10 ^ -12, and one below
/// zero counts as 0.
pub fn at_scale(scale: u64, amount: i128) -> u128
    ensures { result ≡ at_scale scale amount }
{
    units_in(amount) / unit_at(scale)
}

/// Whether an amount has a fraction at a scale. The amount is in units of 10 ^ -12, and one below zero counts as 0.
pub fn has_fraction_at(scale: u64, amount: i128) -> bool
    ensures { result ≡ nat_lt 0 (fraction_at scale amount) }
{
    units_in(amount) % unit_at(scale) > 0
}
