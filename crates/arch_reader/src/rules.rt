//! What a statement is refused for, after what the statements before it declare.
//!
//! There is one function for each cause, and `fault` tries one test for each refusal, in the order of their numbers.

ghost use Rattle.std.specs.Prelude.{◌≡◌, Some};
ghost use Rattle.std.specs.List.{list_any};
ghost use Rattle.std.specs.Option.{option_map};
ghost use Rattle.line_words.specs.Rules.{first_broken};
ghost use Rattle.arch_reader.specs.Tests as tests;

use crate::form::Form;
use crate::numbers::{at_scale, has_fraction_at, is_negative};
use crate::parts::{
    declared_name, keys_of, quantity_of, scale_of, time_of, weights_at_of, weights_of,
};
use crate::seen::{Objective, Seen, scale_or_0};
use crate::statement::{KeyAmount, KeyColumn, Statement};
use crate::words::{is_arrow, is_reserved, is_table_key};
use file_bricks::{Text, first_broken};
use line_words::{MOST_NAME_BYTES, What, Why};
use spec_model::{MOST_LINKS, MOST_NUMBER, MOST_OBJECTIVES, MOST_RESOURCES};

fn has_arrow_name(statement: &Statement) -> bool
    ensures { result ≡ tests.has_arrow_name statement.now }
{
    match declared_name(statement) {
        Some(name) => is_arrow(name),
        None => false,
    }
}

fn has_reserved_name(statement: &Statement) -> bool
    ensures { result ≡ tests.has_reserved_name statement.now }
{
    match statement {
        Statement::Objective { name, .. } => is_reserved(name.list()),
        _ => false,
    }
}

fn is_late_clock(seen: &Seen, statement: &Statement) -> bool
    ensures { result ≡ tests.is_late_clock seen.now statement.now }
{
    match statement {
        Statement::Clock { .. } => seen.is_timed,
        _ => false,
    }
}

fn has_negative_weight(statement: &Statement) -> bool
    ensures { result ≡ tests.has_negative_weight statement.now }
{
    weights_of(statement)
        .iter()
        .any(|word| is_negative(word.amount))
}

fn has_negative_time(statement: &Statement) -> bool
    ensures { result ≡ tests.has_negative_time statement.now }
{
    match time_of(statement) {
        Some(amount) => is_negative(amount),
        None => false,
    }
}

fn has_negative_quantity(statement: &Statement) -> bool
    ensures { result ≡ tests.has_negative_quantity statement.now }
{
    match quantity_of(statement) {
        Some(amount) => is_negative(amount),
        None => false,
    }
}

/// Whether a name is among those that are declared.
fn is_declared(names: &[Text], name: &str) -> bool
    ensures { result ≡ tests.is_declared names.now name.now }
{
    names.iter().any(|declared| declared.list() == name)
}

/// The objective with a name.
pub(crate) fn objective_called<'a>(objectives: &'a [Objective], name: &str) -> Option<&'a Objective>
    ensures { option_map (λ o. o.now) result ≡ tests.objective_called objectives.now name.now }
{
    objectives
        .iter()
        .find(|objective| objective.name.list() == name)
}

/// Whether a name is no objective's.
fn is_unknown(objectives: &[Objective], name: &str) -> bool
    ensures { result ≡ tests.is_unknown objectives.now name.now }
{
    objective_called(objectives, name).is_none()
}

fn has_unknown_weight(seen: &Seen, statement: &Statement) -> bool
    ensures { result ≡ tests.has_unknown_weight seen.now statement.now }
{
    let objectives = seen.objectives.list();
    weights_of(statement)
        .iter()
        .any(|word| is_unknown(objectives, word.key.list()))
}

fn is_unknown_key(objectives: &[Objective], key: &KeyColumn) -> bool
    ensures { result ≡ tests.is_unknown_key objectives.now key.now }
{
    !is_table_key(key.key.list()) && is_unknown(objectives, key.key.list())
}

fn has_unknown_key(seen: &Seen, statement: &Statement) -> bool
    ensures { result ≡ tests.has_unknown_key seen.now statement.now }
{
    let objectives = seen.objectives.list();
    keys_of(statement)
        .iter()
        .any(|key| is_unknown_key(objectives, key))
}

fn has_unknown_place(seen: &Seen, statement: &Statement) -> bool
    ensures { result ≡ tests.has_unknown_place seen.now statement.now }
{
    let objectives = seen.objectives.list();
    weights_at_of(statement)
        .iter()
        .any(|word| is_unknown(objectives, word.key.list()))
}

fn has_unknown_resource(seen: &Seen, statement: &Statement) -> bool
    ensures { result ≡ tests.has_unknown_resource seen.now statement.now }
{
    let resources = seen.resources.list();
    match statement {
        Statement::Link { a, b, .. } => {
            !is_declared(resources, a.list()) || !is_declared(resources, b.list())
        }
        Statement::Map { resource, .. } => !is_declared(resources, resource.list()),
        Statement::Table { resource, .. } => !is_declared(resources, resource.list()),
        _ => false,
    }
}

fn has_unknown_link(seen: &Seen, statement: &Statement) -> bool
    ensures { result ≡ tests.has_unknown_link seen.now statement.now }
{
    match statement {
        Statement::Traffic { link, .. } => !is_declared(seen.links.list(), link.list()),
        _ => false,
    }
}

fn is_declared_again(seen: &Seen, statement: &Statement) -> bool
    ensures { result ≡ tests.is_declared_again seen.now statement.now }
{
    match statement {
        Statement::Objective { name, .. } => !is_unknown(seen.objectives.list(), name.list()),
        Statement::Resource { name, .. } => is_declared(seen.resources.list(), name.list()),
        Statement::Link { name, .. } => is_declared(seen.links.list(), name.list()),
        _ => false,
    }
}

fn is_second_clock(seen: &Seen, statement: &Statement) -> bool
    ensures { result ≡ tests.is_second_clock seen.now statement.now }
{
    match statement {
        Statement::Clock { .. } => seen.clock.is_some(),
        _ => false,
    }
}

/// Whether one of these words has a key.
fn has_weight(words: &[KeyAmount], key: &str) -> bool
    ensures { result ≡ list_any (tests.has_key tests.amount_key key.now) words.now }
{
    words.iter().any(|word| word.key.list() == key)
}

fn has_repeated_weight(statement: &Statement) -> bool
    ensures { result ≡ tests.has_repeated_weight statement.now }
{
    let mut left = weights_of(statement);
    'keys: while let [word, more @ ..] = left {
        if has_weight(more, word.key.list()) {
            return true;
        }
        left = more;
    }
    false
}

/// Whether one of these words has a key.
fn has_column(words: &[KeyColumn], key: &str) -> bool
    ensures { result ≡ list_any (tests.has_key tests.column_key key.now) words.now }
{
    words.iter().any(|word| word.key.list() == key)
}

/// Whether two of these words have one key.
fn has_repeated_column(words: &[KeyColumn]) -> bool
    ensures { result ≡ tests.has_repeat tests.column_key words.now }
{
    let mut left = words;
    'keys: while let [word, more @ ..] = left {
        if has_column(more, word.key.list()) {
            return true;
        }
        left = more;
    }
    false
}

fn has_repeated_key(statement: &Statement) -> bool
    ensures { result ≡ tests.has_repeated_key statement.now }
{
    has_repeated_column(keys_of(statement))
}

fn has_repeated_place(statement: &Statement) -> bool
    ensures { result ≡ tests.has_repeated_place statement.now }
{
    has_repeated_column(weights_at_of(statement))
}

fn is_self_link(statement: &Statement) -> bool
    ensures { result ≡ tests.is_self_link statement.now }
{
    match statement {
        Statement::Link { a, b, .. } => a.list() == b.list(),
        _ => false,
    }
}

fn is_fraction(objectives: &[Objective], word: &KeyAmount) -> bool
    ensures { result ≡ tests.is_fraction objectives.now word.now }
{
    match objective_called(objectives, word.key.list()) {
        Some(objective) => !objective.floor && has_fraction_at(objective.scale, word.amount),
        None => false,
    }
}

fn has_fraction(seen: &Seen, statement: &Statement) -> bool
    ensures { result ≡ tests.has_fraction seen.now statement.now }
{
    let objectives = seen.objectives.list();
    weights_of(statement)
        .iter()
        .any(|word| is_fraction(objectives, word))
}

fn is_above(scale: u64, amount: i128) -> bool
    ensures { result ≡ tests.is_above scale amount }
{
    at_scale(scale, amount) > u128::from(MOST_NUMBER)
}

fn is_big_weight(objectives: &[Objective], word: &KeyAmount) -> bool
    ensures { result ≡ tests.is_big_weight objectives.now word.now }
{
    match objective_called(objectives, word.key.list()) {
        Some(objective) => is_above(objective.scale, word.amount),
        None => false,
    }
}

fn has_big_weight(seen: &Seen, statement: &Statement) -> bool
    ensures { result ≡ tests.has_big_weight seen.now statement.now }
{
    let objectives = seen.objectives.list();
    weights_of(statement)
        .iter()
        .any(|word| is_big_weight(objectives, word))
}

fn has_big_time(seen: &Seen, statement: &Statement) -> bool
    ensures { result ≡ tests.has_big_time seen.now statement.now }
{
    match time_of(statement) {
        Some(amount) => is_above(scale_or_0(seen.clock), amount),
        None => false,
    }
}

fn has_big_quantity(statement: &Statement) -> bool
    ensures { result ≡ tests.has_big_quantity statement.now }
{
    match quantity_of(statement) {
        Some(amount) => is_above(0, amount),
        None => false,
    }
}

fn has_big_scale(statement: &Statement) -> bool
    ensures { result ≡ tests.has_big_scale statement.now }
{
    scale_or_0(scale_of(statement)) > 12
}

fn has_long_name(statement: &Statement) -> bool
    ensures { result ≡ tests.has_long_name statement.now }
{
    match declared_name(statement) {
        Some(name) => name.len() > MOST_NAME_BYTES,
        None => false,
    }
}

fn is_past_resources(seen: &Seen, statement: &Statement) -> bool
    ensures { result ≡ tests.is_past_resources seen.now statement.now }
{
    match statement {
        Statement::Resource { .. } => seen.resources.list().len() >= MOST_RESOURCES,
        _ => false,
    }
}

fn is_past_links(seen: &Seen, statement: &Statement) -> bool
    ensures { result ≡ tests.is_past_links seen.now statement.now }
{
    match statement {
        Statement::Link { .. } => seen.links.list().len() >= MOST_LINKS,
        _ => false,
    }
}

fn is_past_objectives(seen: &Seen, statement: &Statement) -> bool
    ensures { result ≡ tests.is_past_objectives seen.now statement.now }
{
    match statement {
        Statement::Objective { .. } => seen.objectives.list().len() >= MOST_OBJECTIVES,
        _ => false,
    }
}

#[tactic(auto, unfolding(crate::specs::Tests::has_bad_shape))]
fn has_bad_shape(seen: &Seen, statement: &Statement) -> bool
    ensures { result ≡ tests.has_bad_shape seen.now statement.now }
{
    has_arrow_name(statement) || has_reserved_name(statement) || is_late_clock(seen, statement)
}

#[tactic(auto, unfolding(crate::specs::Tests::has_bad_number))]
fn has_bad_number(form: &Form) -> bool
    ensures { result ≡ tests.has_bad_number form.now }
{
    let statement = &form.statement;
    form.misread.bad
        || has_negative_weight(statement)
        || has_negative_time(statement)
        || has_negative_quantity(statement)
}

#[tactic(auto, unfolding(crate::specs::Tests::has_unknown_name))]
fn has_unknown_name(seen: &Seen, statement: &Statement) -> bool
    ensures { result ≡ tests.has_unknown_name seen.now statement.now }
{
    has_unknown_weight(seen, statement)
        || has_unknown_key(seen, statement)
        || has_unknown_place(seen, statement)
        || has_unknown_resource(seen, statement)
        || has_unknown_link(seen, statement)
}

#[tactic(auto, unfolding(crate::specs::Tests::has_repeated_name))]
fn has_repeated_name(seen: &Seen, statement: &Statement) -> bool
    ensures { result ≡ tests.has_repeated_name seen.now statement.now }
{
    is_declared_again(seen, statement)
        || is_second_clock(seen, statement)
        || has_repeated_weight(statement)
        || has_repeated_key(statement)
        || has_repeated_place(statement)
}

#[tactic(auto, unfolding(crate::specs::Tests::has_big_number))]
fn has_big_number(seen: &Seen, form: &Form) -> bool
    ensures { result ≡ tests.has_big_number seen.now form.now }
{
    let statement = &form.statement;
    form.misread.big
        || has_big_scale(statement)
        || has_big_weight(seen, statement)
        || has_big_time(seen, statement)
        || has_big_quantity(statement)
}

/// What a statement is refused for, after what the statements before it declare.
#[tactic(auto, unfolding(crate::specs::Tests::tests))]
pub(crate) fn fault(seen: &Seen, form: &Form) -> Option<Why>
    ensures { result ≡ first_broken (tests.tests seen.now (Some form.now)) }
{
    let statement = &form.statement;
    first_broken(&[
        (Why::BadStatement, has_bad_shape(seen, statement)),
        (Why::BadNumber, has_bad_number(form)),
        (Why::UnknownName, has_unknown_name(seen, statement)),
        (Why::RepeatedName, has_repeated_name(seen, statement)),
        (Why::SelfLink, is_self_link(statement)),
        (Why::NotWhole, has_fraction(seen, statement)),
        (Why::TooBig, has_big_number(seen, form)),
        (Why::Limit(What::NameBytes), has_long_name(statement)),
        (
            Why::Limit(What::Resources),
            is_past_resources(seen, statement),
        ),
        (Why::Limit(What::Links), is_past_links(seen, statement)),
        (
            Why::Limit(What::Objectives),
            is_past_objectives(seen, statement),
        ),
    ])
}
