//! The shape of a statement: the words after its keyword, by the form that it has.
//!
//! Each function reads the words of one form; `None` says that they don't have it. A word that is
//! no number counts as 0, and the form says beside it that it was misread.

ghost use Rattle.std.specs.Prelude.{◌≡◌, [], ◌∷◌, Some, IfOk};
ghost use Rattle.file_bricks.specs.Numbers.{whole_in};
ghost use Rattle.line_words.specs.Rules.{said};
ghost use Rattle.arch_reader.specs.Numbers.{whole_misread};
ghost use Rattle.arch_reader.specs.Shapes.{plain, settings_of, objective_form, clock_form, resource_form, is_two_way, link_form, traffic_form, task_form, message_form, merge_form, time_in, time_misread, after_time, map_form, keys_in, after_keys, table_form, rows_key, quantity_form, quantity_table, quantity_table_rows, hops_form, delay_form, deadline_form, form_with, form_of};

use crate::form::Form;
use crate::keyword::{Keyword, keyword_of};
use crate::numbers::{Misread, read_amounts, read_columns, read_decimal, read_whole};
use crate::statement::Statement;
use crate::words::{are_keyed, are_placed, cut, is_keyed, is_time, keyed_len};
use file_bricks::{text_of, texts_of};
use std::alloc::{AllocError, Global};

/// A statement whose words are all numbers where they have to be.
fn plain(statement: Statement) -> Form
    ensures { result ≡ plain statement }
{
    Form {
        statement,
        misread: Misread::none(),
    }
}

/// The words `[scale N] [floor]`.
#[derive(Clone, Copy, Debug)]
pub struct Settings {
    pub scale: Option<u64>,
    pub floor: bool,
    pub misread: Misread,
}

/// A scale that is written.
fn scaled(scale: &str, floor: bool) -> Settings
    ensures { result ≡ record { scale = Some (whole_in scale.now); floor = floor; misread = whole_misread scale.now } }
{
    let (scale, misread) = read_whole(scale);
    Settings {
        scale: Some(scale),
        floor,
        misread,
    }
}

#[tactic(auto, unfolding(crate::specs::Shapes::settings_of))]
fn floor_alone(word: &str) -> Option<Settings>
    ensures { result ≡ settings_of (word.now ∷ []) }
{
    if word == "floor" {
        Some(Settings {
            scale: None,
            floor: true,
            misread: Misread::none(),
        })
    } else {
        None
    }
}

#[tactic(auto, unfolding(crate::specs::Shapes::settings_of))]
fn scale_alone(word: &str, scale: &str) -> Option<Settings>
    ensures { result ≡ settings_of (word.now ∷ scale.now ∷ []) }
{
    if word == "scale" {
        Some(scaled(scale, false))
    } else {
        None
    }
}

#[tactic(auto, unfolding(crate::specs::Shapes::settings_of))]
fn scale_and_floor(word: &str, scale: &str, floor: &str) -> Option<Settings>
    ensures { result ≡ settings_of (word.now ∷ scale.now ∷ floor.now ∷ []) }
{
    if word != "scale" {
        return None;
    }
    if floor == "floor" {
        Some(scaled(scale, true))
    } else {
        None
    }
}

#[tactic(auto, unfolding(crate::specs::Shapes::settings_of))]
fn settings_of(words: &[&str]) -> Option<Settings>
    ensures { result ≡ settings_of (said words.now) }
{
    match words {
        [] => Some(Settings {
            scale: None,
            floor: false,
            misread: Misread::none(),
        }),
        [word] => floor_alone(word),
        [word, scale] => scale_alone(word, scale),
        [word, scale, floor] => scale_and_floor(word, scale, floor),
        [_, _, _, _, ..] => None,
    }
}

#[tactic(auto, unfolding(crate::specs::Shapes::objective_form))]
fn objective_form(alloc: Global, words: &[&str]) -> Result<Option<Form>, AllocError>
    ensures { IfOk result (λ form. form ≡ objective_form (said words.now)) }
{
    let [name, settings @ ..] = words else {
        return Ok(None);
    };
    let Some(settings) = settings_of(settings) else {
        return Ok(None);
    };
    let statement = Statement::Objective {
        name: text_of(alloc, name)?,
        scale: settings.scale,
        floor: settings.floor,
    };
    Ok(Some(Form {
        statement,
        misread: settings.misread,
    }))
}

#[tactic(auto, unfolding(crate::specs::Shapes::clock_form))]
fn clock_form(words: &[&str]) -> Option<Form>
    ensures { result ≡ clock_form (said words.now) }
{
    let Some(settings) = settings_of(words) else {
        return None;
    };
    Some(Form {
        statement: Statement::Clock {
            scale: settings.scale,
            floor: settings.floor,
        },
        misread: settings.misread,
    })
}

#[tactic(auto, unfolding(crate::specs::Shapes::resource_form))]
fn resource_form(alloc: Global, words: &[&str]) -> Result<Option<Form>, AllocError>
    ensures { IfOk result (λ form. form ≡ resource_form (said words.now)) }
{
    let [name, weights @ ..] = words else {
        return Ok(None);
    };
    if !are_keyed(weights) {
        return Ok(None);
    }
    let weights = read_amounts(alloc, weights)?;
    Ok(Some(Form {
        statement: Statement::Resource {
            name: text_of(alloc, name)?,
            weights: weights.items,
        },
        misread: weights.misread,
    }))
}

/// Whether a link goes both ways, by the word between its ends.
fn is_two_way(word: &str) -> Option<bool>
    ensures { result ≡ is_two_way word.now }
{
    if word == "--" {
        Some(true)
    } else if word == "->" {
        Some(false)
    } else {
        None
    }
}

#[tactic(auto, unfolding(crate::specs::Shapes::link_form))]
fn link_form(alloc: Global, words: &[&str]) -> Result<Option<Form>, AllocError>
    ensures { IfOk result (λ form. form ≡ link_form (said words.now)) }
{
    let [name, a, way, b, weights @ ..] = words else {
        return Ok(None);
    };
    if !are_keyed(weights) {
        return Ok(None);
    }
    let Some(two_way) = is_two_way(way) else {
        return Ok(None);
    };
    let weights = read_amounts(alloc, weights)?;
    let statement = Statement::Link {
        name: text_of(alloc, name)?,
        a: text_of(alloc, a)?,
        b: text_of(alloc, b)?,
        two_way,
        weights: weights.items,
    };
    Ok(Some(Form {
        statement,
        misread: weights.misread,
    }))
}

#[tactic(auto, unfolding(crate::specs::Shapes::traffic_form))]
fn traffic_form(alloc: Global, words: &[&str]) -> Result<Option<Form>, AllocError>
    ensures { IfOk result (λ form. form ≡ traffic_form (said words.now)) }
{
    let [link, weights @ ..] = words else {
        return Ok(None);
    };
    if weights.is_empty() {
        return Ok(None);
    }
    if !are_keyed(weights) {
        return Ok(None);
    }
    let weights = read_amounts(alloc, weights)?;
    Ok(Some(Form {
        statement: Statement::Traffic {
            link: text_of(alloc, link)?,
            weights: weights.items,
        },
        misread: weights.misread,
    }))
}

#[tactic(auto, unfolding(crate::specs::Shapes::task_form))]
fn task_form(alloc: Global, words: &[&str]) -> Result<Option<Form>, AllocError>
    ensures { IfOk result (λ form. form ≡ task_form (said words.now)) }
{
    let [name] = words else {
        return Ok(None);
    };
    let name = text_of(alloc, name)?;
    Ok(Some(plain(Statement::Task { name })))
}

#[tactic(auto, unfolding(crate::specs::Shapes::message_form))]
fn message_form(alloc: Global, words: &[&str]) -> Result<Option<Form>, AllocError>
    ensures { IfOk result (λ form. form ≡ message_form (said words.now)) }
{
    let [name, sender, way, receivers @ ..] = words else {
        return Ok(None);
    };
    if receivers.is_empty() {
        return Ok(None);
    }
    if *way != "->" {
        return Ok(None);
    }
    let statement = Statement::Message {
        name: text_of(alloc, name)?,
        sender: text_of(alloc, sender)?,
        receivers: texts_of(alloc, receivers)?,
    };
    Ok(Some(plain(statement)))
}

#[tactic(auto, unfolding(crate::specs::Shapes::merge_form))]
fn merge_form(alloc: Global, words: &[&str]) -> Result<Option<Form>, AllocError>
    ensures { IfOk result (λ form. form ≡ merge_form (said words.now)) }
{
    let [name, messages @ ..] = words else {
        return Ok(None);
    };
    if messages.is_empty() {
        return Ok(None);
    }
    let statement = Statement::Merge {
        name: text_of(alloc, name)?,
        messages: texts_of(alloc, messages)?,
    };
    Ok(Some(plain(statement)))
}

/// The words after a map's resource: its time, where the first of them is `time=D`, and the rest.
#[derive(Clone, Copy, Debug)]
struct TimeWord<'a> {
    time: Option<i128>,
    misread: Misread,
    rest: &'a [&'a str],
}

fn time_word<'a>(words: &'a [&'a str]) -> TimeWord<'a>
    ensures time { result.time ≡ time_in (said words.now) }
    ensures misread { result.misread ≡ time_misread (said words.now) }
    ensures rest { said result.rest.now ≡ after_time (said words.now) }
{
    if let [first, rest @ ..] = words {
        if is_time(first) {
            let (_, value) = cut(first, '=');
            let (time, misread) = read_decimal(value);
            return TimeWord {
                time: Some(time),
                misread,
                rest,
            };
        }
    }
    TimeWord {
        time: None,
        misread: Misread::none(),
        rest: words,
    }
}

#[tactic(auto, unfolding(crate::specs::Shapes::map_form))]
fn map_form(alloc: Global, words: &[&str]) -> Result<Option<Form>, AllocError>
    ensures { IfOk result (λ form. form ≡ map_form (said words.now)) }
{
    let [task, resource, more @ ..] = words else {
        return Ok(None);
    };
    if !are_keyed(more) {
        return Ok(None);
    }
    let time = time_word(more);
    let weights = read_amounts(alloc, time.rest)?;
    let statement = Statement::Map {
        task: text_of(alloc, task)?,
        resource: text_of(alloc, resource)?,
        time: time.time,
        weights: weights.items,
    };
    Ok(Some(Form {
        statement,
        misread: time.misread.or(weights.misread),
    }))
}

/// The words of a table up to the first one that isn't `KEY=N`, and those from there on.
fn split_keys<'a>(words: &'a [&'a str]) -> (&'a [&'a str], &'a [&'a str])
    ensures keys { said result.0.now ≡ keys_in (said words.now) }
    ensures places { said result.1.now ≡ after_keys (said words.now) }
{
    words.split_at(keyed_len(words))
}

#[tactic(auto, unfolding(crate::specs::Shapes::table_form))]
fn table_form(alloc: Global, words: &[&str]) -> Result<Option<Form>, AllocError>
    ensures { IfOk result (λ form. form ≡ table_form (said words.now)) }
{
    let [name, index, resource, more @ ..] = words else {
        return Ok(None);
    };
    let (keys, places) = split_keys(more);
    if !are_placed(places) {
        return Ok(None);
    }
    let (index, misread) = read_whole(index);
    let keys = read_columns(alloc, '=', keys)?;
    let places = read_columns(alloc, '@', places)?;
    let statement = Statement::Table {
        name: text_of(alloc, name)?,
        index,
        resource: text_of(alloc, resource)?,
        keys: keys.items,
        weights_at: places.items,
    };
    Ok(Some(Form {
        statement,
        misread: misread.or(keys.misread.or(places.misread)),
    }))
}

/// Whether a word is `rows=N`.
fn is_rows(word: &str) -> bool
    ensures { result ≡ rows_key word.now }
{
    let (key, _) = cut(word, '=');
    is_keyed(word) && key == "rows"
}

#[tactic(auto, unfolding(crate::specs::Shapes::quantity_table))]
fn quantity_table(
    alloc: Global,
    name: &str,
    index: &str,
    column: &str,
) -> Result<Option<Form>, AllocError>
    ensures { IfOk result (λ form. form ≡ quantity_table name.now index.now column.now) }
{
    let (index, misread_index) = read_whole(index);
    let (column, misread_column) = read_whole(column);
    let statement = Statement::QuantityTable {
        name: text_of(alloc, name)?,
        index,
        column,
        rows: None,
    };
    Ok(Some(Form {
        statement,
        misread: misread_index.or(misread_column),
    }))
}

#[tactic(auto, unfolding(crate::specs::Shapes::quantity_table_rows))]
fn quantity_table_rows(
    alloc: Global,
    name: &str,
    index: &str,
    column: &str,
    rows: &str,
) -> Result<Option<Form>, AllocError>
    ensures { IfOk result (λ form. form ≡ quantity_table_rows name.now index.now column.now rows.now) }
{
    if !is_rows(rows) {
        return Ok(None);
    }
    let (_, value) = cut(rows, '=');
    let (index, misread_index) = read_whole(index);
    let (column, misread_column) = read_whole(column);
    let (rows, misread_rows) = read_whole(value);
    let statement = Statement::QuantityTable {
        name: text_of(alloc, name)?,
        index,
        column,
        rows: Some(rows),
    };
    Ok(Some(Form {
        statement,
        misread: misread_index.or(misread_column.or(misread_rows)),
    }))
}

#[tactic(auto, unfolding(crate::specs::Shapes::quantity_form))]
fn quantity_form(alloc: Global, words: &[&str]) -> Result<Option<Form>, AllocError>
    ensures { IfOk result (λ form. form ≡ quantity_form (said words.now)) }
{
    match words {
        [message, amount] => {
            let message = text_of(alloc, message)?;
            let (amount, misread) = read_decimal(amount);
            Ok(Some(Form {
                statement: Statement::Quantity { message, amount },
                misread,
            }))
        }
        [table, name, index, column] => {
            if *table != "table" {
                return Ok(None);
            }
            quantity_table(alloc, name, index, column)
        }
        [table, name, index, column, rows] => {
            if *table != "table" {
                return Ok(None);
            }
            quantity_table_rows(alloc, name, index, column, rows)
        }
        _ => Ok(None),
    }
}

#[tactic(auto, unfolding(crate::specs::Shapes::hops_form))]
fn hops_form(alloc: Global, words: &[&str]) -> Result<Option<Form>, AllocError>
    ensures { IfOk result (λ form. form ≡ hops_form (said words.now)) }
{
    match words {
        [limit] => {
            let (limit, misread) = read_whole(limit);
            let statement = Statement::Hops {
                message: None,
                limit,
            };
            Ok(Some(Form { statement, misread }))
        }
        [message, limit] => {
            let message = Some(text_of(alloc, message)?);
            let (limit, misread) = read_whole(limit);
            let statement = Statement::Hops { message, limit };
            Ok(Some(Form { statement, misread }))
        }
        _ => Ok(None),
    }
}

#[tactic(auto, unfolding(crate::specs::Shapes::delay_form))]
fn delay_form(alloc: Global, words: &[&str]) -> Result<Option<Form>, AllocError>
    ensures { IfOk result (λ form. form ≡ delay_form (said words.now)) }
{
    match words {
        [amount] => {
            let (amount, misread) = read_decimal(amount);
            let statement = Statement::Delay {
                message: None,
                amount,
            };
            Ok(Some(Form { statement, misread }))
        }
        [message, amount] => {
            let message = Some(text_of(alloc, message)?);
            let (amount, misread) = read_decimal(amount);
            let statement = Statement::Delay { message, amount };
            Ok(Some(Form { statement, misread }))
        }
        _ => Ok(None),
    }
}

#[tactic(auto, unfolding(crate::specs::Shapes::deadline_form))]
fn deadline_form(alloc: Global, words: &[&str]) -> Result<Option<Form>, AllocError>
    ensures { IfOk result (λ form. form ≡ deadline_form (said words.now)) }
{
    let [task, at] = words else {
        return Ok(None);
    };
    let task = text_of(alloc, task)?;
    let (at, misread) = read_decimal(at);
    Ok(Some(Form {
        statement: Statement::Deadline { task, at },
        misread,
    }))
}

/// The form of the words after a keyword.
fn form_with(alloc: Global, keyword: Keyword, words: &[&str]) -> Result<Option<Form>, AllocError>
    ensures { IfOk result (λ form. form ≡ form_with (Some keyword) (said words.now)) }
{
    match keyword {
        Keyword::Objective => objective_form(alloc, words),
        Keyword::Clock => Ok(clock_form(words)),
        Keyword::Resource => resource_form(alloc, words),
        Keyword::Link => link_form(alloc, words),
        Keyword::Traffic => traffic_form(alloc, words),
        Keyword::Task => task_form(alloc, words),
        Keyword::Message => message_form(alloc, words),
        Keyword::Merge => merge_form(alloc, words),
        Keyword::Map => map_form(alloc, words),
        Keyword::Table => table_form(alloc, words),
        Keyword::Quantity => quantity_form(alloc, words),
        Keyword::Hops => hops_form(alloc, words),
        Keyword::Delay => delay_form(alloc, words),
        Keyword::Deadline => deadline_form(alloc, words),
    }
}

/// The form of a statement's words.
#[tactic(auto, unfolding(crate::specs::Shapes::form_of))]
pub(crate) fn form_of(alloc: Global, words: &[&str]) -> Result<Option<Form>, AllocError>
    ensures { IfOk result (λ form. form ≡ form_of (said words.now)) }
{
    let [keyword, words @ ..] = words else {
        return Ok(None);
    };
    let Some(keyword) = keyword_of(keyword) else {
        return Ok(None);
    };
    form_with(alloc, keyword, words)
}
