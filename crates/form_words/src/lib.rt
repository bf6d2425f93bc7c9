//! The words of a line, read by the table of a command.
//!
//! A table names the places of a command in order, and its options, each with whether it has to be there.
//! `specs/Line.antt` says over words alone what a line is and which value each name has; `specs/Commands.antt` has the
//! command of `clap` that a table makes. `proofs/Forms.antt` shows once for all tables that such a command refuses
//! words exactly where they are no line, and else finds the line's values.
#![tactic(auto)]

ghost use Rattle.std.specs.Prelude.{◌≡◌, ◌≢◌, IfOk, None, false, map, string_bytes, true};
ghost use Rattle.std.specs.List.{All};
ghost use Rattle.std.specs.Str.{IsUtf8};
ghost use Rattle.clap.specs.Faults.{is_simple_and_free};
ghost use Rattle.clap.specs.Simple.{app_of, is_simple};
ghost use Rattle.clap.specs.Walk.{rule_of};
ghost use Rattle.form_words.specs.Commands.{ParsesTo, bare_app, option_rule, place_rule, table_app, with_rules};
ghost use Rattle.form_words.specs.Reads.{Reads};
ghost use Rattle.form_words.specs.Served.{IsServed};
ghost use Rattle.form_words.specs.Table.{form_of, table_of};

use clap::error::ErrorKind;
use clap::{Arg, ArgMatches, Command};
use std::alloc::{AllocError, Global};

/// A place, which has to be filled.
fn place<'a>(alloc: Global, id: &'a str) -> Arg<'a>
    ensures rule { rule_of result ≡ place_rule id.entry.now }
    ensures local { result.global ≡ false }
{
    Arg::new(alloc, id).required(true)
}

/// An option with one value, which may have to be there.
fn option<'a>(alloc: Global, id: &'a str, required: bool) -> Arg<'a>
    ensures rule { rule_of result ≡ option_rule id.entry.now required }
    ensures local { result.global ≡ false }
{
    Arg::new(alloc, id).long(id).required(required)
}

/// A command that takes no program's name and has no help flag.
fn bare<'a>(alloc: Global, title: &'a str) -> Command<'a>
    ensures { app_of result ≡ bare_app title.entry.now }
{
    Command::new(alloc, title)
        .no_binary_name(true)
        .disable_help_flag(true)
}

/// The command with further places.
fn with_places<'a>(
    alloc: Global,
    command: Command<'a>,
    places: &[&'a str],
) -> Result<Command<'a>, AllocError>
    ensures { IfOk result (λ c. app_of c ≡ with_rules (app_of command.entry) (map (λ s. place_rule s.now) places.now)) }
{
    let mut made = command;
    for id in places {
        made = made.arg(place(alloc, *id))?;
    }
    Ok(made)
}

/// The command with further options.
fn with_options<'a>(
    alloc: Global,
    command: Command<'a>,
    options: &[(&'a str, bool)],
) -> Result<Command<'a>, AllocError>
    ensures { IfOk result (λ c. app_of c ≡ with_rules (app_of command.entry) (map (λ o. option_rule o.0.now o.1) options.now)) }
{
    let mut made = command;
    for named in options {
        made = made.arg(option(alloc, named.0, named.1))?;
    }
    Ok(made)
}

/// The command of a table: its places in order, and its options, each with whether it has to be there.
fn table_command<'a>(
    alloc: Global,
    title: &'a str,
    places: &[&'a str],
    options: &[(&'a str, bool)],
) -> Result<Command<'a>, AllocError>
    ensures { IfOk result (λ c. app_of c ≡ table_app title.entry.now (table_of places.now options.now)) }
{
    let placed = with_places(alloc, bare(alloc, title), places)?;
    with_options(alloc, placed, options)
}

/// Each word is text.
fn are_texts(words: &[String])
    ensures { All (λ w. IsUtf8 (string_bytes w)) words.now }
{
    for word in words {
        let _text = word.as_str();
    }
}

/// What a refusal says: the words are no line. Want of memory is handed on.
fn refusal<'a>(kind: ErrorKind) -> Result<Option<ArgMatches<'a>>, AllocError>
    ensures { IfOk result (λ m. (kind ≢ ErrorKind.OutOfMemory) × (m ≡ None)) }
{
    if kind == ErrorKind::OutOfMemory {
        return Err(AllocError);
    }
    Ok(None)
}

/// What the command finds in the words, or `None` where it refuses them.
fn parse<'a>(
    command: Command<'a>,
    words: &'a [String],
) -> Result<Option<ArgMatches<'a>>, AllocError>
    requires simple { is_simple (app_of command) ≡ true }
    requires free { is_simple_and_free (app_of command) ≡ true }
    ensures parses { IfOk result (ParsesTo (app_of command.entry) (map string_bytes words.entry.now)) }
    ensures texts { All IsUtf8 (map string_bytes words.entry.now) }
{
    are_texts(words);
    match command.try_get_matches_from(words) {
        Ok(matches) => Ok(Some(matches)),
        Err(error) => refusal(error.kind()),
    }
}

/// What the words give each place and option of a table, or `None` exactly where they are no line of its form.
pub fn read_line<'a>(
    alloc: Global,
    title: &'a str,
    places: &[&'a str],
    options: &[(&'a str, bool)],
    words: &'a [String],
) -> Result<Option<ArgMatches<'a>>, AllocError>
    requires { IsServed title.now (table_of places.now options.now) }
    ensures { IfOk result (Reads (form_of (table_of places.now options.now)) (map string_bytes words.entry.now)) }
{
    let command = table_command(alloc, title, places, options)?;
    parse(command, words)
}
