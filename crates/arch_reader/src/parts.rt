//! The parts of a statement that its tests look at.

ghost use Rattle.std.specs.Prelude.{◌≡◌};
ghost use Rattle.std.specs.Option.{option_map};
ghost use Rattle.arch_reader.specs.Tests.{declared_name, weights_of, keys_of, weights_at_of, time_of, quantity_of, scale_of};

use crate::statement::{KeyAmount, KeyColumn, Statement};

/// The name that a statement declares.
pub(crate) fn declared_name(statement: &Statement) -> Option<&str>
    ensures { option_map (λ n. n.now) result ≡ declared_name statement.now }
{
    match statement {
        Statement::Objective { name, .. } => Some(name.list()),
        Statement::Resource { name, .. } => Some(name.list()),
        Statement::Link { name, .. } => Some(name.list()),
        Statement::Task { name } => Some(name.list()),
        Statement::Message { name, .. } => Some(name.list()),
        Statement::Merge { name, .. } => Some(name.list()),
        _ => None,
    }
}

/// The words `OBJ=D` of a statement.
pub(crate) fn weights_of(statement: &Statement) -> &[KeyAmount]
    ensures { result.now ≡ weights_of statement.now }
{
    match statement {
        Statement::Resource { weights, .. } => weights.list(),
        Statement::Link { weights, .. } => weights.list(),
        Statement::Traffic { weights, .. } => weights.list(),
        Statement::Map { weights, .. } => weights.list(),
        _ => &[],
    }
}

/// The words `KEY=N` of a `table` line.
pub(crate) fn keys_of(statement: &Statement) -> &[KeyColumn]
    ensures { result.now ≡ keys_of statement.now }
{
    match statement {
        Statement::Table { keys, .. } => keys.list(),
        _ => &[],
    }
}

/// The words `OBJ@N` of a `table` line.
pub(crate) fn weights_at_of(statement: &Statement) -> &[KeyColumn]
    ensures { result.now ≡ weights_at_of statement.now }
{
    match statement {
        Statement::Table { weights_at, .. } => weights_at.list(),
        _ => &[],
    }
}

/// The time, delay or deadline of a statement, which are at the clock's scale.
pub(crate) fn time_of(statement: &Statement) -> Option<i128>
    ensures { result ≡ time_of statement.now }
{
    match statement {
        Statement::Map { time, .. } => *time,
        Statement::Delay { amount, .. } => Some(*amount),
        Statement::Deadline { at, .. } => Some(*at),
        _ => None,
    }
}

/// The quantity of a statement.
pub(crate) fn quantity_of(statement: &Statement) -> Option<i128>
    ensures { result ≡ quantity_of statement.now }
{
    match statement {
        Statement::Quantity { amount, .. } => Some(*amount),
        _ => None,
    }
}

/// The scale that a statement says.
pub(crate) fn scale_of(statement: &Statement) -> Option<u64>
    ensures { result ≡ scale_of statement.now }
{
    match statement {
        Statement::Objective { scale, .. } => *scale,
        Statement::Clock { scale, .. } => *scale,
        _ => None,
    }
}
