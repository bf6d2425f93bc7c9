//! Carries out a statement of any kind.

ghost use Rattle.std.specs.Prelude.{◌≡◌, OnOk, IfErr};
ghost use Rattle.std.specs.Option.{option_or};
ghost use Rattle.arch_reader.specs.Seen.{scale_or_0};
ghost use Rattle.spec_join.specs.Effects.{effect};
ghost use Rattle.spec_join.specs.Fits.{IsFit, IsOfMessages, IsOfTables};
ghost use Rattle.spec_join.specs.Stops.{Refuses, Accepts};

use crate::joiner::Joiner;
use crate::settings::clock_with;
use arch_reader::Statement;
use line_words::Stop;

impl Joiner<'_> {
    /// `clock [scale N] [floor]`
    fn set_clock(&mut self, scale: Option<u64>)
        ensures { self.new ≡ record self.old { clock = option_or self.old.clock (Some (scale_or_0 scale)) } }
    {
        self.clock = clock_with(self.clock, scale);
    }

    /// Carries out a statement about messages.
    fn of_messages(&mut self, statement: &Statement) -> Result<(), Stop>
        requires fits { IsFit self.old statement.now }
        requires about { IsOfMessages statement.now }
        ensures done { OnOk result (self.new ≡ effect self.old statement.now) }
        ensures accepted { OnOk result (Accepts self.old statement.now) }
        ensures refused { IfErr result (Refuses self.old statement.now) }
    {
        match statement {
            Statement::Message {
                name,
                sender,
                receivers,
            } => self.message(name.list(), sender.list(), receivers.list()),
            Statement::Merge { name, messages } => self.merge(name.list(), messages.list()),
            Statement::Quantity { message, amount } => self.quantity(message.list(), *amount),
            Statement::Hops { message, limit } => self.hops(message, *limit),
            Statement::Delay { message, amount } => self.delay(message, *amount),
            _ => unreachable!(),
        }
    }

    /// Carries out a statement that uses a table.
    fn of_tables(&mut self, statement: &Statement) -> Result<(), Stop>
        requires fits { IsFit self.old statement.now }
        requires about { IsOfTables statement.now }
        ensures done { OnOk result (self.new ≡ effect self.old statement.now) }
        ensures accepted { OnOk result (Accepts self.old statement.now) }
        ensures refused { IfErr result (Refuses self.old statement.now) }
    {
        match statement {
            Statement::Table {
                name,
                index,
                resource,
                keys,
                weights_at,
            } => self.table(
                name.list(),
                *index,
                resource.list(),
                keys.list(),
                weights_at.list(),
            ),
            Statement::QuantityTable {
                name,
                index,
                column,
                rows,
            } => self.quantity_table(name.list(), *index, *column, *rows),
            _ => unreachable!(),
        }
    }

    /// Carries a statement out, or says what it is refused for.
    pub(crate) fn carry_out(&mut self, statement: &Statement) -> Result<(), Stop>
        requires { IsFit self.old statement.now }
        ensures done { OnOk result (self.new ≡ effect self.old statement.now) }
        ensures accepted { OnOk result (Accepts self.old statement.now) }
        ensures refused { IfErr result (Refuses self.old statement.now) }
    {
        match statement {
            Statement::Objective { .. } => Ok(()),
            Statement::Clock { scale, .. } => {
                self.set_clock(*scale);
                Ok(())
            }
            Statement::Resource { name, weights } => self.resource(name.list(), weights.list()),
            Statement::Link {
                name,
                a,
                b,
                two_way,
                weights,
            } => self.link(name.list(), a.list(), b.list(), *two_way, weights.list()),
            Statement::Traffic { link, weights } => {
                self.traffic(link.list(), weights.list());
                Ok(())
            }
            Statement::Task { name } => self.task(name.list()),
            Statement::Map {
                task,
                resource,
                time,
                weights,
            } => self.map(task.list(), resource.list(), *time, weights.list()),
            Statement::Deadline { task, at } => self.deadline(task.list(), *at),
            Statement::Message { .. } => self.of_messages(statement),
            Statement::Merge { .. } => self.of_messages(statement),
            Statement::Quantity { .. } => self.of_messages(statement),
            Statement::Hops { .. } => self.of_messages(statement),
            Statement::Delay { .. } => self.of_messages(statement),
            Statement::Table { .. } => self.of_tables(statement),
            Statement::QuantityTable { .. } => self.of_tables(statement),
        }
    }
}
