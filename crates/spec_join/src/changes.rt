//! Carries out the statements that change what stands already, and what is said of later messages.

ghost use Rattle.std.specs.Prelude.{◌≡◌, ◌≤◌, ◌^◌, OnOk, IfErr};
ghost use Rattle.spec_join.specs.Effects.{effect, with_plan, with_change};
ghost use Rattle.spec_join.specs.Fits.{IsFit};
ghost use Rattle.spec_join.specs.Refusals.{IsMissing};
ghost use Rattle.spec_join.specs.Stops.{Refuses, IsAccepted, IsUnknownStop};
ghost use Rattle.spec_graph.specs.Changes.{IsSmallChange};
ghost use Rattle.arch_reader.specs.declared.statement.Statement.{Statement};

use crate::joiner::Joiner;
use arch_reader::{KeyAmount, at_scale};
use file_bricks::Text;
use line_words::{Stop, Why};
use spec_graph::Change;

impl Joiner<'_> {
    /// Changes the message of a name.
    fn change(&mut self, name: &str, change: Change) -> Result<(), Stop>
        requires { IsSmallChange change }
        ensures done { OnOk result (self.new ≡ with_plan self.old (with_change self.old.plan name.now change)) }
        ensures accepted { OnOk result (¬ IsMissing self.old.plan.message_names name.now) }
        ensures refused { IfErr result (IsUnknownStop (IsMissing self.old.plan.message_names name.now)) }
    {
        let Some(message) = self.find_message(name) else {
            return Err(Stop::Broken(Why::UnknownName));
        };
        self.plan.change_message(message, change);
        Ok(())
    }

    /// `quantity MESSAGE D`
    #[tactic(auto, using(crate::proofs::Unknown::quantity_refused, crate::proofs::Unknown::quantity_accepted))]
    pub(crate) fn quantity(&mut self, message: &str, amount: i128) -> Result<(), Stop>
        requires { IsFit self.old (Statement.Quantity message.now amount) }
        ensures done { OnOk result (self.new ≡ effect self.old (Statement.Quantity message.now amount)) }
        ensures accepted { OnOk result (IsAccepted self.old (Statement.Quantity message.now amount)) }
        ensures refused { IfErr result (Refuses self.old (Statement.Quantity message.now amount)) }
    {
        let quantity = at_scale(0, amount) as u64;
        self.change(message, Change::Quantity(quantity))
    }

    /// `hops N` for all messages, now and later, or `hops MESSAGE N`
    #[tactic(auto, using(crate::proofs::Unknown::hops_refused, crate::proofs::Unknown::hops_accepted))]
    pub(crate) fn hops(&mut self, message: &Option<Text>, limit: u64) -> Result<(), Stop>
        ensures done { OnOk result (self.new ≡ effect self.old (Statement.Hops message.now limit)) }
        ensures accepted { OnOk result (IsAccepted self.old (Statement.Hops message.now limit)) }
        ensures refused { IfErr result (Refuses self.old (Statement.Hops message.now limit)) }
    {
        match message {
            Some(name) => self.change(name.list(), Change::Hops(limit)),
            None => {
                self.plan.change_messages(Change::Hops(limit));
                self.hops = limit;
                Ok(())
            }
        }
    }

    /// `delay D` for all messages, now and later, or `delay MESSAGE D`
    #[tactic(auto, using(crate::proofs::Unknown::delay_refused, crate::proofs::Unknown::delay_accepted))]
    pub(crate) fn delay(&mut self, message: &Option<Text>, amount: i128) -> Result<(), Stop>
        requires { IsFit self.old (Statement.Delay message.now amount) }
        ensures done { OnOk result (self.new ≡ effect self.old (Statement.Delay message.now amount)) }
        ensures accepted { OnOk result (IsAccepted self.old (Statement.Delay message.now amount)) }
        ensures refused { IfErr result (Refuses self.old (Statement.Delay message.now amount)) }
    {
        let delay = self.time_at(amount);
        match message {
            Some(name) => self.change(name.list(), Change::Delay(delay)),
            None => {
                self.plan.change_messages(Change::Delay(delay));
                self.delay = delay;
                Ok(())
            }
        }
    }

    /// `traffic LINK OBJ=D..`
    pub(crate) fn traffic(&mut self, link: &str, words: &[KeyAmount])
        requires { IsFit self.old (Statement.Traffic link.now words.now) }
        ensures { self.new ≡ effect self.old (Statement.Traffic link.now words.now) }
    {
        let link = self.link_there(link);
        for word in words {
            let weight = self.weight(word);
            self.plan.set_traffic(link, weight.objective, weight.value);
        }
    }
}
