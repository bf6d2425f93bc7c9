//! Carries out the statements that merge messages.

ghost use Rattle.std.specs.Prelude.{◌≡◌, ◌==◌, ◌<◌, ◌↔◌, IsTrue, length, map, All, Contains, IfOk, OnOk, IfErr};
ghost use Rattle.std.specs.List.{list_any};
ghost use Rattle.names.specs.Names.{number_by_name};
ghost use Rattle.spec_graph.specs.Lists.{message_number};
ghost use Rattle.spec_graph.specs.Merged.{is_unlisted};
ghost use Rattle.spec_join.specs.Effects.{effect, merged_kinds};
ghost use Rattle.spec_join.specs.Fits.{IsFit};
ghost use Rattle.spec_join.specs.Refusals.{HasMissing, DifferInSender};
ghost use Rattle.spec_join.specs.Stops.{Refuses, IsAccepted, IsUnknownStop};
ghost use Rattle.arch_reader.specs.declared.statement.Statement.{Statement};

use crate::faults::stop_for;
use crate::joiner::Joiner;
use file_bricks::Text;
use line_words::{Stop, Why};
use spec_graph::{MsgNo, TaskNo};
use std::alloc::AllocError;

/// Whether one of the numbers listed is that of message m.
fn is_listed(listed: &[MsgNo], m: usize) -> bool
    ensures { result ≡ list_any (λ message. message.0 == m) listed.now }
{
    listed.iter().any(|message| message.0 as usize == m)
}

/// Whether none of the numbers listed is that of message m.
fn is_unlisted(listed: &[MsgNo], m: usize) -> bool
    ensures { result ≡ is_unlisted (map message_number listed.now) m }
{
    !is_listed(listed, m)
}

impl Joiner<'_> {
    /// The messages of names, in their order.
    fn messages_of(&self, names: &[Text]) -> Result<Vec<MsgNo>, Stop>
        ensures numbers { IfOk result (λ messages. map message_number messages.items ≡ map (number_by_name self.now.plan.message_names) names.now) }
        ensures many { IfOk result (λ messages. length messages.items ≡ length names.now) }
        ensures there { IfOk result (λ messages. All (λ m. m.0 < length self.now.plan.messages) messages.items) }
        ensures known { OnOk result (All (Contains self.now.plan.message_names) names.now) }
        ensures refused { IfErr result (IsUnknownStop (HasMissing self.now.plan.message_names names.now)) }
    {
        let mut messages = Vec::new(self.alloc);
        for name in names {
            match self.find_message(name.list()) {
                Some(message) => messages.push(message)?,
                None => return Err(Stop::Broken(Why::UnknownName)),
            }
        }
        Ok(messages)
    }

    /// Whether two of the names are those of messages that are there and that other tasks send.
    fn differ_in_sender(&self, names: &[Text]) -> bool
        ensures { IsTrue result ↔ DifferInSender self.now.plan names.now }
    {
        let mut sender: Option<TaskNo> = None;
        for name in names {
            let Some(message) = self.find_message(name.list()) else {
                continue;
            };
            let from = self.plan.sender(message);
            match sender {
                Some(first) => {
                    if first.0 != from.0 {
                        return true;
                    }
                }
                None => sender = Some(from),
            }
        }
        false
    }

    /// The types of the messages after those listed became one: those of the others, and behind
    /// them that of the merged one, which has none.
    fn merged_kinds(&self, listed: &[MsgNo]) -> Result<Vec<Option<u64>>, AllocError>
        ensures { IfOk result (λ kinds. kinds.items ≡ merged_kinds self.now.message_kinds (map message_number listed.now)) }
    {
        let mut kinds = Vec::new(self.alloc);
        for m in 0..self.message_kinds.len() {
            if is_unlisted(listed, m) {
                kinds.push(self.message_kinds[m])?;
            }
        }
        kinds.push(None)?;
        Ok(kinds)
    }

    /// `merge NAME MESSAGE..`
    pub(crate) fn merge(&mut self, name: &str, names: &[Text]) -> Result<(), Stop>
        requires { IsFit self.old (Statement.Merge name.now names.now) }
        ensures done { OnOk result (self.new ≡ effect self.old (Statement.Merge name.now names.now)) }
        ensures accepted { OnOk result (IsAccepted self.old (Statement.Merge name.now names.now)) }
        ensures refused { IfErr result (Refuses self.old (Statement.Merge name.now names.now)) }
    {
        if self.differ_in_sender(names) {
            return Err(Stop::Broken(Why::BadStatement));
        }
        let listed = self.messages_of(names)?;
        let kinds = self.merged_kinds(&listed)?;
        self.plan.facts();
        match self.plan.merge(name, &listed) {
            Ok(_) => {
                self.message_kinds = kinds;
                Ok(())
            }
            Err(fault) => Err(stop_for(fault)),
        }
    }
}
