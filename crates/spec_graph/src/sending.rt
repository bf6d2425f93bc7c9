//! The call of a builder that adds a message.

ghost use Rattle.std.specs.Prelude.{◌≡◌, ◌<◌, ◌≤◌, ◌↔◌, ◌⊎◌, IsTrue, ℕ, List, All, Contains, length, map, IfOk, OnOk, IfErr, OnErr};
ghost use Rattle.spec_model.specs.Spec.{Message as MessageValue};
ghost use Rattle.spec_model.specs.Limits.{most_tasks, most_messages};
ghost use Rattle.names.specs.Names.{IsName};
ghost use Rattle.task_order.specs.Order.{IsOrderOf, IsLed};
ghost use Rattle.spec_graph.specs.Held.{held_spec};
ghost use Rattle.spec_graph.specs.Lists.{task_number, numbered_message};
ghost use Rattle.spec_graph.specs.Plan.{with_message};
ghost use Rattle.spec_graph.specs.Refusals.{HasTwice, IsBig, IsMessageRefused, IsMessageAccepted};

use crate::builder::SpecBuilder;
use crate::faults::BuildFault;
use crate::held::Held;
use crate::messages::Message;
use crate::numbers::{MsgNo, TaskNo};
use line_words::What;
use spec_model::{MOST_MESSAGES, MOST_NUMBER};
use std::alloc::{AllocError, Global};
use task_order::{TaskOrder, TaskSet};

/// Whether a task stands twice in a list.
fn has_twice(alloc: Global, tasks: &[TaskNo]) -> Result<bool, AllocError>
    requires { All (λ t. t.0 < most_tasks) tasks.now }
    ensures { IfOk result (λ twice. IsTrue twice ↔ HasTwice (map task_number tasks.now)) }
{
    let mut seen = TaskSet::none(alloc)?;
    for task in tasks {
        if seen.has(task.0 as usize) {
            return Ok(true);
        }
        seen.insert(task.0 as usize);
    }
    Ok(false)
}

/// Whether a delay or a quantity is above the greatest number.
fn is_too_big(delay: u64, quantity: u64) -> bool
    ensures { IsTrue result ↔ (IsBig delay ⊎ IsBig quantity) }
{
    if delay > MOST_NUMBER {
        return true;
    }
    quantity > MOST_NUMBER
}

/// The tasks, and all that come after them.
fn gather_all(alloc: Global, order: &TaskOrder, tasks: &[TaskNo]) -> Result<TaskSet, AllocError>
    requires there { All (λ t. t.0 < length order.now) tasks.now }
    requires few { All (λ t. t.0 < most_tasks) tasks.now }
    ensures { IfOk result (λ set. (ms : List MessageValue) → IsOrderOf order.now ms → IsLed set ms (map task_number tasks.now)) }
{
    let mut set = TaskSet::none(alloc)?;
    for task in tasks {
        order.gather(&mut set, task.0 as usize);
    }
    Ok(set)
}

impl Held {
    /// Adds a message behind the others, with its name.
    fn add_message(
        &mut self,
        alloc: Global,
        name: &str,
        sender: TaskNo,
        receivers: &[TaskNo],
        hops: u64,
        delay: u64,
        quantity: u64,
    ) -> Result<MsgNo, AllocError>
        requires named { IsName name.now }
        requires new { Contains self.old.message_names name.now → ⊥ }
        requires few { length self.old.message_names ≤ most_messages }
        ensures number { IfOk result (λ m. m.0 ≡ length self.old.message_names) }
        ensures added { OnOk result (held_spec self.new ≡ with_message (held_spec self.old) name.now (numbered_message sender receivers.now hops delay quantity)) }
        ensures err { OnErr result (held_spec self.new ≡ held_spec self.old) }
    {
        self.messages.reserve(1)?;
        let receivers = Vec::from_slice(alloc, receivers)?;
        let number = self.message_names.add(alloc, name)?;
        self.messages.push_reserved(Message {
            sender,
            receivers,
            hops,
            delay,
            quantity,
        });
        Ok(MsgNo(number as u32))
    }
}

impl SpecBuilder {
    /// The tasks that come after a message's receivers, the receivers among them, where no rule refuses the message.
    fn tasks_after(
        &self,
        name: &str,
        sender: TaskNo,
        receivers: &[TaskNo],
        delay: u64,
        quantity: u64,
    ) -> Result<TaskSet, BuildFault>
        requires sender_there { sender.0 < length self.now.tasks }
        requires receivers_there { All (λ w. w.0 < length self.now.tasks) receivers.now }
        ensures led { IfOk result (λ set. IsLed set self.now.messages (map task_number receivers.now)) }
        ensures accepted { OnOk result ((hops : ℕ) → IsMessageAccepted self.now name.now (numbered_message sender receivers.now hops delay quantity)) }
        ensures refused { IfErr result (λ fault. (hops : ℕ) → IsMessageRefused self.now name.now (numbered_message sender receivers.now hops delay quantity) fault) }
    {
        if self.held.message_names.contains(name) {
            return Err(BuildFault::Repeated);
        }
        if has_twice(self.alloc, receivers)? {
            return Err(BuildFault::Repeated);
        }
        if is_too_big(delay, quantity) {
            return Err(BuildFault::TooBig);
        }
        let after = gather_all(self.alloc, &self.order, receivers)?;
        if after.has(sender.0 as usize) {
            return Err(BuildFault::Cyclic);
        }
        if self.held.messages.len() >= MOST_MESSAGES {
            return Err(BuildFault::Limit(What::Messages));
        }
        Ok(after)
    }

    /// Adds a message from a task to others, with the greatest number of hops of its route, the delay of a hop and the
    /// quantity that it carries. It has at least one receiver.
    ///
    /// Refused as `Repeated` where its name is declared or a receiver is named twice, as `TooBig` where the delay or
    /// the quantity is above 2^40, as `Cyclic` where a chain of messages leads from one of its receivers to its sender,
    /// and as `Limit` where there are 2,048 messages.
    pub fn message(
        &mut self,
        name: &str,
        sender: TaskNo,
        receivers: &[TaskNo],
        hops: u64,
        delay: u64,
        quantity: u64,
    ) -> Result<MsgNo, BuildFault>
        requires named { IsName name.now }
        requires sender_there { sender.0 < length self.old.tasks }
        requires receivers_there { All (λ w. w.0 < length self.old.tasks) receivers.now }
        requires some_receiver { 0 < length receivers.now }
        ensures number { IfOk result (λ m. m.0 ≡ length self.old.messages) }
        ensures added { OnOk result (self.new ≡ with_message self.old name.now (numbered_message sender receivers.now hops delay quantity)) }
        ensures accepted { OnOk result (IsMessageAccepted self.old name.now (numbered_message sender receivers.now hops delay quantity)) }
        ensures refused { IfErr result (IsMessageRefused self.old name.now (numbered_message sender receivers.now hops delay quantity)) }
        ensures err { OnErr result (self.new ≡ self.old) }
    {
        let after = self.tasks_after(name, sender, receivers, delay, quantity)?;
        let number = self
            .held
            .add_message(self.alloc, name, sender, receivers, hops, delay, quantity)?;
        self.order.join(sender.0 as usize, &after);
        Ok(number)
    }
}
