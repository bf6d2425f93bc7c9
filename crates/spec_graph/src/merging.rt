//! The call of a builder that makes messages one.

ghost use Rattle.std.specs.Prelude.{◌≡◌, ◌<◌, ◌↔◌, IsTrue, All, length, map, IfOk, OnOk, IfErr, OnErr};
ghost use Rattle.std.specs.Vec.{vec_len, vec_capacity};
ghost use Rattle.spec_model.specs.WellFormed.{AreDistinct};
ghost use Rattle.names.specs.Names.{IsName};
ghost use Rattle.spec_graph.specs.Lists.{message_number, task_number};
ghost use Rattle.spec_graph.specs.Merged.{AreOfOneSender, IsMergeRefused, IsMergeRepeated, IsNameOfOther, all_receivers, greatest_delay, greatest_quantity, greater_delay, greater_quantity, least_limit, lesser_limit, merged, merged_message, merged_names, messages_at, unlisted};
ghost use Rattle.spec_graph.specs.Marks.{HasFewReceivers};

use crate::builder::SpecBuilder;
use crate::faults::BuildFault;
use crate::gathered::Gathered;
use crate::listed::Listed;
use crate::messages::Message;
use crate::numbers::{MsgNo, TaskNo};
use names::Names;
use std::alloc::{AllocError, Global};
use std::cmp::{max, min};

/// The numbers of a message that others become.
#[derive(Clone, Copy)]
struct Limits {
    hops: u64,
    delay: u64,
    quantity: u64,
}

/// The lesser hop limit, the greater delay and the greater quantity.
fn with_message(limits: Limits, message: &Message) -> Limits
    ensures hops { result.hops ≡ lesser_limit limits.hops message.now }
    ensures delay { result.delay ≡ greater_delay limits.delay message.now }
    ensures quantity { result.quantity ≡ greater_quantity limits.quantity message.now }
{
    Limits {
        hops: min(limits.hops, message.hops),
        delay: max(limits.delay, message.delay),
        quantity: max(limits.quantity, message.quantity),
    }
}

/// The least hop limit, the greatest delay and the greatest quantity of the messages listed.
fn limits_of(messages: &[Message], listed: &[MsgNo]) -> Limits
    requires some { 0 < length listed.now }
    requires there { All (λ m. m.0 < length messages.now) listed.now }
    ensures hops { result.hops ≡ least_limit (messages_at messages.now (map message_number listed.now)) }
    ensures delay { result.delay ≡ greatest_delay (messages_at messages.now (map message_number listed.now)) }
    ensures quantity { result.quantity ≡ greatest_quantity (messages_at messages.now (map message_number listed.now)) }
{
    let first = &messages[listed[0].0 as usize];
    let mut limits = Limits {
        hops: first.hops,
        delay: 0,
        quantity: 0,
    };
    for m in listed {
        limits = with_message(limits, &messages[m.0 as usize]);
    }
    limits
}

/// The receivers of the messages listed, in the order listed, each once.
fn receivers_of(
    alloc: Global,
    messages: &[Message],
    listed: &[MsgNo],
) -> Result<Vec<TaskNo>, AllocError>
    requires there { All (λ m. m.0 < length messages.now) listed.now }
    requires few { All HasFewReceivers messages.now }
    ensures { IfOk result (λ tasks. map task_number tasks.items ≡ all_receivers (messages_at messages.now (map message_number listed.now))) }
{
    let mut gathered = Gathered::none(alloc)?;
    for m in listed {
        let message = &messages[m.0 as usize];
        gathered.add_all(message.receivers.as_slice())?;
    }
    Ok(gathered.into_tasks())
}

/// The message that the messages listed become.
fn one_message(alloc: Global, messages: &[Message], listed: &[MsgNo]) -> Result<Message, AllocError>
    requires some { 0 < length listed.now }
    requires there { All (λ m. m.0 < length messages.now) listed.now }
    requires few { All HasFewReceivers messages.now }
    ensures { IfOk result (λ m. m ≡ merged_message (messages_at messages.now (map message_number listed.now))) }
{
    let receivers = receivers_of(alloc, messages, listed)?;
    let Limits {
        hops,
        delay,
        quantity,
    } = limits_of(messages, listed);
    let first = &messages[listed[0].0 as usize];
    Ok(Message {
        sender: first.sender,
        receivers,
        hops,
        delay,
        quantity,
    })
}

/// Whether the name is that of a message that isn't listed.
fn is_name_of_other(names: &Names, listed: &Listed, name: &str) -> bool
    requires { AreDistinct names.now }
    ensures { IsTrue result ↔ IsNameOfOther names.now name.now listed.now }
{
    match names.find(name) {
        Some(m) => listed.leaves_out(m),
        None => false,
    }
}

/// The names of the messages that aren't listed, and behind them a new one.
fn names_after(
    alloc: Global,
    names: &Names,
    listed: &Listed,
    name: &str,
) -> Result<Names, AllocError>
    requires named { IsName name.now }
    requires distinct { AreDistinct names.now }
    requires new { ¬ IsNameOfOther names.now name.now listed.now }
    ensures { IfOk result (λ after. after ≡ merged_names names.now name.now listed.now) }
{
    names.facts();
    let mut after = Names::new(alloc);
    for m in 0..names.len() {
        if listed.leaves_out(m) {
            after.add(alloc, names.at(m))?;
        }
    }
    after.add(alloc, name)?;
    Ok(after)
}

/// Keeps the messages that aren't listed, in their order.
fn keep_others(messages: &mut Vec<Message>, listed: &Listed)
    ensures kept { messages.new.items ≡ messages_at messages.old.items (unlisted listed.now (length messages.old.items)) }
    ensures capacity { vec_capacity messages.new ≡ vec_capacity messages.old }
{
    let mut kept = 0;
    for m in 0..messages.len() {
        if listed.leaves_out(m) {
            messages.swap(kept, m);
            kept += 1;
        }
    }
    messages.truncate(kept);
}

impl SpecBuilder {
    /// Makes messages of one sender one message, of this name, that stands behind the others. Its receivers are those
    /// of the messages in the order listed, each once; its delay and its quantity are the greatest, and its hop limit
    /// is the least.
    ///
    /// Refused as `Repeated` where a message is listed twice, or the name is that of a message that isn't listed.
    pub fn merge(&mut self, name: &str, messages: &[MsgNo]) -> Result<MsgNo, BuildFault>
        requires named { IsName name.now }
        requires some_message { 0 < length messages.now }
        requires messages_there { All (λ m. m.0 < length self.old.messages) messages.now }
        requires one_sender { AreOfOneSender self.old.messages (map message_number messages.now) }
        ensures number { IfOk result (λ m. m.0 ≡ length (unlisted (map message_number messages.now) (length self.old.messages))) }
        ensures merged { OnOk result (self.new ≡ merged self.old name.now (map message_number messages.now)) }
        ensures accepted { OnOk result (¬ IsMergeRepeated self.old name.now (map message_number messages.now)) }
        ensures refused { IfErr result (IsMergeRefused self.old name.now (map message_number messages.now)) }
        ensures err { OnErr result (self.new ≡ self.old) }
    {
        let listed = match Listed::of(self.alloc, self.held.messages.len(), messages)? {
            Some(listed) => listed,
            None => return Err(BuildFault::Repeated),
        };
        if is_name_of_other(&self.held.message_names, &listed, name) {
            return Err(BuildFault::Repeated);
        }
        let message = one_message(self.alloc, &self.held.messages, messages)?;
        self.held.message_names = names_after(self.alloc, &self.held.message_names, &listed, name)?;
        keep_others(&mut self.held.messages, &listed);
        let number = self.held.messages.len();
        self.held.messages.push_reserved(message);
        Ok(MsgNo(number as u32))
    }
}
