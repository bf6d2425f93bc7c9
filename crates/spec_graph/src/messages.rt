//! What a specification keeps of a message, and the changes that a plan makes of it.

ghost use Rattle.std.specs.Prelude.{◌≡◌, map};
ghost use Rattle.spec_graph.specs.Changes.{changed};

use crate::numbers::TaskNo;
use std::cmp::min;
use std::marker::Model;

/// What is kept of a message.
#[derive(Drop)]
pub struct Message {
    pub sender: TaskNo,
    pub receivers: Vec<TaskNo>,
    pub hops: u64,
    pub delay: u64,
    pub quantity: u64,
}

impl Model for Message {
    ghost use Rattle.std.specs.Prelude.{map};
    ghost use Rattle.spec_model.specs.Spec.{Message as MessageValue};

    ghost Value = { MessageValue };

    ghost use Rattle.spec_graph.specs.Lists.{task_number};

    ghost view = { λ m. record { sender = m.sender.0; receivers = map task_number m.receivers.items; limit = m.hops; delay = m.delay; quantity = m.quantity } };
}

/// A change of a message that keeps its sender and its receivers.
#[derive(Clone, Copy, Debug)]
pub enum Change {
    /// The hop limit becomes this one.
    Hops(u64),
    /// The hop limit is cut to this one.
    AtMost(u64),
    /// The delay of a hop becomes this one.
    Delay(u64),
    /// What the message carries becomes this.
    Quantity(u64),
}

/// Changes a message.
pub fn apply(message: &mut Message, change: Change)
    ensures { message.new ≡ changed change message.old }
{
    match change {
        Change::Hops(hops) => message.hops = hops,
        Change::AtMost(hops) => message.hops = min(message.hops, hops),
        Change::Delay(delay) => message.delay = delay,
        Change::Quantity(quantity) => message.quantity = quantity,
    }
}

/// Changes all messages.
pub fn apply_to_all(messages: &mut [Message], change: Change)
    ensures { messages.new ≡ map (changed change) messages.old }
{
    for message in messages.iter_mut() {
        apply(message, change);
    }
}
