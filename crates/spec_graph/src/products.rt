//! Products of the traffic weights of links with what messages carry.

ghost use Rattle.std.specs.Prelude.{◌≡◌, ◌<◌, ◌↔◌, IsTrue, length, map, All, Any};
ghost use Rattle.spec_graph.specs.Lists.{arc_value};
ghost use Rattle.spec_graph.specs.Refusals.{IsBigOn, CarriesTooMuch};

use crate::messages::Message;
use crate::numbers::Arc;
use crate::rows::Weights;

/// Whether the traffic weight of the arc's link times the quantity is too big, for some objective.
fn is_big_on(arc: &Arc, traffic: &[Weights], quantity: u64) -> bool
    requires { arc.now.link.0 < length traffic.now }
    ensures { IsTrue result ↔ IsBigOn traffic.now quantity (arc_value arc.now) }
{
    let weights = &traffic[arc.link.0 as usize];
    weights.has_big_times(quantity)
}

/// Whether the quantity is too much for one of the arcs.
fn has_big_arc(arcs: &[Arc], traffic: &[Weights], quantity: u64) -> bool
    requires { All (λ a. a.link.0 < length traffic.now) arcs.now }
    ensures { IsTrue result ↔ Any (IsBigOn traffic.now quantity) (map arc_value arcs.now) }
{
    for arc in arcs {
        if is_big_on(arc, traffic, quantity) {
            return true;
        }
    }
    false
}

/// Whether one of the messages carries too much for one of the arcs.
pub fn has_big_message(messages: &[Message], arcs: &[Arc], traffic: &[Weights]) -> bool
    requires { All (λ a. a.link.0 < length traffic.now) arcs.now }
    ensures { IsTrue result ↔ Any (CarriesTooMuch traffic.now (map arc_value arcs.now)) messages.now }
{
    for message in messages {
        if has_big_arc(arcs, traffic, message.quantity) {
            return true;
        }
    }
    false
}
