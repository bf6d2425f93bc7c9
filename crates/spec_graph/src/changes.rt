//! The calls of a builder that change what stands already: messages and weights.

ghost use Rattle.std.specs.Prelude.{◌≡◌, ◌<◌, ◌≤◌, length, map};
ghost use Rattle.spec_model.specs.Limits.{most_number};
ghost use Rattle.spec_graph.specs.Changes.{changed, IsSmallChange, with_changed, with_weight};

use crate::builder::SpecBuilder;
use crate::messages::{Change, apply, apply_to_all};
use crate::numbers::{LinkNo, MsgNo, ResNo};

impl SpecBuilder {
    /// Changes a message. It takes no memory.
    pub fn change_message(&mut self, m: MsgNo, change: Change)
        requires there { m.0 < length self.old.messages }
        requires small { IsSmallChange change }
        ensures { self.new ≡ record self.old { messages = with_changed self.old.messages m.0 change } }
    {
        let message = &mut self.held.messages[m.0 as usize];
        apply(message, change);
    }

    /// Changes all messages. It takes no memory.
    pub fn change_messages(&mut self, change: Change)
        requires { IsSmallChange change }
        ensures { self.new ≡ record self.old { messages = map (changed change) self.old.messages } }
    {
        apply_to_all(&mut self.held.messages, change);
    }

    /// Sets the weight that an objective gives a resource. It takes no memory.
    pub fn set_resource_weight(&mut self, r: ResNo, j: usize, weight: u64)
        requires resource_there { r.0 < length self.old.resources }
        requires objective_there { j < length self.old.objectives }
        requires small { weight ≤ most_number }
        ensures { self.new ≡ record self.old { resource_weights = with_weight self.old.resource_weights r.0 j weight } }
    {
        let row = &mut self.held.resource_weights[r.0 as usize];
        row.set(j, weight);
    }

    /// Sets the weight that an objective gives the traffic over a link. It takes no memory.
    pub fn set_traffic(&mut self, l: LinkNo, j: usize, weight: u64)
        requires link_there { l.0 < length self.old.links }
        requires objective_there { j < length self.old.objectives }
        requires small { weight ≤ most_number }
        ensures { self.new ≡ record self.old { traffic_weights = with_weight self.old.traffic_weights l.0 j weight } }
    {
        let row = &mut self.held.traffic_weights[l.0 as usize];
        row.set(j, weight);
    }
}
