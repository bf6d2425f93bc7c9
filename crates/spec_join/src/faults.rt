//! Why joining stops where the builder refuses a call.

ghost use Rattle.std.specs.Prelude.{◌≡◌};
ghost use Rattle.spec_join.specs.Stops.{stop_for};

use line_words::{Stop, Why};
use spec_graph::BuildFault;

/// Why joining stops where the builder refuses a call.
pub(crate) fn stop_for(fault: BuildFault) -> Stop
    ensures { result ≡ stop_for fault }
{
    match fault {
        BuildFault::Repeated => Stop::Broken(Why::RepeatedName),
        BuildFault::SelfLink => Stop::Broken(Why::SelfLink),
        BuildFault::Cyclic => Stop::Broken(Why::Cyclic),
        BuildFault::TooBig => Stop::Broken(Why::TooBig),
        BuildFault::Limit(what) => Stop::Broken(Why::Limit(what)),
        BuildFault::NoMemory => Stop::NoMemory,
    }
}
