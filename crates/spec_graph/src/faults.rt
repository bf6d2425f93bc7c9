//! Why a builder refuses a call.

use line_words::What;
use std::alloc::{AllocError, AllocFailed};
use thiserror::Error;

/// Why a builder refuses a call.
#[derive(Clone, Copy, Debug, PartialEq, Eq, Error)]
pub enum BuildFault {
    /// A name is declared already, a pair of task and resource is mapped already, or a receiver is named twice.
    #[error("repeated")]
    Repeated,
    /// A link has one resource at both ends.
    #[error("a link of a resource with itself")]
    SelfLink,
    /// A message closes a cycle of tasks.
    #[error("a cycle of messages")]
    Cyclic,
    /// A number is above 2^40.
    #[error("too big")]
    TooBig,
    /// A count would pass its limit.
    #[error("too many")]
    Limit(What),
    /// Memory ran out.
    #[error("out of memory")]
    NoMemory,
}

impl From<AllocError> for BuildFault {
    ghost use Rattle.std.specs.Prelude.{◌≡◌};
    ghost use Rattle.spec_graph.specs.declared.faults.BuildFault.TheVariants.{NoMemory};

    ghost from_gives = { λ _ e. e ≡ NoMemory };

    fn from(_fault: AllocError) -> BuildFault {
        BuildFault::NoMemory
    }
}

impl<T: Drop> From<AllocFailed<T>> for BuildFault {
    ghost use Rattle.std.specs.Prelude.{◌≡◌};
    ghost use Rattle.spec_graph.specs.declared.faults.BuildFault.TheVariants.{NoMemory};

    ghost from_gives = { λ _ e. e ≡ NoMemory };

    fn from(_fault: AllocFailed<T>) -> BuildFault {
        BuildFault::NoMemory
    }
}
