//! Why a call is refused.

use cutting_planes::RuleFault;
use front_model::{FrontRefused, ProofWhy, Refused};
use std::alloc::{AllocError, AllocFailed};

/// Why a checker isn't made.
#[derive(Drop)]
pub enum StartFault {
    /// The front is refused.
    Refused(FrontRefused),
    /// There was no memory.
    NoMemory,
}

/// Why a line isn't taken.
#[derive(Drop)]
pub enum LineFault {
    /// This line or an earlier one is refused.
    Refused(Refused),
    /// There was no memory.
    NoMemory,
}

impl From<AllocError> for StartFault {
    ghost use Rattle.std.specs.Prelude.{◌≡◌};
    ghost use Rattle.proof_checker.specs.declared.faults.StartFault.TheVariants.{NoMemory};

    ghost from_gives = { λ _ e. e ≡ NoMemory };

    fn from(_error: AllocError) -> StartFault {
        StartFault::NoMemory
    }
}

impl From<AllocError> for LineFault {
    ghost use Rattle.std.specs.Prelude.{◌≡◌};
    ghost use Rattle.proof_checker.specs.declared.faults.LineFault.TheVariants.{NoMemory};

    ghost from_gives = { λ _ e. e ≡ NoMemory };

    fn from(_error: AllocError) -> LineFault {
        LineFault::NoMemory
    }
}

impl<T: Drop> From<AllocFailed<T>> for LineFault {
    ghost use Rattle.std.specs.Prelude.{◌≡◌};
    ghost use Rattle.proof_checker.specs.declared.faults.LineFault.TheVariants.{NoMemory};

    ghost from_gives = { λ _ e. e ≡ NoMemory };

    fn from(_error: AllocFailed<T>) -> LineFault {
        LineFault::NoMemory
    }
}

/// Why an operation of a derived line isn't carried out.
#[derive(Drop)]
pub(crate) enum StepFault {
    /// The number of an id that isn't given yet, or of a variable that isn't there yet.
    Unknown(u64),
    ZeroDivisor,
    TooLarge(u128),
    NoStep,
    NoMemory,
}

impl From<AllocError> for StepFault {
    ghost use Rattle.std.specs.Prelude.{◌≡◌};
    ghost use Rattle.proof_checker.specs.declared.faults.StepFault.TheVariants.{NoMemory};

    ghost from_gives = { λ _ e. e ≡ NoMemory };

    fn from(_error: AllocError) -> StepFault {
        StepFault::NoMemory
    }
}

impl From<RuleFault> for StepFault {
    ghost use Rattle.std.specs.Prelude.{◌≡◌};
    ghost use Rattle.proof_checker.specs.Answers.{step_fault_of};

    ghost from_gives = { λ fault e. e ≡ step_fault_of fault };

    fn from(fault: RuleFault) -> StepFault {
        match fault {
            RuleFault::TooLarge(number) => StepFault::TooLarge(number),
            RuleFault::NoMemory => StepFault::NoMemory,
        }
    }
}

/// Why a line or a part of it isn't taken, on the way.
#[derive(Drop)]
pub(crate) enum Halt {
    Why(ProofWhy),
    NoMemory,
}

impl From<AllocError> for Halt {
    ghost use Rattle.std.specs.Prelude.{◌≡◌};
    ghost use Rattle.proof_checker.specs.declared.faults.Halt.TheVariants.{NoMemory};

    ghost from_gives = { λ _ e. e ≡ NoMemory };

    fn from(_error: AllocError) -> Halt {
        Halt::NoMemory
    }
}

impl From<StepFault> for Halt {
    ghost use Rattle.std.specs.Prelude.{◌≡◌};
    ghost use Rattle.proof_checker.specs.Answers.{halt_of};

    ghost from_gives = { λ fault e. e ≡ halt_of fault };

    fn from(fault: StepFault) -> Halt {
        match fault {
            StepFault::Unknown(number) => Halt::Why(ProofWhy::UnknownId(number)),
            StepFault::ZeroDivisor => Halt::Why(ProofWhy::ZeroDivisor),
            StepFault::TooLarge(number) => Halt::Why(ProofWhy::TooLarge(number)),
            StepFault::NoStep => Halt::Why(ProofWhy::BadStep),
            StepFault::NoMemory => Halt::NoMemory,
        }
    }
}
