//! Why a check was refused.
ghost use Rattle.std.specs.Prelude.{◌≡◌};
ghost use Rattle.cs_check.specs.declared.faults.CheckFault.TheVariants.{OutOfMemory};

use cs_refusal::Refusal;
use std::alloc::{AllocError, AllocFailed};
use thiserror::Error;

/// Why a plan or a document was refused. Its number and its name are those of the `Refusal` that it becomes.
#[derive(Clone, Copy, Debug, PartialEq, Eq, Error)]
pub enum CheckFault {
    /// 9: a growth was refused.
    #[error("out of memory")]
    OutOfMemory,
    /// 10: the text is no plan document, or the view, the plan or the letters can't stand in one.
    #[error("the text is no plan document")]
    BadDocument,
    /// 11: a version lacks a need of the version before it.
    #[error("needs are lost from one version to the next")]
    NotNested,
    /// 12: an element of the target is not satisfied after the last round.
    #[error("the target is not covered")]
    Uncovered,
    /// 13: a member of a round has a need that is not satisfied before it.
    #[error("a write comes before its needs")]
    TooEarly,
    /// 14: a member of the chain is not a need of the next, or the last is not of the target.
    #[error("the chain is broken")]
    ChainBroken,
    /// 15: there are more rounds than members of the chain.
    #[error("the chain is shorter than the plan")]
    ChainShort,
}

impl From<CheckFault> for Refusal {
    ghost use Rattle.cs_check.specs.Faults.{refusal_of};

    ghost from_gives = { λ fault refusal. refusal ≡ refusal_of fault };

    fn from(fault: CheckFault) -> Self {
        match fault {
            CheckFault::OutOfMemory => Refusal::OutOfMemory,
            CheckFault::BadDocument => Refusal::BadDocument,
            CheckFault::NotNested => Refusal::NotNested,
            CheckFault::Uncovered => Refusal::Uncovered,
            CheckFault::TooEarly => Refusal::TooEarly,
            CheckFault::ChainBroken => Refusal::ChainBroken,
            CheckFault::ChainShort => Refusal::ChainShort,
        }
    }
}

impl From<AllocError> for CheckFault {
    ghost from_gives = { λ _ fault. fault ≡ OutOfMemory };

    fn from(_: AllocError) -> Self {
        CheckFault::OutOfMemory
    }
}

impl<T: Drop> From<AllocFailed<T>> for CheckFault {
    ghost from_gives = { λ _ fault. fault ≡ OutOfMemory };

    fn from(_: AllocFailed<T>) -> Self {
        CheckFault::OutOfMemory
    }
}
