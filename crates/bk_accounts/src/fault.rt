//! Errors of the accounts.
ghost use Rattle.std.specs.Prelude.{◌≡◌};
ghost use Rattle.bk_accounts.specs.declared.fault.AccountFault.TheVariants.{Memory};

use std::alloc::{AllocError, AllocFailed};
use thiserror::Error;

/// Why a call fails. The accounts are then unchanged.
#[derive(Clone, Copy, Debug, PartialEq, Eq, Error)]
pub enum AccountFault {
    /// Out of memory, for an account or for the room of a sum.
    #[error("memory")]
    Memory,
    /// The log is not open.
    #[error("no log")]
    NoLog,
}

impl From<AllocError> for AccountFault {
    ghost from_gives = { λ _ fault. fault ≡ Memory };

    fn from(_error: AllocError) -> AccountFault {
        AccountFault::Memory
    }
}

impl<T: Drop> From<AllocFailed<T>> for AccountFault {
    ghost from_gives = { λ _ fault. fault ≡ Memory };

    fn from(_error: AllocFailed<T>) -> AccountFault {
        AccountFault::Memory
    }
}
