//! Why a program isn't loaded.
ghost use Rattle.std.specs.Prelude.{◌≡◌};
ghost use Rattle.program_load.specs.declared.kinds.LoadFault.TheVariants.{Host, Memory};

use host_edge::HostCall;
use std::alloc::AllocError;
use thiserror::Error;

/// Why a program isn't loaded: a call on the swap failed, or memory is wanting.
#[derive(Clone, Copy, Debug, Drop, Error, PartialEq, Eq)]
pub enum LoadFault {
    #[error("a call on the swap failed")]
    Host(HostCall),
    #[error("memory is wanting")]
    Memory,
}

impl From<HostCall> for LoadFault {
    ghost from_gives = { λ call fault. fault ≡ Host call };

    fn from(call: HostCall) -> LoadFault {
        LoadFault::Host(call)
    }
}

impl From<AllocError> for LoadFault {
    ghost from_gives = { λ _ fault. fault ≡ Memory };

    fn from(_fault: AllocError) -> LoadFault {
        LoadFault::Memory
    }
}
