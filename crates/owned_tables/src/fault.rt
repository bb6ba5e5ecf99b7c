// Why tables were not made, and the refusals that say so.
ghost use Rattle.std.specs.Prelude.{◌≡◌};
ghost use Rattle.refusal.specs.Layers.{refused};
ghost use Rattle.owned_tables.specs.Faults.{tables_refusal, walk_refusal};

use refusal::{Layer, Reason, Refusal};
use std::alloc::AllocError;
use thiserror::Error;

/// Why the tables of a builder were not made.
#[derive(Clone, Copy, Debug, Error)]
pub enum OwnedTablesFault {
    #[error("there is no memory for the tables of a builder")]
    NoMemory(#[from(alloc)] AllocError),
}

impl From<OwnedTablesFault> for Refusal {
    ghost from_gives = { λ fault r. r ≡ tables_refusal fault };

    fn from(fault: OwnedTablesFault) -> Refusal {
        match fault {
            OwnedTablesFault::NoMemory(_) => no_memory(Layer::Builder),
        }
    }
}

impl From<OwnedTablesFault> for AllocError {
    fn from(fault: OwnedTablesFault) -> AllocError {
        match fault {
            OwnedTablesFault::NoMemory(want) => want,
        }
    }
}

/// Why the tables of a walk were not made.
#[derive(Clone, Copy, Debug, Error)]
pub enum WalkTablesFault {
    #[error("there is no memory for the tables of a walk")]
    NoMemory(#[from(alloc)] AllocError),
}

impl From<WalkTablesFault> for Refusal {
    ghost from_gives = { λ fault r. r ≡ walk_refusal fault };

    fn from(fault: WalkTablesFault) -> Refusal {
        match fault {
            WalkTablesFault::NoMemory(_) => no_memory(Layer::FinishedDocument),
        }
    }
}

impl From<WalkTablesFault> for AllocError {
    fn from(fault: WalkTablesFault) -> AllocError {
        match fault {
            WalkTablesFault::NoMemory(want) => want,
        }
    }
}

// The refusal for want of memory, of this layer.
fn no_memory(layer: Layer) -> Refusal
    ensures { result ≡ refused Reason.NoMemory layer 0 }
{
    Refusal {
        reason: Reason::NoMemory,
        layer,
        row: 0,
    }
}
