ghost use Rattle.std.specs.Prelude.{◌≡◌};
ghost use Rattle.payload.specs.declared.line_fault.LineFault.TheVariants.{Memory};

use std::alloc::{AllocError, AllocFailed};
use thiserror::Error;

// Why a line is no command.
#[derive(Clone, Copy, Debug, Error)]
pub enum LineFault {
    // It has none of the forms.
    #[error("refused 11: unknown line")]
    Unknown,
    // There is no memory to hold it.
    #[error("no memory for this line")]
    Memory,
}

// Kept: the derive's `#[from]` does not say which variant it makes, and this promises it.
impl From<AllocError> for LineFault {
    ghost from_gives = { λ _ r. r ≡ Memory };

    fn from(_fault: AllocError) -> LineFault {
        LineFault::Memory
    }
}

// Kept: as the one above.
impl<T: Drop> From<AllocFailed<T>> for LineFault {
    ghost from_gives = { λ _ r. r ≡ Memory };

    fn from(_fault: AllocFailed<T>) -> LineFault {
        LineFault::Memory
    }
}
