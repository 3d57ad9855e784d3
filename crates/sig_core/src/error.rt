//! Why a file was not matched: a read failed, or an allocation was refused. No file is refused for
//! its bytes, since every list of bytes has hit formats, or none.

ghost use Rattle.std.specs.Prelude.{◌≡◌};

use sig_bits::DeviceFault;
use std::alloc::AllocError;
use thiserror::Error;

/// Why a file was not matched. The core is as it was.
#[derive(Clone, Copy, Debug, PartialEq, Eq, Error)]
pub enum CoreError {
    /// A read failed.
    #[error("read failed")]
    Read,
    /// A growth was refused.
    #[error("out of memory")]
    OutOfMemory,
}

impl From<AllocError> for CoreError {
    ghost use Rattle.sig_core.specs.declared.error.CoreError.{CoreError};

    ghost from_gives = { λ _ e. e ≡ CoreError.OutOfMemory };

    fn from(_: AllocError) -> CoreError {
        CoreError::OutOfMemory
    }
}

impl From<DeviceFault> for CoreError {
    ghost use Rattle.sig_core.specs.declared.error.CoreError.{CoreError};

    ghost from_gives = { λ _ e. e ≡ CoreError.Read };

    fn from(_: DeviceFault) -> CoreError {
        CoreError::Read
    }
}
