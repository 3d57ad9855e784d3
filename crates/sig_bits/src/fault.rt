//! The errors of this crate. They name no cause: no contract of a device says why it failed, and a
//! caller can do no more than report the failure.

use thiserror::Error;

/// A read or a write failed. What failed underneath is not kept.
#[derive(Clone, Copy, Debug, PartialEq, Eq, Error)]
#[error("device fault")]
pub struct DeviceFault;

/// Why an input was not read whole.
#[derive(Clone, Copy, Debug, PartialEq, Eq, Error)]
pub enum ReadWholeError {
    /// A read failed.
    #[error("read failed")]
    Read,
    /// A growth was refused.
    #[error("out of memory")]
    OutOfMemory,
}
