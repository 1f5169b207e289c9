//! Why a file or an input is not read whole.

use byte_io::DeviceFault;
use std::alloc::AllocError;
use thiserror::Error;

/// Why a file or an input is not read whole.
#[derive(Clone, Copy, Debug, PartialEq, Eq, Error)]
pub enum InputError {
    /// A file is not there, or cannot be opened.
    #[error("there is no such file, or it cannot be opened")]
    NoFile,
    /// A file may not be opened by whoever runs the program.
    #[error("there is no permission to read the file")]
    NoPermission,
    /// A read failed, or there was nothing to read for the 65th time.
    #[error("a read failed, or there was nothing to read for too long")]
    ReadFault,
    /// There are more than 16,777,216 bytes.
    #[error("there are more than 16777216 bytes")]
    TooLong,
    /// An allocation was refused.
    #[error("out of memory")]
    Memory,
}

impl From<AllocError> for InputError {
    ghost use Rattle.std.specs.Prelude.{◌≡◌};
    ghost use Rattle.devices.specs.declared.error.InputError.TheVariants.{Memory};

    ghost from_gives = { λ _ error. error ≡ Memory };

    fn from(_: AllocError) -> InputError {
        InputError::Memory
    }
}

impl From<DeviceFault> for InputError {
    ghost use Rattle.std.specs.Prelude.{◌≡◌};
    ghost use Rattle.devices.specs.declared.error.InputError.TheVariants.{ReadFault};

    ghost from_gives = { λ _ error. error ≡ ReadFault };

    fn from(_: DeviceFault) -> InputError {
        InputError::ReadFault
    }
}
