//! Files, read whole and no further than their limit.

ghost use Rattle.std.specs.Prelude.{◌≡◌, ◌≤◌, IfErr, IfOk, length};
ghost use Rattle.devices.specs.Folder.{IsReadFile, IsTextOf, IsUnreadFile, known_of};
ghost use Rattle.devices.specs.Results.{unopened_by};
ghost use Rattle.devices.specs.Whole.{limit};

use crate::error::InputError;
use crate::input::LIMIT;
use crate::results::failed_by;
use std::alloc::Global;
use std::fs::File;
use std::io;
use std::io::{ErrorKind, Read};

/// What opens files by name: the system, or a text in a test.
pub trait Folder {
    ghost use Rattle.std.specs.Prelude.{ℕ, List, IfErr, IfOk};
    ghost use Rattle.std.specs.IoError.{error_kind};
    ghost use Rattle.devices.specs.Folder.{IsOpenFile, IsUnopened, Known};

    /// An open file.
    type File: Read + Drop;

    /// What is known of the file of a name: nothing, that there is none, or its bytes. Of the system's files nothing is.
    ghost file: { Self → List ℕ → Known };

    /// Opens the file of exactly this name, to be read from its first byte.
    fn open(&self, name: &str) -> io::Result<Self::File>
        ensures bytes { IfOk result (λ opened. IsOpenFile (file self.now name.now) (Self.File.remaining opened)) }
        ensures err { IfErr result (λ e. IsUnopened (file self.now name.now) (error_kind e)) };
}

impl Folder for HostRuntime {
    ghost use Rattle.devices.specs.Folder.{unknown};

    type File = File;

    ghost file = { λ _ _. unknown };

    fn open(&self, name: &str) -> io::Result<File> {
        File::open(self, name)
    }
}

/// A file's bytes. A file that is longer than `LIMIT` is not held whole.
///
/// `NoFile` if the file is not there or cannot be opened, `NoPermission` if it may not be, `ReadFault` if a read of it fails, `TooLong`
/// above the limit, `Memory` if memory is refused.
pub fn read_file<F: Folder>(files: &F, alloc: Global, name: &str) -> Result<Vec<u8>, InputError>
    ensures whole { IfOk result (λ bytes. IsReadFile (F.file files.now name.now) bytes.items) }
    ensures err { IfErr result (IsUnreadFile (F.file files.now name.now)) }
{
    match files.open(name) {
        Ok(file) => read_within(alloc, file),
        Err(error) => Err(unopened(error.kind())),
    }
}

/// Why a file is not opened, by the kind of the system's error.
fn unopened(kind: ErrorKind) -> InputError
    ensures { result ≡ unopened_by kind }
{
    match kind {
        ErrorKind::PermissionDenied => InputError::NoPermission,
        _ => failed_by(kind, InputError::NoFile),
    }
}

/// All that a reader has left, if that is no more than `LIMIT` bytes.
fn read_within<R: Read + Drop>(alloc: Global, reader: R) -> Result<Vec<u8>, InputError>
    ensures within { IfOk result (λ bytes. length bytes.items ≤ limit) }
    ensures whole { IfOk result (λ bytes. IsTextOf (known_of (R.remaining reader)) bytes.items) }
    ensures err { IfErr result (IsUnreadFile (known_of (R.remaining reader))) }
{
    let mut bytes = Vec::new(alloc);
    match reader.take(LIMIT + 1).read_to_end(&mut bytes) {
        Ok(_) if bytes.len() as u64 > LIMIT => Err(InputError::TooLong),
        Ok(_) => Ok(bytes),
        Err(error) => Err(failed_by(error.kind(), InputError::ReadFault)),
    }
}
