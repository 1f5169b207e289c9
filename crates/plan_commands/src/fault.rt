//! Why a command ends without an answer.

ghost use Rattle.std.specs.Prelude.{◌≡◌, Some};
ghost use Rattle.std.specs.Fmt.{WritesOnOk};
ghost use Rattle.plan_commands.specs.Fault as spec;

use crate::mistake::Mistake;
use crate::services_mistake::ServicesMistake;
use devices::InputError;
use gear_status::StatusError;
use pool_report::{ReadError, WriteError};
use refusal::Labelled;
use std::alloc::AllocError;
use std::fmt;
use thiserror::Error;

/// A file that a command names, by what it holds.
#[derive(Clone, Copy, Debug, PartialEq, Eq)]
pub enum NamedFile {
    /// The settings.
    Settings,
    /// The services.
    Services,
    /// A status text.
    Status,
}

/// Why the page of a farm told no totals.
#[derive(Clone, Copy, Debug, PartialEq, Eq, Error)]
pub enum PageError {
    /// No connection was opened: no farm has its page at this address.
    #[error("nobody answers at its address")]
    Unreached,
    /// Connections were opened, and over none of them a whole answer came.
    #[error("it gave no whole answer")]
    Unanswered,
    /// It answered with this status.
    #[error("it answered with status {0}")]
    Refused(u16),
}

/// Why a command ends without an answer. Each is displayed as its fault line, which is meant for a
/// person and for a script alike: a word for what is at fault, a number, a name, and the line, if
/// there is one. Which file or which lost worker it is about, and where in the settings or the services
/// it is, is in the fault and not in its line.
#[derive(Debug, PartialEq, Eq, Drop)]
pub enum Fault {
    /// The settings file breaks a rule: which one, and where.
    Settings(Mistake),
    /// The services file breaks a rule, by itself or beside the settings: which one, and where.
    Services(ServicesMistake),
    /// A lost worker is none of the settings: the one at this place, from 0, of those that were named.
    UnknownWorker(usize),
    /// The status text breaks a rule.
    Status(StatusError),
    /// The report breaks a rule.
    Report(ReadError),
    /// A line of `replay` is no command. It is the line of this number, counted from 1.
    BadCommand(u64),
    /// A file was not read whole. Out of memory is [`Fault::Memory`].
    File(NamedFile, InputError),
    /// Standard input is longer than 16,777,216 bytes.
    TooLong,
    /// Standard input failed, or had nothing to give for the 65th time.
    ReadFault,
    /// A device that is written to failed.
    WriteFault,
    /// The page of a farm told no totals.
    Page(PageError),
    /// An allocation was refused.
    Memory,
}

impl Fault {
    /// Why a file was not read whole.
    pub fn of_file(file: NamedFile, error: InputError) -> Fault
        ensures { result ≡ spec.file_fault file error }
    {
        match error {
            InputError::Memory => Fault::Memory,
            other => Fault::File(file, other),
        }
    }

    /// The exit status of a command that ends with this fault: 3 if input is refused, and 4 if
    /// memory, a device or a page failed.
    pub fn status(&self) -> u8
        ensures { result ≡ spec.status_of self.now }
    {
        match self {
            Fault::Settings(_)
            | Fault::Services(_)
            | Fault::UnknownWorker(_)
            | Fault::Status(_)
            | Fault::Report(_)
            | Fault::BadCommand(_)
            | Fault::File(_, InputError::TooLong)
            | Fault::TooLong => 3,
            Fault::File(_, _)
            | Fault::ReadFault
            | Fault::WriteFault
            | Fault::Page(_)
            | Fault::Memory => 4,
        }
    }
}

impl fmt::Display for Fault {
    ghost output = { λ fault. Some (spec.fault_line fault) };

    fn fmt<W: fmt::Write>(&self, f: &mut fmt::Formatter<W>) -> fmt::Result {
        match self {
            Fault::Settings(mistake) => {
                let label = mistake.error.label();
                write!(f, "settings {} {}", label.number(), label.name())
            }
            Fault::Services(mistake) => {
                let label = mistake.error.label();
                write!(f, "services {} {}", label.number(), label.name())
            }
            Fault::UnknownWorker(_) => f.write_str("lost 1 UnknownWorker"),
            Fault::Status(error) => {
                let label = error.label();
                write!(f, "status {} {}", label.number(), label.name())?;
                on_line(f, error.line().map(u64::from))
            }
            Fault::Report(error) => {
                let label = error.label();
                write!(f, "report {} {}", label.number(), label.name())?;
                on_line(f, error.line())
            }
            Fault::BadCommand(line) => write!(f, "events 1 BadLine line {line}"),
            Fault::File(_, error) => f.write_str(input_words(*error)),
            Fault::TooLong => f.write_str(input_words(InputError::TooLong)),
            Fault::ReadFault => f.write_str(input_words(InputError::ReadFault)),
            Fault::WriteFault => f.write_str("device 2 WriteFault"),
            Fault::Page(PageError::Unreached) => f.write_str("page 1 Unreached"),
            Fault::Page(PageError::Unanswered) => f.write_str("page 2 Unanswered"),
            Fault::Page(PageError::Refused(status)) => {
                write!(f, "page 3 Refused status {status}")
            }
            Fault::Memory => f.write_str("memory"),
        }
    }
}

/// Why a file or standard input was not read whole.
fn input_words(error: InputError) -> &'static str
    ensures { result.now ≡ spec.input_words error }
{
    match error {
        InputError::NoFile | InputError::NoPermission => "device 3 NoFile",
        InputError::ReadFault => "device 1 ReadFault",
        InputError::TooLong => "input 1 TooLong",
        InputError::Memory => "memory",
    }
}

/// The line that is at fault, if it is one line.
fn on_line<W: fmt::Write>(f: &mut fmt::Formatter<W>, line: Option<u64>) -> fmt::Result
    ensures { WritesOnOk W.write_str_gives f.old result (spec.on_line line) f.new }
{
    match line {
        Some(line) => write!(f, " line {line}"),
        None => Ok(()),
    }
}

impl From<StatusError> for Fault {
    ghost use Rattle.std.specs.Prelude.{◌≡◌};
    ghost use Rattle.plan_commands.specs.Fault.{status_fault};

    ghost from_gives = { λ error fault. fault ≡ status_fault error };

    fn from(error: StatusError) -> Fault {
        match error {
            StatusError::ReadFault => Fault::ReadFault,
            StatusError::Memory => Fault::Memory,
            other => Fault::Status(other),
        }
    }
}

impl From<ReadError> for Fault {
    ghost use Rattle.std.specs.Prelude.{◌≡◌};
    ghost use Rattle.plan_commands.specs.Fault.{report_fault};

    ghost from_gives = { λ error fault. fault ≡ report_fault error };

    fn from(error: ReadError) -> Fault {
        match error {
            ReadError::Memory => Fault::Memory,
            other => Fault::Report(other),
        }
    }
}

impl From<WriteError> for Fault {
    ghost use Rattle.std.specs.Prelude.{◌≡◌};
    ghost use Rattle.plan_commands.specs.Fault.{write_fault};

    ghost from_gives = { λ error fault. fault ≡ write_fault error };

    fn from(error: WriteError) -> Fault {
        match error {
            WriteError::WriteFault(_) => Fault::WriteFault,
            WriteError::Memory => Fault::Memory,
        }
    }
}

/// Why standard input is not read whole. An input that is not there is one that cannot be read.
impl From<InputError> for Fault {
    ghost use Rattle.std.specs.Prelude.{◌≡◌};
    ghost use Rattle.plan_commands.specs.Fault.{input_fault};

    ghost from_gives = { λ error fault. fault ≡ input_fault error };

    fn from(error: InputError) -> Fault {
        match error {
            InputError::NoFile | InputError::NoPermission | InputError::ReadFault => {
                Fault::ReadFault
            }
            InputError::TooLong => Fault::TooLong,
            InputError::Memory => Fault::Memory,
        }
    }
}

impl From<PageError> for Fault {
    ghost use Rattle.std.specs.Prelude.{◌≡◌};
    ghost use Rattle.plan_commands.specs.declared.fault.Fault.TheVariants.{Page};

    ghost from_gives = { λ error fault. fault ≡ Page error };

    fn from(error: PageError) -> Fault {
        Fault::Page(error)
    }
}

impl From<AllocError> for Fault {
    ghost use Rattle.std.specs.Prelude.{◌≡◌};
    ghost use Rattle.plan_commands.specs.declared.fault.Fault.TheVariants.{Memory};

    ghost from_gives = { λ _ fault. fault ≡ Memory };

    fn from(_: AllocError) -> Fault {
        Fault::Memory
    }
}
