//! The line of a fault, in pieces that take no memory.

ghost use Rattle.std.specs.Prelude.{◌≡◌, ◌++◌, Some};
ghost use Rattle.refusal.specs.Label.{label_words};
ghost use Rattle.plan_commands.specs.Fault.{fault_line, input_words, on_line};
ghost use Rattle.fault_detail.specs.Pieces as spec;

use devices::InputError;
use plan_commands::{Fault, PageError};
use refusal::{Label, Labelled};

/// The number at the end of a fault line.
#[derive(Clone, Copy)]
pub enum Count {
    /// The line that is at fault, counted from 1.
    Line(u64),
    /// The status that a page answered with.
    Status(u16),
}

/// The line of a fault, in pieces.
#[derive(Drop)]
pub struct Pieces {
    /// The word for what is at fault, or the whole line.
    pub words: &'static str,
    /// The number and the name of the refusal, if they are not among the words.
    pub label: Option<Label>,
    /// The number at the end, if there is one.
    pub count: Option<Count>,
}

impl Pieces {
    /// The pieces of the line of this fault.
    pub fn of(fault: &Fault) -> Pieces
        ensures { spec.pieces_text result ≡ fault_line fault.now }
    {
        match fault {
            Fault::Settings(mistake) => labelled("settings ", mistake.error.label(), None),
            Fault::Services(mistake) => labelled("services ", mistake.error.label(), None),
            Fault::UnknownWorker(_) => alone("lost 1 UnknownWorker"),
            Fault::Status(error) => {
                labelled("status ", error.label(), error.line().map(u64::from))
            }
            Fault::Report(error) => labelled("report ", error.label(), error.line()),
            Fault::BadCommand(line) => counted("events 1 BadLine", Count::Line(*line)),
            Fault::File(_, error) => alone(input_words(*error)),
            Fault::TooLong => alone(input_words(InputError::TooLong)),
            Fault::ReadFault => alone(input_words(InputError::ReadFault)),
            Fault::WriteFault => alone("device 2 WriteFault"),
            Fault::Page(PageError::Unreached) => alone("page 1 Unreached"),
            Fault::Page(PageError::Unanswered) => alone("page 2 Unanswered"),
            Fault::Page(PageError::Refused(status)) => {
                counted("page 3 Refused", Count::Status(*status))
            }
            Fault::Memory => alone("memory"),
        }
    }
}

/// A word for what is at fault, the label of the refusal, and the line, if it is on one.
fn labelled(words: &'static str, label: Label, line: Option<u64>) -> Pieces
    ensures { spec.pieces_text result ≡ words.now ++ label_words label ++ on_line line }
{
    Pieces {
        words,
        label: Some(label),
        count: line.map(Count::Line),
    }
}

/// The words that name the refusal, and the number at the end.
fn counted(words: &'static str, count: Count) -> Pieces
    ensures { spec.pieces_text result ≡ words.now ++ spec.count_text (Some count) }
{
    Pieces {
        words,
        label: None,
        count: Some(count),
    }
}

/// A line that has no number at its end.
fn alone(words: &'static str) -> Pieces
    ensures { spec.pieces_text result ≡ words.now }
{
    Pieces {
        words,
        label: None,
        count: None,
    }
}

/// Why a file was not read whole.
fn input_words(error: InputError) -> &'static str
    ensures { result.now ≡ input_words error }
{
    match error {
        InputError::NoFile | InputError::NoPermission => "device 3 NoFile",
        InputError::ReadFault => "device 1 ReadFault",
        InputError::TooLong => "input 1 TooLong",
        InputError::Memory => "memory",
    }
}
