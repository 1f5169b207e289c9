//! What a command was given, by its names.

ghost use Rattle.std.specs.Prelude.{◌≡◌};
ghost use Rattle.fault_detail.specs.Detail as spec;

use plan_commands::{Fault, NamedFile};

/// What a command was given, by the names that its words have.
#[derive(Clone, Copy)]
pub struct Given<'a> {
    /// The name of the settings file.
    pub settings: &'a str,
    /// The name of the services file, if the command has one.
    pub services: Option<&'a str>,
    /// The name of the file with the status text, if the command has one: else that is on standard input.
    pub status: Option<&'a str>,
    /// The names of the lost workers.
    pub lost: &'a [&'a str],
}

/// What a fault is about.
#[derive(Clone, Copy)]
pub enum Subject<'a> {
    /// A file or a lost worker, by the name that the command was given.
    Named(&'a str),
    /// What has no name on the command line, in words.
    Unnamed(&'static str),
}

impl<'a> Given<'a> {
    /// What the fault is about: a file by its name, a lost worker by its name, a standard stream, or the page of a farm.
    pub fn subject(&self, fault: &Fault) -> Subject<'a>
        ensures { spec.subject_words result ≡ spec.subject (spec.names_of self.now) fault.now }
    {
        match fault {
            Fault::Settings(_) | Fault::File(NamedFile::Settings, _) => {
                Subject::Named(self.settings)
            }
            Fault::Services(_) | Fault::File(NamedFile::Services, _) => self.services_file(),
            Fault::Status(_) | Fault::File(NamedFile::Status, _) => self.status_text(),
            Fault::UnknownWorker(place) => self.lost_worker(*place),
            Fault::WriteFault => Subject::Unnamed("standard output"),
            Fault::Page(_) => Subject::Unnamed("the page"),
            Fault::Memory => Subject::Unnamed("memory"),
            Fault::Report(_) | Fault::BadCommand(_) | Fault::TooLong | Fault::ReadFault => {
                Subject::Unnamed("standard input")
            }
        }
    }

    fn services_file(&self) -> Subject<'a>
        ensures { spec.subject_words result ≡ spec.services_words (spec.names_of self.now) }
    {
        match self.services {
            Some(name) => Subject::Named(name),
            None => Subject::Unnamed("the services file"),
        }
    }

    fn status_text(&self) -> Subject<'a>
        ensures { spec.subject_words result ≡ spec.status_words (spec.names_of self.now) }
    {
        match self.status {
            Some(name) => Subject::Named(name),
            None => Subject::Unnamed("standard input"),
        }
    }

    /// The lost worker at this place, and the empty name after the last.
    fn lost_worker(&self, place: usize) -> Subject<'a>
        ensures { spec.subject_words result ≡ spec.lost_words place (spec.names_of self.now) }
    {
        match self.lost.get(place) {
            Some(name) => Subject::Named(*name),
            None => Subject::Named(""),
        }
    }
}
