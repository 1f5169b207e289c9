//! What a farm is lent by the machine that it is run on.

use crate::manager::Stage;
use byte_io::{Sink, Source};
use devices::DialError;
use farm_page::{FailureView, FarmView};
use http_jobs::{CallTimes, Clock, Dial, Look};
use page_server::PageTimes;
use run_command::Host;
use service_settings::Page;
use std::alloc::AllocError;
use std::io;

/// What a farm is lent by the machine that it is run on: what a run is, and connections to services, an end, and somebody who reads its
/// lines.
pub trait FarmHost: Host {
    ghost use Rattle.std.specs.Prelude.{◌≡◌, IfSome, string_bytes};
    ghost use Rattle.http_jobs.specs.Serving.{IsNothing};

    /// A connection to a service.
    type Call: Source + Sink + Look + Send + Drop;

    /// What opens the connections of one worker.
    type Dials: Dial<Self::Call> + Send + Drop;

    /// What shows the time to one worker.
    type Times: Clock + Send + Drop;

    /// What opens connections to this host, `NAME:PORT` or `ADDRESS:PORT`. If it shows its calls, there are none yet.
    fn dials(&self, host: String, times: CallTimes) -> Self::Dials
        ensures host { IfSome (Self.Dials.host result) (λ named. named ≡ string_bytes host) }
        ensures unused { IsNothing (Self.Dials.calls result) };

    /// The same for a look whether this host is still there, which should not wait for a name if the host may be reached without.
    fn looks(&self, host: String, times: CallTimes) -> Self::Dials
        ensures host { IfSome (Self.Dials.host result) (λ named. named ≡ string_bytes host) }
        ensures unused { IsNothing (Self.Dials.calls result) }
    {
        self.dials(host, times)
    }

    /// A clock.
    fn times(&self) -> Self::Times;

    /// How many more files can be open now, if that is less than so many, and else so many.
    fn free_files(&self, most: u32) -> u32 {
        most
    }

    /// Why the last dial of the job server failed, if it did and that is known.
    fn last_failure(&self) -> Option<DialError> {
        None
    }

    /// Whether the farm has to end. Once it has, it always has.
    fn is_to_end(&self) -> bool;

    /// The farm has to end from now on.
    fn begin_end(&self) {}

    /// Waits for so many milliseconds, or until the farm has to end.
    fn rest(&self, milliseconds: u32);

    /// Waits for so many milliseconds, or until the bell rings or the farm has to end. Whether the bell has rung, meanwhile or before.
    fn rest_until_rung(&self, milliseconds: u32) -> bool {
        self.rest(milliseconds);
        false
    }

    /// Rings the bell: who rests until it rings, or does so next, goes on.
    fn ring(&self) {}

    /// The job with the time of now, if the clock can be read.
    fn dated(&self, failure: FailureView) -> FailureView {
        failure
    }

    /// Takes a line of what happens, without a line feed, or that there was no memory for one. It does not wait for whoever reads it.
    fn tell(&self, line: Result<String, AllocError>);

    /// Takes such a line, if there is one.
    fn tell_if(&self, line: Option<Result<String, AllocError>>) {
        if let Some(line) = line {
            self.tell(line);
        }
    }

    /// Takes a line of what the farm came to. It is not left out, however far behind whoever reads the lines is.
    fn tell_last(&self, line: Result<String, AllocError>) {
        self.tell(line);
    }

    /// Takes what is to be told before all other lines, as which signals drain the farm.
    fn tell_start(&self) {}

    /// The farm is so far: a service manager is told what it does not know yet.
    fn note_stage(&self, _stage: Stage) {}

    /// The farm is alive: a service manager that wants to know it is told so.
    fn note_alive(&self) {}

    /// Lets peers ask for the page of the farm at its address. The error says why it cannot be opened.
    fn open_page(&self, _page: &Page, _times: PageTimes) -> io::Result<()> {
        Ok(())
    }

    /// Shows this on the page from now on.
    fn show(&self, _view: FarmView) {}

    /// The farm has ended, and came to this.
    fn tell_end(&self, _text: String) {}
}
