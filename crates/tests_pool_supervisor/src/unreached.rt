//! A dialler that reaches no server, and shows contracts its calls.
ghost use Rattle.std.specs.Prelude.{◌≡◌, ◌∷◌, [], Some};
ghost use Rattle.job_runner.specs.Run.{seen_link};
ghost use Rattle.pool_supervisor.specs.Dials.{closed, then_called};
ghost use Rattle.tests_pool_supervisor.specs.Unreached.{calls_of};

use byte_io::{Device, DeviceFault, Sink, Source, Took};
use pool_supervisor::Dial;
use std::mem;
use std::snapshot::Snapshot;

/// A link over which nothing ever comes.
#[derive(Drop)]
pub struct Silence;

impl Device for Silence {}

impl Source for Silence {
    fn take(&mut self, _buffer: &mut [u8]) -> Result<Took, DeviceFault> {
        Ok(Took::Lull)
    }
}

impl Sink for Silence {
    fn give(&mut self, bytes: &[u8]) -> Result<usize, DeviceFault> {
        Ok(bytes.len())
    }
}

/// The calls of the dialler so far, the last one first. It keeps them as a snapshot, which has no bytes.
#[derive(Drop)]
pub enum Calls {
    /// None yet.
    New,
    /// These, and a dial that failed.
    Failed(Snapshot<Calls>),
    /// These, and word that a link was closed.
    HungUp(Snapshot<Calls>),
}

/// A dialler that reaches no server.
#[derive(Drop)]
pub struct Unreached {
    calls: Snapshot<Calls>,
}

impl Unreached {
    /// One that has not been called.
    pub fn new() -> Unreached
        ensures { ⟦<Unreached as Dial<Silence>>⟧.calls result ≡ Some [] }
    {
        Unreached {
            calls: Snapshot::of(&Calls::New),
        }
    }
}

impl Dial<Silence> for Unreached {
    ghost use Rattle.std.specs.Prelude.{Some};
    ghost use Rattle.tests_pool_supervisor.specs.Unreached.{calls_of};

    ghost calls = { λ d. Some (calls_of d.calls.value) };

    fn dial(&mut self) -> Option<Silence> {
        let before = mem::replace(&mut self.calls, Snapshot::of(&Calls::New));
        self.calls = Snapshot::of(&Calls::Failed(before));
        None
    }

    fn hung_up(&mut self, link: Snapshot<Silence>)
        ensures calls { Some (calls_of self.new.calls.value) ≡ then_called (Some (calls_of self.old.calls.value))
            (closed (seen_link ⟦<Silence as Device>⟧.input ⟦<Silence as Device>⟧.output link.value) ∷ []) }
    {
        // Nothing came over it, and what went is not reported.
        drop(link);
        let before = mem::replace(&mut self.calls, Snapshot::of(&Calls::New));
        self.calls = Snapshot::of(&Calls::HungUp(before));
    }
}
