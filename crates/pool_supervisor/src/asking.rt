//! The load for an attempt: what the server says of its queues.
ghost use Rattle.std.specs.Prelude.{◌≡◌, ◌-◌, ◌<◌, ◌^◌};
ghost use Rattle.job_runner.specs.Run.{seen_link};
ghost use Rattle.pool_supervisor.specs.Asking.{Asked, Asks};
ghost use Rattle.pool_supervisor.specs.Steps.{Reads};

use crate::attempt::Attempt;
use crate::dial::Dial;
use byte_io::{Device, DeviceFault, Sink, Source, Took, give_all};
use gear_status::{Load, StatusError, read_status};
use std::alloc::Global;
use std::marker::{Brand, PhantomData};
use std::snapshot::Snapshot;

/// What a link has taken, as a name.
trait Sent {
    ghost use Rattle.byte_io.specs.Sides.{Output};

    ghost sent: { Output };
}

impl Sent for Brand {
    ghost use Rattle.byte_io.specs.Sides.{no_output};

    ghost sent = { no_output };
}

/// A link that is read and not written to, so that what it has taken stays as it is.
struct Listening<L: Source + Sink, K: Sent> {
    link: L,
    of: PhantomData<K>,
    ghost kept: { L.output link ≡ K.sent },
}

impl<L: Source + Sink, K: Sent> Device for Listening<L, K> {
    ghost input = { λ listening. L.input listening.link };
}

impl<L: Source + Sink, K: Sent> Source for Listening<L, K> {
    fn take(&mut self, buffer: &mut [u8]) -> Result<Took, DeviceFault> {
        self.link.take(buffer)
    }
}

/// Reads a status from a link. What the link has taken stays as it is.
fn listen<L: Source + Sink, K: Sent>(alloc: Global, link: L) -> (Result<Load, StatusError>, L)
    requires input { (L.input link).failures < 2 ^ 64 - 1 }
    requires sent { L.output link ≡ K.sent }
    ensures reads { Reads result.0 (L.input link) (L.input result.1) }
    ensures sent { L.output result.1 ≡ K.sent }
{
    let mut listening: Listening<L, K> = Listening {
        link,
        of: PhantomData,
    };
    let answer = read_status(alloc, &mut listening);
    let Listening { link, of: _ } = listening;
    (answer, link)
}

/// Asks a link for the status, and hands it back. The error is the line of an attempt that has no load.
fn ask<L: Source + Sink>(alloc: Global, mut link: L) -> (Result<Load, Attempt>, L)
    requires output { (L.output link).failures < 2 ^ 64 - 1 }
    requires input { (L.input link).failures < 2 ^ 64 - 1 }
    ensures { Asked result.0 (seen_link L.input L.output link) (seen_link L.input L.output result.1) }
{
    if give_all(&mut link, b"status\n").is_err() {
        return (Err(Attempt::NoLink), link);
    }
    let (answer, link) = listen::<L, Brand>(alloc, link);
    match answer {
        Ok(load) => (Ok(load), link),
        Err(error) => (Err(Attempt::Status(error)), link),
    }
}

/// Asks the server for its load over a link of its own, which is closed then. The error is the line of an attempt without a load, and says
/// why: there was no link, or it took no request, or the server's answer means no load.
pub fn ask_for_load<L: Source + Sink + Drop, Y: Dial<L>>(
    alloc: Global,
    dial: &mut Y,
) -> Result<Load, Attempt>
    ensures { Asks result (Y.calls dial.old) (Y.calls dial.new) }
{
    let Some(link) = dial.dial_for_status() else {
        return Err(Attempt::NoLink);
    };
    let (answer, link) = ask(alloc, link);
    let left = Snapshot::of(&link);
    drop(link);
    dial.hung_up(left);
    answer
}
