//! A TCP stream as a source and a sink.

ghost use Rattle.std.specs.Prelude.{◌≡◌, ◌+◌, ◌-◌, ◌^◌, ◌<◌, ◌≤◌, length, IfOk, IfSome};
ghost use Rattle.byte_io.specs.Device.{failure_of};
ghost use Rattle.byte_io.specs.Sides.{no_input, no_output};

use crate::reads::Reads;
use crate::results::TimeLimit;
use crate::writes::write_some;
use byte_io::{Device, DeviceFault, LAST_TIMEOUT, Sink, Source, Took};
use link_options::LinkOptions;
use std::io;
use std::io::{ErrorKind, Read, Write};
use std::net::TcpStream;
use std::time::Duration;

/// A TCP stream to the job server or a service, as a source and a sink with one descriptor.
///
/// A read that takes longer than its time limit is a timeout. A write that takes longer than 65 of them, or than was set since, is a
/// failure, so a server that stops reading holds a session no longer than that. It reports to contracts how often it failed and whether its
/// input has ended, and no bytes: nothing can be proved of what a socket carries.
#[derive(Drop)]
pub struct TcpLink {
    stream: TcpStream,
    /// How many milliseconds a read takes at most, if no other limit was set since.
    lull_ms: u32,
    reads: Reads,
    /// How many writes failed.
    give_failures: u64,
}

impl Device for TcpLink {
    ghost use Rattle.std.specs.Prelude.{None};

    ghost input = { λ s. record { given = None; lulls = None; failures = s.reads.failures; has_ended = s.reads.has_ended } };

    ghost output = { λ s. record { got = None; failures = s.give_failures } };
}

impl TcpLink {
    /// A link over a connected stream, that has not failed and has not found its end. It sets the two time limits, and turns Nagle's
    /// algorithm off (TCP_NODELAY): an answer and the next request for a job are two writes with no read between, of which the second
    /// would else wait for the server's delayed acknowledgement, some 40 milliseconds a job. By these options it finds that its peer is
    /// gone: a read or a write then fails. The error is the system's, if one of all these cannot be set.
    pub fn new(stream: TcpStream, lull_ms: u32, options: LinkOptions) -> io::Result<TcpLink>
        ensures input { IfOk result (λ link. ⟦<TcpLink as Device>⟧.input link ≡ no_input) }
        ensures output { IfOk result (λ link. ⟦<TcpLink as Device>⟧.output link ≡ no_output) }
    {
        stream.set_nodelay(true)?;
        stream.set_read_timeout(Some(Duration::from_millis(lull_ms as u64)))?;
        stream.set_write_timeout(Some(Duration::from_millis(
            lull_ms as u64 * LAST_TIMEOUT as u64,
        )))?;
        options.set_on(&stream)?;
        Ok(TcpLink {
            stream,
            lull_ms,
            reads: Reads::new(),
            give_failures: 0,
        })
    }

    /// Lets each write from now on take so many milliseconds, and no longer. The error is the system's, or that zero is no time: then the
    /// limit stays as it was.
    pub fn limit_writes(&self, milliseconds: u64) -> io::Result<()> {
        self.stream
            .set_write_timeout(Some(Duration::from_millis(milliseconds)))
    }

    /// Lets each read from now on take so many milliseconds, and no longer. The error is the system's, or that zero is no time: then the
    /// limit stays as it was.
    pub fn limit_reads(&self, milliseconds: u64) -> io::Result<()> {
        self.stream
            .set_read_timeout(Some(Duration::from_millis(milliseconds)))
    }

    /// Lets each read from now on take as long as at first. The error is the system's: then the limit stays as it was.
    pub fn reset_reads(&self) -> io::Result<()> {
        self.limit_reads(self.lull_ms as u64)
    }

    /// Writes the bytes, or a prefix of them, as far as the system has room for them, and does not wait. It says how many bytes it took, at
    /// least one, or none if there is no room now. After a failure it took none, but if the stream could not be told to wait again: then it
    /// may have taken a prefix, and the stream is of no more use.
    pub fn give_at_once(&mut self, bytes: &[u8]) -> Result<Option<usize>, DeviceFault>
        requires some { 0 < length bytes.now }
        requires count { (⟦<TcpLink as Device>⟧.output self.old).failures < 2 ^ 64 - 1 }
        ensures within { IfOk result (λ given. IfSome given (λ n. (1 ≤ n) × (n ≤ length bytes.now))) }
        ensures fails { (⟦<TcpLink as Device>⟧.output self.new).failures
            ≡ (⟦<TcpLink as Device>⟧.output self.old).failures + failure_of result }
        ensures input { ⟦<TcpLink as Device>⟧.input self.new ≡ ⟦<TcpLink as Device>⟧.input self.old }
    {
        let given = self.write_at_once(bytes);
        if given.is_err() {
            self.give_failures += 1;
        }
        given
    }

    /// The same, uncounted.
    fn write_at_once(&mut self, bytes: &[u8]) -> Result<Option<usize>, DeviceFault>
        requires some { 0 < length bytes.now }
        ensures within { IfOk result (λ given. IfSome given (λ n. (1 ≤ n) × (n ≤ length bytes.now))) }
        ensures counted { self.new.give_failures ≡ self.old.give_failures }
        ensures reads { self.new.reads ≡ self.old.reads }
    {
        if self.stream.set_nonblocking(true).is_err() {
            return Err(DeviceFault);
        }
        let written = self.stream.write(bytes);
        if self.stream.set_nonblocking(false).is_err() {
            return Err(DeviceFault);
        }
        match written {
            Ok(0) => Err(DeviceFault),
            Ok(count) => Ok(Some(count)),
            Err(error) => match error.kind() {
                ErrorKind::WouldBlock | ErrorKind::Interrupted => Ok(None),
                _ => Err(DeviceFault),
            },
        }
    }

    /// Whether the stream is open and nothing has come over it that was not read. It does not wait, and takes nothing. A stream of which
    /// the system does not say that is not quiet.
    pub fn is_quiet(&self) -> bool {
        if self.stream.set_nonblocking(true).is_err() {
            return false;
        }
        let seen = self.stream.peek(&mut [0u8; 1]);
        if self.stream.set_nonblocking(false).is_err() {
            return false;
        }
        match seen {
            Ok(_) => false,
            Err(error) => error.kind() == ErrorKind::WouldBlock,
        }
    }
}

impl Source for TcpLink {
    fn take(&mut self, buffer: &mut [u8]) -> Result<Took, DeviceFault> {
        self.reads.has_ended = false;
        match self.stream.read(buffer) {
            Ok(0) => {
                self.reads.has_ended = true;
                Ok(Took::Ended)
            }
            Ok(count) => Ok(Took::Bytes(count)),
            Err(error) => self.reads.stopped(error.kind(), TimeLimit::Set),
        }
    }
}

impl Sink for TcpLink {
    fn give(&mut self, bytes: &[u8]) -> Result<usize, DeviceFault> {
        let given = write_some(&mut self.stream, bytes);
        if given.is_err() {
            self.give_failures += 1;
        }
        given
    }
}
