//! A stream that is read and written up to one moment.

use std::cell::Cell;
use std::io;
use std::io::{ErrorKind, Read, Write};
use std::net::TcpStream;
use std::time::{Clock, Duration};

/// The moment, on the monotonic clock. The reader, the writer and the service of one connection share it.
#[derive(Drop)]
pub struct Limit {
    ends: Cell<Duration>,
}

impl Limit {
    /// So many milliseconds from now. The error is that there is no clock.
    pub fn from_now<R: Clock>(rt: &R, milliseconds: u32) -> io::Result<Limit> {
        let limit = Limit {
            ends: Cell::new(Duration::ZERO),
        };
        limit.renew(rt, milliseconds)?;
        Ok(limit)
    }

    /// So many milliseconds from now, whatever it was. The error is that there is no clock.
    pub fn renew<R: Clock>(&self, rt: &R, milliseconds: u32) -> io::Result<()> {
        let now = rt.monotonic()?;
        self.ends.set(now.saturating_add(Duration::from_millis(milliseconds as u64)));
        Ok(())
    }

    /// How long it still is, a millisecond at least, since the system takes no shorter time. After it the error is `TimedOut`.
    fn left<R: Clock>(&self, rt: &R) -> io::Result<Duration> {
        let now = rt.monotonic()?;
        let left = self.ends.get().saturating_sub(now);
        if left < Duration::from_millis(1) {
            return Err(ErrorKind::TimedOut.into());
        }
        Ok(left)
    }
}

/// One side of a stream, up to the limit's moment. A peer that gives or takes a byte now and then lets no single call time out, so each
/// call is given what is left.
#[derive(Drop)]
pub struct Limited<'a, R> {
    /// The clock.
    pub rt: &'a R,
    /// The stream.
    pub stream: &'a TcpStream,
    /// The moment.
    pub limit: &'a Limit,
}

impl<'a, R: Clock> Read for Limited<'a, R> {
    fn read(&mut self, buf: &mut [u8]) -> io::Result<usize> {
        let left = self.limit.left(self.rt)?;
        self.stream.set_read_timeout(Some(left))?;
        let mut stream = self.stream;
        stream.read(buf)
    }
}

impl<'a, R: Clock> Write for Limited<'a, R> {
    fn write(&mut self, buf: &[u8]) -> io::Result<usize> {
        let left = self.limit.left(self.rt)?;
        self.stream.set_write_timeout(Some(left))?;
        let mut stream = self.stream;
        stream.write(buf)
    }

    fn flush(&mut self) -> io::Result<()> {
        Ok(())
    }
}
