//! Readers as sources and writers as sinks: standard input and output, and files.

ghost use Rattle.std.specs.Prelude.{◌≡◌};
ghost use Rattle.devices.specs.Streams.{first_input, first_output};

use crate::reads::Reads;
use crate::results::TimeLimit;
use crate::writes::write_some;
use byte_io::{Device, DeviceFault, Sink, Source, Took};
use std::io::{Read, Write};
use std::marker::Model;
use std::snapshot::Snapshot;

/// A reader as a source. It counts its failures and its timeouts, and reports what it gave if the reader reports what it has
/// left. It has no time limit, so that it times out only if a signal interrupts a read.
#[derive(Drop)]
pub struct InputSource<R: Read> {
    reader: R,
    first: Snapshot<R>,
    reads: Reads,
}

impl<R: Read> Model for InputSource<R> {
    ghost use Rattle.std.specs.Prelude.{Some};
    ghost use Rattle.byte_io.specs.Sides.{Input};
    ghost use Rattle.devices.specs.Streams.{IsLeft, given_of};

    ghost Value = { Input };

    ghost view = { λ s. record {
      given = given_of (R.remaining s.first.value) (R.remaining s.reader);
      lulls = Some s.reads.timeouts;
      failures = s.reads.failures;
      has_ended = s.reads.has_ended;
    } };

    ghost invariant = { λ s. IsLeft (R.remaining s.first.value) (R.remaining s.reader) s.reads.has_ended };
}

impl<R: Read + Drop> InputSource<R> {
    /// A source that has not failed, and has not found its end.
    pub fn new(reader: R) -> InputSource<R>
        ensures { result ≡ first_input (R.remaining reader) }
    {
        InputSource {
            first: Snapshot::of(&reader),
            reader,
            reads: Reads::new(),
        }
    }
}

impl<R: Read + Drop> Device for InputSource<R> {
    ghost input = { λ s. s };
}

impl<R: Read + Drop> Source for InputSource<R> {
    fn take(&mut self, buffer: &mut [u8]) -> Result<Took, DeviceFault> {
        self.reads.has_ended = false;
        match self.reader.read(buffer) {
            Ok(0) => {
                self.reads.has_ended = true;
                Ok(Took::Ended)
            }
            Ok(count) => Ok(Took::Bytes(count)),
            Err(error) => self.reads.stopped(error.kind(), TimeLimit::Unset),
        }
    }
}

/// A writer as a sink. It counts its failures, and reports what the writer holds if the writer does. A write that takes
/// nothing is a failure.
#[derive(Drop)]
pub struct OutputSink<W: Write> {
    writer: W,
    first: Snapshot<W>,
    failures: u64,
}

impl<W: Write> Model for OutputSink<W> {
    ghost use Rattle.byte_io.specs.Sides.{Output};
    ghost use Rattle.devices.specs.Streams.{HasGrown, held_of};

    ghost Value = { Output };

    ghost view = { λ s. record { got = held_of (W.contents s.first.value) (W.contents s.writer); failures = s.failures } };

    ghost invariant = { λ s. HasGrown (W.contents s.first.value) (W.contents s.writer) };
}

impl<W: Write + Drop> OutputSink<W> {
    /// A sink that has not failed.
    pub fn new(writer: W) -> OutputSink<W>
        ensures { result ≡ first_output (W.contents writer) }
    {
        OutputSink {
            first: Snapshot::of(&writer),
            writer,
            failures: 0,
        }
    }
}

impl<W: Write + Drop> Device for OutputSink<W> {
    ghost output = { λ s. s };
}

impl<W: Write + Drop> Sink for OutputSink<W> {
    fn give(&mut self, bytes: &[u8]) -> Result<usize, DeviceFault> {
        let given = write_some(&mut self.writer, bytes);
        if given.is_err() {
            self.failures += 1;
        }
        given
    }
}
