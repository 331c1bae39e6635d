ghost use Rattle.std.specs.Prelude.{◌≡◌, ◌+◌, ◌-◌, ◌^◌, ◌≤◌, ◌<◌, min, length, None};
ghost use Rattle.std.specs.Io.KnownBytes.{Keeps};
ghost use Rattle.st_base.specs.Faults.{HasCause, next_count};

use crate::failures::{Call, CallFailure, Failed};
use crate::sinks::Sink;
use crate::sources::Source;
use std::io::{self, ErrorKind, Read, Write};

/// A reader of std as a source: standard input, or a file.
///
/// It makes one call of its reader for each of its own, so give it a reader with a buffer. Each
/// failure of the reader is a fault, the first of which it keeps, but a read that a signal broke
/// off is made again. Its bytes to come are known if its reader's are; those of a file or a stream
/// are not.
#[derive(Drop)]
pub struct StreamSource<R> {
    reader: R,
    faults: u64,
    failure: Option<CallFailure>,
}

impl<R: Read> StreamSource<R> {
    /// A source that gives what `reader` gives.
    pub fn over(reader: R) -> StreamSource<R>
        ensures reader { result.reader ≡ reader }
        ensures faults { result.faults ≡ 0 }
    {
        StreamSource {
            reader,
            faults: 0,
            failure: None,
        }
    }
}

impl<R> StreamSource<R> {
    /// The first failure of the reader that was counted.
    pub fn failure(&self) -> Option<CallFailure> {
        self.failure
    }

    // Counts a failure of the reader, and keeps the first one.
    fn fail(&mut self, call: Call, error: io::Error) -> Failed
        ensures reader { self.new.reader ≡ self.old.reader }
        ensures faults { self.new.faults ≡ next_count self.old.faults }
    {
        self.faults = self.faults.saturating_add(1);
        self.failure = self.failure.or(Some(CallFailure { call, error }));
        Failed
    }
}

impl<R: Read> Source for StreamSource<R> {
    ghost Beside = { Unit {0} };

    ghost left = { λ s. R.remaining s.reader };

    ghost faults = { λ s. s.faults };

    ghost beside = { λ s. tt };

    fn read(&mut self, out: &mut [u8]) -> Result<usize, Failed> {
        let mut error = io::Error::from(ErrorKind::Interrupted);
        'tries: for _ in 0..u64::MAX {
            match self.reader.read(out) {
                Ok(count) => return Ok(count),
                Err(found) => {
                    if found.kind() != ErrorKind::Interrupted {
                        error = found;
                        break;
                    }
                }
            }
        }
        Err(self.fail(Call::Read, error))
    }
}

/// A writer of std as a sink: standard output, standard error, or a file.
///
/// Each failure to write a piece with bytes or to flush is a fault, and so is a write that takes
/// nothing of such a piece; the first fault's failure is kept. A write that a signal broke off is
/// made again. What it has is known if what its writer has is; that of a file or a stream is not.
#[derive(Drop)]
pub struct StreamSink<W> {
    writer: W,
    faults: u64,
    failure: Option<CallFailure>,
}

impl<W: Write> StreamSink<W> {
    /// A sink that gives `writer` what it is given.
    pub fn over(writer: W) -> StreamSink<W>
        ensures writer { result.writer ≡ writer }
        ensures faults { result.faults ≡ 0 }
    {
        StreamSink {
            writer,
            faults: 0,
            failure: None,
        }
    }

    /// The writer.
    pub fn writer(&self) -> &W
        ensures { result.now ≡ self.now.writer }
    {
        &self.writer
    }

    /// Counts a failure of the writer, which a call that was made past this sink may have met too,
    /// and keeps the first one.
    pub fn fail(&mut self, call: Call, error: io::Error) -> Failed
        ensures writer { self.new.writer ≡ self.old.writer }
        ensures faults { self.new.faults ≡ next_count self.old.faults }
    {
        self.faults = self.faults.saturating_add(1);
        self.failure = self.failure.or(Some(CallFailure { call, error }));
        Failed
    }

    /// The first failure of the writer that was counted.
    pub fn failure(&self) -> Option<CallFailure> {
        self.failure
    }

    /// The count of faults.
    pub fn fault_count(&self) -> u64
        ensures { result ≡ self.now.faults }
    {
        self.faults
    }

    /// Has the writer hand on what it buffered.
    ///
    /// `Failed` comes only if `faults` rose in this call; how much the writer then handed on is not
    /// said.
    pub fn flush(&mut self) -> Result<(), Failed>
        ensures bytes { Keeps (W.contents self.old.writer) (W.contents self.new.writer) }
        ensures cause { HasCause self.old.faults self.new.faults result }
    {
        let mut error = io::Error::from(ErrorKind::Interrupted);
        'tries: for _ in 0..u64::MAX {
            match self.writer.flush() {
                Ok(()) => return Ok(()),
                Err(found) => {
                    if found.kind() != ErrorKind::Interrupted {
                        error = found;
                        break;
                    }
                }
            }
        }
        Err(self.fail(Call::Flush, error))
    }
}

impl<W: Write> Sink for StreamSink<W> {
    ghost Beside = { Unit {0} };

    ghost written = { λ s. W.contents s.writer };

    ghost faults = { λ s. s.faults };

    ghost beside = { λ s. tt };

    fn write(&mut self, bytes: &[u8]) -> Result<usize, Failed> {
        let mut error = io::Error::from(ErrorKind::WriteZero);
        'tries: for _ in 0..u64::MAX {
            match self.writer.write(bytes) {
                Ok(0) => break,
                Ok(taken) => return Ok(taken),
                Err(found) => {
                    if found.kind() != ErrorKind::Interrupted {
                        error = found;
                        break;
                    }
                }
            }
        }
        if bytes.is_empty() {
            return Ok(0);
        }
        Err(self.fail(Call::Write, error))
    }
}
