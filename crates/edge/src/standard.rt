ghost use Rattle.std.specs.Prelude.{◌≡◌, ◌<◌, IfOk, None, length};
ghost use Rattle.std.specs.Io.{ReadsAtMost, WritesAtMost};
ghost use Rattle.std.specs.Io.KnownBytes.{Keeps, ReadConsumes, WriteAppends};
ghost use Rattle.edge.specs.Causes.{HasCause, count_after};
ghost use Rattle.edge.specs.Standard.{GoesOn, reader_of, source_faults, writer_of, sink_faults};

use crate::failed::Failed;
use crate::sink::Sink;
use crate::source::Source;
use std::io::{ErrorKind, Read, Write};

// The most calls of one kind for one answer, where each is interrupted.
const MOST_CALLS: u32 = 1000;

/// A source over a reader of std. It does not tell what is left. A read moves the bytes that the
/// reader gives, and each `Failed` is counted.
#[derive(Drop)]
pub struct StdSource<R> {
    inner: R,
    faults: u64,
}

impl<R: Read> StdSource<R> {
    /// A source with no fault yet.
    pub fn new(inner: R) -> StdSource<R>
        ensures reader { reader_of result ≡ inner }
        ensures faults { source_faults result ≡ 0 }
    {
        StdSource { inner, faults: 0 }
    }
}

impl<R: Read> Source for StdSource<R> {
    ghost left = { λ _. None };

    ghost faults = { λ s. source_faults s };

    fn read(&mut self, buf: &mut [u8]) -> Result<usize, Failed>
        ensures bound { ReadsAtMost result buf.new }
        ensures bytes { ReadConsumes None None result buf.new }
        ensures cause { HasCause (source_faults self.old) (source_faults self.new) result }

        // Each fault is counted, and the bytes are the reader's.
        ensures counted { source_faults self.new ≡ count_after (source_faults self.old) result }
        ensures passed { ReadConsumes (R.remaining (reader_of self.old))
            (R.remaining (reader_of self.new)) result buf.new }
    {
        let given = read_some(&mut self.inner, buf);
        if given.is_err() {
            self.faults = self.faults.saturating_add(1);
        }
        given
    }
}

fn read_some<R: Read>(inner: &mut R, buf: &mut [u8]) -> Result<usize, Failed>
    ensures bound { ReadsAtMost result buf.new }
    ensures bytes { ReadConsumes (R.remaining inner.old) (R.remaining inner.new) result buf.new }
{
    for _ in 0..MOST_CALLS {
        match inner.read(buf) {
            Ok(count) => return Ok(count),
            Err(error) => {
                if error.kind() != ErrorKind::Interrupted {
                    return Err(Failed);
                }
            }
        }
    }
    Err(Failed)
}

/// A sink over a writer of std. It does not tell what was written. A write that answers n passes the
/// first n bytes of the piece on to the writer, one that fails a front of the piece, which may be
/// all of it or nothing, and each `Failed` is counted.
#[derive(Drop)]
pub struct StdSink<W> {
    inner: W,
    faults: u64,
}

impl<W: Write> StdSink<W> {
    /// A sink with no fault yet.
    pub fn new(inner: W) -> StdSink<W>
        ensures writer { writer_of result ≡ inner }
        ensures faults { sink_faults result ≡ 0 }
    {
        StdSink { inner, faults: 0 }
    }
}

impl<W: Write> Sink for StdSink<W> {
    ghost written = { λ _. None };

    ghost faults = { λ s. sink_faults s };

    fn write(&mut self, bytes: &[u8]) -> Result<usize, Failed>
        ensures bound { WritesAtMost result bytes.now }
        ensures some { IfOk result (λ n. 0 < length bytes.now → 0 < n) }
        ensures bytes { WriteAppends None None result bytes.now }
        ensures cause { HasCause (sink_faults self.old) (sink_faults self.new) result }

        // Each fault is counted, and the bytes go on to the writer.
        ensures counted { sink_faults self.new ≡ count_after (sink_faults self.old) result }
        ensures passed { GoesOn (W.contents (writer_of self.old)) (W.contents (writer_of self.new))
            result bytes.now }
    {
        let taken = write_some(&mut self.inner, bytes);
        if taken.is_err() {
            self.faults = self.faults.saturating_add(1);
        }
        taken
    }
}

// Also fails where the writer takes nothing of a piece that is not empty.
fn write_some<W: Write>(inner: &mut W, bytes: &[u8]) -> Result<usize, Failed>
    ensures bound { WritesAtMost result bytes.now }
    ensures some { IfOk result (λ n. 0 < length bytes.now → 0 < n) }
    ensures passed { GoesOn (W.contents inner.old) (W.contents inner.new) result bytes.now }
{
    for _ in 0..MOST_CALLS {
        match inner.write(bytes) {
            Ok(0) if !bytes.is_empty() => return Err(Failed),
            Ok(count) => {
                // A writer may keep the piece back, and then a fault shows only here.
                flush(inner)?;
                return Ok(count);
            }
            Err(error) => {
                if error.kind() != ErrorKind::Interrupted {
                    return Err(Failed);
                }
            }
        }
    }
    Err(Failed)
}

fn flush<W: Write>(inner: &mut W) -> Result<(), Failed>
    ensures { Keeps (W.contents inner.old) (W.contents inner.new) }
{
    for _ in 0..MOST_CALLS {
        match inner.flush() {
            Ok(()) => return Ok(()),
            Err(error) => {
                if error.kind() != ErrorKind::Interrupted {
                    return Err(Failed);
                }
            }
        }
    }
    Err(Failed)
}
