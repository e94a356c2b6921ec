use edge::*;
use std::io;
use std::io::{ErrorKind, Read, Write};
use std::test::Fail;

fn label(input: &Input) -> &'static str {
    match input {
        Input::Whole(_) => "whole",
        Input::TooLarge => "too large",
        Input::Failed => "failed",
        Input::OutOfMemory => "out of memory",
    }
}

#[test]
fn reads_to_the_end(rt: HostRuntime) -> Result<(), Fail> {
    for (fails, limit, want) in [(0, 3, "whole"), (0, 2, "too large"), (2, 3, "failed")] {
        let bytes = b"abc".to_vec(rt.alloc())?;
        let mut source = MemSource::new(bytes, [fails].to_vec(rt.alloc())?);
        let input = read_all(rt.alloc(), &mut source, limit);
        assert_eq!(rt; label(&input), want);
    }
    let mut source = SureSource::new(b"abc".to_vec(rt.alloc())?);
    let input = read_all(rt.alloc(), &mut source, 3);
    assert_eq!(rt; label(&input), "whole");
    Ok(())
}

#[test]
fn writes_all(rt: HostRuntime) -> Result<(), Fail> {
    let mut sink = MemSink::new(rt.alloc(), [2].to_vec(rt.alloc())?);
    assert_eq!(rt; write_all(&mut sink, b"hello"), Ok(()));
    assert_eq!(rt; sink.bytes(), b"hello".as_slice());
    assert_eq!(rt; write_all(&mut SureSink::new(), b"hello"), Ok(()));
    NoGate.enter(0);
    NoGate.leave(0);
    Ok(())
}

// A stream of std: so many of its next calls are interrupted, and it moves at most two bytes.
#[derive(Drop)]
struct Stream {
    interruptions: u64,
    calls: u64,
    is_stuck: bool,
    content: Vec<u8>,
}

impl Stream {
    fn new(interruptions: u64, content: Vec<u8>) -> Stream {
        Stream {
            interruptions,
            calls: 0,
            is_stuck: false,
            content,
        }
    }

    fn call(&mut self) -> io::Result<()> {
        self.calls = self.calls.saturating_add(1);
        if self.calls <= self.interruptions {
            return Err(io::Error::from(ErrorKind::Interrupted));
        }
        Ok(())
    }
}

impl Read for Stream {
    fn read(&mut self, buf: &mut [u8]) -> io::Result<usize> {
        self.call()?;
        let count = buf.len().min(self.content.len()).min(2);
        buf[..count].copy_from_slice(&self.content[..count]);
        self.content.drain(..count);
        Ok(count)
    }
}

impl Write for Stream {
    fn write(&mut self, buf: &[u8]) -> io::Result<usize> {
        self.call()?;
        let count = buf.len().min(2);
        self.content.extend_from_slice(&buf[..count])?;
        Ok(count)
    }

    fn flush(&mut self) -> io::Result<()> {
        if self.is_stuck {
            return Err(io::Error::from(ErrorKind::BrokenPipe));
        }
        Ok(())
    }
}

#[test]
fn a_std_reader_is_called_again(rt: HostRuntime) -> Result<(), Fail> {
    for (interruptions, want, calls) in [(999, "whole", 1003), (u64::MAX, "failed", 1000)] {
        let mut stream = Stream::new(interruptions, b"hello".to_vec(rt.alloc())?);
        let input = read_all(rt.alloc(), &mut StdSource::new(&mut stream), 9);
        assert_eq!(rt; label(&input), want, "{interruptions} interruptions");
        assert_eq!(rt; stream.calls, calls);
    }
    Ok(())
}

// The third row's flush fails, so that one piece is written and answered for as a fault.
#[test]
fn a_std_writer_is_called_again(rt: HostRuntime) -> Result<(), Fail> {
    for (interruptions, is_stuck, want, calls, held) in [
        (1, false, Ok(()), 4, b"hello".as_slice()),
        (u64::MAX, false, Err(Failed), 1000, b""),
        (0, true, Err(Failed), 1, b"he"),
    ] {
        let mut stream = Stream::new(interruptions, Vec::new(rt.alloc()));
        stream.is_stuck = is_stuck;
        assert_eq!(rt; write_all(&mut StdSink::new(&mut stream), b"hello"), want);
        assert_eq!(rt; stream.calls, calls);
        assert_eq!(rt; stream.content.as_slice(), held);
    }
    Ok(())
}
