ghost use Rattle.std.specs.Prelude.{◌≡◌, ◌<◌, min, IfOk, IsErr, IsTrue, Some, length, [], is_err};
ghost use Rattle.std.specs.Io.{ReadsAtMost, WritesAtMost};
ghost use Rattle.std.specs.Io.KnownBytes.{ReadConsumes, WriteAppends};
ghost use Rattle.edge.specs.Causes.{HasCause, count_after, one_more};
ghost use Rattle.edge.specs.Memory.{left_of, written_of, fails_of, calls_of, faults_of, fails_next};

use crate::calls::Calls;
use crate::failed::Failed;
use crate::sink::Sink;
use crate::source::Source;
use crate::unread::Unread;
use std::alloc::Global;
use std::marker::Model;

/// A source over bytes in memory, which fails at the calls that are listed.
#[derive(Debug, Drop)]
pub struct MemSource {
    unread: Unread,
    calls: Calls,
}

impl Model for MemSource {
    ghost use Rattle.edge.specs.Memory.{InMemory};

    ghost Value = { InMemory };

    ghost view = { λ m. record { bytes = m.unread; tally = m.calls } };
}

impl MemSource {
    /// `fails` has the numbers of the calls that are to fail, counted from 1.
    pub fn new(bytes: Vec<u8>, fails: Vec<u64>) -> MemSource
        ensures bytes { left_of result ≡ bytes.items }
        ensures fails { fails_of result ≡ fails.items }
        ensures calls { calls_of result ≡ 0 }
        ensures faults { faults_of result ≡ 0 }
    {
        MemSource {
            unread: Unread::new(bytes),
            calls: Calls::new(fails),
        }
    }
}

impl Source for MemSource {
    ghost left = { λ m. Some (left_of m) };

    ghost faults = { λ m. faults_of m };

    fn read(&mut self, buf: &mut [u8]) -> Result<usize, Failed>
        ensures bound { ReadsAtMost result buf.new }
        ensures bytes { ReadConsumes (Some (left_of self.old)) (Some (left_of self.new))
            result buf.new }
        ensures cause { HasCause (faults_of self.old) (faults_of self.new) result }

        // It fails exactly at a listed call, and else fills the buffer as far as bytes are left.
        ensures listed { is_err result ≡ fails_next self.old }
        ensures count { IfOk result (λ n. n ≡ min (length buf.new) (length (left_of self.old))) }

        ensures calls { calls_of self.new ≡ one_more (calls_of self.old) }
        ensures faults { faults_of self.new ≡ count_after (faults_of self.old) result }
        ensures fails { fails_of self.new ≡ fails_of self.old }
    {
        if self.calls.begin() {
            self.calls.fail();
            return Err(Failed);
        }
        Ok(self.unread.read_into(buf))
    }
}

/// A sink that keeps the bytes in memory, and fails at the calls that are listed.
#[derive(Debug, Drop)]
pub struct MemSink {
    bytes: Vec<u8>,
    calls: Calls,
}

impl Model for MemSink {
    ghost use Rattle.edge.specs.Memory.{InMemory};

    ghost Value = { InMemory };

    ghost view = { λ m. record { bytes = m.bytes.items; tally = m.calls } };
}

impl MemSink {
    /// `fails` has the numbers of the calls that are to fail, counted from 1.
    pub fn new(alloc: Global, fails: Vec<u64>) -> MemSink
        ensures bytes { written_of result ≡ [] }
        ensures fails { fails_of result ≡ fails.items }
        ensures calls { calls_of result ≡ 0 }
        ensures faults { faults_of result ≡ 0 }
    {
        MemSink {
            bytes: Vec::new(alloc),
            calls: Calls::new(fails),
        }
    }

    /// The bytes that were written.
    pub fn bytes(&self) -> &[u8]
        ensures { result.now ≡ written_of self.now }
    {
        self.bytes.as_slice()
    }
}

impl Sink for MemSink {
    ghost written = { λ m. Some (written_of m) };

    ghost faults = { λ m. faults_of m };

    fn write(&mut self, bytes: &[u8]) -> Result<usize, Failed>
        ensures bound { WritesAtMost result bytes.now }
        ensures some { IfOk result (λ n. 0 < length bytes.now → 0 < n) }
        ensures bytes { WriteAppends (Some (written_of self.old)) (Some (written_of self.new))
            result bytes.now }
        ensures cause { HasCause (faults_of self.old) (faults_of self.new) result }

        // It fails at a listed call, and else takes the whole piece or finds no memory for it.
        ensures listed { IsTrue (fails_next self.old) → IsErr result }
        ensures whole { IfOk result (λ n. n ≡ length bytes.now) }

        ensures calls { calls_of self.new ≡ one_more (calls_of self.old) }
        ensures faults { faults_of self.new ≡ count_after (faults_of self.old) result }
        ensures fails { fails_of self.new ≡ fails_of self.old }
    {
        if self.calls.begin() || self.bytes.extend_from_slice(bytes).is_err() {
            self.calls.fail();
            return Err(Failed);
        }
        Ok(bytes.len())
    }
}
