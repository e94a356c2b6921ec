ghost use Rattle.std.specs.Prelude.{◌≡◌, ◌++◌, min, length, take};

use std::marker::Model;

/// Bytes of which a front was read, seen as those that are left.
#[derive(Debug, Drop)]
pub(crate) struct Unread {
    bytes: Vec<u8>,
    next: usize,
}

impl Model for Unread {
    ghost use Rattle.std.specs.Prelude.{ℕ, List, ◌≤◌, drop, length};

    ghost Value = { List ℕ };

    ghost view = { λ u. drop u.next u.bytes.items };

    ghost invariant = { λ u. u.next ≤ length u.bytes.items };
}

impl Unread {
    pub(crate) fn new(bytes: Vec<u8>) -> Unread
        ensures { result ≡ bytes.items }
    {
        Unread { bytes, next: 0 }
    }

    /// Moves the first bytes into the front of a buffer, as many as it has room for.
    pub(crate) fn read_into(&mut self, buf: &mut [u8]) -> usize
        ensures count { result ≡ min (length buf.new) (length self.old) }
        ensures moved { self.old ≡ take result buf.new ++ self.new }
    {
        let (_, left) = self.bytes.split_at(self.next);
        let count = buf.len().min(left.len());
        let (front, _) = left.split_at(count);
        buf[..count].copy_from_slice(front);
        self.next += count;
        count
    }
}
