ghost use Rattle.std.specs.Prelude.{◌≡◌, ◌<◌, ℕ, List, IfOk, is_some, length};
ghost use Rattle.std.specs.declared.option.Option.{Option};
ghost use Rattle.std.specs.Io.{WritesAtMost};
ghost use Rattle.std.specs.Io.KnownBytes.{WriteAppends};
ghost use Rattle.edge.specs.Causes.{HasCause};

use crate::failed::Failed;

/// Where bytes go.
pub trait Sink {
    // The bytes that were written, where the sink tells them.
    ghost written: { Self → Option (List ℕ) };

    // The faults that it answered. The count stands still at 2^64 - 1.
    ghost faults: { Self → ℕ };

    /// Takes the first bytes of a piece, and answers how many: at least one, if the piece is not
    /// empty. `Failed` is a fault that was counted, and takes none, where the sink tells what was
    /// written. Any other answer counts no fault.
    fn write(&mut self, bytes: &[u8]) -> Result<usize, Failed>
        ensures bound { WritesAtMost result bytes.now }
        ensures some { IfOk result (λ n. 0 < length bytes.now → 0 < n) }
        ensures bytes { WriteAppends (written self.old) (written self.new) result bytes.now }
        ensures tells { is_some (written self.new) ≡ is_some (written self.old) }
        ensures cause { HasCause (faults self.old) (faults self.new) result };
}
