ghost use Rattle.std.specs.Prelude.{◌≡◌, ℕ, List, is_some};
ghost use Rattle.std.specs.declared.option.Option.{Option};
ghost use Rattle.std.specs.Io.{ReadsAtMost};
ghost use Rattle.std.specs.Io.KnownBytes.{ReadConsumes};
ghost use Rattle.edge.specs.Causes.{HasCause};

use crate::failed::Failed;

/// Where bytes come from.
pub trait Source {
    // The bytes that are left, where the source tells them.
    ghost left: { Self → Option (List ℕ) };

    // The faults that it answered. The count stands still at 2^64 - 1.
    ghost faults: { Self → ℕ };

    /// Moves the first bytes that are left into the front of `buf`, and answers how many.
    ///
    /// 0 for a buffer that is not empty is the end of input. `Failed` is a fault that was counted, and
    /// leaves what is left, where the source tells it, as it was. Any other answer counts no fault.
    fn read(&mut self, buf: &mut [u8]) -> Result<usize, Failed>
        ensures bound { ReadsAtMost result buf.new }
        ensures bytes { ReadConsumes (left self.old) (left self.new) result buf.new }
        ensures tells { is_some (left self.new) ≡ is_some (left self.old) }
        ensures cause { HasCause (faults self.old) (faults self.new) result };
}
