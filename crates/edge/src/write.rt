ghost use Rattle.std.specs.Prelude.{◌≡◌, is_some};
ghost use Rattle.edge.specs.Causes.{HasCause};
ghost use Rattle.edge.specs.Pieces.{Writes};

use crate::failed::Failed;
use crate::sink::Sink;

/// Writes all the bytes, piece by piece, and takes no memory. After an error a front of them was
/// written. No write failed where there is none.
pub fn write_all<K: Sink>(sink: &mut K, bytes: &[u8]) -> Result<(), Failed>
    ensures bytes { Writes (K.written sink.old) (K.written sink.new) result bytes.now }
    ensures cause { HasCause (K.faults sink.old) (K.faults sink.new) result }
    ensures tells { is_some (K.written sink.new) ≡ is_some (K.written sink.old) }
{
    let mut rest = bytes;
    'pieces: while !rest.is_empty() {
        let count = sink.write(rest)?;
        rest = rest.split_at(count).1;
    }
    Ok(())
}
