//! Text that is gathered in memory, and goes to a sink in large pieces.

ghost use Rattle.std.specs.Prelude.{◌≡◌, ◌<◌, [], length, OnOk, IsOk};
ghost use Rattle.edge.specs.Memory.{written_of};
ghost use Rattle.edge.specs.Pieces.{Writes};
ghost use Rattle.report.specs.Passing.{Passes, CountsFault};

use crate::fault::ReportFault;
use edge::{MemSink, Sink, write_all};
use fission_ids::OutOfMemory;
use std::alloc::Global;

// How many bytes are gathered before they are written.
const PIECE: usize = 65_536;

// Nothing is gathered yet, and no call is to fail.
pub(crate) fn no_pieces(alloc: Global) -> MemSink
    ensures { written_of result ≡ [] }
{
    MemSink::new(alloc, Vec::new(alloc))
}

// What a call came to that wrote into memory, where a sink fails for want of memory alone.
pub(crate) fn in_memory(written: Result<(), ReportFault>) -> Result<(), OutOfMemory>
    ensures { OnOk result (IsOk written) }
{
    written.map_err(|_| OutOfMemory)
}

// Writes all that was gathered.
pub(crate) fn pass_all<K: Sink>(
    alloc: Global,
    pieces: &mut MemSink,
    sink: &mut K,
) -> Result<(), ReportFault>
    ensures bytes { Writes (K.written sink.old) (K.written sink.new) result (written_of pieces.old) }
    ensures emptied { OnOk result (written_of pieces.new ≡ []) }
    ensures faults { CountsFault (K.faults sink.old) (K.faults sink.new) result }
{
    write_all(sink, pieces.bytes())?;
    *pieces = no_pieces(alloc);
    Ok(())
}

// Writes all that was gathered, once it is a piece.
pub(crate) fn pass_piece<K: Sink>(
    alloc: Global,
    pieces: &mut MemSink,
    sink: &mut K,
) -> Result<(), ReportFault>
    ensures bytes { Passes (written_of pieces.old) (written_of pieces.new)
        (K.written sink.old) (K.written sink.new) result }
    ensures few { OnOk result (length (written_of pieces.new) < 65536) }
    ensures waits { length (written_of pieces.old) < 65536 → sink.new ≡ sink.old }
    ensures faults { CountsFault (K.faults sink.old) (K.faults sink.new) result }
{
    if pieces.bytes().len() < PIECE {
        return Ok(());
    }
    pass_all(alloc, pieces, sink)
}
