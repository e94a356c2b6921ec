//! The edge to the outside: where bytes come from, where they go, and what stands round each turn
//! of a node.
//!
//! It promises upward what each read and write moved, that the count of faults of the source or the
//! sink rose where a fault is answered, and that it stands still where none is. It never reads more
//! than one byte past a limit, drops bytes that it took, makes up a fault, passes over one, or tells
//! one as something else.
#![tactic(auto)]

mod calls;
mod crossing;
mod failed;
mod gate;
mod input;
mod memory;
mod sink;
mod source;
mod standard;
mod sure;
mod unread;
mod write;

pub use failed::Failed;
pub use gate::{Gate, NoGate};
pub use input::{Input, read_all};
pub use memory::{MemSink, MemSource};
pub use sink::Sink;
pub use source::Source;
pub use standard::{StdSink, StdSource};
pub use sure::{SureSink, SureSource};
pub use write::write_all;
