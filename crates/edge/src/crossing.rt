use crate::failed::Failed;
use crate::gate::NoGate;
use crate::input::Input;
use crate::memory::{MemSink, MemSource};
use crate::sure::{SureSink, SureSource};

fn crosses<T: Send + Sync>() {}

// The types that may be sent to a thread and shared with it.
fn types_cross() {
    crosses::<Failed>();
    crosses::<Input>();
    crosses::<MemSource>();
    crosses::<MemSink>();
    crosses::<SureSource>();
    crosses::<SureSink>();
    crosses::<NoGate>();
}
