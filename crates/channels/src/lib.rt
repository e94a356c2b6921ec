//! A link from one side of a run to another: what is sent is taken in its order, each once, and nothing is
//! lost. Both ends work in constant time. Nothing here knows what goes over a link.
#![tactic(auto)]

mod link;

pub use link::Link;

fn crosses<T: Send + Sync>() {}

// A link may go to another thread, and be shared, where its items may.
fn link_crosses<T: Send + Sync>() {
    crosses::<Link<T>>();
}
