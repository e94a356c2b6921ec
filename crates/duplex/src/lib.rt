//! Two lanes between two threads, one each way: what one end sends the other takes in its order, each once,
//! and nothing is lost. No end waits for the other, and none takes a lock. What is left when the ends meet
//! again is handed back. Nothing here knows what goes over a lane.
#![tactic(auto)]

mod ends;
mod lane;
mod laws;
mod plays;
mod steps;

pub use ends::{Full, Left, Rest, Right, close, pair};
pub use lane::Stamped;
pub use laws::slots_show_what_waits;

fn sends<T: Send>() {}

fn shares<T: Sync>() {}

// An end may go to another thread where the items may.
fn ends_cross<D: Stamped + Send, U: Stamped + Send>() {
    sends::<Left<D, U>>();
    sends::<Right<D, U>>();
}

// What comes back may go to another thread, and be shared, where the items may.
fn rest_crosses<T: Drop + Send + Sync>() {
    sends::<Rest<T, T>>();
    shares::<Rest<T, T>>();
    sends::<Full<T>>();
    shares::<Full<T>>();
}
