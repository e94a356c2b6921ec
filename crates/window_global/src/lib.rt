//! Window globals on one side: which were made, for which context, at which address, and which are open. A
//! context has at most one open window, and a window that has closed stays closed. Nothing here knows a
//! process, an actor or a navigation.
#![tactic(auto)]

mod fault;
mod laws;
mod row;
mod windows;

pub use fault::WindowFault;
pub use laws::{
    calls_concern_one_context, closed_windows_stay_closed, contexts_have_one_open_window,
    open_windows_are_shown,
};
pub use row::WindowRow;
pub use windows::Windows;

fn crosses<T: Send + Sync>() {}

// The types of this crate may go to another thread, and be shared.
fn types_cross() {
    crosses::<WindowFault>();
    crosses::<WindowRow>();
    crosses::<Windows>();
}
