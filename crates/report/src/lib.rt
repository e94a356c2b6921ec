//! The report of a scenario, written as it is played. Each line is a function of the journal so far.
//! At the end the bytes written are exactly the report, and after a fault they are a front of it.
//! Nothing here reads a scenario, or chooses where the report goes.
#![tactic(auto)]

mod fault;
mod lines;
mod passing;
mod playing;
mod rules;
mod sides;
mod views;
mod writing;

pub use fault::ReportFault;
pub use lines::place_line;
pub use playing::write_report;
pub use rules::{full_zoom, text_zoom};
pub use writing::{entry, head, last, settled, shown};
