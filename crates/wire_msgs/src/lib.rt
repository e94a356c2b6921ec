//! What the parent and the processes tell each other and are told: the configuration of a run, actions, the
//! parts of bundles, answers. Plain values with public members, and an equal copy of each. Nothing here does
//! anything with them.
#![tactic(auto)]

mod action;
mod address;
mod answer;
mod bundle;
mod cause;
mod config;
mod note;
mod part;
mod refusal;

pub use action::{Action, ParentAction};
pub use answer::Answer;
pub use bundle::{DownBundle, UpBundle};
pub use cause::EndCause;
pub use config::{Config, StartTab};
pub use note::{AskMark, FieldMark, FieldNote, LoadMark, Mark, PartNote};
pub use part::{DownPart, Known, UpPart};
pub use refusal::{Counted, Refusal};

fn crosses<T: Send + Sync>() {}

// The types of this crate may go to another thread, and be shared.
fn types_cross() {
    crosses::<Action>();
    crosses::<ParentAction>();
    crosses::<Answer>();
    crosses::<UpBundle>();
    crosses::<DownBundle>();
    crosses::<EndCause>();
    crosses::<Config>();
    crosses::<StartTab>();
    crosses::<Mark>();
    crosses::<FieldMark>();
    crosses::<FieldNote>();
    crosses::<LoadMark>();
    crosses::<AskMark>();
    crosses::<PartNote>();
    crosses::<UpPart>();
    crosses::<DownPart>();
    crosses::<Known>();
    crosses::<Counted>();
    crosses::<Refusal>();
}
