use crate::content::Content;
use wire_msgs::{Answer, UpBundle};

/// What a step of a process gives.
#[derive(Debug, Drop)]
pub struct Moved {
    /// The process behind the step.
    pub core: Content,
    /// What the step came to.
    pub answer: Answer,
    /// What the process sends the parent, if it sends anything.
    pub sent: Option<UpBundle>,
}
