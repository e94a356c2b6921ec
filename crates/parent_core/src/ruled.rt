use crate::parent::Parent;
use fission_ids::{ProcId, Seq};
use wire_msgs::{Answer, DownBundle};

/// What a step of the parent gives.
#[derive(Debug, Drop)]
pub struct Ruled {
    /// The parent behind the step.
    pub core: Parent,
    /// What the step came to.
    pub answer: Answer,
    /// What is sent, by the numbers of the processes, each of them at most once.
    pub sent: Seq<(ProcId, DownBundle)>,
}
