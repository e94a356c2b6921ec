use fission_ids::{Duplicate, OutOfMemory, ProcId};
use wire_msgs::{Action, Answer, ParentAction, UpBundle};

/// One event of one actor.
#[derive(Debug, Drop)]
pub enum Step {
    /// Process p acts.
    Act { p: ProcId, action: Action },
    /// Process p takes the first bundle that waits for it.
    Take { p: ProcId },
    /// Process p sends a bundle that is none of its own acts.
    Raw { p: ProcId, bundle: UpBundle },
    /// The parent acts.
    ParentAct { action: ParentAction },
    /// The parent hears the first bundle that waits from process p.
    Hear { p: ProcId },
}

impl Duplicate for Step {
    fn copy(&self) -> Result<Step, OutOfMemory> {
        match self {
            Step::Act { p, action } => Ok(Step::Act {
                p: *p,
                action: action.copy()?,
            }),
            Step::Take { p } => Ok(Step::Take { p: *p }),
            Step::Raw { p, bundle } => Ok(Step::Raw {
                p: *p,
                bundle: bundle.copy()?,
            }),
            Step::ParentAct { action } => Ok(Step::ParentAct {
                action: action.copy()?,
            }),
            Step::Hear { p } => Ok(Step::Hear { p: *p }),
        }
    }
}

/// A step, and what it came to.
#[derive(Debug, Drop)]
pub struct Entry {
    /// What was done.
    pub step: Step,
    /// What it came to.
    pub answer: Answer,
}

impl Duplicate for Entry {
    fn copy(&self) -> Result<Entry, OutOfMemory> {
        Ok(Entry {
            step: self.step.copy()?,
            answer: self.answer.copy()?,
        })
    }
}

// A long run has many entries, most of them deliveries.
const _: () = prove!(size_of::<Entry>() <= 160);
