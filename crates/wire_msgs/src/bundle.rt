use crate::part::{DownPart, UpPart};
use fission_ids::{Duplicate, Epoch, OutOfMemory, Seq, Shared};

/// What a process sends the parent in one step.
#[derive(Debug, Drop)]
pub struct UpBundle {
    /// The epoch of the process's last commit, this bundle's included.
    pub epoch: Epoch,
    /// How many bundles the process had taken.
    pub seen: u64,
    /// Its parts, in the order of their kinds.
    pub parts: Seq<UpPart>,
}

impl Duplicate for UpBundle {
    fn copy(&self) -> Result<UpBundle, OutOfMemory> {
        Ok(UpBundle {
            epoch: self.epoch,
            seen: self.seen,
            parts: self.parts.copy()?,
        })
    }
}

/// What the parent sends a process in one step.
#[derive(Debug, Drop)]
pub struct DownBundle {
    /// The epoch that the parent heard last of the process.
    pub epoch: Epoch,
    /// Its parts, which all that it is sent to share.
    pub parts: Shared<DownPart>,
}

impl Duplicate for DownBundle {
    fn copy(&self) -> Result<DownBundle, OutOfMemory> {
        Ok(DownBundle {
            epoch: self.epoch,
            parts: self.parts.copy()?,
        })
    }
}
