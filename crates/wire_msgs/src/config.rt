use fission_ids::{Duplicate, OutOfMemory, ProcId, ProcSet, Seq, Text};

/// How a run begins: its processes by their remote types, and the tabs that are open.
#[derive(Debug, Drop)]
pub struct Config {
    /// The remote type of each process, from process 0 on.
    pub types: Seq<Text>,
    /// The tabs that are open at the start. The n-th one makes the context `c0.n`.
    pub tabs: Seq<StartTab>,
}

impl Duplicate for Config {
    fn copy(&self) -> Result<Config, OutOfMemory> {
        Ok(Config {
            types: self.types.copy()?,
            tabs: self.tabs.copy()?,
        })
    }
}

/// A tab that is open at the start: a top-level context, which the owner and the other processes hold.
#[derive(Clone, Copy, Debug, PartialEq, Eq)]
pub struct StartTab {
    /// The process that owns the context.
    pub owner: ProcId,
    /// The other processes that are subscribed to it.
    pub also: ProcSet,
}

impl Duplicate for StartTab {
    fn copy(&self) -> Result<StartTab, OutOfMemory> {
        Ok(*self)
    }
}
