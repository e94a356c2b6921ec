use field_table::Field;
use fission_ids::{ContextId, Duplicate, OutOfMemory, ProcId, Seq};
use journal::Step;
use wire_msgs::Config;

/// One side of a run.
#[derive(Clone, Copy, Debug, PartialEq, Eq)]
pub enum Actor {
    /// The parent process.
    Parent,
    /// The content process of this number.
    Process(ProcId),
}

impl Duplicate for Actor {
    fn copy(&self) -> Result<Actor, OutOfMemory> {
        Ok(*self)
    }
}

/// What is shown.
#[derive(Clone, Copy, Debug, PartialEq, Eq)]
pub enum Show {
    /// A field of a context, as one side has it.
    One {
        /// The side.
        who: Actor,
        /// The context, which needn't exist.
        context: ContextId,
        /// The field, one that a scenario may name.
        field: Field,
    },
    /// All that one side has.
    Side {
        /// The side.
        who: Actor,
    },
    /// All that each side has.
    All,
}

impl Duplicate for Show {
    fn copy(&self) -> Result<Show, OutOfMemory> {
        Ok(*self)
    }
}

/// A step of a scenario.
#[derive(Debug, Drop)]
pub enum Line {
    /// An actor does something.
    Step(Step),
    /// All that waits is heard and taken, until nothing waits.
    Settle,
    /// Something is shown. It changes nothing.
    Show(Show),
}

impl Duplicate for Line {
    fn copy(&self) -> Result<Line, OutOfMemory> {
        match self {
            Line::Step(step) => Ok(Line::Step(step.copy()?)),
            Line::Settle => Ok(Line::Settle),
            Line::Show(show) => Ok(Line::Show(show.copy()?)),
        }
    }
}

/// How a run begins, and the steps in it.
#[derive(Debug, Drop)]
pub struct Scenario {
    /// The processes, and the tabs that are open at the start.
    pub config: Config,
    /// The steps, in the order in which they are done.
    pub lines: Seq<Line>,
}

impl Duplicate for Scenario {
    fn copy(&self) -> Result<Scenario, OutOfMemory> {
        Ok(Scenario {
            config: self.config.copy()?,
            lines: self.lines.copy()?,
        })
    }
}
