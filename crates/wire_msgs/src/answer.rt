use crate::cause::EndCause;
use crate::note::PartNote;
use crate::refusal::Refusal;
use fission_ids::{ContextId, Duplicate, GroupId, OutOfMemory, ProcId, QueryId, Seq};

/// What a step came to.
#[derive(Debug, Drop)]
pub enum Answer {
    /// It was done.
    Done,
    /// A frame was made.
    Context(ContextId),
    /// A tab was opened in this group.
    Tab(GroupId, ContextId),
    /// A query was asked.
    Query(QueryId),
    /// A context is being loaded in this process.
    Target(ProcId),
    /// A bundle was taken or heard, with these parts.
    Parts(Seq<PartNote>),
    /// A bundle was heard, and ended its sender.
    Ended(EndCause),
    /// A bundle was heard of a process that had been ended.
    Ignored,
    /// It was refused, and changed nothing.
    Refused(Refusal),
}

impl Duplicate for Answer {
    fn copy(&self) -> Result<Answer, OutOfMemory> {
        Ok(match self {
            Answer::Done => Answer::Done,
            Answer::Context(context) => Answer::Context(*context),
            Answer::Tab(group, context) => Answer::Tab(*group, *context),
            Answer::Query(query) => Answer::Query(*query),
            Answer::Target(process) => Answer::Target(*process),
            Answer::Parts(parts) => Answer::Parts(parts.copy()?),
            Answer::Ended(cause) => Answer::Ended(*cause),
            Answer::Ignored => Answer::Ignored,
            Answer::Refused(why) => Answer::Refused(*why),
        })
    }
}
