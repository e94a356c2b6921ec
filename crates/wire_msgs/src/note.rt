use field_table::Field;
use fission_ids::{
    ContextId, Duplicate, GroupId, OutOfMemory, ProcId, QueryId, Seq, Text, WindowId,
};

/// What became of a part.
#[derive(Clone, Copy, Debug, PartialEq, Eq)]
pub enum Mark {
    /// It was done.
    Done,
    /// It came too late, and was undone at once.
    Late,
    /// It changed nothing.
    Ignored,
}

impl Duplicate for Mark {
    fn copy(&self) -> Result<Mark, OutOfMemory> {
        Ok(*self)
    }
}

/// What became of a field that was committed.
#[derive(Clone, Copy, Debug, PartialEq, Eq)]
pub enum FieldMark {
    /// It has the new value.
    Applied,
    /// The process wrote it later, and keeps its own value.
    Obsolete,
    /// The parent keeps its value, and sends it back.
    Reverted,
}

impl Duplicate for FieldMark {
    fn copy(&self) -> Result<FieldMark, OutOfMemory> {
        Ok(*self)
    }
}

/// What became of one field of a commit.
#[derive(Clone, Copy, Debug, PartialEq, Eq)]
pub struct FieldNote {
    /// The field.
    pub field: Field,
    /// What became of it.
    pub mark: FieldMark,
}

impl Duplicate for FieldNote {
    fn copy(&self) -> Result<FieldNote, OutOfMemory> {
        Ok(*self)
    }
}

/// What became of a navigation, or of a load.
#[derive(Clone, Copy, Debug, PartialEq, Eq)]
pub enum LoadMark {
    /// The parent sends the load to this process.
    Target(ProcId),
    /// The process opened this window.
    Opened(WindowId),
    /// The navigation was refused, by the number of the refusal, from 1 to 12.
    Refused(u8),
    /// It changed nothing.
    Ignored,
}

impl Duplicate for LoadMark {
    fn copy(&self) -> Result<LoadMark, OutOfMemory> {
        Ok(*self)
    }
}

/// What became of a query that was received.
#[derive(Clone, Copy, Debug, PartialEq, Eq)]
pub enum AskMark {
    /// It was resolved with its text.
    Reply,
    /// It was rejected with its text.
    Reject,
    /// It is held until it is answered.
    Hold,
    /// It changed nothing.
    Ignore,
}

impl Duplicate for AskMark {
    fn copy(&self) -> Result<AskMark, OutOfMemory> {
        Ok(*self)
    }
}

/// What became of one part of a bundle.
#[derive(Debug, Drop)]
pub enum PartNote {
    /// A context was made.
    Create(ContextId, Mark),
    /// A frame was dropped.
    Drop(ContextId, Mark),
    /// A discard was acknowledged.
    Ack(ContextId),
    /// A window was opened.
    Window(WindowId, Mark),
    /// A window was closed.
    Gone(WindowId, Mark),
    /// Fields of a context were written; they stand by rising number.
    Commit(ContextId, Seq<FieldNote>),
    /// Fields were written of a context that isn't there.
    CommitIgnored(ContextId),
    /// A context was navigated or loaded.
    Load(ContextId, LoadMark),
    /// A query was asked.
    Ask(QueryId, AskMark),
    /// A text was told to the actor of a name.
    Tell(WindowId, Text, Mark),
    /// A query was replied to.
    Reply(QueryId, Mark),
    /// The contexts of a group were registered.
    Register(GroupId),
    /// A context was discarded.
    Discard(ContextId),
    /// A context is no longer owned, and its window closed.
    Close(ContextId, Mark),
    /// The process was told to stop.
    Kill,
}

impl Duplicate for PartNote {
    fn copy(&self) -> Result<PartNote, OutOfMemory> {
        Ok(match self {
            PartNote::Create(context, mark) => PartNote::Create(*context, *mark),
            PartNote::Drop(context, mark) => PartNote::Drop(*context, *mark),
            PartNote::Ack(context) => PartNote::Ack(*context),
            PartNote::Window(window, mark) => PartNote::Window(*window, *mark),
            PartNote::Gone(window, mark) => PartNote::Gone(*window, *mark),
            PartNote::Commit(context, fields) => PartNote::Commit(*context, fields.copy()?),
            PartNote::CommitIgnored(context) => PartNote::CommitIgnored(*context),
            PartNote::Load(context, mark) => PartNote::Load(*context, *mark),
            PartNote::Ask(query, mark) => PartNote::Ask(*query, *mark),
            PartNote::Tell(window, actor, mark) => PartNote::Tell(*window, actor.copy()?, *mark),
            PartNote::Reply(query, mark) => PartNote::Reply(*query, *mark),
            PartNote::Register(group) => PartNote::Register(*group),
            PartNote::Discard(context) => PartNote::Discard(*context),
            PartNote::Close(context, mark) => PartNote::Close(*context, *mark),
            PartNote::Kill => PartNote::Kill,
        })
    }
}
