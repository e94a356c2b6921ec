use crate::address::copy_of;
use field_table::Fields;
use fission_ids::{
    ContextId, Duplicate, GroupId, Kept, OutOfMemory, Outcome, QueryId, Seq, Text, WindowId,
};
use transaction::Transaction;
use url::Url;

/// What a process tells the parent. The parts of a bundle stand in this order.
#[derive(Debug, Drop)]
pub enum UpPart {
    /// It made a frame in a context.
    Create {
        context: ContextId,
        parent: ContextId,
    },
    /// It dropped a frame.
    Drop {
        context: ContextId,
    },
    /// It discarded a context as it was told.
    DropAck {
        context: ContextId,
    },
    /// It opened a window for a context.
    NewWindow {
        window: WindowId,
        context: ContextId,
        url: Url,
    },
    /// It closed a window.
    WindowGone {
        window: WindowId,
    },
    /// It wrote fields of a context.
    Commit {
        context: ContextId,
        change: Kept<Transaction>,
    },
    /// It asks for a context to be navigated.
    NavigateRequest {
        context: ContextId,
        url: Url,
    },
    /// An actor at a window asks.
    Ask {
        query: QueryId,
        window: WindowId,
        actor: Text,
        text: Text,
    },
    /// An actor at a window tells a text.
    Tell {
        window: WindowId,
        actor: Text,
        text: Text,
    },
    /// A query is answered.
    Reply {
        query: QueryId,
        outcome: Outcome,
    },
    /// The process failed.
    Gone,
}

impl Duplicate for UpPart {
    fn copy(&self) -> Result<UpPart, OutOfMemory> {
        Ok(match self {
            UpPart::Create { context, parent } => UpPart::Create {
                context: *context,
                parent: *parent,
            },
            UpPart::Drop { context } => UpPart::Drop { context: *context },
            UpPart::DropAck { context } => UpPart::DropAck { context: *context },
            UpPart::NewWindow {
                window,
                context,
                url,
            } => UpPart::NewWindow {
                window: *window,
                context: *context,
                url: copy_of(url)?,
            },
            UpPart::WindowGone { window } => UpPart::WindowGone { window: *window },
            UpPart::Commit { context, change } => UpPart::Commit {
                context: *context,
                change: change.copy()?,
            },
            UpPart::NavigateRequest { context, url } => UpPart::NavigateRequest {
                context: *context,
                url: copy_of(url)?,
            },
            UpPart::Ask {
                query,
                window,
                actor,
                text,
            } => UpPart::Ask {
                query: *query,
                window: *window,
                actor: actor.copy()?,
                text: text.copy()?,
            },
            UpPart::Tell {
                window,
                actor,
                text,
            } => UpPart::Tell {
                window: *window,
                actor: actor.copy()?,
                text: text.copy()?,
            },
            UpPart::Reply { query, outcome } => UpPart::Reply {
                query: *query,
                outcome: outcome.copy()?,
            },
            UpPart::Gone => UpPart::Gone,
        })
    }
}

/// A context as a new subscriber gets it.
#[derive(Debug, Drop)]
pub struct Known {
    /// The context.
    pub context: ContextId,
    /// The group that it's in.
    pub group: GroupId,
    /// The context that it's a frame of, or None for a top-level one.
    pub parent: Option<ContextId>,
    /// Whether the destination owns it.
    pub owned: bool,
    /// What its fields hold.
    pub fields: Kept<Fields>,
}

impl Duplicate for Known {
    fn copy(&self) -> Result<Known, OutOfMemory> {
        Ok(Known {
            context: self.context,
            group: self.group,
            parent: self.parent,
            owned: self.owned,
            fields: self.fields.copy()?,
        })
    }
}

/// What the parent tells a process. The parts of a bundle stand in this order.
#[derive(Debug, Drop)]
pub enum DownPart {
    /// The process is subscribed to a group, with these contexts, parents before children.
    Register {
        group: GroupId,
        contexts: Seq<Known>,
    },
    /// A context was made.
    Create {
        known: Known,
    },
    /// Fields of a context have new values.
    Commit {
        context: ContextId,
        change: Kept<Transaction>,
    },
    /// A context is gone, with all below it.
    Discard {
        context: ContextId,
    },
    /// The process no longer owns a context.
    CloseWindow {
        context: ContextId,
    },
    /// The process is to load an address in a context, and owns it.
    Load {
        context: ContextId,
        url: Url,
    },
    /// An actor at a window asks.
    Ask {
        query: QueryId,
        window: WindowId,
        actor: Text,
        text: Text,
    },
    /// An actor at a window tells a text.
    Tell {
        window: WindowId,
        actor: Text,
        text: Text,
    },
    /// A query is answered.
    Reply {
        query: QueryId,
        outcome: Outcome,
    },
    /// The process is to stop.
    Kill,
}

impl Duplicate for DownPart {
    fn copy(&self) -> Result<DownPart, OutOfMemory> {
        Ok(match self {
            DownPart::Register { group, contexts } => DownPart::Register {
                group: *group,
                contexts: contexts.copy()?,
            },
            DownPart::Create { known } => DownPart::Create {
                known: known.copy()?,
            },
            DownPart::Commit { context, change } => DownPart::Commit {
                context: *context,
                change: change.copy()?,
            },
            DownPart::Discard { context } => DownPart::Discard { context: *context },
            DownPart::CloseWindow { context } => DownPart::CloseWindow { context: *context },
            DownPart::Load { context, url } => DownPart::Load {
                context: *context,
                url: copy_of(url)?,
            },
            DownPart::Ask {
                query,
                window,
                actor,
                text,
            } => DownPart::Ask {
                query: *query,
                window: *window,
                actor: actor.copy()?,
                text: text.copy()?,
            },
            DownPart::Tell {
                window,
                actor,
                text,
            } => DownPart::Tell {
                window: *window,
                actor: actor.copy()?,
                text: text.copy()?,
            },
            DownPart::Reply { query, outcome } => DownPart::Reply {
                query: *query,
                outcome: outcome.copy()?,
            },
            DownPart::Kill => DownPart::Kill,
        })
    }
}
