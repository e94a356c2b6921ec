use crate::address::copy_of;
use fission_ids::{
    ContextId, Duplicate, GroupId, Kept, OutOfMemory, ProcId, QueryId, Text, WindowId,
};
use transaction::Transaction;
use url::Url;

/// What a process does of its own accord.
#[derive(Debug, Drop)]
pub enum Action {
    /// It writes fields of a context.
    Set {
        context: ContextId,
        fields: Kept<Transaction>,
    },
    /// It makes a frame in a context.
    Frame {
        context: ContextId,
    },
    /// It drops a frame with all below it.
    Drop {
        context: ContextId,
    },
    /// It closes a window.
    Close {
        window: WindowId,
    },
    /// It asks for a context to be navigated.
    Navigate {
        context: ContextId,
        url: Url,
    },
    /// An actor at a window tells the other side a text.
    Tell {
        window: WindowId,
        actor: Text,
        text: Text,
    },
    /// An actor at a window asks the other side.
    Ask {
        window: WindowId,
        actor: Text,
        text: Text,
    },
    /// A query that is held is answered: resolved, or else rejected, with a text.
    Answer {
        query: QueryId,
        resolve: bool,
        text: Text,
    },
}

impl Duplicate for Action {
    fn copy(&self) -> Result<Action, OutOfMemory> {
        Ok(match self {
            Action::Set { context, fields } => Action::Set {
                context: *context,
                fields: fields.copy()?,
            },
            Action::Frame { context } => Action::Frame { context: *context },
            Action::Drop { context } => Action::Drop { context: *context },
            Action::Close { window } => Action::Close { window: *window },
            Action::Navigate { context, url } => Action::Navigate {
                context: *context,
                url: copy_of(url)?,
            },
            Action::Tell {
                window,
                actor,
                text,
            } => Action::Tell {
                window: *window,
                actor: actor.copy()?,
                text: text.copy()?,
            },
            Action::Ask {
                window,
                actor,
                text,
            } => Action::Ask {
                window: *window,
                actor: actor.copy()?,
                text: text.copy()?,
            },
            Action::Answer {
                query,
                resolve,
                text,
            } => Action::Answer {
                query: *query,
                resolve: *resolve,
                text: text.copy()?,
            },
        })
    }
}

/// What the parent does of its own accord.
#[derive(Debug, Drop)]
pub enum ParentAction {
    /// It writes fields of a context.
    Set {
        context: ContextId,
        fields: Kept<Transaction>,
    },
    /// It opens a tab that a process owns, in a new group or in one that is there.
    Tab {
        owner: ProcId,
        group: Option<GroupId>,
    },
    /// It subscribes a process to a group.
    Subscribe {
        process: ProcId,
        group: GroupId,
    },
    /// It discards a context with all below it.
    Discard {
        context: ContextId,
    },
    /// It navigates a context.
    Navigate {
        context: ContextId,
        url: Url,
    },
    /// An actor at a window tells the other side a text.
    Tell {
        window: WindowId,
        actor: Text,
        text: Text,
    },
    /// An actor at a window asks the other side.
    Ask {
        window: WindowId,
        actor: Text,
        text: Text,
    },
    /// A query that is held is answered: resolved, or else rejected, with a text.
    Answer {
        query: QueryId,
        resolve: bool,
        text: Text,
    },
    /// It ends a process.
    Kill {
        process: ProcId,
    },
}

impl Duplicate for ParentAction {
    fn copy(&self) -> Result<ParentAction, OutOfMemory> {
        Ok(match self {
            ParentAction::Set { context, fields } => ParentAction::Set {
                context: *context,
                fields: fields.copy()?,
            },
            ParentAction::Tab { owner, group } => ParentAction::Tab {
                owner: *owner,
                group: *group,
            },
            ParentAction::Subscribe { process, group } => ParentAction::Subscribe {
                process: *process,
                group: *group,
            },
            ParentAction::Discard { context } => ParentAction::Discard { context: *context },
            ParentAction::Navigate { context, url } => ParentAction::Navigate {
                context: *context,
                url: copy_of(url)?,
            },
            ParentAction::Tell {
                window,
                actor,
                text,
            } => ParentAction::Tell {
                window: *window,
                actor: actor.copy()?,
                text: text.copy()?,
            },
            ParentAction::Ask {
                window,
                actor,
                text,
            } => ParentAction::Ask {
                window: *window,
                actor: actor.copy()?,
                text: text.copy()?,
            },
            ParentAction::Answer {
                query,
                resolve,
                text,
            } => ParentAction::Answer {
                query: *query,
                resolve: *resolve,
                text: text.copy()?,
            },
            ParentAction::Kill { process } => ParentAction::Kill { process: *process },
        })
    }
}
