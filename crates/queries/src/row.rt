ghost use Rattle.std.specs.Prelude.{◌≡◌, if◌then◌else◌};
ghost use Rattle.fission_ids.specs.declared.outcome.Outcome.TheVariants.{Aborted};
ghost use Rattle.queries.specs.Row.{is_of, is_pending, settled};

use fission_ids::{Duplicate, OutOfMemory, Outcome, QueryId, Text, WindowId};

/// How a query stands. One that was never asked has no state.
#[derive(Debug, Drop)]
pub enum QState {
    /// It was asked, and neither was it answered nor did its window close.
    Pending,
    /// It was settled as this, for good.
    Settled(Outcome),
}

/// A query that was asked.
#[derive(Debug, Drop)]
pub struct QueryRow {
    /// Its id.
    pub query: QueryId,
    /// The window that it was asked on.
    pub window: WindowId,
    /// The name of the actor that it was asked of.
    pub actor: Text,
    /// How it stands.
    pub state: QState,
}

impl QState {
    // Whether the query is neither answered nor aborted.
    fn is_pending(&self) -> bool
        ensures { result ≡ is_pending self.now }
    {
        match self {
            QState::Pending => true,
            QState::Settled(_) => false,
        }
    }
}

impl QueryRow {
    // Settles the query if it is pending. False exactly where it isn't.
    pub(crate) fn settle(&mut self, o: Outcome) -> bool
        ensures row { self.new ≡ settled o self.old }
        ensures told { result ≡ is_pending self.old.state }
    {
        let is_pending = self.state.is_pending();
        if is_pending {
            self.state = QState::Settled(o);
        }
        is_pending
    }

    // Settles the query as aborted if it is pending and was asked on this window.
    pub(crate) fn abort(&mut self, w: WindowId)
        ensures { self.new ≡ (if is_of w self.old then settled Aborted self.old else self.old) }
    {
        if w == self.window {
            self.settle(Outcome::Aborted);
        }
    }
}

impl Duplicate for QState {
    fn copy(&self) -> Result<QState, OutOfMemory> {
        match self {
            QState::Pending => Ok(QState::Pending),
            QState::Settled(o) => Ok(QState::Settled(o.copy()?)),
        }
    }
}

impl Duplicate for QueryRow {
    fn copy(&self) -> Result<QueryRow, OutOfMemory> {
        Ok(QueryRow {
            query: self.query,
            window: self.window,
            actor: self.actor.copy()?,
            state: self.state.copy()?,
        })
    }
}
