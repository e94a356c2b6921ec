ghost use Rattle.std.specs.Prelude.{◌≡◌, ◌+◌, ◌<◌, [], None, false, if◌then◌else◌, length, map};
ghost use Rattle.std.specs.Prelude.{IfOk, OnOk, OnErr, MatchOption};
ghost use Rattle.std.specs.Option.{option_copied};
ghost use Rattle.fission_ids.specs.declared.outcome.Outcome.TheVariants.{Aborted};
ghost use Rattle.queries.specs.Row.{is_of, is_for, settled};
ghost use Rattle.queries.specs.Table.{AreNumbered, SettledStay, is_pending_in, next_query, settle_where};
ghost use Rattle.queries.specs.Table.{state_in, with_query};

use crate::row::{QState, QueryRow};
use fission_ids::{Duplicate, OutOfMemory, Outcome, QueryId, Text, WindowId};
use std::alloc::Global;
use std::marker::Model;

/// The queries that one side asked. Seen as who asks, and the rows by rising serial.
#[derive(Debug, Drop)]
pub struct QueryTable {
    creator: u8,
    rows: Vec<QueryRow>,
}

impl Model for QueryTable {
    ghost use Rattle.queries.specs.Table.{Asked, AreNumbered};

    ghost Value = { Asked };

    ghost view = { λ t. record { creator = t.creator; rows = t.rows.items } };

    ghost invariant = { λ t. AreNumbered t.creator 1 t.rows.items };
}

impl QueryTable {
    /// A table for this creator of queries, which is 0 for the parent and p + 1 for process p. None was
    /// asked.
    pub fn new(alloc: Global, creator: u8) -> QueryTable
        ensures { result ≡ record { creator = creator; rows = [] } }
    {
        QueryTable {
            creator,
            rows: Vec::new(alloc),
        }
    }

    /// The queries in the order asked. Their serials count from 1.
    pub fn rows(&self) -> &[QueryRow]
        ensures rows { result.now ≡ self.now.rows }
        ensures numbered { AreNumbered self.now.creator 1 self.now.rows }
    {
        self.rows.as_slice()
    }

    /// Asks a query on a window, of the actor of this name, and gives its id, which was never given before.
    /// It is pending. On Err the table stays as it was.
    pub fn ask(&mut self, w: WindowId, actor: Text) -> Result<QueryId, OutOfMemory>
        requires room { length self.old.rows < 4294967295 }
        ensures id { IfOk result (λ q. q ≡ next_query self.old) }
        ensures ok { OnOk result (self.new ≡ with_query w actor self.old) }
        ensures err { OnErr result (self.new ≡ self.old) }
        ensures fresh { IfOk result (λ q. state_in q self.old.rows ≡ None) }
        ensures stay { SettledStay self.old.rows self.new.rows }
    {
        let query = self.next();
        self.rows.push(QueryRow {
            query,
            window: w,
            actor,
            state: QState::Pending,
        })?;
        Ok(query)
    }

    /// Settles a query as this outcome. False exactly where it isn't pending, and then the table stays as
    /// it was. Takes the time of a look-up by index.
    pub fn settle(&mut self, q: QueryId, o: Outcome) -> bool
        ensures told { result ≡ is_pending_in q self.old.rows }
        ensures table { self.new ≡ record self.old { rows = settle_where (is_for q) o self.old.rows } }
        ensures unchanged { result ≡ false → self.new ≡ self.old }
        ensures stay { SettledStay self.old.rows self.new.rows }
    {
        let Some(index) = self.index(q) else {
            return false;
        };
        self.rows[index].settle(o)
    }

    /// Settles as aborted the pending queries that were asked on this window, and no others. Takes no
    /// memory, and time linear in the queries.
    pub fn abort_all(&mut self, w: WindowId)
        ensures table { self.new ≡ record self.old { rows = settle_where (is_of w) Aborted self.old.rows } }
        ensures stay { SettledStay self.old.rows self.new.rows }
    {
        abort_each(self.rows.as_mut_slice(), w);
    }

    /// How a query stands. None exactly where it was never asked. Takes the time of a look-up by index.
    pub fn state(&self, q: QueryId) -> Option<&QState>
        ensures { option_copied result ≡ state_in q self.now.rows }
    {
        let index = self.index(q)?;
        Some(&self.rows[index].state)
    }

    // The id of the next query.
    fn next(&self) -> QueryId
        requires { length self.now.rows < 4294967295 }
        ensures { result ≡ next_query self.now }
    {
        QueryId {
            creator: self.creator,
            serial: self.rows.len() as u32 + 1,
        }
    }

    // The index of a query's row. None exactly where it was never asked.
    fn index(&self, q: QueryId) -> Option<usize>
        ensures { MatchOption result (state_in q self.now.rows ≡ None)
            (λ i. (i < length self.now.rows) × (q ≡ record { creator = self.now.creator; serial = i + 1 })) }
    {
        if q.creator != self.creator {
            return None;
        }
        let index = (q.serial as usize).checked_sub(1)?;
        if index < self.rows.len() {
            Some(index)
        } else {
            None
        }
    }
}

impl Duplicate for QueryTable {
    fn copy(&self) -> Result<QueryTable, OutOfMemory> {
        Ok(QueryTable {
            creator: self.creator,
            rows: copied(*self.rows.allocator(), self.rows.as_slice())?,
        })
    }
}

// Equal rows.
fn copied(alloc: Global, rows: &[QueryRow]) -> Result<Vec<QueryRow>, OutOfMemory>
    ensures { IfOk result (λ v. v.items ≡ rows.now) }
{
    let mut copies = Vec::with_capacity(alloc, rows.len())?;
    for row in rows {
        copies.push(row.copy()?)?;
    }
    Ok(copies)
}

// Settles as aborted the pending queries of this window.
fn abort_each(rows: &mut [QueryRow], w: WindowId)
    ensures { rows.new ≡ settle_where (is_of w) Aborted rows.old }
{
    for row in rows.iter_mut() {
        row.abort(w);
    }
}
