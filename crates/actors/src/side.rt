ghost use Rattle.std.specs.Prelude.{◌≡◌, ◌<◌, [], None, false, filter, length, not};
ghost use Rattle.std.specs.Prelude.{IfNone, IfOk, OnErr, OnOk};
ghost use Rattle.actors.specs.Side.{after_answer, after_asking, after_mode, after_receive, after_reply};
ghost use Rattle.actors.specs.Side.{after_teardown, after_told, holder_of, is_held, is_held_as, is_on};
ghost use Rattle.actors.specs.Side.{reaction_to, HeldOnce};
ghost use Rattle.actor_registry.specs.declared.entry.Mode.TheVariants as modes;
ghost use Rattle.queries.specs.Table.{SettledStay, is_pending_in, next_query, state_in};

use crate::reaction::Reaction;
use actor_registry::Mode;
use fission_ids::{Duplicate, OutOfMemory, Outcome, QueryId, Text, WindowId};
use queries::QueryTable;
use std::alloc::Global;
use std::marker::Model;

/// One side of the actors. Seen as what it asked; the queries that it holds, each with its window, in order
/// of receipt; and the texts that it was told, each with its window and actor, in order.
#[derive(Debug, Drop)]
pub struct Actors {
    queries: QueryTable,
    held: Vec<(QueryId, WindowId)>,
    inbox: Vec<(WindowId, Text, Text)>,
}

impl Model for Actors {
    ghost use Rattle.actors.specs.Side.{Side, HeldOnce};

    ghost Value = { Side };

    ghost view = { λ a. record { queries = a.queries; held = a.held.items; inbox = a.inbox.items } };

    ghost invariant = { λ a. HeldOnce a.held.items };
}

impl Actors {
    /// A side that asked nothing, holds nothing and was told nothing. The creator of what it asks is 0 for
    /// the parent and p + 1 for process p.
    pub fn new(alloc: Global, creator: u8) -> Actors
        ensures { result ≡
            record { queries = record { creator = creator; rows = [] }; held = []; inbox = [] } }
    {
        Actors {
            queries: QueryTable::new(alloc, creator),
            held: Vec::new(alloc),
            inbox: Vec::new(alloc),
        }
    }

    /// What the side asked, and how it stands.
    pub fn queries(&self) -> &QueryTable
        ensures { result.now ≡ self.now.queries }
    {
        &self.queries
    }

    /// Asks a query on a window, of the actor of this name, and gives its id, which was never given before.
    /// It is pending. On Err the side stays as it was.
    pub fn ask(&mut self, w: WindowId, actor: &str) -> Result<QueryId, OutOfMemory>
        requires room { length self.old.queries.rows < 4294967295 }
        ensures id { IfOk result (λ q. q ≡ next_query self.old.queries) }
        ensures ok { OnOk result (self.new ≡ after_asking w actor.now self.old) }
        ensures err { OnErr result (self.new ≡ self.old) }
        ensures fresh { IfOk result (λ q. state_in q self.old.queries.rows ≡ None) }
    {
        let actor = Text::of(*self.inbox.allocator(), actor)?;
        self.queries.ask(w, actor)
    }

    /// Settles what the side asked as this outcome. False exactly where the query isn't pending, and then the
    /// side stays as it was. Takes the time of a look-up by index.
    pub fn reply(&mut self, q: QueryId, o: Outcome) -> bool
        ensures told { result ≡ is_pending_in q self.old.queries.rows }
        ensures side { self.new ≡ after_reply q o self.old }
        ensures unchanged { result ≡ false → self.new ≡ self.old }
        ensures stay { SettledStay self.old.queries.rows self.new.queries.rows }
    {
        self.queries.settle(q, o)
    }

    /// The queries that are held, each with its window, in order of receipt. Each stands once.
    pub fn held(&self) -> &[(QueryId, WindowId)]
        ensures held { result.now ≡ self.now.held }
        ensures once { HeldOnce self.now.held }
    {
        self.held.as_slice()
    }

    /// What the side was told, each text with the window and the actor's name, in order of receipt.
    pub fn inbox(&self) -> &[(WindowId, Text, Text)]
        ensures { result.now ≡ self.now.inbox }
    {
        self.inbox.as_slice()
    }

    /// Receives a query on a window, and reacts by the actor's mode. It is ignored exactly where its window
    /// isn't open, or where it is held already. Where memory is wanting the side stays as it was.
    pub fn receive(
        &mut self,
        q: QueryId,
        w: WindowId,
        text: Text,
        mode: Mode,
        is_open: bool,
    ) -> Result<Reaction, OutOfMemory>
        ensures reaction { IfOk result (λ r. r ≡ reaction_to q text mode is_open self.old) }
        ensures ok { OnOk result (self.new ≡ after_receive q w mode is_open self.old) }
        ensures err { OnErr result (self.new ≡ self.old) }
    {
        if !is_open || self.is_held(q) {
            return Ok(Reaction::Ignore);
        }
        match mode {
            Mode::Echo => Ok(Reaction::Reply(text)),
            Mode::Reject => Ok(Reaction::Reject(text)),
            Mode::Hold => {
                self.hold(q, w)?;
                Ok(Reaction::Hold)
            }
        }
    }

    /// Receives a text for an actor at a window. Where memory is wanting the side stays as it was.
    pub fn told(&mut self, w: WindowId, actor: &str, text: Text) -> Result<(), OutOfMemory>
        ensures ok { OnOk result (self.new ≡ after_told w actor.now text self.old) }
        ensures err { OnErr result (self.new ≡ self.old) }
    {
        let actor = Text::of(*self.inbox.allocator(), actor)?;
        self.inbox.push((w, actor, text))?;
        Ok(())
    }

    /// Answers a query, which is held no longer, and gives its window. None exactly where it wasn't held, and
    /// then nothing changes.
    pub fn answer(&mut self, q: QueryId) -> Option<WindowId>
        ensures window { result ≡ holder_of q self.old.held }
        ensures side { self.new ≡ after_answer q self.old }
        ensures unchanged { IfNone result (self.new ≡ self.old) }
    {
        let w = holder_of(self.held.as_slice(), q)?;
        leave_out(&mut self.held, q);
        Some(w)
    }

    /// Closes a window on this side: the pending queries that were asked on it are aborted, and those that
    /// are held on it are held no longer. Takes no memory.
    pub fn teardown(&mut self, w: WindowId)
        ensures { self.new ≡ after_teardown w self.old }
    {
        self.queries.abort_all(w);
        leave_out_on(&mut self.held, w);
    }

    // Holds a query that isn't held.
    fn hold(&mut self, q: QueryId, w: WindowId) -> Result<(), OutOfMemory>
        requires { is_held q self.old.held ≡ false }
        ensures ok { OnOk result (self.new ≡ after_mode q w modes.Hold self.old) }
        ensures err { OnErr result (self.new ≡ self.old) }
    {
        self.held.push((q, w))?;
        Ok(())
    }

    // Whether a query is held.
    fn is_held(&self, q: QueryId) -> bool
        ensures { result ≡ is_held q self.now.held }
    {
        holder_of(self.held.as_slice(), q).is_some()
    }
}

// The window of a query that is held.
fn holder_of(held: &[(QueryId, WindowId)], q: QueryId) -> Option<WindowId>
    ensures { result ≡ holder_of q held.now }
{
    let (_, w) = held.iter().find(|held| held.0 == q)?;
    Some(*w)
}

// Leaves a query out.
fn leave_out(held: &mut Vec<(QueryId, WindowId)>, q: QueryId)
    ensures { held.new.items ≡ filter (λ h. not (is_held_as q h)) held.old.items }
{
    held.retain(|entry| entry.0 != q);
}

// Leaves the queries on a window out.
fn leave_out_on(held: &mut Vec<(QueryId, WindowId)>, w: WindowId)
    ensures { held.new.items ≡ filter (λ h. not (is_on w h)) held.old.items }
{
    held.retain(|entry| entry.1 != w);
}

impl Duplicate for Actors {
    fn copy(&self) -> Result<Actors, OutOfMemory> {
        let alloc = *self.held.allocator();
        Ok(Actors {
            queries: self.queries.copy()?,
            held: Vec::from_slice(alloc, self.held.as_slice())?,
            inbox: copied(alloc, self.inbox.as_slice())?,
        })
    }
}

fn copied(
    alloc: Global,
    inbox: &[(WindowId, Text, Text)],
) -> Result<Vec<(WindowId, Text, Text)>, OutOfMemory>
    ensures { IfOk result (λ v. v.items ≡ inbox.now) }
{
    let mut copies = Vec::with_capacity(alloc, inbox.len())?;
    for letter in inbox {
        copies.push(copy_of(letter)?)?;
    }
    Ok(copies)
}

fn copy_of(letter: &(WindowId, Text, Text)) -> Result<(WindowId, Text, Text), OutOfMemory>
    ensures { IfOk result (λ c. c ≡ letter.now) }
{
    let (w, actor, text) = letter;
    Ok((*w, actor.copy()?, text.copy()?))
}
