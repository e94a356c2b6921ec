ghost use Rattle.std.specs.Prelude.{◌≡◌, filter, not, position, IfOk};
ghost use Rattle.std.specs.FinMap as map;
ghost use Rattle.fission_ids.specs.Ids.{same_context};
ghost use Rattle.context_store.specs.Content.{stored_after_commit, obsolete_fields, stored_after_overlay};
ghost use Rattle.epochs.specs.FieldEpochs.{no_epochs};

use crate::store::Store;
use epochs::FieldEpochs;
use field_table::{FieldSet, Fields};
use fission_ids::{ContextId, Duplicate, Epoch, OutOfMemory};
use std::alloc::Global;
use std::marker::Model;
use transaction::Transaction;

// A context of the list, seen as the context and what is there for it.
#[derive(Debug, Drop)]
struct Listed {
    context: ContextId,
    fields: Fields,
    epochs: FieldEpochs,
}

impl Model for Listed {
    ghost use Rattle.fission_ids.specs.declared.context.ContextId.{ContextId};
    ghost use Rattle.context_store.specs.Content.{Stored, entry_code};

    ghost Value = { ContextId × Stored };

    ghost coded = { entry_code };

    ghost view = { λ l. (l.context, record { fields = l.fields; epochs = l.epochs }) };
}

impl Listed {
    fn new(context: ContextId, fields: Fields) -> Listed
        ensures { result ≡ (context, record { fields = fields; epochs = no_epochs }) }
    {
        Listed {
            context,
            fields,
            epochs: FieldEpochs::new(),
        }
    }

    fn is_of(&self, x: ContextId) -> bool
        ensures { result ≡ same_context x self.now.0 }
    {
        x == self.context
    }

    fn fields(&self) -> &Fields
        ensures { result.now ≡ self.now.1.fields }
    {
        &self.fields
    }

    fn commit(&mut self, t: Transaction, e: Option<Epoch>)
        ensures { self.new ≡ (self.old.0, stored_after_commit t e self.old.1) }
    {
        if let Some(e) = e {
            self.epochs.mark(t.modified(), e);
        }
        t.apply(&mut self.fields);
    }

    fn overlay(&mut self, t: Transaction, e: Epoch) -> FieldSet
        ensures whole { self.new ≡ (self.old.0, stored_after_overlay t e self.old.1) }
        ensures obsolete { result ≡ obsolete_fields t e self.old.1 }
    {
        let modified = t.modified();
        let obsolete = self.epochs.obsolete(modified, e);
        let mut rest = t;
        rest.keep(modified.minus(obsolete));
        rest.apply(&mut self.fields);
        obsolete
    }
}

impl Duplicate for Listed {
    fn copy(&self) -> Result<Listed, OutOfMemory> {
        Ok(Listed {
            context: self.context,
            fields: self.fields.copy()?,
            epochs: self.epochs.copy()?,
        })
    }
}

/// A store that is a plain list, whose calls go through it from the front.
#[derive(Debug, Drop)]
pub struct ListStore {
    contexts: Vec<Listed>,
}

impl Model for ListStore {
    ghost use Rattle.std.specs.FinMap.{from_entries};
    ghost use Rattle.context_store.specs.Content.{Content, content_code};

    ghost Value = { Content };

    ghost coded = { content_code };

    ghost view = { λ s. from_entries s.contexts.items };
}

impl ListStore {
    /// A store in which no context is there.
    pub fn new(alloc: Global) -> ListStore
        ensures { result ≡ map.empty }
    {
        ListStore {
            contexts: Vec::new(alloc),
        }
    }
}

// The place of the first entry of a context.
fn place_of(contexts: &[Listed], x: ContextId) -> Option<usize>
    ensures { result ≡ position (λ l. same_context x l.0) contexts.now }
{
    contexts.iter().position(|l| l.is_of(x))
}

// Leaves the entries of a context out.
fn leave_out(contexts: &mut Vec<Listed>, x: ContextId)
    ensures { contexts.new.items ≡ filter (λ l. not (same_context x l.0)) contexts.old.items }
{
    contexts.retain(|l| !l.is_of(x));
}

impl Store for ListStore {
    ghost content = { λ s. s };

    fn get(&self, x: ContextId) -> Option<&Fields> {
        let place = place_of(self.contexts.as_slice(), x)?;
        Some(self.contexts[place].fields())
    }

    fn add(&mut self, x: ContextId, fields: Fields) -> Result<(), OutOfMemory> {
        self.contexts.push(Listed::new(x, fields))?;
        Ok(())
    }

    fn remove(&mut self, x: ContextId) -> bool {
        let is_there = place_of(self.contexts.as_slice(), x).is_some();
        leave_out(&mut self.contexts, x);
        is_there
    }

    fn commit(&mut self, x: ContextId, t: Transaction, e: Option<Epoch>) -> bool {
        let Some(place) = place_of(self.contexts.as_slice(), x) else {
            return false;
        };
        self.contexts[place].commit(t, e);
        true
    }

    fn overlay(&mut self, x: ContextId, t: Transaction, e: Epoch) -> Option<FieldSet> {
        let place = place_of(self.contexts.as_slice(), x)?;
        Some(self.contexts[place].overlay(t, e))
    }
}

impl Duplicate for ListStore {
    fn copy(&self) -> Result<ListStore, OutOfMemory> {
        Ok(ListStore {
            contexts: copied(*self.contexts.allocator(), self.contexts.as_slice())?,
        })
    }
}

fn copied(alloc: Global, contexts: &[Listed]) -> Result<Vec<Listed>, OutOfMemory>
    ensures { IfOk result (λ v. v.items ≡ contexts.now) }
{
    let mut copies = Vec::with_capacity(alloc, contexts.len())?;
    for listed in contexts {
        copies.push(listed.copy()?)?;
    }
    Ok(copies)
}
