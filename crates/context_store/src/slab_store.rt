ghost use Rattle.std.specs.Prelude.{◌≡◌, ◌==◌, ℕ, Some, None, is_some, if◌then◌else◌};
ghost use Rattle.std.specs.FinMap as map;
ghost use Rattle.std.specs.Option.{option_map};
ghost use Rattle.slab.specs.Slab.{get, slab_len};
ghost use Rattle.context_store.specs.Content.{stored_after_commit, obsolete_fields, stored_after_overlay};
ghost use Rattle.epochs.specs.FieldEpochs.{no_epochs};

use crate::marked::Marked;
use crate::store::Store;
use field_table::{FieldSet, Fields};
use fission_ids::{ContextId, Duplicate, Epoch, OutOfMemory};
use indexmap::IndexMap;
use slab::Slab;
use std::alloc::{AllocError, Global};
use std::marker::Model;
use transaction::Transaction;

// What the slab has for a context.
#[derive(Debug, Drop)]
struct Held {
    fields: Fields,
    epochs: Marked,
}

impl Model for Held {
    ghost use Rattle.context_store.specs.Content.{Stored, stored_code};

    ghost Value = { Stored };

    ghost coded = { stored_code };

    ghost view = { λ h. record { fields = h.fields; epochs = h.epochs } };
}

impl Held {
    fn new(fields: Fields) -> Held
        ensures { result ≡ record { fields = fields; epochs = no_epochs } }
    {
        Held {
            fields,
            epochs: Marked::new(),
        }
    }

    fn fields(&self) -> &Fields
        ensures { result.now ≡ self.now.fields }
    {
        &self.fields
    }

    fn commit(&mut self, t: Transaction, e: Option<Epoch>)
        ensures { self.new ≡ stored_after_commit t e self.old }
    {
        if let Some(e) = e {
            self.epochs.mark(t.modified(), e);
        }
        t.apply(&mut self.fields);
    }

    fn overlay(&mut self, t: Transaction, e: Epoch) -> FieldSet
        ensures whole { self.new ≡ stored_after_overlay t e self.old }
        ensures obsolete { result ≡ obsolete_fields t e self.old }
    {
        let modified = t.modified();
        let obsolete = self.epochs.obsolete(modified, e);
        let mut rest = t;
        rest.keep(modified.minus(obsolete));
        rest.apply(&mut self.fields);
        obsolete
    }
}

impl Clone for Held {
    ghost is_clone = { λ h c. c ≡ h };

    fn clone(&self) -> Result<Held, AllocError> {
        Ok(Held {
            fields: self.fields.copy().map_err(|_| AllocError)?,
            epochs: self.epochs.copy().map_err(|_| AllocError)?,
        })
    }
}

/// A store whose contexts stand in a slab, each under a key that an index gives for it. Every call goes by
/// the key.
#[derive(Debug, Drop)]
pub struct SlabStore {
    keys: IndexMap<ContextId, usize>,
    records: Slab<Held>,
}

impl Model for SlabStore {
    ghost use Rattle.context_store.specs.Content.{Content, content_code};
    ghost use Rattle.context_store.specs.Joined.{AreJoined, content_of};

    ghost Value = { Content };

    ghost coded = { content_code };

    ghost view = { λ s. content_of s.records s.keys.entries };

    ghost invariant = { λ s. AreJoined s.keys.entries s.records };
}

impl SlabStore {
    /// A store in which no context is there.
    pub fn new(alloc: Global) -> SlabStore
        ensures { result ≡ map.empty }
    {
        SlabStore {
            keys: IndexMap::new(alloc),
            records: Slab::new(alloc),
        }
    }
}

impl Store for SlabStore {
    ghost content = { λ s. s };

    fn get(&self, x: ContextId) -> Option<&Fields> {
        let key = *self.keys.get(&x)?;
        Some(self.records.get(key)?.fields())
    }

    fn add(&mut self, x: ContextId, fields: Fields) -> Result<(), OutOfMemory> {
        self.records.reserve(1)?;
        self.keys.insert(x, self.records.vacant_key())?;
        self.records.insert_reserved(Held::new(fields));
        Ok(())
    }

    fn remove(&mut self, x: ContextId) -> bool {
        let Some(key) = self.keys.swap_remove(&x) else {
            return false;
        };
        self.records.remove(key);
        true
    }

    fn commit(&mut self, x: ContextId, t: Transaction, e: Option<Epoch>) -> bool {
        let Some(key) = self.keys.get(&x) else {
            return false;
        };
        commit_at(&mut self.records, *key, t, e)
    }

    fn overlay(&mut self, x: ContextId, t: Transaction, e: Epoch) -> Option<FieldSet> {
        let key = *self.keys.get(&x)?;
        overlay_at(&mut self.records, key, t, e)
    }
}

// Commits to the record under a key. False exactly where there is none.
#[tactic(auto, using(crate::proofs::Joining::len_with_value))]
fn commit_at(records: &mut Slab<Held>, key: usize, t: Transaction, e: Option<Epoch>) -> bool
    ensures records { (k : ℕ) → get records.new k ≡
        (if k == key then option_map (stored_after_commit t e) (get records.old key) else get records.old k) }
    ensures len { slab_len records.new ≡ slab_len records.old }
    ensures answer { result ≡ is_some (get records.old key) }
{
    match records.get_mut(key) {
        None => false,
        Some(held) => {
            held.commit(t, e);
            true
        }
    }
}

// Overlays the record under a key. None exactly where there is none.
#[tactic(auto, using(crate::proofs::Joining::len_with_value))]
fn overlay_at(records: &mut Slab<Held>, key: usize, t: Transaction, e: Epoch) -> Option<FieldSet>
    ensures records { (k : ℕ) → get records.new k ≡
        (if k == key then option_map (stored_after_overlay t e) (get records.old key)
        else get records.old k) }
    ensures len { slab_len records.new ≡ slab_len records.old }
    ensures answer { result ≡ option_map (obsolete_fields t e) (get records.old key) }
{
    let held = records.get_mut(key)?;
    Some(held.overlay(t, e))
}

impl Duplicate for SlabStore {
    fn copy(&self) -> Result<SlabStore, OutOfMemory> {
        Ok(SlabStore {
            keys: self.keys.clone()?,
            records: self.records.clone()?,
        })
    }
}
