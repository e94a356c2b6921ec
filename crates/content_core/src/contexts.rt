ghost use Rattle.std.specs.Prelude.{◌≡◌, false, None, Some, [], IfOk, OnOk, if◌then◌else◌};
ghost use Rattle.std.specs.FinMap as finite;
ghost use Rattle.std.specs.HashMap.{get};
ghost use Rattle.std.specs.List.{list_any};
ghost use Rattle.fission_ids.specs.declared.context.ContextId.{ContextId};
ghost use Rattle.fission_ids.specs.Ids.{same_context};
ghost use Rattle.context_tree.specs.Tree.{IsTree, is_held, is_missing};
ghost use Rattle.content_core.specs.Content.{hold_of};
ghost use Rattle.content_core.specs.Held.{HoldsMore, HoldsLess};

use crate::hold::Hold;
use context_store::{SlabStore, Store};
use context_tree::Tree;
use field_table::Fields;
use fission_ids::{ContextId, OutOfMemory};
use std::alloc::Global;
use std::collections::HashMap;

/// The contexts that a process holds: their tree, their fields and field epochs, and how it holds each. Where
/// memory was wanting, one of these may have contexts that the others don't have.
#[derive(Debug, Drop)]
pub(crate) struct Contexts {
    pub(crate) tree: Tree,
    pub(crate) store: SlabStore,
    pub(crate) holds: HashMap<ContextId, Hold>,
}

impl Contexts {
    /// No context.
    pub(crate) fn new(alloc: Global) -> Contexts
        ensures tree { result.tree ≡ [] }
        ensures store { result.store ≡ finite.empty }
        ensures holds { result.holds.entries ≡ [] }
    {
        Contexts {
            tree: Tree::new(alloc),
            store: SlabStore::new(alloc),
            holds: HashMap::new(alloc),
        }
    }

    /// How a context is held, if it is.
    pub(crate) fn hold(&self, x: ContextId) -> Option<Hold>
        ensures { result ≡ hold_of x self.now.holds.entries }
    {
        self.holds.get(&x).copied()
    }

    /// Holds a context more, as the last child of its parent, of which nothing was written.
    pub(crate) fn put(
        &mut self,
        x: ContextId,
        parent: Option<ContextId>,
        hold: Hold,
        fields: Fields,
    ) -> Result<(), OutOfMemory>
        requires absent { finite.get self.old.store x ≡ None }
        requires new { is_held x self.old.tree ≡ false }
        requires there { is_missing parent self.old.tree ≡ false }
        ensures { OnOk result (HoldsMore x parent hold fields self.old self.new) }
    {
        fields.covers_each_field();
        self.store.add(x, fields)?;
        self.holds.insert(x, hold)?;
        match self.tree.attach(parent, x) {
            Ok(()) => Ok(()),
            Err(_) => Err(OutOfMemory),
        }
    }

    /// Holds a context and all below it no more, if it is held.
    pub(crate) fn leave(&mut self, x: ContextId) -> Result<(), OutOfMemory>
        requires { IsTree self.old.tree }
        ensures { OnOk result (HoldsLess x self.old self.new) }
    {
        match self.tree.detach(x)? {
            Some(gone) => {
                forget_fields(&mut self.store, gone.as_slice());
                forget_holds(&mut self.holds, gone.as_slice());
                Ok(())
            }
            None => Ok(()),
        }
    }
}

// Takes the fields of these away.
fn forget_fields(store: &mut SlabStore, ids: &[ContextId])
    ensures { (y : ContextId) → finite.get store.new y ≡
        (if list_any (same_context y) ids.now then None else finite.get store.old y) }
{
    for id in ids {
        store.remove(*id);
    }
}

// Takes away how these are held.
fn forget_holds(holds: &mut HashMap<ContextId, Hold>, ids: &[ContextId])
    ensures { (y : ContextId) → get same_context holds.new y ≡
        (if list_any (same_context y) ids.now then None else get same_context holds.old y) }
{
    for id in ids {
        holds.remove(id);
    }
}
