ghost use Rattle.std.specs.Prelude.{◌≡◌, None, Some, true, length, if◌then◌else◌, OnOk};
ghost use Rattle.std.specs.List.{list_any};
ghost use Rattle.std.specs.FinMap as map;
ghost use Rattle.fission_ids.specs.declared.context.ContextId.{ContextId};
ghost use Rattle.fission_ids.specs.Ids.{same_context};
ghost use Rattle.field_table.specs.declared.field.Field.{Field};
ghost use Rattle.field_table.specs.Field.{fields as all_fields};
ghost use Rattle.field_table.specs.Table.{initial_table};
ghost use Rattle.epochs.specs.FieldEpochs.{no_epochs};
ghost use Rattle.transaction.specs.Transaction.{new_value};
ghost use Rattle.context_store.specs.Content.{Stored, is_there};
ghost use Rattle.protocol.specs.Fold.{or_later};
ghost use Rattle.parent_core.specs.Contents.{value_at};

use context_store::{SlabStore, Store};
use field_table::Fields;
use fission_ids::{ContextId, OutOfMemory};
use transaction::Transaction;

/// Gives fields of a context that is there their new values.
pub(crate) fn commit_to(contexts: &mut SlabStore, x: ContextId, t: Transaction)
    requires { is_there x contexts.old ≡ true }
    ensures values { (y : ContextId) (f : Field) → value_at y f contexts.new ≡
        (if same_context y x then or_later (new_value t f) (value_at y f contexts.old)
        else value_at y f contexts.old) }
    ensures there { (y : ContextId) → is_there y contexts.new ≡ is_there y contexts.old }
{
    cover_each_field(contexts, x);
    contexts.commit(x, t, None);
}

// A context that is there has a value for each field.
fn cover_each_field(contexts: &SlabStore, x: ContextId)
    ensures { (s : Stored) → map.get contexts.now x ≡ Some s → length s.fields ≡ length all_fields }
{
    match contexts.get(x) {
        None => {}
        Some(fields) => fields.covers_each_field(),
    }
}

/// Adds a context that isn't there, with initial fields.
pub(crate) fn add_to(contexts: &mut SlabStore, x: ContextId) -> Result<(), OutOfMemory>
    requires { map.get contexts.old x ≡ None }
    ensures { OnOk result ((y : ContextId) → map.get contexts.new y ≡
        (if same_context y x then Some (record { fields = initial_table; epochs = no_epochs })
        else map.get contexts.old y)) }
{
    contexts.add(x, Fields::initial())?;
    Ok(())
}

/// Takes these contexts away.
pub(crate) fn remove_all(contexts: &mut SlabStore, xs: &[ContextId])
    ensures { (y : ContextId) → map.get contexts.new y ≡
        (if list_any (same_context y) xs.now then None else map.get contexts.old y) }
{
    for x in xs {
        contexts.remove(*x);
    }
}
