ghost use Rattle.std.specs.Prelude.{◌≡◌, ◌≢◌, None, OnErr, OnOk};
ghost use Rattle.std.specs.FinMap as map;
ghost use Rattle.std.specs.Option.{option_copied};
ghost use Rattle.fission_ids.specs.declared.context.ContextId.{ContextId};
ghost use Rattle.fission_ids.specs.declared.epoch.Epoch.{Epoch};
ghost use Rattle.std.specs.declared.option.Option.{Option};
ghost use Rattle.transaction.specs.Transaction.{Changes};
ghost use Rattle.epochs.specs.FieldEpochs.{no_epochs};
ghost use Rattle.context_store.specs.Content.{Content, content_after_change, fields_at, is_there};
ghost use Rattle.context_store.specs.Content.{obsolete_at, stored_after_commit, stored_after_overlay};

use field_table::{FieldSet, Fields};
use fission_ids::{ContextId, Epoch, OutOfMemory};
use transaction::Transaction;

/// The fields of contexts, each with the epoch of the last own write to it, 0 before the first.
pub trait Store {
    // What is there for each context.
    ghost content: { Self → Content };

    /// The fields of a context. None exactly where it isn't there.
    fn get(&self, x: ContextId) -> Option<&Fields>
        ensures { option_copied result ≡ fields_at x (content self.now) };

    /// Adds a context that isn't there, of which no field was written. Where memory is wanting, nothing is
    /// added.
    fn add(&mut self, x: ContextId, fields: Fields) -> Result<(), OutOfMemory>
        requires { map.get (content self.old) x ≡ None }
        ensures ok { OnOk result (content self.new ≡
            map.insert (content self.old) x (record { fields = fields; epochs = no_epochs })) }
        ensures err { OnErr result (content self.new ≡ content self.old) };

    /// Takes a context away. False exactly where it isn't there.
    fn remove(&mut self, x: ContextId) -> bool
        ensures content { content self.new ≡ map.remove (content self.old) x }
        ensures answer { result ≡ is_there x (content self.old) };

    /// Applies a transaction to a context, and marks the modified fields with the epoch where one is given.
    /// False exactly where the context isn't there.
    fn commit(&mut self, x: ContextId, t: Transaction, e: Option<Epoch>) -> bool
        ensures content { content self.new ≡
            content_after_change (stored_after_commit t e) x (content self.old) }
        ensures answer { result ≡ is_there x (content self.old) };

    /// The obsolete fields: those that the transaction modifies and that were written behind this epoch. The
    /// rest of the transaction is applied, and nothing is marked. None exactly where the context isn't there.
    fn overlay(&mut self, x: ContextId, t: Transaction, e: Epoch) -> Option<FieldSet>
        ensures content { content self.new ≡
            content_after_change (stored_after_overlay t e) x (content self.old) }
        ensures answer { result ≡ obsolete_at x t e (content self.old) };
}

/// What a commit or an overlay of a context leaves of another: everything.
pub fn others_stay()
    ensures commit { (x y : ContextId) (t : Changes) (e : Option Epoch) (m : Content) → y ≢ x →
        map.get (content_after_change (stored_after_commit t e) x m) y ≡ map.get m y }
    ensures overlay { (x y : ContextId) (t : Changes) (e : Epoch) (m : Content) → y ≢ x →
        map.get (content_after_change (stored_after_overlay t e) x m) y ≡ map.get m y }
{}
