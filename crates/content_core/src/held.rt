ghost use Rattle.std.specs.Prelude.{◌≡◌, ◌+◌, ◌-◌, ◌^◌, ◌<◌, true, false, Some};
ghost use Rattle.std.specs.Prelude.{map, IfOk, OnOk, if◌then◌else◌};
ghost use Rattle.std.specs.Option.{option_copied};
ghost use Rattle.context_store.specs.Content.{content_after_change, obsolete_at};
ghost use Rattle.context_store.specs.Content.{stored_after_commit, stored_after_overlay};
ghost use Rattle.field_table.specs.FieldSet.{has};
ghost use Rattle.wire_msgs.specs.declared.note.Mark.TheVariants.{Done, Ignored};
ghost use Rattle.wire_msgs.specs.declared.note.FieldMark.TheVariants.{Applied, Obsolete};
ghost use Rattle.wire_msgs.specs.declared.part.DownPart.TheVariants.{Commit};
ghost use Rattle.protocol.specs.OwnActs.{next_frame};
ghost use Rattle.protocol.specs.Seen.Doing.{Came, Framed, Went, Wrote};
ghost use Rattle.protocol.specs.Take.{may_come, option_all};
ghost use Rattle.content_core.specs.Content.{seen_of, IsWhole};
ghost use Rattle.content_core.specs.Held.{kept_of, Does, DoesAll, TakesPart};
ghost use Rattle.content_core.specs.Steps.{notes_beside, commit_note};

use crate::contexts::Contexts;
use crate::hold::Hold;
use context_store::{SlabStore, Store};
use epochs::Clock;
use field_table::{Field, FieldSet, Fields, Value};
use fission_ids::{ContextId, Duplicate, Epoch, GroupId, OutOfMemory, ProcId, Seq};
use std::alloc::{AllocError, Global};
use transaction::Transaction;
use wire_msgs::{FieldMark, FieldNote, Known, Mark, PartNote};

/// What a process keeps, while a step works on it. Behind an error it may be of no use.
#[derive(Debug, Drop)]
pub(crate) struct Held {
    pub(crate) alloc: Global,
    pub(crate) process: ProcId,
    pub(crate) contexts: Contexts,
    pub(crate) clock: Clock,
    pub(crate) taken: u64,
    pub(crate) frames_made: u32,
    pub(crate) running: bool,
}

impl Held {
    /// What the process shows of a field. None exactly where it doesn't hold the context.
    pub(crate) fn field(&self, x: ContextId, f: Field) -> Option<&Value>
        ensures { option_copied result ≡ (seen_of (kept_of self.now)).value x f }
    {
        Some(self.contexts.store.get(x)?.get(f))
    }

    /// Whether the process holds a context.
    pub(crate) fn has(&self, x: ContextId) -> bool
        ensures { result ≡ (seen_of (kept_of self.now)).holds x }
    {
        self.contexts.tree.holds(x)
    }

    /// The context that a context is a frame of. None for a top-level one, and for one that isn't held.
    pub(crate) fn above(&self, x: ContextId) -> Option<ContextId>
        ensures { result ≡ (seen_of (kept_of self.now)).above x }
    {
        self.contexts.tree.parent(x)
    }

    /// Whether the process owns a context.
    pub(crate) fn owns(&self, x: ContextId) -> bool
        ensures { result ≡ (seen_of (kept_of self.now)).owns x }
    {
        match self.contexts.hold(x) {
            Some(hold) => hold.owned,
            None => false,
        }
    }

    /// The group of a context. None exactly where the process doesn't hold it.
    pub(crate) fn group(&self, x: ContextId) -> Option<GroupId>
        ensures { result ≡ (seen_of (kept_of self.now)).group x }
    {
        Some(self.contexts.hold(x)?.group)
    }

    /// The process is told of a context, which it holds from then on, if it may come.
    pub(crate) fn come(&mut self, known: &Known) -> Result<Mark, OutOfMemory>
        requires whole { IsWhole (kept_of self.old) }
        ensures does { OnOk result (Does (Came known.now) (kept_of self.old) (kept_of self.new)) }
        ensures mark { IfOk result (λ mark. mark ≡
            (if may_come self.old.process.0 (seen_of (kept_of self.old)) known.now then Done else Ignored)) }
    {
        if !self.may_come(known) {
            return Ok(Mark::Ignored);
        }
        let hold = Hold {
            group: known.group,
            owned: known.owned,
        };
        let fields = known.fields.get().copy()?;
        self.contexts
            .put(known.context, known.parent, hold, fields)?;
        Ok(Mark::Done)
    }

    /// The process is told of contexts, one after the other.
    pub(crate) fn come_all(&mut self, contexts: &[Known]) -> Result<(), OutOfMemory>
        requires whole { IsWhole (kept_of self.old) }
        ensures { OnOk result (DoesAll (map Came contexts.now) (kept_of self.old) (kept_of self.new)) }
    {
        for known in contexts {
            self.come(known)?;
        }
        Ok(())
    }

    // Whether the process holds a context from when it is told of it.
    fn may_come(&self, known: &Known) -> bool
        requires { self.now.process.0 < 16 }
        ensures { result ≡ may_come self.now.process.0 (seen_of (kept_of self.now)) known.now }
    {
        if self.has(known.context) || known.context.creator == self.process.0 + 1 {
            return false;
        }
        self.has_each(known.parent)
    }

    // Whether there is no context, or the process holds it.
    fn has_each(&self, x: Option<ContextId>) -> bool
        ensures { result ≡ option_all (seen_of (kept_of self.now)).holds x }
    {
        match x {
            Some(x) => self.has(x),
            None => true,
        }
    }

    /// The process makes a frame in a context, and owns it.
    pub(crate) fn make_frame(&mut self, above: ContextId) -> Result<ContextId, OutOfMemory>
        requires whole { IsWhole (kept_of self.old) }
        requires held { (seen_of (kept_of self.old)).holds above ≡ true }
        requires few { self.old.frames_made < 240 }
        ensures { IfOk result (λ x. (x ≡ next_frame self.old.process.0 (seen_of (kept_of self.old)))
            × Does (Framed x above) (kept_of self.old) (kept_of self.new)) }
    {
        let x = ContextId {
            creator: self.process.0 + 1,
            serial: self.frames_made + 1,
        };
        let Some(group) = self.group(above) else {
            unreachable!()
        };
        let hold = Hold { group, owned: true };
        self.contexts.put(x, Some(above), hold, Fields::initial())?;
        self.frames_made += 1;
        Ok(x)
    }

    /// A context goes with all below it, if the process holds it.
    pub(crate) fn go(&mut self, x: ContextId) -> Result<(), OutOfMemory>
        requires whole { IsWhole (kept_of self.old) }
        ensures { OnOk result (Does (Went x) (kept_of self.old) (kept_of self.new)) }
    {
        self.contexts.leave(x)?;
        Ok(())
    }

    /// The process writes fields of a context that it holds, under the next epoch.
    pub(crate) fn write(&mut self, x: ContextId, t: Transaction)
        requires whole { IsWhole (kept_of self.old) }
        requires held { (seen_of (kept_of self.old)).holds x ≡ true }
        requires clock { self.old.clock < 2 ^ 64 - 1 }
        ensures { Does (Wrote x t) (kept_of self.old) (kept_of self.new) }
    {
        commit(&mut self.contexts.store, &mut self.clock, x, t);
    }

    /// The process takes a commit, told under an epoch. Others may share it, so that it stays where it is.
    pub(crate) fn give(
        &mut self,
        x: ContextId,
        t: &Transaction,
        e: Epoch,
    ) -> Result<PartNote, OutOfMemory>
        requires whole { IsWhole (kept_of self.old) }
        ensures { IfOk result (λ note.
            TakesPart (Commit x t.now) e.0 note (kept_of self.old) (kept_of self.new)) }
    {
        let note = overlay(self.alloc, &mut self.contexts.store, x, t, e)?;
        Ok(note)
    }
}

// Commits to a context under the next epoch.
fn commit(store: &mut SlabStore, clock: &mut Clock, x: ContextId, t: Transaction)
    requires { clock.old < 2 ^ 64 - 1 }
    ensures store { store.new ≡
        content_after_change (stored_after_commit t (Some (record { 0 = clock.old + 1 }))) x store.old }
    ensures clock { clock.new ≡ clock.old + 1 }
{
    let Ok(epoch) = clock.next() else {
        unreachable!()
    };
    store.commit(x, t, Some(epoch));
}

// Applies what of a commit isn't obsolete at an epoch, and tells what became of it.
fn overlay(
    alloc: Global,
    store: &mut SlabStore,
    x: ContextId,
    t: &Transaction,
    e: Epoch,
) -> Result<PartNote, OutOfMemory>
    ensures store { OnOk result (store.new ≡
        content_after_change (stored_after_overlay t.now e) x store.old) }
    ensures note { IfOk result (λ n. n ≡ commit_note x t.now (obsolete_at x t.now e store.old)) }
{
    match store.overlay(x, t.copy()?, e) {
        Some(obsolete) => Ok(PartNote::Commit(x, Seq::from_vec(notes_beside(alloc, obsolete, t)?))),
        None => Ok(PartNote::CommitIgnored(x)),
    }
}

// What becomes of each field that a commit modifies, by the fields' numbers.
fn notes_beside(
    alloc: Global,
    obsolete: FieldSet,
    t: &Transaction,
) -> Result<Vec<FieldNote>, AllocError>
    ensures { IfOk result (λ notes. notes.items ≡ notes_beside obsolete t.now) }
{
    Field::ALL
        .iter()
        .copied()
        .filter(|f| t.value(*f).is_some())
        .map(|field| FieldNote {
            field,
            mark: mark_beside(obsolete, field),
        })
        .collect(alloc)
}

// What becomes of a modified field.
fn mark_beside(obsolete: FieldSet, f: Field) -> FieldMark
    ensures { result ≡ (if has obsolete f then Obsolete else Applied) }
{
    if obsolete.has(f) {
        FieldMark::Obsolete
    } else {
        FieldMark::Applied
    }
}
