ghost use Rattle.std.specs.Prelude.{◌≡◌, ◌<◌, Bool, length, [], IfOk, OnOk};
ghost use Rattle.field_table.specs.declared.field.Field.{Field};
ghost use Rattle.protocol.specs.Bundle.{envelope_fault};
ghost use Rattle.protocol.specs.FactsAfter.{facts_after};
ghost use Rattle.protocol.specs.Fold.{first_fault, or_later};
ghost use Rattle.protocol.specs.Hear.{hear_rules, is_new_frame};
ghost use Rattle.parent_core.specs.Drafts.{commit_fault, counted, create_fault, draft_with, drop_fault};
ghost use Rattle.parent_core.specs.Drafts.{fault_in, first_fault_in, may_drop_in, step_in, takes_frame};
ghost use Rattle.parent_core.specs.Parent.{facts_of};
ghost use Rattle.parent_core.specs.Ruled.{Counts};

use crate::drafts::Step;
use crate::parent::Parent;
use crate::writes::denial_heard;
use fission_ids::{AnyId, ContextId, OutOfMemory, ProcId};
use transaction::Transaction;
use wire_msgs::{EndCause, UpBundle, UpPart};

// Judging a bundle of process p, with nothing changed.
impl Parent {
    /// Why a bundle ends its sender, if it does: by its envelope, or by the first part that may not be sent
    /// so behind the parts before it.
    pub(crate) fn fault(
        &self,
        p: ProcId,
        bundle: &UpBundle,
    ) -> Result<Option<EndCause>, OutOfMemory>
        requires process { p.0 < length self.now.config.types }
        requires counts { Counts self.now }
        ensures { IfOk result (λ o. (allows : Field → Bool) →
            o ≡ or_later (envelope_fault (facts_of self.now) p.0 bundle.now)
            (first_fault (hear_rules allows p.0 p.0) (λ f. f) facts_after 1
            (counted p.0 bundle.now (facts_of self.now)) bundle.now.parts)) }
    {
        self.stands_soundly();
        match self.envelope_fault(p, bundle) {
            Some(cause) => Ok(Some(cause)),
            None => self.fault_in_parts(p, bundle.parts.as_slice()),
        }
    }

    // Why the first part that may not be sent so ends its sender.
    fn fault_in_parts(&self, p: ProcId, parts: &[UpPart]) -> Result<Option<EndCause>, OutOfMemory>
        requires process { p.0 < length self.now.config.types }
        ensures { IfOk result (λ o. o ≡ first_fault_in (facts_of self.now) p.0 [] parts.now) }
    {
        self.has_few_processes();
        let mut draft = Vec::new(self.alloc());
        for part in parts {
            match self.fault_in(p, draft.as_slice(), part) {
                Some(cause) => return Ok(Some(cause)),
                None => {}
            }
            let step = self.step_in(p, draft.as_slice(), part);
            note_step(step, &mut draft)?;
        }
        Ok(None)
    }

    // Why a part ends its sender, behind a draft.
    #[tactic(auto, unfolding(crate::specs::Drafts::fault_in))]
    fn fault_in(&self, p: ProcId, draft: &[Step], part: &UpPart) -> Option<EndCause>
        requires { p.0 < 16 }
        ensures { result ≡ fault_in (facts_of self.now) p.0 draft.now part.now }
    {
        match part {
            UpPart::Create { context, parent } => self.create_fault(p, *context, *parent, draft),
            UpPart::Drop { context } => self.drop_fault(p, *context, draft),
            UpPart::Commit { context, change } => self.commit_fault(
                p,
                *context,
                change.get(),
                draft,
            ),
            _ => None,
        }
    }

    // Why a frame in a context does.
    fn create_fault(
        &self,
        p: ProcId,
        x: ContextId,
        above: ContextId,
        draft: &[Step],
    ) -> Option<EndCause>
        requires { p.0 < 16 }
        ensures { result ≡ create_fault (facts_of self.now) p.0 x above draft.now }
    {
        if !is_new_frame(p, x) || self.is_known_in(x, draft) {
            Some(EndCause::BadId {
                id: AnyId::Context(x),
            })
        } else if !self.is_known_in(above, draft) {
            Some(EndCause::BadId {
                id: AnyId::Context(above),
            })
        } else {
            None
        }
    }

    // Why the drop of a context does.
    fn drop_fault(&self, p: ProcId, x: ContextId, draft: &[Step]) -> Option<EndCause>
        ensures { result ≡ drop_fault (facts_of self.now) p.0 x draft.now }
    {
        if self.is_known_in(x, draft) && self.may_drop_in(p, x, draft) {
            None
        } else {
            Some(EndCause::BadId {
                id: AnyId::Context(x),
            })
        }
    }

    // Whether a context that is known may be dropped: it is a frame, and is discarded already or is in a
    // context of the process.
    fn may_drop_in(&self, p: ProcId, x: ContextId, draft: &[Step]) -> bool
        ensures { result ≡ may_drop_in (facts_of self.now) p.0 x draft.now }
    {
        match self.above_in(x, draft) {
            None => false,
            Some(above) => !self.is_live_in(x, draft) || self.is_owner_in(p, above, draft),
        }
    }

    // Why a commit does.
    fn commit_fault(
        &self,
        p: ProcId,
        x: ContextId,
        t: &Transaction,
        draft: &[Step],
    ) -> Option<EndCause>
        requires { p.0 < 16 }
        ensures { result ≡ commit_fault (facts_of self.now) p.0 x t.now draft.now }
    {
        if self.is_live_in(x, draft) && self.is_told_in(p, x, draft) {
            let top = self.above_in(x, draft).is_none();
            denial_heard(p, x, top, self.is_owner(p, x), t)
        } else {
            None
        }
    }

    // What a part makes or takes away.
    #[tactic(auto, unfolding(crate::specs::Drafts::step_in))]
    fn step_in(&self, p: ProcId, draft: &[Step], part: &UpPart) -> Option<Step>
        ensures { result ≡ step_in (facts_of self.now) p.0 draft.now part.now }
    {
        match part {
            UpPart::Create { context, parent } => Some(Step::Made {
                context: *context,
                above: *parent,
                live: self.takes_frame(p, *parent, draft),
            }),
            UpPart::Drop { context } => {
                if self.is_live_in(*context, draft) {
                    Some(Step::Gone { context: *context })
                } else {
                    None
                }
            }
            _ => None,
        }
    }

    // Whether a frame in a context would be live.
    fn takes_frame(&self, p: ProcId, above: ContextId, draft: &[Step]) -> bool
        ensures { result ≡ takes_frame (facts_of self.now) p.0 above draft.now }
    {
        self.is_live_in(above, draft) && self.is_owner_in(p, above, draft)
    }
}

// Whether a process may give a frame this id.
fn is_new_frame(p: ProcId, x: ContextId) -> bool
    requires { p.0 < 16 }
    ensures { result ≡ is_new_frame p.0 x }
{
    x.creator == p.0 + 1 && x.serial > 0 && x.serial <= 240
}

// A step, if there is one, before those of a draft.
fn note_step(step: Option<Step>, draft: &mut Vec<Step>) -> Result<(), OutOfMemory>
    ensures { OnOk result (draft.new.items ≡ draft_with step draft.old.items) }
{
    if let Some(step) = step {
        draft.insert(0, step)?;
    }
    Ok(())
}
