ghost use Rattle.std.specs.Prelude.{◌≡◌, not, None, [], ◌∷◌, IfOk};
ghost use Rattle.field_table.specs.FieldSet.{set_of};
ghost use Rattle.wire_msgs.specs.declared.action.Action.TheVariants.{Set, Frame, Drop};
ghost use Rattle.wire_msgs.specs.declared.refusal.Refusal.TheVariants.{NoContext};
ghost use Rattle.protocol.specs.OwnActs.{action_step, denied_to_process, refusal};
ghost use Rattle.protocol.specs.ParentActs.{refused_if, denial_refused};
ghost use Rattle.protocol.specs.Questions.{option_any};
ghost use Rattle.protocol.specs.SeenAfter.{seen_after};
ghost use Rattle.protocol.specs.Take.{bundle_sent};
ghost use Rattle.protocol.specs.Played.{IsPlayedByProcess};
ghost use Rattle.content_core.specs.Content.{seen_of, IsWhole};
ghost use Rattle.content_core.specs.Held.{kept_of};
ghost use Rattle.content_core.specs.Moved.{MovedBy, Counts};
ghost use Rattle.content_core.specs.Steps.{frame_refusal, drop_refusal, is_field_denied};
ghost use Rattle.content_core.specs.Steps.{refused_step, allowed_step};

use crate::content::Content;
use crate::held::Held;
use crate::moved::Moved;
use field_rules::{Ask, denied};
use field_table::{Field, FieldSet};
use fission_ids::{ContextId, Duplicate, Kept, OutOfMemory, ProcId, Seq};
use std::alloc::Global;
use transaction::Transaction;
use wire_msgs::{Action, Answer, Counted, Refusal, UpBundle, UpPart};

impl Held {
    /// The process acts of its own accord. Where it doesn't run, that is refused as `Stopped`.
    pub(crate) fn act(self, action: Action) -> Result<Moved, OutOfMemory>
        requires whole { IsWhole (kept_of self) }
        requires action { IsPlayedByProcess action }
        requires counts { Counts (kept_of self) }
        ensures { IfOk result (λ m. MovedBy (kept_of self)
            (action_step (λ s. s) (seen_after self.process.0) self.process.0 action (seen_of (kept_of self)))
            m) }
    {
        match self.refusal(&action) {
            Some(why) => Ok(self.refused(why)),
            None => self.perform(action),
        }
    }

    // Why an action is refused, if it is.
    #[tactic(auto, unfolding(protocol::specs::OwnActs::refusal))]
    fn refusal(&self, action: &Action) -> Option<Refusal>
        requires { IsPlayedByProcess action.now }
        ensures { result ≡ refusal self.now.process.0 (seen_of (kept_of self.now)) action.now }
    {
        if !self.running {
            return Some(Refusal::Stopped);
        }
        match action {
            Action::Set { context, fields } => self.set_refusal(*context, fields.get()),
            Action::Frame { context } => self.frame_refusal(*context),
            Action::Drop { context } => self.drop_refusal(*context),
            _ => unreachable!(),
        }
    }

    // Why a write is refused, if it is.
    fn set_refusal(&self, x: ContextId, t: &Transaction) -> Option<Refusal>
        ensures { result ≡ refused_if (not ((seen_of (kept_of self.now)).holds x)) NoContext
            (denial_refused (denied_to_process self.now.process.0 (seen_of (kept_of self.now)) x t.now)) }
    {
        if !self.has(x) {
            return Some(Refusal::NoContext);
        }
        let top = self.above(x).is_none();
        let denied = denied_fields(self.process, top, self.owns(x), x, t);
        if denied == FieldSet::EMPTY {
            return None;
        }
        Some(Refusal::Denied(denied))
    }

    // Why a frame is refused, if it is.
    fn frame_refusal(&self, x: ContextId) -> Option<Refusal>
        ensures { result ≡ frame_refusal (seen_of (kept_of self.now)) x }
    {
        if !self.has(x) {
            return Some(Refusal::NoContext);
        }
        if !self.owns(x) {
            return Some(Refusal::NotMine);
        }
        if self.frames_made == 240 {
            return Some(Refusal::TooMany(Counted::Contexts, 240));
        }
        None
    }

    // Why a drop is refused, if it is.
    fn drop_refusal(&self, x: ContextId) -> Option<Refusal>
        ensures { result ≡ drop_refusal (seen_of (kept_of self.now)) x }
    {
        if !self.has(x) {
            return Some(Refusal::NoContext);
        }
        if !self.owns_above(x) {
            return Some(Refusal::NotMine);
        }
        None
    }

    // Whether the process owns the context that a context is a frame of.
    fn owns_above(&self, x: ContextId) -> bool
        ensures { result ≡ option_any (seen_of (kept_of self.now)).owns
            ((seen_of (kept_of self.now)).above x) }
    {
        match self.above(x) {
            Some(above) => self.owns(above),
            None => false,
        }
    }

    // An action is refused.
    fn refused(self, why: Refusal) -> Moved
        requires { IsWhole (kept_of self) }
        ensures { MovedBy (kept_of self) (refused_step why (seen_of (kept_of self))) result }
    {
        Moved {
            core: Content { held: self },
            answer: Answer::Refused(why),
            sent: None,
        }
    }

    // An action that isn't refused.
    fn perform(self, action: Action) -> Result<Moved, OutOfMemory>
        requires whole { IsWhole (kept_of self) }
        requires action { IsPlayedByProcess action }
        requires counts { Counts (kept_of self) }
        requires allowed { refusal self.process.0 (seen_of (kept_of self)) action ≡ None }
        ensures { IfOk result (λ m. MovedBy (kept_of self)
            (allowed_step self.process.0 action (seen_of (kept_of self))) m) }
    {
        match action {
            Action::Set { context, fields } => self.set(context, fields),
            Action::Frame { context } => self.frame(context),
            Action::Drop { context } => self.drop_frame(context),
            _ => unreachable!(),
        }
    }

    // The process writes fields of a context.
    fn set(self, x: ContextId, change: Kept<Transaction>) -> Result<Moved, OutOfMemory>
        requires whole { IsWhole (kept_of self) }
        requires counts { Counts (kept_of self) }
        requires allowed { refusal self.process.0 (seen_of (kept_of self)) (Set x change) ≡ None }
        ensures { IfOk result (λ m. MovedBy (kept_of self)
            (allowed_step self.process.0 (Set x change) (seen_of (kept_of self))) m) }
    {
        let mut held = self;
        let t = change.get().copy()?;
        let parts = one_part(held.alloc, UpPart::Commit { context: x, change })?;
        held.write(x, t);
        Ok(held.moved(Answer::Done, parts))
    }

    // The process makes a frame.
    fn frame(self, x: ContextId) -> Result<Moved, OutOfMemory>
        requires whole { IsWhole (kept_of self) }
        requires allowed { refusal self.process.0 (seen_of (kept_of self)) (Frame x) ≡ None }
        ensures { IfOk result (λ m. MovedBy (kept_of self)
            (allowed_step self.process.0 (Frame x) (seen_of (kept_of self))) m) }
    {
        let mut held = self;
        let context = held.make_frame(x)?;
        let parts = one_part(held.alloc, UpPart::Create { context, parent: x })?;
        Ok(held.moved(Answer::Context(context), parts))
    }

    // The process drops a frame.
    fn drop_frame(self, x: ContextId) -> Result<Moved, OutOfMemory>
        requires whole { IsWhole (kept_of self) }
        requires allowed { refusal self.process.0 (seen_of (kept_of self)) (Drop x) ≡ None }
        ensures { IfOk result (λ m. MovedBy (kept_of self)
            (allowed_step self.process.0 (Drop x) (seen_of (kept_of self))) m) }
    {
        let mut held = self;
        held.go(x)?;
        let parts = one_part(held.alloc, UpPart::Drop { context: x })?;
        Ok(held.moved(Answer::Done, parts))
    }

    /// The process behind a step that has this answer, and sends these parts.
    pub(crate) fn moved(self, answer: Answer, parts: Seq<UpPart>) -> Moved
        requires { IsWhole (kept_of self) }
        ensures core { result.core ≡ kept_of self }
        ensures answer { result.answer ≡ answer }
        ensures sent { result.sent ≡ bundle_sent (seen_of (kept_of self)) parts }
    {
        let sent = self.bundle(parts);
        Moved {
            core: Content { held: self },
            answer,
            sent,
        }
    }

    // The bundle that the process sends behind a step, if it sends any parts.
    fn bundle(&self, parts: Seq<UpPart>) -> Option<UpBundle>
        ensures { result ≡ bundle_sent (seen_of (kept_of self.now)) parts }
    {
        if parts.is_empty() {
            return None;
        }
        Some(UpBundle {
            epoch: self.clock.last(),
            seen: self.taken,
            parts,
        })
    }
}

// One part.
fn one_part(alloc: Global, part: UpPart) -> Result<Seq<UpPart>, OutOfMemory>
    ensures { IfOk result (λ parts. parts ≡ part ∷ []) }
{
    Ok(Seq::from_vec(vec![in alloc; part]?))
}

// The modified fields that the fixed facts deny to process p.
fn denied_fields(p: ProcId, top: bool, owned: bool, x: ContextId, t: &Transaction) -> FieldSet
    ensures { result ≡ set_of (is_field_denied p.0 top owned x t.now) }
{
    let mut denied = FieldSet::EMPTY;
    for f in Field::ALL {
        if is_field_denied(p, top, owned, x, t, f) {
            denied = denied.with(f);
        }
    }
    denied
}

// Whether a field is modified so that the fixed facts deny it to process p.
fn is_field_denied(
    p: ProcId,
    top: bool,
    owned: bool,
    x: ContextId,
    t: &Transaction,
    f: Field,
) -> bool
    ensures { result ≡ is_field_denied p.0 top owned x t.now f }
{
    match t.value(f) {
        Some(value) => denied(&Ask {
            field: f,
            value,
            context: x,
            top,
            window: None,
            from: Some(p),
            owner_is_sender: owned,
        }),
        None => false,
    }
}
