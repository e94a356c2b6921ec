ghost use Rattle.std.specs.Prelude.{◌≡◌, ℕ, ◌<◌, ◌==◌, ◌++◌, List, [], length, Bool, true, false, None};
ghost use Rattle.std.specs.Prelude.{is_none, IfOk, OnOk, if◌then◌else◌};
ghost use Rattle.fission_ids.specs.ProcSet.{has};
ghost use Rattle.field_table.specs.declared.field.Field.{Field};
ghost use Rattle.field_rules.specs.RuleBounds.{bounds_of};
ghost use Rattle.wire_msgs.specs.declared.part.UpPart.TheVariants as ups;
ghost use Rattle.wire_msgs.specs.declared.part.DownPart.TheVariants as downs;
ghost use Rattle.protocol.specs.Questions.{is_judged, is_told};
ghost use Rattle.protocol.specs.Hear.{commit_unless_empty, fault, frame_known, is_late, is_new_frame};
ghost use Rattle.protocol.specs.Hear.{is_other_told};
ghost use Rattle.protocol.specs.Outside.{allowed_in};
ghost use Rattle.protocol.specs.Played.{IsPlayed};
ghost use Rattle.parent_core.specs.Parent.{facts_of};
ghost use Rattle.parent_core.specs.Heard.{PartDone, allowed_of_part};
ghost use Rattle.parent_core.specs.Posts.{Posted, sent_to};

use crate::parent::Parent;
use crate::posts::{Post, post_part};
use crate::sending::{only, post_changes};
use crate::writes::{judged_note, reverted_fields, without};
use field_rules::Rules;
use field_table::Fields;
use fission_ids::{ContextId, GroupId, Kept, OutOfMemory, ProcId, ProcSet};
use transaction::Transaction;
use wire_msgs::{DownPart, Known, Mark, PartNote, UpPart};

/// What a part gives.
#[derive(Debug, Drop)]
pub(crate) struct PartHeard {
    /// The parent behind it.
    pub(crate) core: Parent,
    /// What became of it.
    pub(crate) note: PartNote,
}

impl Parent {
    /// Does a part of process p that was judged to be without fault, and posts what is sent of it.
    pub(crate) fn hear_part(
        self,
        rules: &Rules,
        p: ProcId,
        part: UpPart,
        posts: &mut Vec<Post>,
    ) -> Result<PartHeard, OutOfMemory>
        requires process { p.0 < length self.config.types }
        requires runs { (facts_of self).processes.ended p.0 ≡ None }
        requires part { IsPlayed part }
        requires faultless { (n : ℕ) →
            fault (allowed_of_part (bounds_of rules.now) part) p.0 n (facts_of self) part ≡ None }
        ensures { IfOk result (λ r. PartDone (allowed_of_part (bounds_of rules.now) part) p.0 part
            self posts.old.items posts.new.items r) }
    {
        match part {
            UpPart::Create { context, parent } => self.hear_create(p, context, parent, posts),
            UpPart::Drop { context } => self.hear_drop(p, context, posts),
            UpPart::DropAck { context } => Ok(self.hear_ack(p, context)),
            UpPart::Commit { context, change } => {
                self.hear_commit(rules, p, context, change.into_inner(), posts)
            }
            _ => unreachable!(),
        }
    }

    // Process p made a frame, in time or too late.
    fn hear_create(
        self,
        p: ProcId,
        x: ContextId,
        above: ContextId,
        posts: &mut Vec<Post>,
    ) -> Result<PartHeard, OutOfMemory>
        requires process { p.0 < length self.config.types }
        requires runs { (facts_of self).processes.ended p.0 ≡ None }
        requires id { is_new_frame p.0 x ≡ true }
        requires new { (facts_of self).contexts.known x ≡ false }
        requires above { (facts_of self).contexts.known above ≡ true }
        ensures { IfOk result (λ r. (allows : Field → Bool) →
            PartDone allows p.0 (ups.Create x above) self posts.old.items posts.new.items r) }
    {
        if self.is_late(p, above) {
            self.create_late(p, x, above, posts)
        } else {
            self.create_timely(p, x, above, posts)
        }
    }

    // Whether a frame in a context comes too late.
    fn is_late(&self, p: ProcId, above: ContextId) -> bool
        ensures { result ≡ is_late (facts_of self.now) p.0 above }
    {
        !(self.is_live(above) && self.is_owner(p, above))
    }

    // A frame is discarded at once, and its maker is told so.
    fn create_late(
        self,
        p: ProcId,
        x: ContextId,
        above: ContextId,
        posts: &mut Vec<Post>,
    ) -> Result<PartHeard, OutOfMemory>
        requires process { p.0 < length self.config.types }
        requires runs { (facts_of self).processes.ended p.0 ≡ None }
        requires id { is_new_frame p.0 x ≡ true }
        requires new { (facts_of self).contexts.known x ≡ false }
        requires above { (facts_of self).contexts.known above ≡ true }
        requires late { is_late (facts_of self) p.0 above ≡ true }
        ensures { IfOk result (λ r. (allows : Field → Bool) →
            PartDone allows p.0 (ups.Create x above) self posts.old.items posts.new.items r) }
    {
        self.has_few_processes();
        post_part(
            self.alloc(),
            only(p),
            DownPart::Discard { context: x },
            posts,
        )?;
        let core = self.bear_dead(p, x, above)?;
        let note = PartNote::Create(x, Mark::Late);
        Ok(PartHeard { core, note })
    }

    // A frame is made, and the other subscribers are told so.
    fn create_timely(
        self,
        p: ProcId,
        x: ContextId,
        above: ContextId,
        posts: &mut Vec<Post>,
    ) -> Result<PartHeard, OutOfMemory>
        requires process { p.0 < length self.config.types }
        requires runs { (facts_of self).processes.ended p.0 ≡ None }
        requires id { is_new_frame p.0 x ≡ true }
        requires new { (facts_of self).contexts.known x ≡ false }
        requires timely { is_late (facts_of self) p.0 above ≡ false }
        ensures { IfOk result (λ r. (allows : Field → Bool) →
            PartDone allows p.0 (ups.Create x above) self posts.old.items posts.new.items r) }
    {
        self.has_few_processes();
        let part = self.frame_part(x, above)?;
        post_part(self.alloc(), self.others(p, above), part, posts)?;
        let core = self.make(p, x, above)?;
        let note = PartNote::Create(x, Mark::Done);
        Ok(PartHeard { core, note })
    }

    // What is told of a frame that is made.
    fn frame_part(&self, x: ContextId, above: ContextId) -> Result<DownPart, OutOfMemory>
        ensures { IfOk result (λ d. d ≡ downs.Create (frame_known (facts_of self.now) x above)) }
    {
        let known = Known {
            context: x,
            group: self.group_of(above).unwrap_or(GroupId(0)),
            parent: Some(above),
            owned: false,
            fields: Kept::of(self.alloc(), Fields::initial())?,
        };
        Ok(DownPart::Create { known })
    }

    // The processes that are told what process p does to a context.
    fn others(&self, p: ProcId, x: ContextId) -> ProcSet
        requires { p.0 < 16 }
        ensures { (q : ℕ) → q < 16 → has result q ≡ is_other_told (facts_of self.now) p.0 q x }
    {
        self.told_of(x).without(p)
    }

    // Process p dropped a frame, which may be discarded already.
    fn hear_drop(
        self,
        p: ProcId,
        x: ContextId,
        posts: &mut Vec<Post>,
    ) -> Result<PartHeard, OutOfMemory>
        requires { p.0 < length self.config.types }
        ensures { IfOk result (λ r. (allows : Field → Bool) →
            PartDone allows p.0 (ups.Drop x) self posts.old.items posts.new.items r) }
    {
        if self.is_live(x) {
            self.drop_live(p, x, posts)
        } else {
            let note = PartNote::Drop(x, Mark::Ignored);
            Ok(PartHeard { core: self, note })
        }
    }

    // A live frame is dropped, and the other subscribers are told so.
    fn drop_live(
        self,
        p: ProcId,
        x: ContextId,
        posts: &mut Vec<Post>,
    ) -> Result<PartHeard, OutOfMemory>
        requires process { p.0 < length self.config.types }
        requires live { (facts_of self).contexts.live x ≡ true }
        ensures { IfOk result (λ r. (allows : Field → Bool) →
            PartDone allows p.0 (ups.Drop x) self posts.old.items posts.new.items r) }
    {
        self.has_few_processes();
        post_part(
            self.alloc(),
            self.others(p, x),
            DownPart::Discard { context: x },
            posts,
        )?;
        let core = self.remove(x, Some(p))?;
        let note = PartNote::Drop(x, Mark::Done);
        Ok(PartHeard { core, note })
    }

    // Process p acknowledged a discard.
    fn hear_ack(self, p: ProcId, x: ContextId) -> PartHeard
        requires { p.0 < length self.config.types }
        ensures { (allows : Field → Bool) (sent : List Posted) →
            PartDone allows p.0 (ups.DropAck x) self sent sent result }
    {
        let core = self.acknowledge(p, x);
        let note = PartNote::Ack(x);
        PartHeard { core, note }
    }

    // A commit of process p is done where it is judged, else ignored.
    fn hear_commit(
        self,
        rules: &Rules,
        p: ProcId,
        x: ContextId,
        t: Transaction,
        posts: &mut Vec<Post>,
    ) -> Result<PartHeard, OutOfMemory>
        requires { p.0 < length self.config.types }
        ensures { IfOk result (λ r. PartDone (allowed_in (bounds_of rules.now) t) p.0 (ups.Commit x t)
            self posts.old.items posts.new.items r) }
    {
        if self.is_judged(p, x) {
            self.apply(rules, p, x, t, posts)
        } else {
            let note = PartNote::CommitIgnored(x);
            Ok(PartHeard { core: self, note })
        }
    }

    // Whether a commit of process p to a context is judged.
    fn is_judged(&self, p: ProcId, x: ContextId) -> bool
        requires { p.0 < length self.now.config.types }
        ensures { result ≡ is_judged (facts_of self.now) p.0 x }
    {
        self.has_few_processes();
        self.is_live(x) && self.is_told(p, x)
    }

    // A commit of process p is done: what is reverted goes back to it with the present values, and every
    // other subscriber is told the rest.
    fn apply(
        self,
        rules: &Rules,
        p: ProcId,
        x: ContextId,
        t: Transaction,
        posts: &mut Vec<Post>,
    ) -> Result<PartHeard, OutOfMemory>
        requires process { p.0 < length self.config.types }
        requires judged { is_judged (facts_of self) p.0 x ≡ true }
        ensures { IfOk result (λ r. PartDone (allowed_in (bounds_of rules.now) t) p.0 (ups.Commit x t)
            self posts.old.items posts.new.items r) }
    {
        self.has_few_processes();
        let reverted = reverted_fields(rules, p, x, self.is_top(x), self.is_owner(p, x), &t);
        let note = judged_note(self.alloc(), x, &t, reverted)?;
        let back = self.present(x, reverted)?;
        let applied = without(t, reverted);
        self.post_verdict(p, x, &back, &applied, posts)?;
        let core = self.write(x, applied);
        Ok(PartHeard { core, note })
    }

    /// Whether a context is no frame.
    pub(crate) fn is_top(&self, x: ContextId) -> bool
        ensures { result ≡ is_none ((facts_of self.now).contexts.above x) }
    {
        self.above(x).is_none()
    }

    // What is sent of a commit of process p: to it what goes back, and to every other subscriber what is
    // applied.
    fn post_verdict(
        &self,
        p: ProcId,
        x: ContextId,
        back: &Transaction,
        applied: &Transaction,
        posts: &mut Vec<Post>,
    ) -> Result<(), OutOfMemory>
        requires { p.0 < 16 }
        ensures { OnOk result ((q : ℕ) → q < 16 → sent_to posts.new.items q ≡ sent_to posts.old.items q
            ++ (if q == p.0 then commit_unless_empty x back.now
            else if is_told (facts_of self.now) q x then commit_unless_empty x applied.now
            else [])) }
    {
        post_changes(self.alloc(), only(p), x, back, posts)?;
        post_changes(self.alloc(), self.others(p, x), x, applied, posts)?;
        Ok(())
    }
}
