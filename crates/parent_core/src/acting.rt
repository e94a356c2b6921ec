ghost use Rattle.std.specs.Prelude.{◌≡◌, ℕ, ◌<◌, ◌-◌, ◌^◌, [], length, IfOk, true, None};
ghost use Rattle.wire_msgs.specs.declared.action.ParentAction.TheVariants as actions;
ghost use Rattle.protocol.specs.Sayings.Saying.{Ended};
ghost use Rattle.protocol.specs.FactsAfter.{facts_after};
ghost use Rattle.protocol.specs.ParentActs.{action_ruling, refusal};
ghost use Rattle.protocol.specs.Bundle.{ruling};
ghost use Rattle.protocol.specs.Played.{IsPlayedByParent};
ghost use Rattle.parent_core.specs.Parent.{facts_of};
ghost use Rattle.parent_core.specs.Ruled.{RuledBy, Counts};
ghost use Rattle.parent_core.specs.Posts.{bundle_parts, end_to};

use crate::parent::Parent;
use crate::posts::{Post, post_part};
use crate::ruled::Ruled;
use crate::sending::{post_commit, post_end};
use crate::writes::denial;
use fission_ids::{ContextId, OutOfMemory, ProcId, Seq};
use transaction::Transaction;
use wire_msgs::{Answer, DownPart, EndCause, ParentAction, Refusal};

impl Parent {
    /// The parent acts of its own accord.
    pub fn act(self, action: ParentAction) -> Result<Ruled, OutOfMemory>
        requires action { IsPlayedByParent (length self.config.types) action }
        requires counts { Counts self }
        ensures { IfOk result (λ r. RuledBy self
            (action_ruling (λ f. f) facts_after (length self.config.types) action (facts_of self)) r) }
    {
        match action {
            ParentAction::Set { context, fields } => self.set(context, fields.into_inner()),
            ParentAction::Tab { owner, group } => self.tab(owner, group),
            ParentAction::Subscribe { process, group } => self.join(process, group),
            ParentAction::Discard { context } => self.discard(context),
            ParentAction::Kill { process } => self.kill(process),
            _ => unreachable!(),
        }
    }

    // The parent writes fields of a context, unless that is refused.
    fn set(self, x: ContextId, t: Transaction) -> Result<Ruled, OutOfMemory>
        requires { Counts self }
        ensures { IfOk result (λ r. RuledBy self
            (action_ruling (λ f. f) facts_after (length self.config.types) (actions.Set x t)
            (facts_of self)) r) }
    {
        match self.set_refusal(x, &t) {
            Some(why) => Ok(self.refuse(why)),
            None => self.set_allowed(x, t),
        }
    }

    // Why a write is refused, if it is.
    fn set_refusal(&self, x: ContextId, t: &Transaction) -> Option<Refusal>
        ensures { result ≡ refusal (facts_of self.now) (actions.Set x t.now) }
    {
        if self.is_live(x) {
            denial(x, self.is_top(x), t)
        } else {
            Some(Refusal::NoContext)
        }
    }

    // The parent writes fields of a context, and tells its subscribers.
    fn set_allowed(self, x: ContextId, t: Transaction) -> Result<Ruled, OutOfMemory>
        requires counts { Counts self }
        requires allowed { refusal (facts_of self) (actions.Set x t) ≡ None }
        ensures { IfOk result (λ r. RuledBy self
            (action_ruling (λ f. f) facts_after (length self.config.types) (actions.Set x t)
            (facts_of self)) r) }
    {
        let alloc = self.alloc();
        self.has_few_processes();
        let mut posts = Vec::new(alloc);
        post_commit(alloc, self.told_of(x), x, &t, &mut posts)?;
        self.write(x, t).finish(Answer::Done, posts.as_slice())
    }

    // The parent discards a context with all below it, unless that is refused.
    fn discard(self, x: ContextId) -> Result<Ruled, OutOfMemory>
        requires { Counts self }
        ensures { IfOk result (λ r. RuledBy self
            (action_ruling (λ f. f) facts_after (length self.config.types) (actions.Discard x)
            (facts_of self)) r) }
    {
        if self.is_live(x) {
            self.discard_live(x)
        } else {
            Ok(self.refuse(Refusal::NoContext))
        }
    }

    // The parent discards a live context with all below it, and tells its subscribers.
    fn discard_live(self, x: ContextId) -> Result<Ruled, OutOfMemory>
        requires counts { Counts self }
        requires live { (facts_of self).contexts.live x ≡ true }
        ensures { IfOk result (λ r. RuledBy self
            (action_ruling (λ f. f) facts_after (length self.config.types) (actions.Discard x)
            (facts_of self)) r) }
    {
        let alloc = self.alloc();
        self.has_few_processes();
        let mut posts = Vec::new(alloc);
        post_part(
            alloc,
            self.told_of(x),
            DownPart::Discard { context: x },
            &mut posts,
        )?;
        self.remove(x, None)?.finish(Answer::Done, posts.as_slice())
    }

    // The parent kills a process, unless that was ended.
    fn kill(self, p: ProcId) -> Result<Ruled, OutOfMemory>
        requires process { p.0 < length self.config.types }
        requires counts { Counts self }
        ensures { IfOk result (λ r. RuledBy self
            (action_ruling (λ f. f) facts_after (length self.config.types) (actions.Kill p)
            (facts_of self)) r) }
    {
        match self.end_cause(p) {
            Some(_) => Ok(self.refuse(Refusal::NoProcess)),
            None => self.end(p, EndCause::Killed, Answer::Done),
        }
    }

    /// Process p is ended, and is told so unless it failed.
    pub(crate) fn end(
        self,
        p: ProcId,
        cause: EndCause,
        answer: Answer,
    ) -> Result<Ruled, OutOfMemory>
        requires process { p.0 < length self.config.types }
        requires counts { (q : ℕ) → (facts_of self).processes.bundles_sent q < 2 ^ 64 - 1 }
        ensures { IfOk result (λ r. RuledBy self
            (ruling (λ f. f) facts_after (length self.config.types) answer (end_to p.0 cause)
            (facts_after (Ended p.0 cause) (facts_of self))) r) }
    {
        let alloc = self.alloc();
        self.has_few_processes();
        let mut posts = Vec::new(alloc);
        post_end(alloc, p, cause, &mut posts)?;
        self.note_end(p, cause)?.finish(answer, posts.as_slice())
    }

    /// An action is refused.
    pub(crate) fn refuse(self, why: Refusal) -> Ruled
        ensures { result ≡ record { core = self; answer = Answer.Refused why; sent = [] } }
    {
        let sent = Seq::new(self.alloc());
        Ruled {
            core: self,
            answer: Answer::Refused(why),
            sent,
        }
    }

    /// A step ends: the bundles are sent, and counted.
    pub(crate) fn finish(self, answer: Answer, posts: &[Post]) -> Result<Ruled, OutOfMemory>
        requires { (q : ℕ) → (facts_of self).processes.bundles_sent q < 2 ^ 64 - 1 }
        ensures { IfOk result (λ r. RuledBy self
            (ruling (λ f. f) facts_after (length self.config.types) answer (bundle_parts posts.now)
            (facts_of self)) r) }
    {
        let mut core = self;
        let sent = core.send_out(posts)?;
        Ok(Ruled { core, answer, sent })
    }
}
