ghost use Rattle.std.specs.Prelude.{◌≡◌, ℕ, ◌<◌, ◌+◌, ◌-◌, ◌^◌, [], length, IfOk, None, true, if◌then◌else◌};
ghost use Rattle.field_rules.specs.RuleBounds.{bounds_of};
ghost use Rattle.protocol.specs.Sayings.Saying.{Counted};
ghost use Rattle.protocol.specs.Fold.{first_fault, or_later};
ghost use Rattle.protocol.specs.FactsAfter.{facts_after};
ghost use Rattle.protocol.specs.Hear.{hear_rules};
ghost use Rattle.protocol.specs.Outside.{allowed_in, allowed_of, changes_in};
ghost use Rattle.protocol.specs.Played.{ArePlayed};
ghost use Rattle.protocol.specs.Bundle.{bundle_ruling, envelope_fault, is_counted, parts_ruling};
ghost use Rattle.parent_core.specs.Parent.{facts_of};
ghost use Rattle.parent_core.specs.Ruled.{RuledBy, Counts};
ghost use Rattle.parent_core.specs.Heard.{AllCommit, PartsDone};

use crate::parent::Parent;
use crate::posts::Post;
use crate::ruled::Ruled;
use field_rules::Rules;
use fission_ids::{Epoch, OutOfMemory, ProcId, Seq};
use wire_msgs::{Answer, EndCause, PartNote, UpBundle, UpPart};

/// What all parts of a bundle give.
#[derive(Debug, Drop)]
pub(crate) struct PartsHeard {
    /// The parent behind them.
    pub(crate) core: Parent,
    /// What became of each.
    pub(crate) notes: Vec<PartNote>,
    /// What is sent of them, in their order.
    pub(crate) posts: Vec<Post>,
}

impl Parent {
    /// The parent hears a bundle of process p, and judges it by the rules. A bundle that may not be sent so
    /// ends its sender, and nothing of it is done; one of a process that was ended is ignored.
    pub fn hear(self, rules: &Rules, p: ProcId, bundle: UpBundle) -> Result<Ruled, OutOfMemory>
        requires process { p.0 < length self.config.types }
        requires parts { ArePlayed bundle.parts }
        requires counts { Counts self }
        ensures { IfOk result (λ r. RuledBy self
            (bundle_ruling (λ f. f) facts_after (length self.config.types)
            (allowed_of (bounds_of rules.now) bundle) p.0 bundle (facts_of self)) r) }
    {
        match self.end_cause(p) {
            Some(_) => Ok(self.ignore_bundle()),
            None => self.hear_running(rules, p, bundle),
        }
    }

    // A bundle changes and sends nothing.
    fn ignore_bundle(self) -> Ruled
        ensures { result ≡ record { core = self; answer = Answer.Ignored; sent = [] } }
    {
        let sent = Seq::new(self.alloc());
        Ruled {
            core: self,
            answer: Answer::Ignored,
            sent,
        }
    }

    // Hears a bundle of process p, which wasn't ended.
    fn hear_running(self, rules: &Rules, p: ProcId, bundle: UpBundle) -> Result<Ruled, OutOfMemory>
        requires process { p.0 < length self.config.types }
        requires parts { ArePlayed bundle.parts }
        requires counts { Counts self }
        requires runs { (facts_of self).processes.ended p.0 ≡ None }
        ensures { IfOk result (λ r. RuledBy self
            (bundle_ruling (λ f. f) facts_after (length self.config.types)
            (allowed_of (bounds_of rules.now) bundle) p.0 bundle (facts_of self)) r) }
    {
        let cause = self.fault(p, &bundle)?;
        let counted = self.is_counted(p, &bundle);
        self.hear_judged(rules, p, bundle, counted, cause)
    }

    /// Hears a bundle of process p, which wasn't ended, where it is known whether the epoch counts, and why
    /// the bundle ends its sender, if it does. Else its parts are done.
    pub(crate) fn hear_judged(
        self,
        rules: &Rules,
        p: ProcId,
        bundle: UpBundle,
        counted: bool,
        cause: Option<EndCause>,
    ) -> Result<Ruled, OutOfMemory>
        requires process { p.0 < length self.config.types }
        requires parts { ArePlayed bundle.parts }
        requires counts { Counts self }
        requires runs { (facts_of self).processes.ended p.0 ≡ None }
        requires counted { counted ≡ is_counted (facts_of self) p.0 bundle }
        requires cause { cause ≡ or_later (envelope_fault (facts_of self) p.0 bundle)
            (first_fault (hear_rules (allowed_of (bounds_of rules.now) bundle) p.0 p.0) (λ f. f) facts_after 1
            (if is_counted (facts_of self) p.0 bundle then facts_after (Counted p.0) (facts_of self)
            else facts_of self) bundle.parts) }
        ensures { IfOk result (λ r. RuledBy self
            (bundle_ruling (λ f. f) facts_after (length self.config.types)
            (allowed_of (bounds_of rules.now) bundle) p.0 bundle (facts_of self)) r) }
    {
        let core = self.record_if(counted, p, bundle.epoch);
        match cause {
            Some(cause) => core.end(p, cause, Answer::Ended(cause)),
            None => core.hear_parts(rules, p, bundle),
        }
    }

    // Records the epoch of a bundle of process p, if it counts.
    fn record_if(self, counted: bool, p: ProcId, e: Epoch) -> Parent
        requires process { p.0 < length self.config.types }
        requires counts { Counts self }
        requires due { counted ≡ true → e.0 ≡ (facts_of self).processes.commits_heard p.0 + 1 }
        ensures config { result.config ≡ self.config }
        ensures facts { facts_of result
            ≡ (if counted then facts_after (Counted p.0) (facts_of self) else facts_of self) }
    {
        let mut core = self;
        if counted {
            core.record(p, e);
        }
        core
    }

    // The parts of a bundle of process p are done, which was judged to be without fault.
    fn hear_parts(self, rules: &Rules, p: ProcId, bundle: UpBundle) -> Result<Ruled, OutOfMemory>
        requires process { p.0 < length self.config.types }
        requires counts { (q : ℕ) → (facts_of self).processes.bundles_sent q < 2 ^ 64 - 1 }
        requires runs { (facts_of self).processes.ended p.0 ≡ None }
        requires parts { ArePlayed bundle.parts }
        requires commits { AllCommit (changes_in bundle.parts) bundle.parts }
        requires faultless { first_fault (hear_rules (allowed_of (bounds_of rules.now) bundle) p.0 p.0)
            (λ f. f) facts_after 1 (facts_of self) bundle.parts ≡ None }
        ensures { IfOk result (λ r. RuledBy self
            (parts_ruling (λ f. f) facts_after (length self.config.types)
            (allowed_of (bounds_of rules.now) bundle) p.0 bundle (facts_of self)) r) }
    {
        self.has_few_processes();
        let heard = self.do_parts(rules, p, bundle.parts)?;
        let answer = Answer::Parts(Seq::from_vec(heard.notes));
        heard.core.finish(answer, heard.posts.as_slice())
    }

    // Does the parts of a bundle of process p in turn.
    fn do_parts(
        self,
        rules: &Rules,
        p: ProcId,
        parts: Seq<UpPart>,
    ) -> Result<PartsHeard, OutOfMemory>
        requires process { p.0 < length self.config.types }
        requires runs { (facts_of self).processes.ended p.0 ≡ None }
        requires parts { ArePlayed parts }
        requires commits { AllCommit (changes_in parts) parts }
        requires faultless { first_fault
            (hear_rules (allowed_in (bounds_of rules.now) (changes_in parts)) p.0 p.0)
            (λ f. f) facts_after 1 (facts_of self) parts ≡ None }
        ensures { IfOk result (λ r. PartsDone (allowed_in (bounds_of rules.now) (changes_in parts))
            p.0 parts self r) }
    {
        let alloc = self.alloc();
        let mut core = self;
        let mut notes = Vec::new(alloc);
        let mut posts = Vec::new(alloc);
        for part in parts.into_vec() {
            let heard = core.hear_part(rules, p, part, &mut posts)?;
            notes.push(heard.note)?;
            core = heard.core;
        }
        Ok(PartsHeard { core, notes, posts })
    }
}
