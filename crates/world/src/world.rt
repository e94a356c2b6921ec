ghost use Rattle.std.specs.Prelude.{◌≡◌, ℕ, ◌<◌, ◌≤◌, ◌∷◌, ◌&&◌, ◌||◌, not, filter, length, true};
ghost use Rattle.std.specs.Prelude.{false, nat_lt, is_some, IfOk, IfSome, OnOk, None, Some};
ghost use Rattle.fission_ids.specs.declared.context.ContextId.{ContextId};
ghost use Rattle.field_table.specs.declared.field.Field.{Field};
ghost use Rattle.field_rules.specs.RuleBounds.{bounds_of};
ghost use Rattle.wire_msgs.specs.Config.{ConfigFits};
ghost use Rattle.wire_msgs.specs.declared.answer.Answer.TheVariants.{Ended};
ghost use Rattle.wire_msgs.specs.declared.cause.EndCause.{EndCause};
ghost use Rattle.wire_msgs.specs.declared.cause.EndCause.TheVariants.{Killed};
ghost use Rattle.journal.specs.Step.{StepFits};
ghost use Rattle.journal.specs.declared.entry.Step.TheVariants.{Take, Hear};
ghost use Rattle.protocol.specs.Questions.{is_told};
ghost use Rattle.content_core.specs.Content.{seen_of};
ghost use Rattle.parent_core.specs.Parent.{facts_of};
ghost use Rattle.model.specs.Laws.{RunFits, EndsAlone, IsTheSame, ComesWhole, frames_in};
ghost use Rattle.model.specs.Laws.{coming_waits, drop_waits};
ghost use Rattle.model.specs.Links.{is_quiet, is_nothing, up_waiting, down_waiting};
ghost use Rattle.model.specs.Moments.{facts_now, seen_now, moments_of};
ghost use Rattle.model.specs.Settling.{moments_in};
ghost use Rattle.model.specs.Next.{run_at_start, run_after, moment_after};
ghost use Rattle.model.specs.View.{view, parent_view, base, point, value_at, newest, is_answered};
ghost use Rattle.model.specs.View.{IsOnItsWay, reverted_in, sent_first, is_honest};
ghost use Rattle.world.specs.Missing.{IsMissing};
ghost use Rattle.world.specs.Stands.{most_entries};

use crate::sides::{Sides, runs_at};
use crate::start::start_sides;
use crate::step::{Came, come};
use content_core::Content;
use field_rules::Rules;
use fission_ids::{OutOfMemory, ProcId};
use journal::{Entry, Journal, Step};
use parent_core::Parent;
use std::alloc::Global;
use std::marker::Model;
use wire_msgs::{Answer, Config};

/// A run, seen as how it began and what was done.
#[derive(Debug, Drop)]
pub struct World {
    parent: Parent,
    sides: Sides,
    journal: Journal,
}

impl Model for World {
    ghost use Rattle.model.specs.Next.{Run};
    ghost use Rattle.world.specs.Stands.{Stands, whole};

    ghost Value = { Run };

    ghost view = { λ w. record { config = w.parent.config; journal = w.journal } };

    ghost invariant = { λ w. Stands w.parent.config w.journal (whole w.parent w.sides) };
}

impl World {
    /// The world of a configuration, before any step. An error says that memory is wanting.
    pub fn start(alloc: Global, config: Config) -> Result<World, OutOfMemory>
        requires { ConfigFits config }
        ensures { IfOk result (λ w. w ≡ run_at_start config) }
    {
        Ok(World {
            parent: Parent::start(alloc, &config)?,
            sides: start_sides(alloc, &config)?,
            journal: Journal::new(alloc),
        })
    }

    /// The world after one step more, as the rules judge what is heard. What the step came to is in the
    /// newest entry of the journal. An error says that memory is wanting, and then nothing of the world is
    /// left.
    pub fn step(self, rules: &Rules, step: Step) -> Result<World, OutOfMemory>
        requires step { StepFits (length self.config.types) step }
        requires room { length self.journal < most_entries }
        ensures run { IfOk result (λ w. w ≡ run_after (bounds_of rules.now) self step) }
        // Of an honest process no base and no point falls.
        ensures base { IfOk result (λ w. (p : ℕ) (x : ContextId) (f : Field) → p < length self.config.types →
            is_honest w.config p w.journal ≡ true →
            base self.config p x f self.journal ≤ base w.config p x f w.journal) }
        ensures point { IfOk result (λ w. (p : ℕ) (x : ContextId) (f : Field) → p < length self.config.types →
            is_honest w.config p w.journal ≡ true →
            point self.config p x f self.journal ≤ point w.config p x f w.journal) }
        // An honest process that takes the bundle which reverts its newest write to a field shows the
        // parent's value at the entry that sent it.
        ensures reverted { IfOk result (λ w. (p : ProcId) (x : ContextId) (f : Field) (k : ℕ) →
            step ≡ Take p → is_honest self.config p.0 self.journal ≡ true →
            (seen_now w.config p.0 (moments_in w)).holds x ≡ true →
            sent_first self.config p.0 self.journal ≡ Some k →
            reverted_in (newest self.config p.0 x f self.journal) self.config p.0 x f self.journal ≡ Some k →
            view w.config p.0 x f w.journal ≡ Some (value_at self.config p.0 x f k self.journal)) }
        // A bundle that ends its sender does nothing else.
        ensures ends { IfOk result (λ w. (p : ProcId) (cause : EndCause) → step ≡ Hear p →
            (moment_after (bounds_of rules.now) self.config self.journal step).answer ≡ Ended cause →
            EndsAlone self.config p.0 (moment_after (bounds_of rules.now) self.config self.journal step)
            (moments_of self.config self.journal)) }
    {
        let World {
            parent,
            mut sides,
            mut journal,
        } = self;
        let Came { parent, answer } = come(parent, rules, &mut sides, &step)?;
        keep(&mut journal, step, answer)?;
        Ok(World {
            parent,
            sides,
            journal,
        })
    }

    /// How the run began.
    pub fn config(&self) -> &Config
        ensures { result.now ≡ self.now.config }
    {
        self.parent.config()
    }

    /// How many processes there are, 1 to 16.
    pub fn count(&self) -> usize
        ensures count { result ≡ length self.now.config.types }
        ensures few { result ≤ 16 }
    {
        self.parent.config().types.len()
    }

    /// What was done.
    pub fn journal(&self) -> &Journal
        ensures { result.now ≡ self.now.journal }
    {
        &self.journal
    }

    /// The parent. It answers what the model tells by looking back, and it shows of each context what the
    /// model has as its view.
    pub fn parent(&self) -> &Parent
        ensures config { result.now.config ≡ self.now.config }
        ensures answers { facts_of result.now ≡ facts_now self.now.config (moments_in self.now) }
        ensures shows { (x : ContextId) (f : Field) →
            (facts_of result.now).contexts.value x f ≡ parent_view self.now.config x f self.now.journal }
    {
        &self.parent
    }

    /// Process p, or None exactly where there is no such process. It answers what the model tells by looking
    /// back. If it is honest, then it shows of each field the optimistic view: its newest own write not yet
    /// answered, else the parent's value at its point.
    pub fn content(&self, p: ProcId) -> Option<&Content>
        ensures there { is_some result ≡ nat_lt p.0 (length self.now.config.types) }
        ensures process { IfSome result (λ c. c.now.process ≡ p.0) }
        ensures answers { IfSome result (λ c.
            seen_of c.now ≡ seen_now self.now.config p.0 (moments_in self.now)) }
        ensures shows { IfSome result (λ c. is_honest self.now.config p.0 self.now.journal ≡ true →
            (x : ContextId) (f : Field) →
            (seen_of c.now).value x f ≡ view self.now.config p.0 x f self.now.journal) }
        // A reverted write that isn't answered has its revert on its way.
        ensures reverts { IfSome result (λ c. is_honest self.now.config p.0 self.now.journal ≡ true →
            (x : ContextId) (f : Field) (n k : ℕ) →
            reverted_in n self.now.config p.0 x f self.now.journal ≡ Some k →
            is_answered n self.now.config p.0 x f self.now.journal ≡ false →
            IsOnItsWay k (value_at self.now.config p.0 x f k self.now.journal)
            self.now.config p.0 x f self.now.journal) }
        // An honest process is ended by a kill alone.
        ensures killed { IfSome result (λ c. is_honest self.now.config p.0 self.now.journal ≡ true →
            (cause : EndCause) →
            (facts_now self.now.config (moments_in self.now)).processes.ended p.0 ≡ Some cause →
            cause ≡ Killed) }
        // What it should hold and doesn't is on its way, or its own drop is.
        ensures comes { IfSome result (λ c. (x : ContextId) → IsMissing self.now p.0 x →
            (coming_waits p.0 x (moments_in self.now) || drop_waits p.0 x (moments_in self.now)) ≡ true) }
        // And without such a drop it comes with the parent's present values and ownership.
        ensures brings { IfSome result (λ c. (x : ContextId) → IsMissing self.now p.0 x →
            drop_waits p.0 x (moments_in self.now) ≡ false → ComesWhole self.now p.0 x) }
    {
        self.sides.contents.get(p.0 as usize)?.as_ref()
    }

    /// Whether nothing waits on either link of process p. If the process is honest and wasn't ended, it then
    /// holds exactly the live contexts that the parent tells it of, in the parent's order, says the same of
    /// each, and shows what the parent shows.
    pub fn is_quiet(&self, p: ProcId) -> bool
        requires { p.0 < length self.now.config.types }
        ensures exact { result ≡ is_quiet self.now.config p.0 self.now.journal }
        ensures holds { result ≡ true → is_honest self.now.config p.0 self.now.journal ≡ true →
            (facts_now self.now.config (moments_in self.now)).processes.ended p.0 ≡ None →
            (x : ContextId) → (seen_now self.now.config p.0 (moments_in self.now)).holds x ≡
            ((facts_now self.now.config (moments_in self.now)).contexts.live x
            && is_told (facts_now self.now.config (moments_in self.now)) p.0 x) }
        // The group, the context above, and whether the process owns it.
        ensures says { result ≡ true → is_honest self.now.config p.0 self.now.journal ≡ true →
            (facts_now self.now.config (moments_in self.now)).processes.ended p.0 ≡ None →
            (x : ContextId) → (seen_now self.now.config p.0 (moments_in self.now)).holds x ≡ true →
            IsTheSame (facts_now self.now.config (moments_in self.now)) p.0
            (seen_now self.now.config p.0 (moments_in self.now)) x }
        ensures order { result ≡ true → is_honest self.now.config p.0 self.now.journal ≡ true →
            (facts_now self.now.config (moments_in self.now)).processes.ended p.0 ≡ None →
            (seen_now self.now.config p.0 (moments_in self.now)).order ≡
            filter (λ x. is_told (facts_now self.now.config (moments_in self.now)) p.0 x)
            (facts_now self.now.config (moments_in self.now)).contexts.order }
        // The frames in a context, in the parent's order.
        ensures frames { result ≡ true → is_honest self.now.config p.0 self.now.journal ≡ true →
            (facts_now self.now.config (moments_in self.now)).processes.ended p.0 ≡ None →
            (y : ContextId) → (seen_now self.now.config p.0 (moments_in self.now)).holds y ≡ true →
            frames_in (seen_now self.now.config p.0 (moments_in self.now)).above
            (seen_now self.now.config p.0 (moments_in self.now)).order y ≡
            frames_in (facts_now self.now.config (moments_in self.now)).contexts.above
            (facts_now self.now.config (moments_in self.now)).contexts.order y }
        ensures shows { result ≡ true → is_honest self.now.config p.0 self.now.journal ≡ true →
            (facts_now self.now.config (moments_in self.now)).processes.ended p.0 ≡ None →
            (x : ContextId) (f : Field) →
            (seen_now self.now.config p.0 (moments_in self.now)).holds x ≡ true →
            view self.now.config p.0 x f self.now.journal ≡ parent_view self.now.config x f self.now.journal }
    {
        self.fits();
        !self.waits_up(p) && !self.waits_down(p)
    }

    // The run fits: its configuration is one that is read, and its steps can be played.
    pub(crate) fn fits(&self)
        ensures { RunFits self.now }
    {
        let _ = &self.journal;
    }

    // Whether anything waits from process p.
    pub(crate) fn waits_up(&self, p: ProcId) -> bool
        requires { p.0 < length self.now.config.types }
        ensures { result ≡ not (is_nothing (up_waiting p.0 (moments_in self.now))) }
    {
        !self.sides.ups[p.0 as usize].is_empty()
    }

    // Whether anything waits for process p.
    pub(crate) fn waits_down(&self, p: ProcId) -> bool
        requires { p.0 < length self.now.config.types }
        ensures { result ≡ not (is_nothing (down_waiting p.0 (moments_in self.now))) }
    {
        !self.sides.downs[p.0 as usize].is_empty()
    }

    // Whether process p runs.
    fn runs(&self, p: ProcId) -> bool
        requires { p.0 < length self.now.config.types }
        ensures { result ≡ (seen_now self.now.config p.0 (moments_in self.now)).running }
    {
        runs_at(self.sides.contents.as_slice(), p)
    }

    // Whether process p runs, and anything waits for it.
    pub(crate) fn can_take(&self, p: ProcId) -> bool
        requires { p.0 < length self.now.config.types }
        ensures { result ≡ ((seen_now self.now.config p.0 (moments_in self.now)).running
            && not (is_nothing (down_waiting p.0 (moments_in self.now)))) }
    {
        self.runs(p) && self.waits_down(p)
    }
}

// Keeps what a step came to.
fn keep(journal: &mut Journal, step: Step, answer: Answer) -> Result<(), OutOfMemory>
    ensures { OnOk result (journal.new ≡ record { step = step; answer = answer } ∷ journal.old) }
{
    journal.push(Entry { step, answer })
}
