ghost use Rattle.std.specs.Prelude.{◌≡◌, ◌<◌, length, IfOk, OnOk};
ghost use Rattle.field_rules.specs.RuleBounds.{bounds_of};
ghost use Rattle.wire_msgs.specs.declared.answer.Answer.TheVariants.{Refused};
ghost use Rattle.wire_msgs.specs.declared.refusal.Refusal.TheVariants.{Stopped};
ghost use Rattle.journal.specs.Step.{StepFits};
ghost use Rattle.protocol.specs.Played.{IsPlayedByParent, IsPlayedByProcess};
ghost use Rattle.world.specs.Came.{came, acted, taken, raw_sent, if_running, heard, parent_acted};
ghost use Rattle.world.specs.Sides.{waiting_at};
ghost use Rattle.world.specs.Ready.{AreReady};
ghost use Rattle.world.specs.Stands.{whole};

use crate::deliver::deliver;
use crate::sides::{Sides, Told, act_at, runs_at, send_up, take_at};
use field_rules::Rules;
use fission_ids::{Duplicate, OutOfMemory, ProcId};
use journal::Step;
use parent_core::{Parent, Ruled};
use wire_msgs::{Action, Answer, ParentAction, Refusal, UpBundle};

/// The parent behind a step, and what the step came to.
#[derive(Debug, Drop)]
pub(crate) struct Came {
    pub(crate) parent: Parent,
    pub(crate) answer: Answer,
}

/// Makes a step: one call of one side.
pub(crate) fn come(
    parent: Parent,
    rules: &Rules,
    sides: &mut Sides,
    step: &Step,
) -> Result<Came, OutOfMemory>
    requires ready { AreReady parent sides.old }
    requires step { StepFits (length parent.config.types) step.now }
    ensures config { IfOk result (λ k. k.parent.config ≡ parent.config) }
    ensures answer { IfOk result (λ k. k.answer ≡
        (came (bounds_of rules.now) (length parent.config.types) step.now (whole parent sides.old)).answer) }
    ensures state { IfOk result (λ k. whole k.parent sides.new ≡
        (came (bounds_of rules.now) (length parent.config.types) step.now (whole parent sides.old)).state) }
{
    match step {
        Step::Act { p, action } => act(parent, sides, *p, action.copy()?),
        Step::Take { p } => take(parent, sides, *p),
        Step::Raw { p, bundle } => raw(parent, sides, *p, bundle.copy()?),
        Step::ParentAct { action } => act_in_parent(parent, sides, action.copy()?),
        Step::Hear { p } => hear(parent, rules, sides, *p),
    }
}

// Process p acts.
fn act(parent: Parent, sides: &mut Sides, p: ProcId, action: Action) -> Result<Came, OutOfMemory>
    requires ready { AreReady parent sides.old }
    requires process { p.0 < length parent.config.types }
    requires action { IsPlayedByProcess action }
    ensures config { IfOk result (λ k. k.parent.config ≡ parent.config) }
    ensures answer { IfOk result (λ k. k.answer ≡
        (acted p.0 action (whole parent sides.old)).answer) }
    ensures state { IfOk result (λ k. whole k.parent sides.new ≡
        (acted p.0 action (whole parent sides.old)).state) }
{
    let Told { answer, sent } = act_at(sides.contents.as_mut_slice(), p, action)?;
    send_up(sides.ups.as_mut_slice(), p, sent)?;
    Ok(Came { parent, answer })
}

// Process p takes the bundle that waited first, if it runs.
fn take(parent: Parent, sides: &mut Sides, p: ProcId) -> Result<Came, OutOfMemory>
    requires ready { AreReady parent sides.old }
    requires process { p.0 < length parent.config.types }
    ensures config { IfOk result (λ k. k.parent.config ≡ parent.config) }
    ensures answer { IfOk result (λ k. k.answer ≡
        (if_running p.0 (whole parent sides.old)
        (taken p.0 (waiting_at p.0 sides.old.downs.items) (whole parent sides.old))).answer) }
    ensures state { IfOk result (λ k. whole k.parent sides.new ≡
        (if_running p.0 (whole parent sides.old)
        (taken p.0 (waiting_at p.0 sides.old.downs.items) (whole parent sides.old))).state) }
{
    if runs_at(sides.contents.as_slice(), p) {
        take_first(parent, sides, p)
    } else {
        Ok(stopped(parent))
    }
}

// Process p sends a bundle that is none of its own acts, if it runs.
fn raw(parent: Parent, sides: &mut Sides, p: ProcId, bundle: UpBundle) -> Result<Came, OutOfMemory>
    requires ready { AreReady parent sides.old }
    requires process { p.0 < length parent.config.types }
    ensures config { IfOk result (λ k. k.parent.config ≡ parent.config) }
    ensures answer { IfOk result (λ k. k.answer ≡
        (if_running p.0 (whole parent sides.old) (raw_sent p.0 bundle (whole parent sides.old))).answer) }
    ensures state { IfOk result (λ k. whole k.parent sides.new ≡
        (if_running p.0 (whole parent sides.old) (raw_sent p.0 bundle (whole parent sides.old))).state) }
{
    if runs_at(sides.contents.as_slice(), p) {
        send_up(sides.ups.as_mut_slice(), p, Some(bundle))?;
        Ok(Came {
            parent,
            answer: Answer::Done,
        })
    } else {
        Ok(stopped(parent))
    }
}

// A process that stopped takes and sends nothing.
fn stopped(parent: Parent) -> Came
    ensures parent { result.parent ≡ parent }
    ensures answer { result.answer ≡ Refused Stopped }
{
    Came {
        parent,
        answer: Answer::Refused(Refusal::Stopped),
    }
}

// Process p takes the bundle that waited first.
fn take_first(parent: Parent, sides: &mut Sides, p: ProcId) -> Result<Came, OutOfMemory>
    requires ready { AreReady parent sides.old }
    requires process { p.0 < length parent.config.types }
    ensures config { IfOk result (λ k. k.parent.config ≡ parent.config) }
    ensures answer { IfOk result (λ k. k.answer ≡
        (taken p.0 (waiting_at p.0 sides.old.downs.items) (whole parent sides.old)).answer) }
    ensures state { IfOk result (λ k. whole k.parent sides.new ≡
        (taken p.0 (waiting_at p.0 sides.old.downs.items) (whole parent sides.old)).state) }
{
    let Some(bundle) = sides.downs[p.0 as usize].take() else {
        return Ok(Came {
            parent,
            answer: Answer::Refused(Refusal::Empty),
        });
    };
    let Told { answer, sent } = take_at(sides.contents.as_mut_slice(), p, bundle)?;
    send_up(sides.ups.as_mut_slice(), p, sent)?;
    Ok(Came { parent, answer })
}

// The parent acts.
fn act_in_parent(
    parent: Parent,
    sides: &mut Sides,
    action: ParentAction,
) -> Result<Came, OutOfMemory>
    requires ready { AreReady parent sides.old }
    requires action { IsPlayedByParent (length parent.config.types) action }
    ensures config { IfOk result (λ k. k.parent.config ≡ parent.config) }
    ensures answer { IfOk result (λ k. k.answer ≡
        (parent_acted (length parent.config.types) action (whole parent sides.old)).answer) }
    ensures state { IfOk result (λ k. whole k.parent sides.new ≡
        (parent_acted (length parent.config.types) action (whole parent sides.old)).state) }
{
    parent.counts_each_process();
    let Ruled { core, answer, sent } = parent.act(action)?;
    deliver(sent, sides.downs.as_mut_slice())?;
    Ok(Came {
        parent: core,
        answer,
    })
}

// The parent hears the bundle of process p that waited first.
fn hear(parent: Parent, rules: &Rules, sides: &mut Sides, p: ProcId) -> Result<Came, OutOfMemory>
    requires ready { AreReady parent sides.old }
    requires process { p.0 < length parent.config.types }
    ensures config { IfOk result (λ k. k.parent.config ≡ parent.config) }
    ensures answer { IfOk result (λ k. k.answer ≡
        (heard (bounds_of rules.now) (length parent.config.types) p.0 (waiting_at p.0 sides.old.ups.items)
        (whole parent sides.old)).answer) }
    ensures state { IfOk result (λ k. whole k.parent sides.new ≡
        (heard (bounds_of rules.now) (length parent.config.types) p.0 (waiting_at p.0 sides.old.ups.items)
        (whole parent sides.old)).state) }
{
    let Some(bundle) = sides.ups[p.0 as usize].take() else {
        return Ok(Came {
            parent,
            answer: Answer::Refused(Refusal::Empty),
        });
    };
    parent.counts_each_process();
    let Ruled { core, answer, sent } = parent.hear(rules, p, bundle)?;
    deliver(sent, sides.downs.as_mut_slice())?;
    Ok(Came {
        parent: core,
        answer,
    })
}
