ghost use Rattle.std.specs.Prelude.{◌≡◌, ◌<◌, length, IfOk, IsSome, OnOk, Some, None, slice_index_or};
ghost use Rattle.protocol.specs.Played.{IsPlayedByProcess};
ghost use Rattle.content_core.specs.Content.{Kept};
ghost use Rattle.content_core.specs.Moved.{Counts, IsTaken};
ghost use Rattle.world.specs.Sides.{sides_of, runs_at, step_of_action, step_of_bundle, sides_after};
ghost use Rattle.world.specs.Sides.{sent_by, ups_after};

use channels::Link;
use content_core::{Content, Moved};
use fission_ids::{OutOfMemory, ProcId};
use wire_msgs::{Action, Answer, DownBundle, UpBundle};

/// The processes, and the links from them to the parent and to them.
#[derive(Debug, Drop)]
pub(crate) struct Sides {
    // None while a step of the process is made.
    pub(crate) contents: Vec<Option<Content>>,
    pub(crate) ups: Vec<Link<UpBundle>>,
    pub(crate) downs: Vec<Link<DownBundle>>,
}

/// What a step of a process came to, and what the process sends.
#[derive(Debug, Drop)]
pub(crate) struct Told {
    pub(crate) answer: Answer,
    pub(crate) sent: Option<UpBundle>,
}

/// Whether process p runs.
pub(crate) fn runs_at(contents: &[Option<Content>], p: ProcId) -> bool
    requires place { p.0 < length contents.now }
    requires there { IsSome (slice_index_or contents.now p.0 None) }
    ensures { result ≡ runs_at p.0 (sides_of contents.now) }
{
    contents[p.0 as usize].as_ref().unwrap().is_running()
}

/// Process p acts.
pub(crate) fn act_at(
    contents: &mut [Option<Content>],
    p: ProcId,
    action: Action,
) -> Result<Told, OutOfMemory>
    requires place { p.0 < length contents.old }
    requires there { IsSome (slice_index_or contents.old p.0 None) }
    requires action { IsPlayedByProcess action }
    requires counts { (k : Kept) → slice_index_or contents.old p.0 None ≡ Some k → Counts k }
    ensures answer { IfOk result (λ t. t.answer ≡
        (step_of_action p.0 action (sides_of contents.old)).answer) }
    ensures sent { IfOk result (λ t. t.sent ≡ sent_by (step_of_action p.0 action (sides_of contents.old))) }
    ensures sides { OnOk result (sides_of contents.new ≡
        sides_after p.0 (step_of_action p.0 action (sides_of contents.old)) (sides_of contents.old)) }
{
    let core = contents[p.0 as usize].take().unwrap();
    let Moved { core, answer, sent } = core.act(action)?;
    contents[p.0 as usize] = Some(core);
    Ok(Told { answer, sent })
}

/// Process p takes a bundle.
pub(crate) fn take_at(
    contents: &mut [Option<Content>],
    p: ProcId,
    bundle: DownBundle,
) -> Result<Told, OutOfMemory>
    requires place { p.0 < length contents.old }
    requires there { IsSome (slice_index_or contents.old p.0 None) }
    requires parts { IsTaken bundle.parts }
    requires counts { (k : Kept) → slice_index_or contents.old p.0 None ≡ Some k → Counts k }
    ensures answer { IfOk result (λ t. t.answer ≡
        (step_of_bundle p.0 bundle (sides_of contents.old)).answer) }
    ensures sent { IfOk result (λ t. t.sent ≡ sent_by (step_of_bundle p.0 bundle (sides_of contents.old))) }
    ensures sides { OnOk result (sides_of contents.new ≡
        sides_after p.0 (step_of_bundle p.0 bundle (sides_of contents.old)) (sides_of contents.old)) }
{
    let core = contents[p.0 as usize].take().unwrap();
    let Moved { core, answer, sent } = core.take(bundle)?;
    contents[p.0 as usize] = Some(core);
    Ok(Told { answer, sent })
}

/// Puts what process p sends on its link to the parent.
pub(crate) fn send_up(
    ups: &mut [Link<UpBundle>],
    p: ProcId,
    sent: Option<UpBundle>,
) -> Result<(), OutOfMemory>
    requires { p.0 < length ups.old }
    ensures { OnOk result (ups.new ≡ ups_after p.0 sent ups.old) }
{
    match sent {
        None => Ok(()),
        Some(bundle) => ups[p.0 as usize].send(bundle),
    }
}
