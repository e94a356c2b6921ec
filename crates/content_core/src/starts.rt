ghost use Rattle.std.specs.Prelude.{◌≡◌, ◌<◌, ◌≤◌, false, length, None, Some, IfOk, OnOk};
ghost use Rattle.std.specs.FinMap as finite;
ghost use Rattle.context_tree.specs.Tree.{is_held};
ghost use Rattle.protocol.specs.Start.{seen_at_start, nth_context, is_of_tab};
ghost use Rattle.content_core.specs.Content.{seen_of, IsWhole};
ghost use Rattle.content_core.specs.Held.{kept_of, AddsTab, AreAtStart};

use crate::contexts::Contexts;
use crate::held::Held;
use crate::hold::Hold;
use epochs::Clock;
use field_table::Fields;
use fission_ids::{ContextId, GroupId, OutOfMemory, ProcId};
use std::alloc::Global;
use wire_msgs::StartTab;

impl Held {
    /// Process p before any step.
    pub(crate) fn start(alloc: Global, p: ProcId, tabs: &[StartTab]) -> Result<Held, OutOfMemory>
        requires process { p.0 < 16 }
        requires few { length tabs.now ≤ 64 }
        ensures whole { IfOk result (λ held. IsWhole (kept_of held)) }
        ensures process { IfOk result (λ held. (kept_of held).process ≡ p.0) }
        ensures seen { IfOk result (λ held. seen_of (kept_of held) ≡ seen_at_start tabs.now p.0) }
    {
        let contexts = contexts_at_start(alloc, p, tabs)?;
        Ok(Held {
            alloc,
            process: p,
            contexts,
            clock: Clock::new(),
            taken: 0,
            frames_made: 0,
            running: true,
        })
    }
}

// The contexts of the tabs that process p has.
fn contexts_at_start(alloc: Global, p: ProcId, tabs: &[StartTab]) -> Result<Contexts, OutOfMemory>
    requires process { p.0 < 16 }
    requires few { length tabs.now ≤ 64 }
    ensures { IfOk result (λ contexts. AreAtStart tabs.now p.0 contexts) }
{
    let mut contexts = Contexts::new(alloc);
    let mut serial = 0;
    for tab in tabs {
        serial += 1;
        add_tab(&mut contexts, p, *tab, serial)?;
    }
    Ok(contexts)
}

// Holds the context of a tab, if process p has the tab.
fn add_tab(
    contexts: &mut Contexts,
    p: ProcId,
    tab: StartTab,
    serial: u32,
) -> Result<(), OutOfMemory>
    requires process { p.0 < 16 }
    requires absent { finite.get contexts.old.store (nth_context serial) ≡ None }
    requires new { is_held (nth_context serial) contexts.old.tree ≡ false }
    ensures { OnOk result (AddsTab p.0 tab serial contexts.old contexts.new) }
{
    if !is_of_tab(tab, p) {
        return Ok(());
    }
    let x = ContextId { creator: 0, serial };
    let hold = Hold {
        group: GroupId(serial),
        owned: tab.owner.0 == p.0,
    };
    contexts.put(x, None, hold, Fields::initial())
}

// Whether process p owns a tab, or stands in its `also`.
fn is_of_tab(tab: StartTab, p: ProcId) -> bool
    requires { p.0 < 16 }
    ensures { result ≡ is_of_tab p.0 (Some tab) }
{
    p.0 == tab.owner.0 || tab.also.has(p)
}
