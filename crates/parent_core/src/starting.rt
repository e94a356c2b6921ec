ghost use Rattle.std.specs.Prelude.{◌≡◌, ℕ, ◌≤◌, [], length, map, IfOk};
ghost use Rattle.std.specs.List.{AllByRecursion};
ghost use Rattle.std.specs.Option.{option_map};
ghost use Rattle.fission_ids.specs.declared.context.ContextId.{ContextId};
ghost use Rattle.std.specs.FinMap as map;
ghost use Rattle.context_tree.specs.Tree.{contexts, node_of, IsTree};
ghost use Rattle.context_group.specs.Groups.{AreSound};
ghost use Rattle.protocol.specs.Start.{contexts_of, is_live, some_if, tab_of};
ghost use Rattle.field_table.specs.Table.{initial_table};
ghost use Rattle.epochs.specs.FieldEpochs.{no_epochs};
ghost use Rattle.wire_msgs.specs.Config.{TabFits};
ghost use Rattle.parent_core.specs.Parent.{counted_of, origin_of};
ghost use Rattle.parent_core.specs.Membership.{group_of_tab, origin_of_tab};

use crate::hanging::attach;
use crate::membership::begin_with;
use crate::origin::{Origin, note_origin};
use crate::process::Process;
use context_group::Groups;
use context_store::{SlabStore, Store};
use context_tree::Tree;
use field_table::Fields;
use fission_ids::{ContextId, GroupId, OutOfMemory};
use std::alloc::Global;
use std::collections::HashMap;
use wire_msgs::StartTab;

/// The contexts of the tabs, each top-level.
pub(crate) fn nodes_of(alloc: Global, tabs: &[StartTab]) -> Result<Tree, OutOfMemory>
    requires { length tabs.now ≤ 64 }
    ensures found { IfOk result (λ ns. (x : ContextId) → node_of x ns ≡
        some_if (is_live tabs.now x) (record { context = x; above = [] })) }
    ensures order { IfOk result (λ ns. contexts ns ≡ contexts_of tabs.now) }
    ensures tree { IfOk result (λ ns. IsTree ns) }
{
    let mut tree = Tree::new(alloc);
    tree.stands_as_a_tree();
    for n in 0..tabs.len() {
        let serial = n as u32 + 1;
        attach(&mut tree, None, ContextId { creator: 0, serial })?;
    }
    Ok(tree)
}

/// The contexts of the tabs, with initial fields.
pub(crate) fn contexts_of(alloc: Global, tabs: &[StartTab]) -> Result<SlabStore, OutOfMemory>
    requires { length tabs.now ≤ 64 }
    ensures { IfOk result (λ m. (x : ContextId) → map.get m x ≡
        some_if (is_live tabs.now x) (record { fields = initial_table; epochs = no_epochs })) }
{
    let mut contexts = SlabStore::new(alloc);
    for n in 0..tabs.len() {
        let serial = n as u32 + 1;
        contexts.add(ContextId { creator: 0, serial }, Fields::initial())?;
    }
    Ok(contexts)
}

/// What was fixed of the contexts of the tabs: each has its own group and its tab's owner.
pub(crate) fn origins_of(
    alloc: Global,
    tabs: &[StartTab],
) -> Result<HashMap<ContextId, Origin>, OutOfMemory>
    requires { length tabs.now ≤ 64 }
    ensures { IfOk result (λ m. (x : ContextId) →
        origin_of x m.entries ≡ option_map (origin_of_tab x) (tab_of tabs.now x)) }
{
    let mut known = HashMap::new(alloc);
    for n in 0..tabs.len() {
        let serial = n as u32 + 1;
        let origin = Origin {
            group: GroupId(serial),
            parent: None,
            owner: tabs[n].owner,
        };
        note_origin(&mut known, ContextId { creator: 0, serial }, origin)?;
    }
    Ok(known)
}

/// The groups of the tabs, each with one context.
pub(crate) fn groups_of(alloc: Global, tabs: &[StartTab]) -> Result<Groups, OutOfMemory>
    requires few { length tabs.now ≤ 64 }
    requires fit { AllByRecursion (TabFits 16) tabs.now }
    ensures groups { IfOk result (λ gs. gs ≡ map group_of_tab tabs.now) }
    ensures sound { IfOk result (λ gs. AreSound gs) }
{
    let mut groups = Groups::new(alloc);
    for n in 0..tabs.len() {
        begin_with(&mut groups, tabs[n].also.with(tabs[n].owner))?;
    }
    let _ = groups.len();
    Ok(groups)
}

/// The counts of this many processes, of which nothing was heard and to which nothing was sent.
pub(crate) fn start_processes(alloc: Global, count: usize) -> Result<Vec<Process>, OutOfMemory>
    ensures len { IfOk result (λ v. length v.items ≡ count) }
    ensures counts { IfOk result (λ v. (p : ℕ) → counted_of p v.items ≡ record { heard = 0; sent = 0 }) }
{
    let mut processes = Vec::with_capacity(alloc, count)?;
    for _ in 0..count {
        processes.push(Process::new())?;
    }
    Ok(processes)
}
