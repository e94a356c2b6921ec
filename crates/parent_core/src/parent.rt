ghost use Rattle.std.specs.Prelude.{◌≡◌, ℕ, ◌<◌, ◌≤◌, ◌+◌, ◌-◌, ◌^◌, length, None, Some, IfOk, OnOk, true};
ghost use Rattle.std.specs.Prelude.{MatchOption, if◌then◌else◌, false, is_none, map, ⊤};
ghost use Rattle.std.specs.Option.{option_copied, option_map};
ghost use Rattle.fission_ids.specs.declared.context.ContextId.{ContextId};
ghost use Rattle.fission_ids.specs.ProcSet.{has};
ghost use Rattle.field_table.specs.Field.{fields};
ghost use Rattle.field_table.specs.FieldSet.{has as has_field};
ghost use Rattle.context_tree.specs.Tree.{contexts, is_held, is_under, parent_in};
ghost use Rattle.wire_msgs.specs.Config.{ConfigFits};
ghost use Rattle.protocol.specs.Questions.{is_told, is_owner};
ghost use Rattle.protocol.specs.Sayings.Saying.{Acked, BornDead, Counted, Ended, Made, Opened};
ghost use Rattle.protocol.specs.Sayings.Saying.{Removed, Wrote};
ghost use Rattle.protocol.specs.Start.{facts_at_start, numbers};
ghost use Rattle.protocol.specs.FactsAfter.{facts_after};
ghost use Rattle.protocol.specs.Hear.{is_new_frame};
ghost use Rattle.protocol.specs.ParentActs.{context_of_tab, group_of_tab, refusal};
ghost use Rattle.wire_msgs.specs.declared.action.ParentAction.TheVariants as actions;
ghost use Rattle.parent_core.specs.Opening.{after_subscribing, present_fields};
ghost use Rattle.protocol.specs.Bundle.{after_sending};
ghost use Rattle.parent_core.specs.Parent.{facts_of, origin_of, owner_in, owner_left};
ghost use Rattle.parent_core.specs.Sound.{IsSound};
ghost use Rattle.parent_core.specs.Posts.{bundle_parts};
ghost use Rattle.parent_core.specs.Sending.{bundles_to};

use crate::contents::{add_to, commit_to, remove_all};
use crate::ending::{ProcessEnd, cause_of, owner_left};
use crate::hanging::{attach, detach};
use crate::membership::{
    acknowledge, await_if_kept, drop_process, grow, one_subscribed, open_in, shrink_by, subscribe,
    subscribed_but,
};
use crate::origin::{Origin, note_origin};
use crate::posts::Post;
use crate::process::{Process, bundles_sent, count_sent, epoch_heard, record_epoch};
use crate::sending::bundles;
use crate::starting::{contexts_of, groups_of, nodes_of, origins_of, start_processes};
use crate::writes::values_of;
use context_group::Groups;
use context_store::{SlabStore, Store};
use context_tree::Tree;
use field_table::{Field, FieldSet, Fields, Value};
use fission_ids::{ContextId, Duplicate, Epoch, GroupId, OutOfMemory, ProcId, ProcSet, Seq};
use std::alloc::Global;
use std::collections::HashMap;
use std::marker::Model;
use transaction::Transaction;
use wire_msgs::{Config, DownBundle, EndCause};

/// The parent, seen as what it keeps: its configuration, the tree of the live contexts with their fields,
/// what was fixed when each context was made, the groups, the counts of each process, the processes that were
/// ended, and how many contexts it made itself.
#[derive(Debug, Drop)]
pub struct Parent {
    alloc: Global,
    config: Config,
    tree: Tree,
    contexts: SlabStore,
    // Of each context that was made, live or not.
    known: HashMap<ContextId, Origin>,
    groups: Groups,
    // By the numbers of the processes.
    processes: Vec<Process>,
    // The newest first. Each process ends once, so that they are at most sixteen.
    ends: Vec<ProcessEnd>,
    // How many contexts the parent made, those of the start with them.
    tabs: usize,
}

impl Model for Parent {
    ghost use Rattle.parent_core.specs.Parent.{Kept, HoldsAll};
    ghost use Rattle.parent_core.specs.Codes.{kept_code};

    ghost Value = { Kept };

    ghost coded = { kept_code };

    ghost view = { λ p. record {
      config = p.config;
      nodes = p.tree;
      contexts = p.contexts;
      origins = p.known.entries;
      groups = p.groups;
      processes = p.processes.items;
      ends = p.ends.items;
      tabs = p.tabs;
    } };

    ghost invariant = { λ p. HoldsAll (record {
      config = p.config;
      nodes = p.tree;
      contexts = p.contexts;
      origins = p.known.entries;
      groups = p.groups;
      processes = p.processes.items;
      ends = p.ends.items;
      tabs = p.tabs;
    }) };
}

impl Parent {
    /// The parent before any step.
    pub fn start(alloc: Global, config: &Config) -> Result<Parent, OutOfMemory>
        requires { ConfigFits config.now }
        ensures config { IfOk result (λ t. t.config ≡ config.now) }
        ensures facts { IfOk result (λ t. facts_of t ≡ facts_at_start config.now.tabs) }
    {
        let config = config.copy()?;
        let tabs = config.tabs.as_slice();
        let tree = nodes_of(alloc, tabs)?;
        let contexts = contexts_of(alloc, tabs)?;
        let known = origins_of(alloc, tabs)?;
        let groups = groups_of(alloc, tabs)?;
        let count = tabs.len();
        let processes = start_processes(alloc, config.types.len())?;
        Ok(Parent {
            alloc,
            config,
            tree,
            contexts,
            known,
            groups,
            processes,
            ends: Vec::new(alloc),
            tabs: count,
        })
    }

    /// How the run began.
    pub fn config(&self) -> &Config
        ensures { result.now ≡ self.now.config }
    {
        &self.config
    }

    /// It counts what was heard of each process and sent to it, and of nobody else.
    pub fn counts_each_process(&self)
        ensures { length self.now.processes ≡ length self.now.config.types }
    {
        let _ = &self.processes;
    }

    /// The process that owns a context. None where its owner was ended, or the context isn't live.
    pub fn owner(&self, x: ContextId) -> Option<ProcId>
        ensures { option_map (λ p. p.0) result ≡ (facts_of self.now).contexts.owner x }
    {
        if self.tree.holds(x) {
            self.owner_left(x)
        } else {
            None
        }
    }

    /// The group of a context. None exactly where the context isn't live.
    pub fn group(&self, x: ContextId) -> Option<GroupId>
        ensures { result ≡ (if (facts_of self.now).contexts.live x
            then (facts_of self.now).contexts.group x else None) }
    {
        if self.tree.holds(x) {
            self.group_of(x)
        } else {
            None
        }
    }

    /// The live contexts, as they hang together.
    pub fn tree(&self) -> &Tree
        ensures order { contexts result.now ≡ (facts_of self.now).contexts.order }
        ensures held { (x : ContextId) → is_held x result.now ≡ (facts_of self.now).contexts.live x }
        ensures above { (x : ContextId) → parent_in x result.now ≡
            (if (facts_of self.now).contexts.live x then (facts_of self.now).contexts.above x else None) }
        ensures under { (x y : ContextId) →
            is_under x y result.now ≡ (facts_of self.now).contexts.under x y }
    {
        &self.tree
    }

    /// Whether a context was made, be it live or not.
    pub(crate) fn is_known(&self, x: ContextId) -> bool
        ensures { result ≡ (facts_of self.now).contexts.known x }
    {
        self.origin(x).is_some()
    }

    /// Whether a context was made and not discarded.
    pub(crate) fn is_live(&self, x: ContextId) -> bool
        ensures { result ≡ (facts_of self.now).contexts.live x }
    {
        self.tree.holds(x)
    }

    /// The context that a known one is a frame of, be it live or not. None for a top-level one.
    pub(crate) fn above(&self, x: ContextId) -> Option<ContextId>
        ensures { result ≡ (facts_of self.now).contexts.above x }
    {
        self.origin(x)?.parent
    }

    /// Whether the first is live, and is the second or below it.
    pub(crate) fn is_under(&self, x: ContextId, y: ContextId) -> bool
        ensures { result ≡ (facts_of self.now).contexts.under x y }
    {
        self.tree.is_under(x, y)
    }

    /// The group of a context that was made, be it live or not.
    pub(crate) fn group_of(&self, x: ContextId) -> Option<GroupId>
        ensures { result ≡ (facts_of self.now).contexts.group x }
    {
        Some(self.origin(x)?.group)
    }

    /// Whether process p owns a context.
    pub(crate) fn is_owner(&self, p: ProcId, x: ContextId) -> bool
        ensures { result ≡ is_owner (facts_of self.now) p.0 x }
    {
        match self.owner(x) {
            None => false,
            Some(owner) => owner == p,
        }
    }

    /// The processes that are told of a context, none where it isn't known.
    pub(crate) fn told_of(&self, x: ContextId) -> ProcSet
        ensures { (q : ℕ) → has result q ≡ is_told (facts_of self.now) q x }
    {
        match self.group_of(x) {
            None => ProcSet::EMPTY,
            Some(g) => self.groups.subscribers(g),
        }
    }

    /// Whether process p is told of a context.
    pub(crate) fn is_told(&self, p: ProcId, x: ContextId) -> bool
        requires { p.0 < 16 }
        ensures { result ≡ is_told (facts_of self.now) p.0 x }
    {
        self.told_of(x).has(p)
    }

    /// The epoch that was heard last of process p.
    pub(crate) fn epoch_heard(&self, p: ProcId) -> Epoch
        requires process { p.0 < length self.now.config.types }
        ensures { result.0 ≡ (facts_of self.now).processes.commits_heard p.0 }
    {
        epoch_heard(p, self.processes.as_slice())
    }

    /// How many bundles were sent to process p.
    pub(crate) fn bundles_sent(&self, p: ProcId) -> u64
        requires process { p.0 < length self.now.config.types }
        ensures { result ≡ (facts_of self.now).processes.bundles_sent p.0 }
    {
        bundles_sent(p, self.processes.as_slice())
    }

    /// The parent's values of the fields of a set.
    pub(crate) fn present(&self, x: ContextId, s: FieldSet) -> Result<Transaction, OutOfMemory>
        ensures { IfOk result (λ t. t ≡ map
            (λ f. if has_field s f then (facts_of self.now).contexts.value x f else None) fields) }
    {
        match self.contexts.get(x) {
            None => Ok(Transaction::new()),
            Some(fields) => values_of(fields, s),
        }
    }

    /// Known contexts and live ones hang together as its answers say. Takes no time.
    pub(crate) fn stands_soundly(&self)
        ensures { IsSound (facts_of self.now) }
    {
        let _ = &self.known;
    }

    // The group of a context that was made.
    fn group_of_known(&self, x: ContextId) -> GroupId
        requires { (facts_of self.now).contexts.known x ≡ true }
        ensures { (facts_of self.now).contexts.group x ≡ Some result }
    {
        match self.group_of(x) {
            Some(group) => group,
            None => unreachable!(),
        }
    }

    // What was fixed when a context was made.
    fn origin(&self, x: ContextId) -> Option<Origin>
        ensures { result ≡ origin_of x self.now.origins }
    {
        self.known.get(&x).copied()
    }

    // The process that owns a live context.
    fn owner_left(&self, x: ContextId) -> Option<ProcId>
        ensures { option_map (λ p. p.0) result ≡ owner_left self.now.ends (owner_in x self.now.origins) }
    {
        let owner = self.origin(x).map(|origin| origin.owner);
        owner_left(self.ends.as_slice(), owner)
    }

    /// Why a process was ended. None exactly where it wasn't.
    pub fn end_cause(&self, p: ProcId) -> Option<EndCause>
        ensures { result ≡ (facts_of self.now).processes.ended p.0 }
    {
        cause_of(p, self.ends.as_slice())
    }

    /// What the parent shows of a field. None exactly where the context isn't live.
    pub fn field(&self, x: ContextId, f: Field) -> Option<&Value>
        ensures { option_copied result ≡ (facts_of self.now).contexts.value x f }
    {
        match self.contexts.get(x) {
            None => None,
            Some(fields) => Some(fields.get(f)),
        }
    }

    /// The processes that are subscribed to a group, none where it wasn't made.
    pub fn subscribers(&self, g: GroupId) -> ProcSet
        ensures { result ≡ (facts_of self.now).groups.subscribers g }
    {
        self.groups.subscribers(g)
    }

    /// Whether a group is kept, which is false where it wasn't made.
    pub(crate) fn is_kept(&self, g: GroupId) -> bool
        ensures { result ≡ (facts_of self.now).groups.kept g }
    {
        self.groups.is_kept(g)
    }

    /// How many groups were made.
    pub(crate) fn groups_made(&self) -> usize
        ensures { result ≡ (facts_of self.now).groups.made }
    {
        self.groups.len()
    }

    /// How many contexts the parent made.
    pub(crate) fn tabs_made(&self) -> usize
        ensures { result ≡ (facts_of self.now).tabs_made }
    {
        self.tabs
    }

    /// The context of a new tab.
    pub(crate) fn context_of_tab(&self) -> ContextId
        ensures { result ≡ context_of_tab (facts_of self.now) }
    {
        let serial = self.tabs as u32 + 1;
        ContextId { creator: 0, serial }
    }

    /// The group of a new tab: the one that is named, or a new one.
    pub(crate) fn group_of_tab(&self, named: Option<GroupId>) -> GroupId
        ensures { result ≡ group_of_tab (facts_of self.now) named }
    {
        match named {
            Some(g) => g,
            None => GroupId(self.groups.len() as u32 + 1),
        }
    }

    /// The present values of a live context.
    pub(crate) fn fields_of(&self, x: ContextId) -> Result<Fields, OutOfMemory>
        requires { (facts_of self.now).contexts.live x ≡ true }
        ensures { IfOk result (λ t. t ≡ present_fields (facts_of self.now) x) }
    {
        match self.contexts.get(x) {
            Some(fields) => {
                fields.covers_each_field();
                fields.copy()
            }
            None => unreachable!(),
        }
    }

    /// The allocator.
    pub(crate) fn alloc(&self) -> Global {
        self.alloc
    }

    /// There are at most sixteen processes.
    pub(crate) fn has_few_processes(&self)
        ensures { length self.now.config.types ≤ 16 }
    {
        let _ = &self.config;
    }

    /// Process p made a frame, which it owns.
    pub(crate) fn make(
        self,
        p: ProcId,
        x: ContextId,
        above: ContextId,
    ) -> Result<Parent, OutOfMemory>
        requires process { p.0 < length self.config.types }
        requires runs { (facts_of self).processes.ended p.0 ≡ None }
        requires frame { is_new_frame p.0 x ≡ true }
        requires new { (facts_of self).contexts.known x ≡ false }
        requires above { (facts_of self).contexts.live above ≡ true }
        ensures config { IfOk result (λ t. t.config ≡ self.config) }
        ensures facts { IfOk result (λ t. facts_of t ≡ facts_after (Made p.0 x above) (facts_of self)) }
    {
        let group = self.group_of_known(above);
        let Parent {
            alloc,
            config,
            mut tree,
            mut contexts,
            mut known,
            mut groups,
            processes,
            ends,
            tabs,
        } = self;
        attach(&mut tree, Some(above), x)?;
        add_to(&mut contexts, x)?;
        let origin = Origin {
            group,
            parent: Some(above),
            owner: p,
        };
        note_origin(&mut known, x, origin)?;
        grow(&mut groups, group);
        Ok(Parent {
            alloc,
            config,
            tree,
            contexts,
            known,
            groups,
            processes,
            ends,
            tabs,
        })
    }

    /// Process p owns a new top-level context, in the group that is named or in a new one.
    pub(crate) fn open(self, p: ProcId, named: Option<GroupId>) -> Result<Parent, OutOfMemory>
        requires process { p.0 < length self.config.types }
        requires allowed { refusal (facts_of self) (actions.Tab p named) ≡ None }
        ensures config { IfOk result (λ t. t.config ≡ self.config) }
        ensures facts { IfOk result (λ t. facts_of t
            ≡ facts_after (Opened (context_of_tab (facts_of self)) (group_of_tab (facts_of self) named)
            (is_none named) p.0) (facts_of self)) }
    {
        let x = self.context_of_tab();
        let Parent {
            alloc,
            config,
            mut tree,
            mut contexts,
            mut known,
            mut groups,
            processes,
            ends,
            tabs,
        } = self;
        attach(&mut tree, None, x)?;
        add_to(&mut contexts, x)?;
        let group = open_in(&mut groups, named)?;
        let origin = Origin {
            group,
            parent: None,
            owner: p,
        };
        note_origin(&mut known, x, origin)?;
        Ok(Parent {
            alloc,
            config,
            tree,
            contexts,
            known,
            groups,
            processes,
            ends,
            tabs: tabs + 1,
        })
    }

    /// Process p is subscribed to a group that is kept, if it wasn't.
    pub(crate) fn subscribe(self, p: ProcId, g: GroupId) -> Parent
        requires process { p.0 < length self.config.types }
        requires kept { (facts_of self).groups.kept g ≡ true }
        ensures config { result.config ≡ self.config }
        ensures facts { facts_of result ≡ after_subscribing p.0 g (facts_of self) }
    {
        let Parent {
            alloc,
            config,
            tree,
            contexts,
            known,
            mut groups,
            processes,
            ends,
            tabs,
        } = self;
        subscribe(&mut groups, p, g);
        Parent {
            alloc,
            config,
            tree,
            contexts,
            known,
            groups,
            processes,
            ends,
            tabs,
        }
    }

    /// Process p made a frame too late, so that it was never live.
    pub(crate) fn bear_dead(
        self,
        p: ProcId,
        x: ContextId,
        above: ContextId,
    ) -> Result<Parent, OutOfMemory>
        requires process { p.0 < length self.config.types }
        requires runs { (facts_of self).processes.ended p.0 ≡ None }
        requires frame { is_new_frame p.0 x ≡ true }
        requires new { (facts_of self).contexts.known x ≡ false }
        requires above { (facts_of self).contexts.known above ≡ true }
        ensures config { IfOk result (λ t. t.config ≡ self.config) }
        ensures facts { IfOk result (λ t. facts_of t ≡ facts_after (BornDead p.0 x above) (facts_of self)) }
    {
        let group = self.group_of_known(above);
        let Parent {
            alloc,
            config,
            tree,
            contexts,
            mut known,
            mut groups,
            processes,
            ends,
            tabs,
        } = self;
        let who = one_subscribed(&groups, group, p);
        let origin = Origin {
            group,
            parent: Some(above),
            owner: p,
        };
        note_origin(&mut known, x, origin)?;
        await_if_kept(&mut groups, group, who, x)?;
        Ok(Parent {
            alloc,
            config,
            tree,
            contexts,
            known,
            groups,
            processes,
            ends,
            tabs,
        })
    }

    /// A context is gone with all below it, and the subscribers, but perhaps one, owe an acknowledgement.
    pub(crate) fn remove(self, x: ContextId, but: Option<ProcId>) -> Result<Parent, OutOfMemory>
        requires live { (facts_of self).contexts.live x ≡ true }
        requires but { MatchOption but ⊤ (λ p. p.0 < 16) }
        ensures config { IfOk result (λ t. t.config ≡ self.config) }
        ensures facts { IfOk result (λ t.
            facts_of t ≡ facts_after (Removed x (option_map (λ p. p.0) but)) (facts_of self)) }
    {
        let group = self.group_of_known(x);
        let Parent {
            alloc,
            config,
            mut tree,
            mut contexts,
            known,
            mut groups,
            processes,
            ends,
            tabs,
        } = self;
        let who = subscribed_but(&groups, group, but);
        let gone = detach(&mut tree, x)?;
        await_if_kept(&mut groups, group, who, x)?;
        remove_all(&mut contexts, gone.as_slice());
        shrink_by(&mut groups, group, gone.len());
        Ok(Parent {
            alloc,
            config,
            tree,
            contexts,
            known,
            groups,
            processes,
            ends,
            tabs,
        })
    }

    /// Process p acknowledged the discard of a context.
    pub(crate) fn acknowledge(self, p: ProcId, x: ContextId) -> Parent
        requires { p.0 < length self.config.types }
        ensures config { result.config ≡ self.config }
        ensures facts { facts_of result ≡ facts_after (Acked p.0 x) (facts_of self) }
    {
        let Parent {
            alloc,
            config,
            tree,
            contexts,
            known,
            mut groups,
            processes,
            ends,
            tabs,
        } = self;
        acknowledge(&mut groups, p, x);
        Parent {
            alloc,
            config,
            tree,
            contexts,
            known,
            groups,
            processes,
            ends,
            tabs,
        }
    }

    /// Fields of a live context have new values.
    pub(crate) fn write(self, x: ContextId, t: Transaction) -> Parent
        requires { (facts_of self).contexts.live x ≡ true }
        ensures config { result.config ≡ self.config }
        ensures facts { facts_of result ≡ facts_after (Wrote x t) (facts_of self) }
    {
        let Parent {
            alloc,
            config,
            tree,
            mut contexts,
            known,
            groups,
            processes,
            ends,
            tabs,
        } = self;
        commit_to(&mut contexts, x, t);
        Parent {
            alloc,
            config,
            tree,
            contexts,
            known,
            groups,
            processes,
            ends,
            tabs,
        }
    }

    /// Process p is ended for good.
    pub(crate) fn note_end(self, p: ProcId, cause: EndCause) -> Result<Parent, OutOfMemory>
        requires { p.0 < length self.config.types }
        ensures config { IfOk result (λ t. t.config ≡ self.config) }
        ensures facts { IfOk result (λ t. facts_of t ≡ facts_after (Ended p.0 cause) (facts_of self)) }
    {
        let Parent {
            alloc,
            config,
            tree,
            contexts,
            known,
            mut groups,
            processes,
            mut ends,
            tabs,
        } = self;
        ends.insert(0, ProcessEnd::new(p, cause))?;
        drop_process(&mut groups, p);
        Ok(Parent {
            alloc,
            config,
            tree,
            contexts,
            known,
            groups,
            processes,
            ends,
            tabs,
        })
    }

    /// The bundles that are sent, which are counted.
    pub(crate) fn send_out(
        &mut self,
        posts: &[Post],
    ) -> Result<Seq<(ProcId, DownBundle)>, OutOfMemory>
        requires { (q : ℕ) → (facts_of self.old).processes.bundles_sent q < 2 ^ 64 - 1 }
        ensures config { OnOk result (self.new.config ≡ self.old.config) }
        ensures facts { OnOk result (facts_of self.new ≡ after_sending (λ f. f) facts_after
            (length self.old.config.types) (bundle_parts posts.now) (facts_of self.old)) }
        ensures sent { IfOk result (λ s. s ≡ bundles_to (bundle_parts posts.now)
            (facts_of self.old).processes.commits_heard (numbers 0 (length self.old.config.types))) }
    {
        let sent = bundles(self.alloc, posts, self.processes.as_slice())?;
        count_sent(posts, self.processes.as_mut_slice());
        Ok(sent)
    }

    /// Records the epoch of a commit of process p, which is the one that is due.
    pub(crate) fn record(&mut self, p: ProcId, e: Epoch)
        requires process { p.0 < length self.old.config.types }
        requires due { e.0 ≡ (facts_of self.old).processes.commits_heard p.0 + 1 }
        requires count { (facts_of self.old).processes.commits_heard p.0 < 2 ^ 64 - 1 }
        ensures config { self.new.config ≡ self.old.config }
        ensures facts { facts_of self.new ≡ facts_after (Counted p.0) (facts_of self.old) }
    {
        record_epoch(p, e, self.processes.as_mut_slice());
    }
}
