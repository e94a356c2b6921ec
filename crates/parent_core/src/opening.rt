ghost use Rattle.std.specs.Prelude.{◌≡◌, ℕ, ◌<◌, ◌==◌, ◌++◌, ◌&&◌, [], ◌∷◌, not, length, IfOk};
ghost use Rattle.std.specs.Prelude.{OnOk, true, false, None, if◌then◌else◌};
ghost use Rattle.fission_ids.specs.ProcSet.{has};
ghost use Rattle.wire_msgs.specs.declared.action.ParentAction.TheVariants as actions;
ghost use Rattle.wire_msgs.specs.declared.part.DownPart.TheVariants as downs;
ghost use Rattle.protocol.specs.Questions.{is_owner};
ghost use Rattle.protocol.specs.FactsAfter.{facts_after, is_group_of};
ghost use Rattle.protocol.specs.ParentActs.{action_ruling, refusal, register_of};
ghost use Rattle.parent_core.specs.Parent.{facts_of};
ghost use Rattle.parent_core.specs.Ruled.{RuledBy, Counts};
ghost use Rattle.parent_core.specs.Posts.{part_to, sent_to};
ghost use Rattle.parent_core.specs.Opening.{known_among, known_with, told_of_joining, told_of_tab};

use crate::parent::Parent;
use crate::posts::{Post, post_part};
use crate::ruled::Ruled;
use crate::sending::only;
use fission_ids::{ContextId, GroupId, Kept, OutOfMemory, ProcId, ProcSet, Seq};
use wire_msgs::{Answer, Counted, DownPart, Known, Refusal};

// The parent opens tabs, and subscribes processes to groups.
impl Parent {
    /// The parent opens a tab that process p owns, in the group that is named or in a new one, unless that is
    /// refused.
    pub(crate) fn tab(self, p: ProcId, named: Option<GroupId>) -> Result<Ruled, OutOfMemory>
        requires process { p.0 < length self.config.types }
        requires counts { Counts self }
        ensures { IfOk result (λ r. RuledBy self
            (action_ruling (λ f. f) facts_after (length self.config.types) (actions.Tab p named)
            (facts_of self)) r) }
    {
        match self.tab_refusal(p, named) {
            Some(why) => Ok(self.refuse(why)),
            None => self.tab_allowed(p, named),
        }
    }

    // Why a tab is refused, if it is.
    #[tactic(auto, unfolding(protocol::specs::ParentActs::refusal))]
    fn tab_refusal(&self, p: ProcId, named: Option<GroupId>) -> Option<Refusal>
        ensures { result ≡ refusal (facts_of self.now) (actions.Tab p named) }
    {
        if self.end_cause(p).is_some() {
            return Some(Refusal::NoProcess);
        }
        match named {
            Some(g) => {
                if !self.is_kept(g) {
                    return Some(Refusal::NoGroup);
                }
            }
            None => {
                if self.groups_made() == 64 {
                    return Some(Refusal::TooMany(Counted::Groups, 64));
                }
            }
        }
        if self.tabs_made() == 240 {
            Some(Refusal::TooMany(Counted::Contexts, 240))
        } else {
            None
        }
    }

    // The parent opens a tab: those that were subscribed to its group are told of its context, and process p
    // is subscribed if it wasn't.
    fn tab_allowed(self, p: ProcId, named: Option<GroupId>) -> Result<Ruled, OutOfMemory>
        requires process { p.0 < length self.config.types }
        requires counts { Counts self }
        requires allowed { refusal (facts_of self) (actions.Tab p named) ≡ None }
        ensures { IfOk result (λ r. RuledBy self
            (action_ruling (λ f. f) facts_after (length self.config.types) (actions.Tab p named)
            (facts_of self)) r) }
    {
        let alloc = self.alloc();
        self.has_few_processes();
        let x = self.context_of_tab();
        let g = self.group_of_tab(named);
        let told = self.subscribers(g);
        let opened = self.open(p, named)?;
        let core = opened.subscribe(p, g);
        let mut posts = Vec::new(alloc);
        core.post_tab(p, g, x, told, &mut posts)?;
        core.finish(Answer::Tab(g, x), posts.as_slice())
    }

    /// Process p joins a group, unless that is refused.
    pub(crate) fn join(self, p: ProcId, g: GroupId) -> Result<Ruled, OutOfMemory>
        requires process { p.0 < length self.config.types }
        requires counts { Counts self }
        ensures { IfOk result (λ r. RuledBy self
            (action_ruling (λ f. f) facts_after (length self.config.types) (actions.Subscribe p g)
            (facts_of self)) r) }
    {
        match self.join_refusal(p, g) {
            Some(why) => Ok(self.refuse(why)),
            None => self.join_allowed(p, g),
        }
    }

    // Why a process doesn't join a group, if that is refused.
    #[tactic(auto, unfolding(protocol::specs::ParentActs::refusal))]
    fn join_refusal(&self, p: ProcId, g: GroupId) -> Option<Refusal>
        ensures { result ≡ refusal (facts_of self.now) (actions.Subscribe p g) }
    {
        if self.end_cause(p).is_some() {
            Some(Refusal::NoProcess)
        } else if !self.is_kept(g) {
            Some(Refusal::NoGroup)
        } else {
            None
        }
    }

    // Process p joins a group, and is told of its contexts unless it was subscribed.
    fn join_allowed(self, p: ProcId, g: GroupId) -> Result<Ruled, OutOfMemory>
        requires process { p.0 < length self.config.types }
        requires counts { Counts self }
        requires allowed { refusal (facts_of self) (actions.Subscribe p g) ≡ None }
        ensures { IfOk result (λ r. RuledBy self
            (action_ruling (λ f. f) facts_after (length self.config.types) (actions.Subscribe p g)
            (facts_of self)) r) }
    {
        let alloc = self.alloc();
        self.has_few_processes();
        let told = self.subscribers(g);
        let core = self.subscribe(p, g);
        let mut posts = Vec::new(alloc);
        core.post_joining(p, g, told, &mut posts)?;
        core.finish(Answer::Done, posts.as_slice())
    }

    // What is sent of a new tab of process p, where these processes were subscribed to its group before.
    fn post_tab(
        &self,
        p: ProcId,
        g: GroupId,
        x: ContextId,
        told: ProcSet,
        posts: &mut Vec<Post>,
    ) -> Result<(), OutOfMemory>
        requires process { p.0 < 16 }
        requires live { (facts_of self.now).contexts.live x ≡ true }
        requires owner { (q : ℕ) → is_owner (facts_of self.now) q x ≡ (q == p.0) }
        ensures { OnOk result ((q : ℕ) → q < 16 → sent_to posts.new.items q ≡ sent_to posts.old.items q
            ++ told_of_tab (facts_of self.now) told p.0 g x q) }
    {
        self.post_create(others_in(told, p), x, false, posts)?;
        if told.has(p) {
            self.post_create(only(p), x, true, posts)
        } else {
            self.post_register(p, g, posts)
        }
    }

    // What is sent where process p joins a group, where these processes were subscribed to it before.
    fn post_joining(
        &self,
        p: ProcId,
        g: GroupId,
        told: ProcSet,
        posts: &mut Vec<Post>,
    ) -> Result<(), OutOfMemory>
        requires { p.0 < 16 }
        ensures { OnOk result ((q : ℕ) → q < 16 → sent_to posts.new.items q ≡ sent_to posts.old.items q
            ++ told_of_joining (facts_of self.now) told p.0 g q) }
    {
        if told.has(p) {
            Ok(())
        } else {
            self.post_register(p, g, posts)
        }
    }

    // Posts to the processes of a set that a context was made, which they own or don't.
    fn post_create(
        &self,
        to: ProcSet,
        x: ContextId,
        owned: bool,
        posts: &mut Vec<Post>,
    ) -> Result<(), OutOfMemory>
        requires { (facts_of self.now).contexts.live x ≡ true }
        ensures { OnOk result ((q : ℕ) → sent_to posts.new.items q ≡ sent_to posts.old.items q
            ++ part_to to (downs.Create (known_with (facts_of self.now) owned x)) q) }
    {
        let known = self.known(x, owned)?;
        post_part(self.alloc(), to, DownPart::Create { known }, posts)
    }

    // Posts to process p alone that it is subscribed to a group.
    fn post_register(&self, p: ProcId, g: GroupId, posts: &mut Vec<Post>) -> Result<(), OutOfMemory>
        requires { p.0 < 16 }
        ensures { OnOk result ((q : ℕ) → q < 16 → sent_to posts.new.items q ≡ sent_to posts.old.items q
            ++ (if q == p.0 then register_of (facts_of self.now) p.0 g ∷ [] else [])) }
    {
        post_part(self.alloc(), only(p), self.register_of(p, g)?, posts)
    }

    // What process q is told as it is subscribed to a group: the live contexts of the group, in the order of
    // all.
    fn register_of(&self, q: ProcId, g: GroupId) -> Result<DownPart, OutOfMemory>
        ensures { IfOk result (λ d. d ≡ register_of (facts_of self.now) q.0 g) }
    {
        let mut contexts = Vec::new(self.alloc());
        for x in self.tree().contexts() {
            self.put_known(q, g, *x, &mut contexts)?;
        }
        let contexts = Seq::from_vec(contexts);
        Ok(DownPart::Register { group: g, contexts })
    }

    // Puts a live context at the end, if it is of the group.
    fn put_known(
        &self,
        q: ProcId,
        g: GroupId,
        x: ContextId,
        contexts: &mut Vec<Known>,
    ) -> Result<(), OutOfMemory>
        requires { (facts_of self.now).contexts.live x ≡ true }
        ensures { OnOk result (contexts.new.items
            ≡ contexts.old.items ++ known_among (facts_of self.now) q.0 g (x ∷ [])) }
    {
        if self.is_of_group(x, g) {
            contexts.push(self.known(x, self.is_owner(q, x))?)?;
        }
        Ok(())
    }

    // Whether a context that was made is of a group.
    fn is_of_group(&self, x: ContextId, g: GroupId) -> bool
        ensures { result ≡ is_group_of (facts_of self.now) x g }
    {
        match self.group_of(x) {
            None => false,
            Some(group) => g == group,
        }
    }

    // A live context with its present fields, as one that owns it is told of it or one that doesn't.
    fn known(&self, x: ContextId, owned: bool) -> Result<Known, OutOfMemory>
        requires { (facts_of self.now).contexts.live x ≡ true }
        ensures { IfOk result (λ known. known ≡ known_with (facts_of self.now) owned x) }
    {
        Ok(Known {
            context: x,
            group: self.group_of(x).unwrap_or(GroupId(0)),
            parent: self.above(x),
            owned,
            fields: Kept::of(self.alloc(), self.fields_of(x)?)?,
        })
    }
}

// The processes of a set but process p.
fn others_in(told: ProcSet, p: ProcId) -> ProcSet
    requires { p.0 < 16 }
    ensures { (q : ℕ) → q < 16 → has result q ≡ (not (q == p.0) && has told q) }
{
    told.without(p)
}
