ghost use Rattle.std.specs.Prelude.{◌≡◌, ◌==◌, ◌&&◌, ◌||◌, ◌+◌, ◌-◌, ◌<◌, ◌≤◌, [], length, map, drop};
ghost use Rattle.std.specs.Prelude.{filter, zip, insert, slice_get, slice_range, nat_lt, true, false};
ghost use Rattle.std.specs.Prelude.{None, Some, IfOk, OnOk, OnErr, IsOkUnless, MatchOption, if◌then◌else◌};
ghost use Rattle.std.specs.List.{prefix_len, position_or_len, remove_range, list_any};
ghost use Rattle.std.specs.Option.{option_map, option_map_or};
ghost use Rattle.std.specs.HashMap.{get};
ghost use Rattle.fission_ids.specs.Ids.{same_context};
ghost use Rattle.context_tree.specs.Node.{is_at, is_child};
ghost use Rattle.context_tree.specs.Tree.{IsTree, contexts, is_held, parent_in, top_in, is_under, subtree};
ghost use Rattle.context_tree.specs.Tree.{without, children, refusal, nodes_after, subtree_if_held};
ghost use Rattle.context_tree.specs.Tree.{is_missing, node_of, is_less, place_in, line_above};
ghost use Rattle.context_tree.specs.Places.{IsRun, IsUnknown, EndsRun, depth_of, place_of};

use crate::fault::TreeFault;
use fission_ids::{ContextId, Duplicate, OutOfMemory};
use std::alloc::{AllocError, Global};
use std::collections::HashMap;
use std::marker::Model;

// Where a context hangs: its parent, and how many are above it.
#[derive(Clone, Copy, Debug, PartialEq, Eq)]
struct Place {
    parent: Option<ContextId>,
    depth: usize,
}

// Where a context and all below it stand: from `start` on, and before `end`. So many are above the context.
#[derive(Clone, Copy)]
struct Run {
    start: usize,
    end: usize,
    depth: usize,
}

/// Browsing contexts with their parents, each id once. Seen as the list of its nodes in pre-order: each
/// context with those above it, the nearest first. The children of a context stand in the order attached, and
/// the top-level contexts by rising id.
#[derive(Debug, Drop)]
pub struct Tree {
    // The contexts in pre-order.
    ids: Vec<ContextId>,
    // How many are above each of them.
    depths: Vec<usize>,
    places: HashMap<ContextId, Place>,
}

impl Model for Tree {
    ghost use Rattle.std.specs.Prelude.{List};
    ghost use Rattle.context_tree.specs.Node.{Node};

    ghost Value = { List Node };

    ghost use Rattle.context_tree.specs.Places.{nodes_of, KeepsTree};

    ghost view = { λ t. nodes_of t.ids.items t.depths.items };

    ghost invariant = { λ t. KeepsTree t.ids.items t.depths.items t.places.entries };
}

impl Tree {
    /// A tree of no contexts.
    pub fn new(alloc: Global) -> Tree
        ensures { result ≡ [] }
    {
        Tree {
            ids: Vec::new(alloc),
            depths: Vec::new(alloc),
            places: HashMap::new(alloc),
        }
    }

    /// Each id stands once, what hangs below a context stands right behind it, and the ids of the top-level
    /// contexts rise. Takes no time.
    pub fn stands_as_a_tree(&self)
        ensures { IsTree self.now }
    {
        let _ = &self.places;
    }

    /// How many contexts there are.
    pub fn len(&self) -> usize
        ensures { result ≡ length self.now }
    {
        self.ids.len()
    }

    /// Whether there is no context.
    pub fn is_empty(&self) -> bool
        ensures { result ≡ (length self.now == 0) }
    {
        self.ids.is_empty()
    }

    /// The contexts in pre-order.
    pub fn contexts(&self) -> &[ContextId]
        ensures { result.now ≡ contexts self.now }
    {
        self.ids.as_slice()
    }

    /// Whether the tree holds a context.
    pub fn holds(&self, id: ContextId) -> bool
        ensures { result ≡ is_held id self.now }
    {
        self.place(id).is_some()
    }

    /// The parent of a context. None for a top-level one, and for one that isn't held.
    pub fn parent(&self, id: ContextId) -> Option<ContextId>
        ensures { result ≡ parent_in id self.now }
    {
        self.place(id)?.parent
    }

    /// The top-level context above a context, or the context itself where it is top-level. None exactly where
    /// it isn't held. The time is linear in the depth.
    pub fn top(&self, id: ContextId) -> Option<ContextId>
        ensures { result ≡ top_in id self.now }
    {
        if !self.holds(id) {
            return None;
        }
        self.stands_as_a_tree();
        let mut top = id;
        while let Some(parent) = self.parent(top) {
            top = parent;
        }
        Some(top)
    }

    /// Whether both are held, and `above` is `id` or an ancestor of it. The time is linear in the depth.
    pub fn is_under(&self, id: ContextId, above: ContextId) -> bool
        ensures { result ≡ is_under id above self.now }
    {
        if !self.holds(id) {
            return false;
        }
        self.stands_as_a_tree();
        let mut at = id;
        while at != above {
            let Some(parent) = self.parent(at) else {
                return false;
            };
            at = parent;
        }
        true
    }

    /// Attaches a context behind all below its parent, or, where no parent is given, as a top-level one
    /// before the first with a greater id. Known exactly where it is held already, NoParent exactly where it
    /// isn't and a parent is given that isn't held. On Err the tree stays as it was. The time is linear in
    /// the contexts.
    pub fn attach(&mut self, parent: Option<ContextId>, id: ContextId) -> Result<(), TreeFault>
        ensures refused { MatchOption (refusal parent id self.old)
            (IsOkUnless result TreeFault.OutOfMemory) (λ fault. result ≡ Err fault) }
        ensures ok { OnOk result (self.new ≡ nodes_after parent id self.old) }
        ensures err { OnErr result (self.new ≡ self.old) }
    {
        if self.holds(id) {
            return Err(TreeFault::Known);
        }
        let Some((at, depth)) = self.place_for(parent, id) else {
            return Err(TreeFault::NoParent);
        };
        put(
            &mut self.ids,
            &mut self.depths,
            &mut self.places,
            at,
            id,
            Place { parent, depth },
        )?;
        Ok(())
    }

    /// Detaches a context with all below it, and gives their ids in pre-order. None exactly where it isn't
    /// held. On Err the tree stays as it was. The time is linear in the contexts.
    pub fn detach(&mut self, id: ContextId) -> Result<Option<Vec<ContextId>>, OutOfMemory>
        ensures ok { IfOk result (λ ids. (option_map (λ v. v.items) ids ≡ subtree_if_held id self.old)
            × (self.new ≡ without id self.old)) }
        ensures err { OnErr result (self.new ≡ self.old) }
    {
        let Some(run) = self.run_of(id) else {
            return Ok(None);
        };
        let gone = self.ids_in(*self.ids.allocator(), run)?;
        forget(&mut self.places, gone.as_slice());
        cut(&mut self.ids, &mut self.depths, run);
        Ok(Some(gone))
    }

    /// The ids of a context and of all below it, in pre-order. Empty where it isn't held.
    pub fn subtree(&self, alloc: Global, id: ContextId) -> Result<Vec<ContextId>, OutOfMemory>
        ensures { IfOk result (λ ids. ids.items ≡ contexts (subtree id self.now)) }
    {
        match self.run_of(id) {
            None => Ok(Vec::new(alloc)),
            Some(run) => self.ids_in(alloc, run),
        }
    }

    /// The ids of a context's children, in the order attached. Empty where it isn't held.
    pub fn children(&self, alloc: Global, id: ContextId) -> Result<Vec<ContextId>, OutOfMemory>
        ensures { IfOk result (λ ids. ids.items ≡ children id self.now) }
    {
        match self.run_of(id) {
            None => Ok(Vec::new(alloc)),
            Some(run) => self.children_in(alloc, run, id),
        }
    }

    // Where a context hangs.
    fn place(&self, id: ContextId) -> Option<Place>
        ensures { result ≡ option_map place_of (node_of id self.now) }
    {
        self.places.get(&id).copied()
    }

    // Whether the second is the parent of the first.
    fn is_child(&self, id: ContextId, parent: ContextId) -> bool
        ensures { result ≡ option_map_or (same_context parent) (parent_in id self.now) false }
    {
        Some(parent) == self.parent(id)
    }

    // The run of a context. None exactly where it isn't held.
    fn run_of(&self, id: ContextId) -> Option<Run>
        ensures { MatchOption result (IsUnknown id self.now) (IsRun id self.now) }
    {
        self.stands_as_a_tree();
        let depth = self.place(id)?.depth;
        let start = index_in(self.contexts(), id);
        let end = end_of_run(self.depths(), start, depth);
        Some(Run { start, end, depth })
    }

    // The end of the run of a context, and how many are above it. Where the last context is this one or
    // directly in it, the run isn't looked for. None exactly where it isn't held.
    fn end_and_depth(&self, id: ContextId) -> Option<(usize, usize)>
        ensures { MatchOption result (is_held id self.now ≡ false) (λ r. EndsRun id self.now r.0 r.1) }
    {
        self.stands_as_a_tree();
        let depth = self.place(id)?.depth;
        if self.ends_in(id) {
            return Some((self.len(), depth));
        }
        let run = self.run_of(id)?;
        Some((run.end, run.depth))
    }

    // Whether the last context is this one, or directly in it.
    fn ends_in(&self, id: ContextId) -> bool
        ensures { result ≡ option_map_or (λ n. is_at id n || is_child id n)
            (slice_get self.now (length self.now - 1)) false }
    {
        self.stands_as_a_tree();
        let Some(last) = self.contexts().last() else {
            return false;
        };
        id == *last || self.is_child(*last, id)
    }

    // Where a context goes, and how many are above it there. None exactly where the parent is missing.
    fn place_for(&self, parent: Option<ContextId>, id: ContextId) -> Option<(usize, usize)>
        ensures { MatchOption result (is_missing parent self.now ≡ true)
            (λ r. (is_missing parent self.now ≡ false) × (r.0 ≡ place_in parent id self.now)
            × (r.1 ≡ length (line_above parent self.now))) }
    {
        match parent {
            None => Some((top_place(self.contexts(), self.depths(), id), 0)),
            Some(p) => {
                let (end, depth) = self.end_and_depth(p)?;
                Some((end, depth + 1))
            }
        }
    }

    // The ids of a run.
    fn ids_in(&self, alloc: Global, run: Run) -> Result<Vec<ContextId>, OutOfMemory>
        requires ordered { run.start ≤ run.end }
        requires within { run.end ≤ length self.now }
        ensures { IfOk result (λ ids. ids.items ≡ contexts (slice_range self.now run.start run.end)) }
    {
        Ok(self.contexts()[run.start..run.end].to_vec(alloc)?)
    }

    // The ids of those in a run that have this parent.
    fn children_in(
        &self,
        alloc: Global,
        run: Run,
        parent: ContextId,
    ) -> Result<Vec<ContextId>, OutOfMemory>
        requires ordered { run.start ≤ run.end }
        requires within { run.end ≤ length self.now }
        ensures { IfOk result (λ ids. ids.items ≡ children parent (slice_range self.now run.start run.end)) }
    {
        self.stands_as_a_tree();
        Ok(self.children_among(alloc, &self.contexts()[run.start..run.end], parent)?)
    }

    // Those among the ids that have this parent.
    fn children_among(
        &self,
        alloc: Global,
        ids: &[ContextId],
        parent: ContextId,
    ) -> Result<Vec<ContextId>, AllocError>
        ensures { IfOk result (λ kept. kept.items ≡
            filter (λ x. option_map_or (same_context parent) (parent_in x self.now) false) ids.now) }
    {
        ids.iter()
            .filter(|x| self.is_child(**x, parent))
            .map(|x| *x)
            .collect(alloc)
    }

    // How many are above each context, in pre-order.
    fn depths(&self) -> &[usize]
        ensures { result.now ≡ map depth_of self.now }
    {
        self.depths.as_slice()
    }
}

// The index of the first top-level context with a greater id, or how many contexts there are.
fn top_place(ids: &[ContextId], depths: &[usize], id: ContextId) -> usize
    requires { length ids.now ≡ length depths.now }
    ensures { result ≡ position_or_len (λ e. e.1 == 0 && is_less id e.0) (zip ids.now depths.now) }
{
    ids.iter()
        .zip(depths)
        .take_while(|(x, depth)| !is_top_past(**x, **depth, id))
        .count()
}

// Whether a context with so many above it is a top-level one with a greater id.
fn is_top_past(x: ContextId, depth: usize, id: ContextId) -> bool
    ensures { result ≡ (depth == 0 && is_less id x) }
{
    depth == 0 && id < x
}

// The index of an id, or how many ids there are.
fn index_in(ids: &[ContextId], id: ContextId) -> usize
    ensures { result ≡ position_or_len (same_context id) ids.now }
{
    ids.iter().take_while(|x| id != **x).count()
}

// Where the run ends that starts here at this depth: before the next one that isn't deeper.
fn end_of_run(depths: &[usize], start: usize, depth: usize) -> usize
    requires { start < length depths.now }
    ensures { result ≡ start + 1 + prefix_len (nat_lt depth) (drop (start + 1) depths.now) }
{
    start + 1 + deeper_in(&depths[start + 1..], depth)
}

// How many at the front are deeper than this.
fn deeper_in(depths: &[usize], depth: usize) -> usize
    ensures count { result ≡ prefix_len (nat_lt depth) depths.now }
    ensures within { result ≤ length depths.now }
{
    depths.iter().take_while(|d| depth < **d).count()
}

// Puts a context in at this index, and its place beside. On Err nothing changes.
fn put(
    ids: &mut Vec<ContextId>,
    depths: &mut Vec<usize>,
    places: &mut HashMap<ContextId, Place>,
    at: usize,
    id: ContextId,
    place: Place,
) -> Result<(), OutOfMemory>
    requires within_ids { at ≤ length ids.old.items }
    requires within_depths { at ≤ length depths.old.items }
    ensures ids { OnOk result (ids.new.items ≡ insert ids.old.items at id) }
    ensures depths { OnOk result (depths.new.items ≡ insert depths.old.items at place.depth) }
    ensures places { OnOk result ((x : ContextId) → get same_context places.new x ≡
        (if same_context id x then Some place else get same_context places.old x)) }
    ensures err { OnErr result ((ids.new.items ≡ ids.old.items) × (depths.new.items ≡ depths.old.items)
        × (places.new.entries ≡ places.old.entries)) }
{
    ids.reserve(1)?;
    depths.reserve(1)?;
    places.insert(id, place)?;
    let _ = ids.insert(at, id);
    let _ = depths.insert(at, place.depth);
    Ok(())
}

// Takes a run out.
fn cut(ids: &mut Vec<ContextId>, depths: &mut Vec<usize>, run: Run)
    requires ordered { run.start ≤ run.end }
    requires within_ids { run.end ≤ length ids.old.items }
    requires within_depths { run.end ≤ length depths.old.items }
    ensures ids { ids.new.items ≡ remove_range ids.old.items run.start run.end }
    ensures depths { depths.new.items ≡ remove_range depths.old.items run.start run.end }
{
    ids.drain(run.start..run.end);
    depths.drain(run.start..run.end);
}

// Takes the places of these out.
fn forget(places: &mut HashMap<ContextId, Place>, ids: &[ContextId])
    ensures { (x : ContextId) → get same_context places.new x ≡
        (if list_any (same_context x) ids.now then None else get same_context places.old x) }
{
    for id in ids {
        places.remove(id);
    }
}

impl Duplicate for Tree {
    fn copy(&self) -> Result<Tree, OutOfMemory> {
        Ok(Tree {
            ids: self.ids.clone()?,
            depths: self.depths.clone()?,
            places: self.places.clone()?,
        })
    }
}
