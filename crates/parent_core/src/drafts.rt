ghost use Rattle.std.specs.Prelude.{◌≡◌, ◌<◌};
ghost use Rattle.parent_core.specs.Parent.{facts_of};
ghost use Rattle.parent_core.specs.Drafts.{above_in, below_in, known_in, live_in, owner_in, told_in};

use crate::parent::Parent;
use fission_ids::{ContextId, ProcId};

/// What a part of a bundle makes or takes away, as the parts behind it are judged.
#[derive(Clone, Copy, Debug, PartialEq, Eq)]
pub(crate) enum Step {
    /// A frame in a context, which is live or came too late.
    Made {
        context: ContextId,
        above: ContextId,
        live: bool,
    },
    /// A context is gone with all below it.
    Gone {
        context: ContextId,
    },
}

// What is asked of the parent behind a draft, whose newest step comes first.
impl Parent {
    /// Whether a context was made.
    pub(crate) fn is_known_in(&self, x: ContextId, draft: &[Step]) -> bool
        ensures { result ≡ known_in (facts_of self.now) x draft.now }
    {
        match draft {
            [] => self.is_known(x),
            [Step::Made { context, .. }, older @ ..] => {
                if x == *context {
                    true
                } else {
                    self.is_known_in(x, older)
                }
            }
            [Step::Gone { .. }, older @ ..] => self.is_known_in(x, older),
        }
    }

    /// The context that one is a frame of.
    pub(crate) fn above_in(&self, x: ContextId, draft: &[Step]) -> Option<ContextId>
        ensures { result ≡ above_in (facts_of self.now) x draft.now }
    {
        match draft {
            [] => self.above(x),
            [Step::Made { context, above, .. }, older @ ..] => {
                if x == *context {
                    Some(*above)
                } else {
                    self.above_in(x, older)
                }
            }
            [Step::Gone { .. }, older @ ..] => self.above_in(x, older),
        }
    }

    /// Whether a context that is live is another or below it.
    pub(crate) fn is_below_in(&self, x: ContextId, z: ContextId, draft: &[Step]) -> bool
        ensures { result ≡ below_in (facts_of self.now) x z draft.now }
    {
        match draft {
            [] => self.is_under(x, z),
            [Step::Made { context, above, .. }, older @ ..] => {
                if x == *context {
                    x == z || self.is_below_in(*above, z, older)
                } else {
                    self.is_below_in(x, z, older)
                }
            }
            [Step::Gone { .. }, older @ ..] => self.is_below_in(x, z, older),
        }
    }

    /// Whether a context is known, and not discarded.
    pub(crate) fn is_live_in(&self, x: ContextId, draft: &[Step]) -> bool
        ensures { result ≡ live_in (facts_of self.now) x draft.now }
    {
        match draft {
            [] => self.is_live(x),
            [Step::Made { context, live, .. }, older @ ..] => {
                if x == *context {
                    *live
                } else {
                    self.is_live_in(x, older)
                }
            }
            [Step::Gone { context }, older @ ..] => {
                self.is_live_in(x, older) && !self.is_below_in(x, *context, older)
            }
        }
    }

    /// Whether process p is told of a context.
    pub(crate) fn is_told_in(&self, p: ProcId, x: ContextId, draft: &[Step]) -> bool
        requires { p.0 < 16 }
        ensures { result ≡ told_in (facts_of self.now) p.0 x draft.now }
    {
        match draft {
            [] => self.is_told(p, x),
            [Step::Made { context, above, .. }, older @ ..] => {
                let at = if x == *context { *above } else { x };
                self.is_told_in(p, at, older)
            }
            [Step::Gone { .. }, older @ ..] => self.is_told_in(p, x, older),
        }
    }

    /// Whether process p owns a context that is live.
    pub(crate) fn is_owner_in(&self, p: ProcId, x: ContextId, draft: &[Step]) -> bool
        ensures { result ≡ owner_in (facts_of self.now) p.0 x draft.now }
    {
        match draft {
            [] => self.is_owner(p, x),
            [Step::Made { context, .. }, older @ ..] => {
                if x == *context {
                    true
                } else {
                    self.is_owner_in(p, x, older)
                }
            }
            [Step::Gone { .. }, older @ ..] => self.is_owner_in(p, x, older),
        }
    }
}
