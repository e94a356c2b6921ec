ghost use Rattle.std.specs.Prelude.{◌≡◌, ◌<◌, length, IfOk};
ghost use Rattle.std.specs.Option.{option_copied};
ghost use Rattle.fission_ids.specs.declared.context.ContextId.{ContextId};
ghost use Rattle.context_tree.specs.Tree.{contexts, is_held, is_under, parent_in};
ghost use Rattle.wire_msgs.specs.Config.{ConfigFits};
ghost use Rattle.protocol.specs.Start.{seen_at_start};
ghost use Rattle.protocol.specs.SeenAfter.{seen_after};
ghost use Rattle.protocol.specs.OwnActs.{action_step};
ghost use Rattle.protocol.specs.Take.{bundle_step};
ghost use Rattle.protocol.specs.Played.{IsPlayedByProcess};
ghost use Rattle.content_core.specs.Content.{seen_of};
ghost use Rattle.content_core.specs.Moved.{MovedBy, Counts, IsTaken};

use crate::held::Held;
use crate::moved::Moved;
use context_tree::Tree;
use field_table::{Field, Value};
use fission_ids::{ContextId, GroupId, OutOfMemory, ProcId};
use std::alloc::Global;
use std::marker::Model;
use wire_msgs::{Action, Config, DownBundle};

/// A process.
#[derive(Debug, Drop)]
pub struct Content {
    pub(crate) held: Held,
}

impl Model for Content {
    ghost use Rattle.content_core.specs.Content.{Kept, kept_code, IsWhole};
    ghost use Rattle.content_core.specs.Held.{kept_of};

    ghost Value = { Kept };

    ghost coded = { kept_code };

    ghost view = { λ c. kept_of c.held };

    ghost invariant = { λ c. IsWhole (kept_of c.held) };
}

impl Content {
    /// Process p before any step.
    pub fn start(alloc: Global, p: ProcId, config: &Config) -> Result<Content, OutOfMemory>
        requires config { ConfigFits config.now }
        requires process { p.0 < length config.now.types }
        ensures process { IfOk result (λ c. c.process ≡ p.0) }
        ensures seen { IfOk result (λ c. seen_of c ≡ seen_at_start config.now.tabs p.0) }
    {
        let held = Held::start(alloc, p, config.tabs.as_slice())?;
        Ok(Content { held })
    }

    /// The process acts of its own accord. Where it doesn't run, that is refused as `Stopped`.
    pub fn act(self, action: Action) -> Result<Moved, OutOfMemory>
        requires action { IsPlayedByProcess action }
        requires counts { Counts self }
        ensures { IfOk result (λ m.
            MovedBy self
            (action_step (λ s. s) (seen_after self.process) self.process action (seen_of self)) m) }
    {
        let Content { held } = self;
        held.act(action)
    }

    /// The process takes a bundle, also where it doesn't run.
    pub fn take(self, bundle: DownBundle) -> Result<Moved, OutOfMemory>
        requires parts { IsTaken bundle.parts }
        requires counts { Counts self }
        ensures { IfOk result (λ m.
            MovedBy self
            (bundle_step (λ s. s) (seen_after self.process) self.process bundle (seen_of self)) m) }
    {
        let Content { held } = self;
        held.take(bundle)
    }

    /// What the process shows of a field. None exactly where it doesn't hold the context.
    pub fn field(&self, x: ContextId, f: Field) -> Option<&Value>
        ensures { option_copied result ≡ (seen_of self.now).value x f }
    {
        self.held.field(x, f)
    }

    /// Whether the process owns a context.
    pub fn owns(&self, x: ContextId) -> bool
        ensures { result ≡ (seen_of self.now).owns x }
    {
        self.held.owns(x)
    }

    /// The group of a context. None exactly where the process doesn't hold it.
    pub fn group(&self, x: ContextId) -> Option<GroupId>
        ensures { result ≡ (seen_of self.now).group x }
    {
        self.held.group(x)
    }

    /// The tree of the contexts that the process holds.
    pub fn tree(&self) -> &Tree
        ensures order { contexts result.now ≡ (seen_of self.now).order }
        ensures holds { (x : ContextId) → is_held x result.now ≡ (seen_of self.now).holds x }
        ensures above { (x : ContextId) → parent_in x result.now ≡ (seen_of self.now).above x }
        ensures under { (x y : ContextId) → is_under x y result.now ≡ (seen_of self.now).under x y }
    {
        &self.held.contexts.tree
    }

    /// Whether the process runs. It does until it takes a bundle that tells it to stop.
    pub fn is_running(&self) -> bool
        ensures { result ≡ (seen_of self.now).running }
    {
        self.held.running
    }

    /// How many bundles the process took.
    pub fn taken(&self) -> u64
        ensures { result ≡ (seen_of self.now).taken }
    {
        self.held.taken
    }
}
