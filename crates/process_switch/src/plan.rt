ghost use Rattle.std.specs.Prelude.{◌≡◌, ◌≤◌, length, IfOk};
ghost use Rattle.process_switch.specs.Choice.{plan_for, plan_of_type, serves};

use crate::choice::{choose, is_of};
use crate::remote::remote_type;
use fission_ids::{OutOfMemory, ProcId, Text};
use std::alloc::Global;
use url::Url;

/// Where an address is to be loaded.
#[derive(Clone, Copy, Debug, PartialEq, Eq)]
pub enum Plan {
    /// In the process that owns the context.
    Stay,
    /// In this process, which isn't the owner.
    Switch(ProcId),
    /// Nowhere: no live process has the type that the address asks for.
    NoProcess,
}

/// Where an address is to be loaded in a context with this owner: with the owner where it is live and of the
/// type that the address asks for, and else in the least live process of that type. `present` is the remote
/// type of the owner, or of the last one. `live` is as `choose` takes it; an owner past its end isn't live.
pub fn plan_for(
    alloc: Global,
    url: &Url,
    owner: Option<ProcId>,
    present: &str,
    live: &[Option<Text>],
) -> Result<Plan, OutOfMemory>
    requires { length live.now ≤ 16 }
    ensures { IfOk result (λ plan. plan ≡ plan_for url.now owner present.now live.now) }
{
    let t = remote_type(alloc, url, present)?;
    Ok(plan_of_type(t.as_str(), owner, live))
}

// Where what asks for a type is to be loaded.
fn plan_of_type(t: &str, owner: Option<ProcId>, live: &[Option<Text>]) -> Plan
    requires { length live.now ≤ 16 }
    ensures { result ≡ plan_of_type t.now owner live.now }
{
    if serves(t, owner, live) {
        return Plan::Stay;
    }
    match choose(live, t) {
        Some(p) => Plan::Switch(p),
        None => Plan::NoProcess,
    }
}

// Whether the owner is there, live, and of this type.
fn serves(t: &str, owner: Option<ProcId>, live: &[Option<Text>]) -> bool
    ensures { result ≡ serves t.now owner live.now }
{
    let Some(p) = owner else {
        return false;
    };
    match live.get(p.0 as usize) {
        None => false,
        Some(process) => is_of(process, t),
    }
}
