//! All that the sides of a world have.

ghost use Rattle.std.specs.Prelude.{◌≡◌, ◌++◌, ◌<◌, OnOk, IfOk, length, string_bytes};
ghost use Rattle.scenario.specs.Fits.{ActorFits};
ghost use Rattle.report.specs.Report.{side_text, named_side_text, process_sides_text};
ghost use Rattle.report.specs.Report.{show_side_text, show_all_text};

use crate::lines::actor_words;
use crate::views::{push_parent, push_process};
use fission_ids::{OutOfMemory, ProcId};
use scenario::Actor;
use std::alloc::Global;
use world::World;

// What the parent has.
fn push_parent_side(alloc: Global, out: &mut String, world: &World) -> Result<(), OutOfMemory>
    ensures { OnOk result (string_bytes out.new ≡ string_bytes out.old ++
        side_text world.now Actor.Parent) }
{
    let _few = world.count();
    push_parent(alloc, out, world.parent())
}

// What a process has.
fn push_process_side(
    alloc: Global,
    out: &mut String,
    world: &World,
    p: ProcId,
) -> Result<(), OutOfMemory>
    requires { p.0 < length world.now.config.types }
    ensures { OnOk result (string_bytes out.new ≡ string_bytes out.old ++
        side_text world.now (Actor.Process p)) }
{
    let types = world.config().types.as_slice();
    let remote_type = types[p.0 as usize].as_str();
    push_process(alloc, out, remote_type, world.content(p).unwrap())
}

// What a side has.
fn push_side(alloc: Global, out: &mut String, world: &World, who: Actor) -> Result<(), OutOfMemory>
    requires { ActorFits (length world.now.config.types) who }
    ensures { OnOk result (string_bytes out.new ≡ string_bytes out.old ++ side_text world.now who) }
{
    match who {
        Actor::Parent => push_parent_side(alloc, out, world),
        Actor::Process(p) => push_process_side(alloc, out, world, p),
    }
}

// What a side has, below its name.
fn push_named_side(
    alloc: Global,
    out: &mut String,
    world: &World,
    who: Actor,
) -> Result<(), OutOfMemory>
    requires { ActorFits (length world.now.config.types) who }
    ensures { OnOk result (string_bytes out.new ≡ string_bytes out.old ++ named_side_text world.now who) }
{
    let name = actor_words(alloc, who)?;
    out.push_str(name.as_str())?;
    out.push_str("\n")?;
    push_side(alloc, out, world, who)
}

// What the processes have, by rising number.
fn push_process_sides(alloc: Global, out: &mut String, world: &World) -> Result<(), OutOfMemory>
    ensures { OnOk result (string_bytes out.new ≡ string_bytes out.old ++ process_sides_text world.now) }
{
    let count = world.count() as u8;
    for p in 0..count {
        push_named_side(alloc, out, world, Actor::Process(ProcId(p)))?;
    }
    Ok(())
}

// The line of a show of one side, and all that the side has.
#[tactic(auto, unfolding(crate::specs::Report::show_side_text))]
pub(crate) fn side_lines(
    alloc: Global,
    number: u64,
    world: &World,
    who: Actor,
) -> Result<String, OutOfMemory>
    requires { ActorFits (length world.now.config.types) who }
    ensures { IfOk result (λ s. string_bytes s ≡ show_side_text number world.now who) }
{
    let name = actor_words(alloc, who)?;
    let mut out = format!(in alloc; "{number} {name} show\n")?;
    push_side(alloc, &mut out, world, who)?;
    Ok(out)
}

// The line of a show of all, and all that each side has.
#[tactic(auto, unfolding(crate::specs::Report::show_all_text))]
pub(crate) fn all_lines(alloc: Global, number: u64, world: &World) -> Result<String, OutOfMemory>
    ensures { IfOk result (λ s. string_bytes s ≡ show_all_text number world.now) }
{
    let mut out = format!(in alloc; "{number} show\n")?;
    push_named_side(alloc, &mut out, world, Actor::Parent)?;
    push_process_sides(alloc, &mut out, world)?;
    Ok(out)
}
