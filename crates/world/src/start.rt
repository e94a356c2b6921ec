ghost use Rattle.std.specs.Prelude.{◌≡◌, ◌≤◌, [], length, map, IfOk, Some};
ghost use Rattle.wire_msgs.specs.Config.{ConfigFits};
ghost use Rattle.protocol.specs.Start.{numbers, seen_at_start};
ghost use Rattle.world.specs.Sides.{sides_of};

use crate::sides::Sides;
use channels::Link;
use content_core::Content;
use fission_ids::{OutOfMemory, ProcId};
use std::alloc::Global;
use wire_msgs::Config;

/// The processes before any step, with nothing on their links.
pub(crate) fn start_sides(alloc: Global, config: &Config) -> Result<Sides, OutOfMemory>
    requires { ConfigFits config.now }
    ensures contents { IfOk result (λ s. sides_of s.contents.items ≡ map
        (λ p. Some (record { process = p; seen = seen_at_start config.now.tabs p }))
        (numbers 0 (length config.now.types))) }
    ensures ups { IfOk result (λ s. s.ups.items ≡ map (λ p. []) (numbers 0 (length config.now.types))) }
    ensures downs { IfOk result (λ s. s.downs.items ≡ map (λ p. []) (numbers 0 (length config.now.types))) }
{
    let count = config.types.len();
    Ok(Sides {
        contents: start_contents(alloc, config)?,
        ups: links(alloc, count)?,
        downs: links(alloc, count)?,
    })
}

// Each process before any step.
fn start_contents(alloc: Global, config: &Config) -> Result<Vec<Option<Content>>, OutOfMemory>
    requires { ConfigFits config.now }
    ensures { IfOk result (λ contents. sides_of contents.items ≡ map
        (λ p. Some (record { process = p; seen = seen_at_start config.now.tabs p }))
        (numbers 0 (length config.now.types))) }
{
    let count = config.types.len();
    let mut contents = Vec::with_capacity(alloc, count)?;
    for p in 0..count {
        contents.push(Some(Content::start(alloc, ProcId(p as u8), config)?))?;
    }
    Ok(contents)
}

// So many links on which nothing waits.
fn links<T: Drop>(alloc: Global, count: usize) -> Result<Vec<Link<T>>, OutOfMemory>
    ensures { IfOk result (λ links. links.items ≡ map (λ p. []) (numbers 0 count)) }
{
    let mut links = Vec::with_capacity(alloc, count)?;
    for _ in 0..count {
        links.push(Link::new(alloc))?;
    }
    Ok(links)
}
