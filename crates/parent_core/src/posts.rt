ghost use Rattle.std.specs.Prelude.{◌≡◌, ℕ, ◌<◌, ◌≤◌, [], ◌∷◌, ◌++◌, IfOk, OnOk, not, nat_lt, length};
ghost use Rattle.std.specs.List.{prefix_len};
ghost use Rattle.fission_ids.specs.ProcSet.{has};
ghost use Rattle.protocol.specs.Order.{down_rank, parts_with, parts_with_all};
ghost use Rattle.parent_core.specs.Posts.{bundle_parts, is_sent_to, part_to, sent_to, some_parts};

use fission_ids::{Duplicate, OutOfMemory, ProcId, ProcSet, Shared};
use std::alloc::Global;
use std::marker::Model;
use wire_msgs::DownPart;

/// A part for the processes of a set, which may share it.
#[derive(Debug, Drop)]
pub(crate) struct Post {
    to: ProcSet,
    // The part alone.
    parts: Shared<DownPart>,
}

impl Model for Post {
    ghost use Rattle.std.specs.Prelude.{◌≡◌, ◌∷◌, []};
    ghost use Rattle.parent_core.specs.Posts.{Posted, first_part};
    ghost use Rattle.parent_core.specs.Posts.{posted_code};

    ghost Value = { Posted };

    ghost coded = { posted_code };

    ghost view = { λ p. record { to = p.to; part = first_part p.parts } };

    ghost invariant = { λ p. p.parts ≡ first_part p.parts ∷ [] };
}

impl Post {
    /// A part for the processes of a set.
    pub(crate) fn new(alloc: Global, to: ProcSet, part: DownPart) -> Result<Post, OutOfMemory>
        ensures { IfOk result (λ a. a ≡ record { to = to; part = part }) }
    {
        let parts = Shared::of(vec![in alloc; part]?)?;
        Ok(Post { to, parts })
    }

    // Whether it is for process p.
    fn is_for(&self, p: ProcId) -> bool
        requires { p.0 < 16 }
        ensures { result ≡ has self.now.to p.0 }
    {
        self.to.has(p)
    }

    // Its part, as a list that may be shared.
    fn parts(&self) -> &Shared<DownPart>
        ensures { result.now ≡ self.now.part ∷ [] }
    {
        &self.parts
    }

    // Its part.
    fn part(&self) -> &DownPart
        ensures { result.now ≡ self.now.part }
    {
        match self.parts.as_slice() {
            [part, ..] => part,
            [] => unreachable!(),
        }
    }
}

/// Posts a part to the processes of a set, behind what was posted before.
pub(crate) fn post_part(
    alloc: Global,
    to: ProcSet,
    part: DownPart,
    posts: &mut Vec<Post>,
) -> Result<(), OutOfMemory>
    ensures { OnOk result ((q : ℕ) →
        sent_to posts.new.items q ≡ sent_to posts.old.items q ++ part_to to part q) }
{
    posts.push(Post::new(alloc, to, part)?)?;
    Ok(())
}

/// Whether process p is sent anything.
pub(crate) fn is_sent_to(posts: &[Post], p: ProcId) -> bool
    requires { p.0 < 16 }
    ensures { result ≡ is_sent_to posts.now p.0 }
{
    posts.iter().any(|a| a.is_for(p))
}

/// The parts of the bundle for process p, in their order. None where it is sent nothing. The list is shared
/// with every process that is sent the same part alone.
pub(crate) fn bundle_parts(
    alloc: Global,
    posts: &[Post],
    p: ProcId,
) -> Result<Option<Shared<DownPart>>, OutOfMemory>
    requires { p.0 < 16 }
    ensures { IfOk result (λ ds. ds ≡ some_parts (bundle_parts posts.now p.0)) }
{
    match posts {
        [] => Ok(None),
        [first, rest @ ..] => {
            if !first.is_for(p) {
                bundle_parts(alloc, rest, p)
            } else if is_sent_to(rest, p) {
                Ok(Some(merged(alloc, posts, p)?))
            } else {
                Ok(Some(first.parts().copy()?))
            }
        }
    }
}

// Copies of all parts for process p, in their order.
fn merged(alloc: Global, posts: &[Post], p: ProcId) -> Result<Shared<DownPart>, OutOfMemory>
    requires { p.0 < 16 }
    ensures { IfOk result (λ ds. ds ≡ bundle_parts posts.now p.0) }
{
    let mut parts = Vec::new(alloc);
    for a in posts {
        put_for(a, p, &mut parts)?;
    }
    Ok(Shared::of(parts)?)
}

// Puts a part among others, if it is for process p.
fn put_for(a: &Post, p: ProcId, parts: &mut Vec<DownPart>) -> Result<(), OutOfMemory>
    requires { p.0 < 16 }
    ensures { OnOk result
        (parts.new.items ≡ parts_with_all (part_to a.now.to a.now.part p.0) parts.old.items) }
{
    if a.is_for(p) {
        put(a.part().copy()?, parts)?;
    }
    Ok(())
}

// Puts a part among others, behind all of its kind and of the kinds before it.
fn put(part: DownPart, parts: &mut Vec<DownPart>) -> Result<(), OutOfMemory>
    ensures { OnOk result (parts.new.items ≡ parts_with part parts.old.items) }
{
    let place = place_of(parts.as_slice(), rank(&part));
    parts.insert(place, part)?;
    Ok(())
}

// How many parts at the front are of this kind or of one before it.
fn place_of(parts: &[DownPart], rank_of_part: u8) -> usize
    ensures count { result ≡ prefix_len (λ e. not (nat_lt rank_of_part (down_rank e))) parts.now }
    ensures within { result ≤ length parts.now }
{
    parts
        .iter()
        .take_while(|e| !(rank_of_part < rank(e)))
        .count()
}

// The place of a kind among the parts that the parent sends.
fn rank(part: &DownPart) -> u8
    ensures { result ≡ down_rank part.now }
{
    match part {
        DownPart::Register { .. } => 1,
        DownPart::Create { .. } => 2,
        DownPart::Commit { .. } => 3,
        DownPart::Discard { .. } => 4,
        DownPart::CloseWindow { .. } => 5,
        DownPart::Load { .. } => 6,
        DownPart::Ask { .. } => 7,
        DownPart::Tell { .. } => 8,
        DownPart::Reply { .. } => 9,
        DownPart::Kill => 10,
    }
}
