ghost use Rattle.std.specs.Prelude.{◌≡◌, ℕ, ◌<◌, ◌==◌, ◌++◌, length, IfOk, OnOk};
ghost use Rattle.fission_ids.specs.ProcSet.{has};
ghost use Rattle.protocol.specs.Start.{numbers};
ghost use Rattle.wire_msgs.specs.declared.part.DownPart.TheVariants as downs;
ghost use Rattle.parent_core.specs.Parent.{counted_of};
ghost use Rattle.parent_core.specs.Posts.{bundle_parts, commit_to, end_to, part_to, sent_to};
ghost use Rattle.parent_core.specs.Ruled.{addressed};
ghost use Rattle.parent_core.specs.Sending.{bundle_with, bundles_to};

use crate::posts::{Post, bundle_parts, post_part};
use crate::process::Process;
use crate::writes::is_empty;
use fission_ids::{ContextId, Duplicate, Kept, OutOfMemory, ProcId, ProcSet, Seq};
use std::alloc::Global;
use transaction::Transaction;
use wire_msgs::{DownBundle, DownPart, EndCause};

/// Posts a commit to the processes of a set.
pub(crate) fn post_commit(
    alloc: Global,
    to: ProcSet,
    x: ContextId,
    t: &Transaction,
    posts: &mut Vec<Post>,
) -> Result<(), OutOfMemory>
    ensures { OnOk result ((q : ℕ) →
        sent_to posts.new.items q ≡ sent_to posts.old.items q ++ part_to to (downs.Commit x t.now) q) }
{
    let change = Kept::of(alloc, t.copy()?)?;
    post_part(alloc, to, DownPart::Commit { context: x, change }, posts)
}

/// Posts a commit to the processes of a set, unless it modifies nothing or there are none.
pub(crate) fn post_changes(
    alloc: Global,
    to: ProcSet,
    x: ContextId,
    t: &Transaction,
    posts: &mut Vec<Post>,
) -> Result<(), OutOfMemory>
    ensures { OnOk result ((q : ℕ) →
        sent_to posts.new.items q ≡ sent_to posts.old.items q ++ commit_to to x t.now q) }
{
    if is_empty(t) {
        Ok(())
    } else if to == ProcSet::EMPTY {
        Ok(())
    } else {
        post_commit(alloc, to, x, t, posts)
    }
}

/// Posts what process p is sent where it is ended.
pub(crate) fn post_end(
    alloc: Global,
    p: ProcId,
    cause: EndCause,
    posts: &mut Vec<Post>,
) -> Result<(), OutOfMemory>
    requires { p.0 < 16 }
    ensures { OnOk result ((q : ℕ) → q < 16 →
        sent_to posts.new.items q ≡ sent_to posts.old.items q ++ end_to p.0 cause q) }
{
    match cause {
        EndCause::Failed => Ok(()),
        _ => post_part(alloc, only(p), DownPart::Kill, posts),
    }
}

/// The set of process p alone.
pub(crate) fn only(p: ProcId) -> ProcSet
    requires { p.0 < 16 }
    ensures { (q : ℕ) → q < 16 → has result q ≡ (q == p.0) }
{
    ProcSet::EMPTY.with(p)
}

/// The bundles that are sent, by the numbers of the processes. Each says the epoch that was heard last of its
/// process.
pub(crate) fn bundles(
    alloc: Global,
    posts: &[Post],
    processes: &[Process],
) -> Result<Seq<(ProcId, DownBundle)>, OutOfMemory>
    requires few { length processes.now < 17 }
    ensures { IfOk result (λ s. s ≡ bundles_to (bundle_parts posts.now)
        (λ q. (counted_of q processes.now).heard) (numbers 0 (length processes.now))) }
{
    let mut sent = Vec::new(alloc);
    for i in 0..processes.len() {
        put_next(alloc, posts, i, processes, &mut sent)?;
    }
    Ok(Seq::from_vec(sent))
}

// Puts the bundle of the i-th process at the end, if it is sent any.
fn put_next(
    alloc: Global,
    posts: &[Post],
    i: usize,
    processes: &[Process],
    sent: &mut Vec<(ProcId, DownBundle)>,
) -> Result<(), OutOfMemory>
    requires within { i < length processes.now }
    requires few { length processes.now < 17 }
    ensures { OnOk result (sent.new.items ≡ sent.old.items
        ++ addressed i (bundle_with (counted_of i processes.now).heard (bundle_parts posts.now i))) }
{
    let p = ProcId(i as u8);
    match bundle_parts(alloc, posts, p)? {
        None => Ok(()),
        Some(parts) => {
            let epoch = processes[i].epoch();
            sent.push((p, DownBundle { epoch, parts }))?;
            Ok(())
        }
    }
}
