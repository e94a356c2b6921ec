ghost use Rattle.std.specs.Prelude.{◌≡◌, ◌<◌, ◌||◌, ◌&&◌, length, []};
ghost use Rattle.std.specs.List.{list_any};
ghost use Rattle.protocol.specs.Bundle.{due, envelope_fault, is_commit, is_counted, is_end};
ghost use Rattle.protocol.specs.Order.{first_misplaced, is_gone, is_single, up_rank};
ghost use Rattle.parent_core.specs.Envelopes.{is_misplaced_behind};
ghost use Rattle.parent_core.specs.Parent.{facts_of};
ghost use Rattle.parent_core.specs.Ruled.{Counts};

use crate::parent::Parent;
use fission_ids::{Epoch, ProcId};
use wire_msgs::{EndCause, UpBundle, UpPart};

// What is asked of a bundle of process p before its parts are looked at.
impl Parent {
    /// Whether the epoch of a bundle is recorded: it is the one that is due, and it counts a commit.
    pub(crate) fn is_counted(&self, p: ProcId, bundle: &UpBundle) -> bool
        requires process { p.0 < length self.now.config.types }
        requires counts { Counts self.now }
        ensures { result ≡ is_counted (facts_of self.now) p.0 bundle.now }
    {
        let parts = bundle.parts.as_slice();
        !is_end(parts) && has_commit(parts) && bundle.epoch == self.epoch_due(p, parts)
    }

    /// Why the envelope of a bundle ends its sender: it tells the sender's end, has another epoch than is
    /// due, says that more was taken than was sent, or has a part out of its place.
    #[tactic(auto, unfolding(protocol::specs::Bundle::envelope_fault))]
    pub(crate) fn envelope_fault(&self, p: ProcId, bundle: &UpBundle) -> Option<EndCause>
        requires process { p.0 < length self.now.config.types }
        requires counts { Counts self.now }
        ensures { result ≡ envelope_fault (facts_of self.now) p.0 bundle.now }
    {
        let parts = bundle.parts.as_slice();
        let due = self.epoch_due(p, parts);
        let sent = self.bundles_sent(p);
        if is_end(parts) {
            Some(EndCause::Failed)
        } else if bundle.epoch != due {
            Some(EndCause::BadEpoch {
                said: bundle.epoch,
                due,
            })
        } else if bundle.seen > sent {
            Some(EndCause::BadStamp {
                said: bundle.seen,
                sent,
            })
        } else {
            first_misplaced(parts).map(|number| EndCause::BadPart { number })
        }
    }

    // The epoch that is due of a bundle of these parts.
    fn epoch_due(&self, p: ProcId, parts: &[UpPart]) -> Epoch
        requires process { p.0 < length self.now.config.types }
        requires counts { Counts self.now }
        ensures { result.0 ≡ due (facts_of self.now) p.0 parts.now }
    {
        let heard = self.epoch_heard(p);
        if has_commit(parts) {
            Epoch(heard.0 + 1)
        } else {
            heard
        }
    }
}

// Whether a bundle is told by the process's end alone.
fn is_end(parts: &[UpPart]) -> bool
    ensures { result ≡ is_end parts.now }
{
    match parts {
        [UpPart::Gone] => true,
        _ => false,
    }
}

// Whether there is a commit among parts.
fn has_commit(parts: &[UpPart]) -> bool
    ensures { result ≡ list_any is_commit parts.now }
{
    parts.iter().any(is_commit)
}

fn is_commit(part: &UpPart) -> bool
    ensures { result ≡ is_commit part.now }
{
    match part {
        UpPart::Commit { .. } => true,
        _ => false,
    }
}

fn is_gone(part: &UpPart) -> bool
    ensures { result ≡ is_gone part.now }
{
    match part {
        UpPart::Gone => true,
        _ => false,
    }
}

// The place of a kind among the parts that a process sends.
fn rank_of(part: &UpPart) -> u8
    ensures { result ≡ up_rank part.now }
{
    match part {
        UpPart::Create { .. } => 1,
        UpPart::Drop { .. } => 2,
        UpPart::DropAck { .. } => 3,
        UpPart::NewWindow { .. } => 4,
        UpPart::WindowGone { .. } => 5,
        UpPart::Commit { .. } => 6,
        UpPart::NavigateRequest { .. } => 7,
        UpPart::Ask { .. } => 8,
        UpPart::Tell { .. } => 9,
        UpPart::Reply { .. } => 10,
        UpPart::Gone => 11,
    }
}

// The number of the first part that may not stand where it stands, from 1 on.
fn first_misplaced(parts: &[UpPart]) -> Option<u64>
    ensures { result ≡ first_misplaced 1 [] parts.now }
{
    let mut last = 0;
    for i in 0..parts.len() {
        let part = &parts[i];
        if is_out_of_place(last, part, i + 1 < parts.len()) {
            return Some(i as u64 + 1);
        }
        last = rank_of(part);
    }
    None
}

// Whether a part may not stand behind one of this rank, or may not have more behind it.
fn is_out_of_place(last: u8, part: &UpPart, more: bool) -> bool
    ensures { result ≡ (is_misplaced_behind last (up_rank part.now) || (is_gone part.now && more)) }
{
    is_misplaced_behind(last, rank_of(part)) || is_gone(part) && more
}

fn is_misplaced_behind(last: u8, rank: u8) -> bool
    ensures { result ≡ is_misplaced_behind last rank }
{
    last > 0 && (last > rank || is_single(rank) && last == rank || rank == 11)
}

fn is_single(rank: u8) -> bool
    ensures { result ≡ is_single rank }
{
    rank == 6 || rank == 7
}
