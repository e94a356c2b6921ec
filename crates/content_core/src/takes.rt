ghost use Rattle.std.specs.Prelude.{◌≡◌, true, false, [], IfOk, if◌then◌else◌};
ghost use Rattle.std.specs.List.{list_any};
ghost use Rattle.protocol.specs.SeenAfter.{seen_after};
ghost use Rattle.protocol.specs.Take.{bundle_step, is_kill};
ghost use Rattle.content_core.specs.Content.{seen_of, IsWhole};
ghost use Rattle.content_core.specs.Held.{kept_of, TakesPart, TakesParts};
ghost use Rattle.content_core.specs.Moved.{MovedBy, Counts, IsTaken, IsTakenPart};
ghost use Rattle.content_core.specs.Steps.{acks_of, sends_of};

use crate::held::Held;
use crate::moved::Moved;
use fission_ids::{Epoch, OutOfMemory, Seq};
use std::alloc::Global;
use wire_msgs::{Answer, DownBundle, DownPart, PartNote, UpPart};

impl Held {
    /// The process takes a bundle, also where it doesn't run.
    pub(crate) fn take(self, bundle: DownBundle) -> Result<Moved, OutOfMemory>
        requires whole { IsWhole (kept_of self) }
        requires parts { IsTaken bundle.parts }
        requires counts { Counts (kept_of self) }
        ensures { IfOk result (λ m. MovedBy (kept_of self)
            (bundle_step (λ s. s) (seen_after self.process.0) self.process.0 bundle (seen_of (kept_of self)))
            m) }
    {
        let mut held = self;
        let notes = held.take_parts(bundle.parts.as_slice(), bundle.epoch)?;
        let sends = sends_of(held.alloc, bundle.parts.as_slice())?;
        held.taken += 1;
        Ok(held.moved(Answer::Parts(notes), sends))
    }

    // The process takes the parts of a bundle of this epoch, one after the other.
    fn take_parts(&mut self, parts: &[DownPart], e: Epoch) -> Result<Seq<PartNote>, OutOfMemory>
        requires whole { IsWhole (kept_of self.old) }
        requires parts { IsTaken parts.now }
        ensures { IfOk result (λ told. TakesParts parts.now e.0 told (kept_of self.old) (kept_of self.new)) }
    {
        let mut told = Seq::new(self.alloc);
        for part in parts {
            let note = self.take_part(part, e)?;
            told.push(note)?;
        }
        Ok(told)
    }

    // The process takes a part of a bundle of this epoch.
    fn take_part(&mut self, part: &DownPart, e: Epoch) -> Result<PartNote, OutOfMemory>
        requires whole { IsWhole (kept_of self.old) }
        requires part { IsTakenPart part.now }
        ensures { IfOk result (λ note. TakesPart part.now e.0 note (kept_of self.old) (kept_of self.new)) }
    {
        match part {
            DownPart::Register { group, contexts } => {
                self.come_all(contexts.as_slice())?;
                Ok(PartNote::Register(*group))
            }
            DownPart::Create { known } => {
                let mark = self.come(known)?;
                Ok(PartNote::Create(known.context, mark))
            }
            DownPart::Commit { context, change } => self.give(*context, change.get(), e),
            DownPart::Discard { context } => {
                self.go(*context)?;
                Ok(PartNote::Discard(*context))
            }
            DownPart::Kill => {
                self.running = false;
                Ok(PartNote::Kill)
            }
            _ => unreachable!(),
        }
    }
}

// What a process sends behind the parts of a bundle: nothing, where it is told to stop.
fn sends_of(alloc: Global, parts: &[DownPart]) -> Result<Seq<UpPart>, OutOfMemory>
    ensures { IfOk result (λ sends. sends ≡ sends_of parts.now) }
{
    if is_killed(parts) {
        return Ok(Seq::new(alloc));
    }
    acks_of(alloc, parts)
}

// Whether one of the parts tells the process to stop.
fn is_killed(parts: &[DownPart]) -> bool
    ensures { result ≡ list_any is_kill parts.now }
{
    parts.iter().any(is_kill)
}

// Whether a part tells the process to stop.
fn is_kill(part: &DownPart) -> bool
    ensures { result ≡ is_kill part.now }
{
    match part {
        DownPart::Kill => true,
        _ => false,
    }
}

// An acknowledgement of each discard.
#[tactic(auto, unfolding(protocol::specs::Take::posts))]
fn acks_of(alloc: Global, parts: &[DownPart]) -> Result<Seq<UpPart>, OutOfMemory>
    ensures { IfOk result (λ acks. acks ≡ acks_of parts.now) }
{
    let mut acks = Seq::new(alloc);
    for part in parts {
        if let DownPart::Discard { context } = part {
            acks.push(UpPart::DropAck { context: *context })?;
        }
    }
    Ok(acks)
}
