ghost use Rattle.serde_json.specs.View.{view, items_view};
ghost use Rattle.fission_ids.specs.Gives.{Gives};
ghost use Rattle.scenario.specs.Faults.{is_memory, or_shape};
ghost use Rattle.scenario.specs.Members.{data_found, whole_number};
ghost use Rattle.scenario.specs.Reading.{raw_line, parts_of, raw_parts, raw_part, commit_part};
ghost use Rattle.scenario.specs.Reading.{create_part, context_part, drop_part, ack_part};

use crate::fault::ReadFault;
use crate::fields::{context_at, transaction_of};
use crate::line::Line;
use crate::members::{Kind, has_only, is_text, whole_number};
use crate::processes::{array_in, process_of};
use fission_ids::{ContextId, Epoch, Kept, Seq};
use journal::Step;
use serde_json::Value;
use std::alloc::Global;
use wire_msgs::{UpBundle, UpPart};

const MAX_PARTS: usize = 16;

/// A bundle that a process sends, whatever it did.
#[tactic(auto, unfolding(crate::specs::Reading::raw_line))]
pub fn raw_line(alloc: Global, place: u32, count: u8, v: &Value) -> Result<Line, ReadFault>
    ensures { Gives is_memory result (raw_line place count (view v.now)) }
{
    if !has_only(v, Kind::Raw) {
        return Err(ReadFault::Shape { place });
    }
    let p = process_of(place, count, v.get("at"))?;
    let epoch = number_at(place, v.get("epoch"))?;
    let seen = number_at(place, v.get("seen"))?;
    let parts = parts_of(alloc, place, v.get("parts"))?;
    let epoch = Epoch(epoch);
    let bundle = UpBundle { epoch, seen, parts };
    Ok(Line::Step(Step::Raw { p, bundle }))
}

// A number from 0 on, below 2^64.
fn number_at(place: u32, found: Option<&Value>) -> Result<u64, ReadFault>
    ensures { Gives is_memory result (or_shape place (whole_number (data_found found.entry))) }
{
    match whole_number(found) {
        None => Err(ReadFault::Shape { place }),
        Some(n) => Ok(n),
    }
}

// The parts of a bundle, 1 to 16.
#[tactic(auto, using(crate::proofs::Turns::items_len_view), unfolding(crate::specs::Reading::parts_of))]
fn parts_of(alloc: Global, place: u32, found: Option<&Value>) -> Result<Seq<UpPart>, ReadFault>
    ensures { Gives is_memory result (parts_of place (data_found found.entry)) }
{
    let values = array_in(place, found)?;
    if values.is_empty() {
        return Err(ReadFault::Shape { place });
    }
    if values.len() > MAX_PARTS {
        return Err(ReadFault::Shape { place });
    }
    raw_parts(alloc, place, values)
}

fn raw_parts(alloc: Global, place: u32, values: &[Value]) -> Result<Seq<UpPart>, ReadFault>
    ensures { Gives is_memory result (raw_parts place (items_view values.now)) }
{
    let mut parts = Seq::new(alloc);
    for v in values {
        parts.push(raw_part(alloc, place, v)?)?;
    }
    Ok(parts)
}

#[tactic(auto, unfolding(crate::specs::Reading::raw_part))]
fn raw_part(alloc: Global, place: u32, v: &Value) -> Result<UpPart, ReadFault>
    ensures { Gives is_memory result (raw_part place (view v.now)) }
{
    if is_text(v.get("part"), "commit") {
        commit_part(alloc, place, v)
    } else if is_text(v.get("part"), "create") {
        create_part(place, v)
    } else if is_text(v.get("part"), "drop") {
        drop_part(place, v)
    } else if is_text(v.get("part"), "ack") {
        ack_part(place, v)
    } else {
        Err(ReadFault::Shape { place })
    }
}

#[tactic(auto, unfolding(crate::specs::Reading::commit_part))]
fn commit_part(alloc: Global, place: u32, v: &Value) -> Result<UpPart, ReadFault>
    ensures { Gives is_memory result (commit_part place (view v.now)) }
{
    if !has_only(v, Kind::CommitPart) {
        return Err(ReadFault::Shape { place });
    }
    let context = context_at(place, v.get("context"))?;
    let fields = transaction_of(alloc, place, v.get("fields"))?;
    let change = Kept::of(alloc, fields)?;
    Ok(UpPart::Commit { context, change })
}

#[tactic(auto, unfolding(crate::specs::Reading::create_part))]
fn create_part(place: u32, v: &Value) -> Result<UpPart, ReadFault>
    ensures { Gives is_memory result (create_part place (view v.now)) }
{
    if !has_only(v, Kind::CreatePart) {
        return Err(ReadFault::Shape { place });
    }
    let context = context_at(place, v.get("context"))?;
    let parent = context_at(place, v.get("parent"))?;
    Ok(UpPart::Create { context, parent })
}

// The one context that a part names.
#[tactic(auto, unfolding(crate::specs::Reading::context_part))]
fn context_part(place: u32, v: &Value) -> Result<ContextId, ReadFault>
    ensures { Gives is_memory result (context_part place (view v.now)) }
{
    if !has_only(v, Kind::ContextPart) {
        return Err(ReadFault::Shape { place });
    }
    context_at(place, v.get("context"))
}

#[tactic(auto, unfolding(crate::specs::Reading::drop_part))]
fn drop_part(place: u32, v: &Value) -> Result<UpPart, ReadFault>
    ensures { Gives is_memory result (drop_part place (view v.now)) }
{
    let context = context_part(place, v)?;
    Ok(UpPart::Drop { context })
}

#[tactic(auto, unfolding(crate::specs::Reading::ack_part))]
fn ack_part(place: u32, v: &Value) -> Result<UpPart, ReadFault>
    ensures { Gives is_memory result (ack_part place (view v.now)) }
{
    let context = context_part(place, v)?;
    Ok(UpPart::DropAck { context })
}
