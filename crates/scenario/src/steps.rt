ghost use Rattle.std.specs.Prelude.{◌≤◌, Ok};
ghost use Rattle.serde_json.specs.View.{view, items_view};
ghost use Rattle.fission_ids.specs.Gives.{Gives};
ghost use Rattle.scenario.specs.Faults.{is_memory};
ghost use Rattle.scenario.specs.Members.{data_found};
ghost use Rattle.scenario.specs.Reading.{lines_of, line_of, set_line, take_line, hear_line, kill_line};
ghost use Rattle.scenario.specs.Reading.{settle_line, write_of, actor_of};
ghost use Rattle.scenario.specs.Reading.{show_line, show_side, show_one};

use crate::fault::ReadFault;
use crate::fields::{context_at, field_of, transaction_of};
use crate::groups::{subscribe_line, tab_line};
use crate::line::{Actor, Line, Show};
use crate::members::{Kind, has_only, is_text};
use crate::processes::process_of;
use crate::raw::raw_line;
use crate::trees::{discard_line, drop_line, frame_line};
use fission_ids::{ContextId, Kept, Seq};
use journal::Step;
use serde_json::Value;
use std::alloc::Global;
use transaction::Transaction;
use wire_msgs::{Action, ParentAction};

const MAX_STEPS: u32 = 20_000;

/// The steps, of which there are at most 20,000.
pub fn lines_of(alloc: Global, count: u8, values: &[Value]) -> Result<Seq<Line>, ReadFault>
    requires { count ≤ 16 }
    ensures { Gives is_memory result (lines_of 1 count (items_view values.now)) }
{
    let mut lines = Seq::new(alloc);
    let mut place = 1;
    for v in values {
        if place > MAX_STEPS {
            return Err(ReadFault::Shape {
                place: MAX_STEPS + 1,
            });
        }
        lines.push(line_of(alloc, place, count, v)?)?;
        place += 1;
    }
    Ok(lines)
}

#[tactic(auto, unfolding(crate::specs::Reading::line_of))]
fn line_of(alloc: Global, place: u32, count: u8, v: &Value) -> Result<Line, ReadFault>
    ensures { Gives is_memory result (line_of place count (view v.now)) }
{
    if is_text(v.get("do"), "set") {
        set_line(alloc, place, count, v)
    } else if is_text(v.get("do"), "take") {
        take_line(place, count, v)
    } else if is_text(v.get("do"), "hear") {
        hear_line(place, count, v)
    } else if is_text(v.get("do"), "frame") {
        frame_line(place, count, v)
    } else if is_text(v.get("do"), "drop") {
        drop_line(place, count, v)
    } else if is_text(v.get("do"), "discard") {
        discard_line(place, v)
    } else if is_text(v.get("do"), "tab") {
        tab_line(place, count, v)
    } else if is_text(v.get("do"), "subscribe") {
        subscribe_line(place, count, v)
    } else if is_text(v.get("do"), "kill") {
        kill_line(place, count, v)
    } else if is_text(v.get("do"), "raw") {
        raw_line(alloc, place, count, v)
    } else if is_text(v.get("do"), "settle") {
        settle_line(place, v)
    } else if is_text(v.get("do"), "show") {
        show_line(place, count, v)
    } else {
        Err(ReadFault::Shape { place })
    }
}

#[tactic(auto, unfolding(crate::specs::Reading::set_line))]
fn set_line(alloc: Global, place: u32, count: u8, v: &Value) -> Result<Line, ReadFault>
    ensures { Gives is_memory result (set_line place count (view v.now)) }
{
    if !has_only(v, Kind::Set) {
        return Err(ReadFault::Shape { place });
    }
    let who = actor_of(place, count, v.get("at"))?;
    let context = context_at(place, v.get("context"))?;
    let fields = transaction_of(alloc, place, v.get("fields"))?;
    let step = write_of(alloc, who, context, fields)?;
    Ok(Line::Step(step))
}

// What one side does that writes fields.
fn write_of(
    alloc: Global,
    who: Actor,
    context: ContextId,
    fields: Transaction,
) -> Result<Step, ReadFault>
    ensures { Gives is_memory result (Ok (write_of who context fields)) }
{
    let fields = Kept::of(alloc, fields)?;
    Ok(match who {
        Actor::Parent => Step::ParentAct {
            action: ParentAction::Set { context, fields },
        },
        Actor::Process(p) => Step::Act {
            p,
            action: Action::Set { context, fields },
        },
    })
}

#[tactic(auto, unfolding(crate::specs::Reading::take_line))]
fn take_line(place: u32, count: u8, v: &Value) -> Result<Line, ReadFault>
    ensures { Gives is_memory result (take_line place count (view v.now)) }
{
    if !has_only(v, Kind::Take) {
        return Err(ReadFault::Shape { place });
    }
    let p = process_of(place, count, v.get("at"))?;
    Ok(Line::Step(Step::Take { p }))
}

#[tactic(auto, unfolding(crate::specs::Reading::hear_line))]
fn hear_line(place: u32, count: u8, v: &Value) -> Result<Line, ReadFault>
    ensures { Gives is_memory result (hear_line place count (view v.now)) }
{
    if !has_only(v, Kind::Hear) {
        return Err(ReadFault::Shape { place });
    }
    if !is_text(v.get("at"), "parent") {
        return Err(ReadFault::Shape { place });
    }
    let p = process_of(place, count, v.get("from"))?;
    Ok(Line::Step(Step::Hear { p }))
}

#[tactic(auto, unfolding(crate::specs::Reading::kill_line))]
fn kill_line(place: u32, count: u8, v: &Value) -> Result<Line, ReadFault>
    ensures { Gives is_memory result (kill_line place count (view v.now)) }
{
    if !has_only(v, Kind::Kill) {
        return Err(ReadFault::Shape { place });
    }
    if !is_text(v.get("at"), "parent") {
        return Err(ReadFault::Shape { place });
    }
    let process = process_of(place, count, v.get("process"))?;
    let action = ParentAction::Kill { process };
    Ok(Line::Step(Step::ParentAct { action }))
}

#[tactic(auto, unfolding(crate::specs::Reading::settle_line))]
fn settle_line(place: u32, v: &Value) -> Result<Line, ReadFault>
    ensures { Gives is_memory result (settle_line place (view v.now)) }
{
    if !has_only(v, Kind::Settle) {
        return Err(ReadFault::Shape { place });
    }
    Ok(Line::Settle)
}

#[tactic(auto, unfolding(crate::specs::Reading::show_line))]
fn show_line(place: u32, count: u8, v: &Value) -> Result<Line, ReadFault>
    ensures { Gives is_memory result (show_line place count (view v.now)) }
{
    if has_only(v, Kind::ShowAll) {
        Ok(Line::Show(Show::All))
    } else if has_only(v, Kind::ShowSide) {
        show_side(place, count, v)
    } else {
        show_one(place, count, v)
    }
}

#[tactic(auto, unfolding(crate::specs::Reading::show_side))]
fn show_side(place: u32, count: u8, v: &Value) -> Result<Line, ReadFault>
    ensures { Gives is_memory result (show_side place count (view v.now)) }
{
    let who = actor_of(place, count, v.get("at"))?;
    Ok(Line::Show(Show::Side { who }))
}

#[tactic(auto, unfolding(crate::specs::Reading::show_one))]
fn show_one(place: u32, count: u8, v: &Value) -> Result<Line, ReadFault>
    ensures { Gives is_memory result (show_one place count (view v.now)) }
{
    if !has_only(v, Kind::ShowOne) {
        return Err(ReadFault::Shape { place });
    }
    let who = actor_of(place, count, v.get("at"))?;
    let context = context_at(place, v.get("context"))?;
    let field = field_of(place, v.get("field"))?;
    Ok(Line::Show(Show::One {
        who,
        context,
        field,
    }))
}

// The parent, or the number of a process.
#[tactic(auto, unfolding(crate::specs::Reading::actor_of))]
fn actor_of(place: u32, count: u8, found: Option<&Value>) -> Result<Actor, ReadFault>
    ensures { Gives is_memory result (actor_of place count (data_found found.entry)) }
{
    if is_text(found, "parent") {
        return Ok(Actor::Parent);
    }
    let p = process_of(place, count, found)?;
    Ok(Actor::Process(p))
}
